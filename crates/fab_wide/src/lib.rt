//! Covers of more than four inputs become covers of at most four, which fit a look-up table.
#![tactic(auto)]

ghost use Rattle.fab_wide.specs.Laws.{SplitKeepsNarrow, SplitKeepsOrder, SplitKeepsRuns, SplitShowsRuns};

mod marks;
mod narrowing;
mod netlists;
mod words;

pub use netlists::split;

/// A split netlist runs as the netlist does, with and without a reset port.
pub fn split_keeps_runs()
    ensures { SplitKeepsRuns }
{}

/// Each run of a split netlist gives the nets of the netlist what each run of that gives them.
pub fn split_shows_runs()
    ensures { SplitShowsRuns }
{}

/// Where covers are split, no cycle arises.
pub fn split_keeps_order()
    ensures { SplitKeepsOrder }
{}

/// A netlist without wide covers stays as it is.
pub fn split_keeps_narrow()
    ensures { SplitKeepsNarrow }
{}
