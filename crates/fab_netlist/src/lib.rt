//! The netlist of a design after reading and flattening: what it means, one cycle of it, cycles of covers, and packing.
#![tactic(auto)]

ghost use Rattle.fab_netlist.specs.Cycles.{RankMeansNoCycle};
ghost use Rattle.fab_netlist.specs.Meaning.{AcyclicMeansOne, AcyclicMeansOneRun};
ghost use Rattle.fab_netlist.specs.Packing.{PackingKeepsMeaning};

mod cycle;
mod keeping;
mod net_id;
mod netlist;
mod packing;
mod refusal;
mod survey;
mod walk;
mod wide;

pub use cycle::step;
pub use keeping::kept;
pub use net_id::NetId;
pub use netlist::{Cover, Latch, MAX_NETS, Netlist};
pub use packing::{Cell, Packed, pack};
pub use refusal::check_acyclic;
pub use wide::{Cube, WideCover, WideNetlist, check_acyclic_wide};

/// Covers have a rank exactly where no list of them is a cycle.
pub fn rank_means_no_cycle()
    ensures { RankMeansNoCycle }
{}

/// Without a cycle of covers, each vector of inputs and held values has exactly one assignment of nets.
pub fn one_meaning()
    ensures { AcyclicMeansOne }
{}

/// Without a cycle of covers, held values and a list of input vectors have exactly one run.
pub fn one_run()
    ensures { AcyclicMeansOneRun }
{}

/// The packed netlist of a netlist without a cycle of covers carries values of its own, and no others, and by them it shows
/// at each output, and in what each latch takes next, what the netlist does.
pub fn packing_keeps_meaning()
    ensures { PackingKeepsMeaning }
{}
