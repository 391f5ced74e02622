//! Ternary values: what is known of a Verilog text where only some of its points are known. `Operators` and `Values` have the ternary value of
//! an expression, beside the Boolean one of `fab_meaning`, and `Shown` what a driver gives its point. Each function does nothing: its contract
//! is a law.
#![tactic(auto)]

ghost use Rattle.fab_ternary_laws.specs.Laws.{AgreedEntries, ChainsPick, KnownDrivers, KnownValues};
ghost use Rattle.fab_ternary_laws.specs.Ranks.{KnownRanks};

/// The ternary value of an expression is its Boolean one, where all names that it mentions are known.
pub fn known_values()
    ensures { KnownValues }
{}

/// An entry of a table is known, where the entries that the known bits of the index allow are the same.
pub fn agreed_entries()
    ensures { AgreedEntries }
{}

/// A select chain over known select bits has the ternary value of the input that they pick, whatever the other inputs have.
pub fn chains_pick()
    ensures { ChainsPick }
{}

/// What a driver gives its point is known, and is what it gives by the Boolean meaning, where all points that it reads are known.
pub fn known_drivers()
    ensures { KnownDrivers }
{}

/// In every ternary solution a ranked set is known, where the given points are, and each point is where those are that it reads.
pub fn known_ranks<P>()
    ensures { KnownRanks P }
{}
