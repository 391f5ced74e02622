//! Legal implementations: the nine rules, which of them an implementation breaks first and with what, the check of them all, and
//! the sinks that the nets of a design have to reach.
#![tactic(auto)]

mod broken;
mod laws;
mod legal;
mod lines;
mod nets;
mod placed;
mod ports;
mod reach;
mod shared;
mod sinks;
mod standing;
mod steps;
mod texts;
mod tiles;
mod trees;

pub use broken::{Broken, CheckFault};
pub use fab_implementation::{Fixed, Implementation, Tree};
pub use laws::{broken_is_not_legal, packed_is_well_made, sinks_are_required};
pub use legal::{Legal, check};
pub use sinks::required;
pub use texts::wire_text;
pub use tiles::{constant_at, find_pin};
