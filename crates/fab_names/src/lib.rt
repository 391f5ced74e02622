//! Names of wires whose counts have no bound. A bit is called by the name of its row and its number; two rows share a name
//! where the first name of one is a name of the other, so no name has to be written out.
#![tactic(auto)]

mod below;
mod family;
mod family_set;
mod names;
mod places;

pub use family::Family;
pub use names::Names;
