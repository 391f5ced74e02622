//! BLIF files become netlists: the models of a file are flattened into the netlist of the first one, and its nets and clocks
//! are judged.
#![tactic(auto)]

mod clocks;
mod design;
mod flattening;
mod judge;
mod laws;
mod model_copy;
mod net;
mod parts;
mod reading;
mod tables;
mod walk;

pub use clocks::{ClockFault, WrongClock};
pub use design::Use;
pub use flattening::flatten;
pub use laws::{blif_is_refused_once, refused_blif_has_no_netlist};
pub use reading::{read_blif, read_wide};
