//! The files of a design, which a desk hands out: its fabric, its netlist and the constraints of its ports, and an
//! implementation of it.
#![tactic(auto)]

mod constraints;
mod design;
mod implementation;
mod laws;
mod netlist;

pub use design::{Design, read_design};
pub use implementation::read_implementation;
pub use laws::{
    data_ports_are_packed, designs_are_spelled_once, implementations_are_spelled_once,
    spelled_designs_are_not_refused, spelled_implementations_are_not_refused,
};
