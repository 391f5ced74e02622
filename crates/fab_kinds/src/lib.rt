//! The three kinds of BELs (basic elements of logic) of the fabric: their pins, their configuration bits and their functions.
#![tactic(auto)]

mod kind;
mod laws;
mod lut;
mod mux;

pub use fab_bits;
pub use kind::Kind;
pub use laws::{mux_has_its_table, pin_names_differ};
