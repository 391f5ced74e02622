//! The primitives of the fabric as Verilog modules: one for each kind of BEL.
#![tactic(auto)]

mod build;
mod laws;
mod lut;
mod mux;
mod pad;
mod ports;
mod prim;

pub use build::{conditional, operation, push_assign, variable};
pub use laws::primitives_work;
pub use lut::Lut4c;
pub use mux::Mux8;
pub use pad::IoPad;
pub use prim::Prim;
