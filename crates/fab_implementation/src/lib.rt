//! Implementations: on which sites of a fabric the cells and ports of a packed design stand, and by which wires its nets go.
#![tactic(auto)]

mod implementation;

pub use fab_fabric;
pub use fab_fabric::fab_model;
pub use fab_netlist;
pub use implementation::{Fixed, Implementation, Tree};
