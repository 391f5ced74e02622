//! What comes of a sample.

use fab_base::Fault;

/// What comes of the design of a sample.
#[derive(Debug, Drop)]
pub enum Outcome {
    /// It is mapped, and its trace is that of its netlist: what its placement costs, and how many edges its nets have.
    Mapped(u64, u64),
    /// A net is cut off, or wires stay shared.
    Unmapped(Fault),
}
