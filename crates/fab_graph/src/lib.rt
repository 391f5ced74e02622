//! The wires of a fabric as a graph: where the edges of a wire lead, and which wires are reached.
#![tactic(auto)]

mod bound;
mod graph;
mod outputs;
mod reaching;
mod scans;

pub use bound::{Bound, distance};
pub use graph::{Ends, Graph};
pub use reaching::{reach, reach_in};
pub use scans::{predecessors, successors};
