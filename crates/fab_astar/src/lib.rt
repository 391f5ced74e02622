//! Walks of least price in a graph.
#![tactic(auto)]

mod explore;
mod field;
mod queue;
mod tables;
mod walks;

pub use field::Field;
pub use tables::Tables;
pub use walks::least_walk;
