//! The pairs of a switch matrix, and how its outputs select their inputs.
#![tactic(auto)]

mod pair;

pub use pair::Pair;
