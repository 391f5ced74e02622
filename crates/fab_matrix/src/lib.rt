//! The switch matrix of a tile, or of a list of pairs, as a Verilog module.
#![tactic(auto)]

mod expressions;
mod grouping;
mod listed;
mod numbers;

pub use listed::list_module;
pub use numbers::matrix_module;
