//! Values of all nodes of an expression, kept while points come to be known one by one.
#![tactic(auto)]

mod dueness;
mod filling;
mod layout;
mod operands;
mod paths;
mod pointwise;
mod renewing;
mod values;

pub use values::NodeValues;
