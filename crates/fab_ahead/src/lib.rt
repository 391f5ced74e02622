//! Points that a search asks for ahead, without a look between: the rest of a name of many bits, one of which a waiting point needs.
#![tactic(auto)]

mod lists;
mod looks;
mod names;
mod rows;

pub use names::end_of_rest;
pub use rows::{Next, Rows, is_unmarked};
