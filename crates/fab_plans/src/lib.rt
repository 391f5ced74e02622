//! When all bits of an expression are found together, and not each alone.
#![tactic(auto)]

mod plans;

pub use plans::{Plan, are_found_together, looks_before_all};
