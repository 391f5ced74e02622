//! Passes over points that are not known yet, which lead up to their least ternary values, and how what comes to be known spreads between two passes.
#![tactic(auto)]

mod passes;
mod run_values;
mod scene;
mod spreading;
mod within;

pub use passes::{settle, settle_by};
