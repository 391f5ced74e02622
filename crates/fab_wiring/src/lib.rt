//! The network of a text: what each of its points shows, over its expressions, each compiled once.
#![tactic(auto)]

mod clocks;
pub mod laws;
mod trees;
mod wiring;

pub use wiring::network_of;
