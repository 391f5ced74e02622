//! The points that a simulation has to look at: all that is asked for, and what it needs, led as far as what is known decides it.
#![tactic(auto)]

mod copies;
mod cycles;
mod demand;
mod gates;
pub mod laws;
mod look;
mod others;
mod registers;
mod search;

pub use demand::Demand;
