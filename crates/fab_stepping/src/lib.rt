//! Points of a text that are activated one by one, by their numbers.
#![tactic(auto)]

mod activating;
mod board;
mod drawing;
mod known_bits;
mod solving;

pub use board::{Board, own_leads, take_over};
pub use drawing::draw_values;
