//! Words that a generator draws from a seed, one after the other.
#![tactic(auto)]

mod draws;
mod shuffle;

pub use draws::{draw_below, draw_bit};
pub use shuffle::shuffle_order;
