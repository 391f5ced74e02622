//! The grammar of Verilog texts in fab's profile.
#![tactic(auto)]

mod laws;

pub use laws::{printed_texts_are_spelled, texts_are_one};
