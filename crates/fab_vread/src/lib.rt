//! The reader of Verilog texts in fab's profile.
#![tactic(auto)]

mod expressions;
mod laws;
mod levels;
mod parser;
mod places;
mod progress;
mod reader;
mod words;

pub use laws::{lexemes_are_tokens, refusals_are_one, spelled_texts_are_printable};
pub use reader::{Reader, read};
