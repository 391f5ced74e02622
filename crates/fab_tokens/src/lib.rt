//! The tokens of a Verilog text in fab's profile, and how its bytes are cut into them.
#![tactic(auto)]

mod laws;
mod literal;
mod scanner;
mod token;
mod word;

pub use laws::{spelled_tokens_are_told, tokens_are_one};
pub use scanner::{Scan, Step, finish, take_byte};
pub use token::{Keyword, Token};
