//! The tree of a Verilog text in fab's profile, and its printed spelling.
#![tactic(auto)]

mod printer;
mod tree;
mod word;

pub use printer::print;
pub use tree::{Expr, Item, Join, Module, Op, Port, Shape, Text};
pub use word::Word;
