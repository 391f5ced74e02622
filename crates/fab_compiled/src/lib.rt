//! Ternary values of expressions whose names are places already: compiled once for all instances of a module, and evaluated bit by bit or as a whole.
#![tactic(auto)]

mod compiler;
mod evaluation;
mod indices;
pub mod laws;
mod leads;
mod marking;
mod operators;
mod parts;
mod picks;
mod reading;
mod tree;
mod view;
mod whole_values;

pub use compiler::{Compiled, compile};
pub use evaluation::{entry, eval};
pub use leads::{Lead, follow};
pub use operators::{differs, inverse, through};
pub use parts::{Part, part_of};
pub use tree::Tree;
pub use view::View;
pub use whole_values::{Pairing, invert, pair, pair_up, same_bits, subtract, whole_into};
