//! The bits of all names of an instance, and the value of an expression over them.
#![tactic(auto)]

mod evaluation;
pub mod laws;
mod names;
mod values;

pub use evaluation::eval;
pub use names::{Local, Names, Role, bits_of_shape};
pub use values::Values;
