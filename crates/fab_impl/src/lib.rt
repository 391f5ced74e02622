//! The texts of a design on a fabric: implementations, and with them what `fab_state` reads and prints, states and pad constraints.
#![tactic(auto)]

mod entries;
mod input_pads;
mod kind;
mod laws;
mod names;
mod opening;
mod reader;
mod writer;

pub use fab_state::{State, print_state, read_pcf, read_state};
pub use fab_texts::entry_line;
pub use laws::spelled_implementations_are_read;
pub use reader::read_impl;
pub use writer::print_impl;
