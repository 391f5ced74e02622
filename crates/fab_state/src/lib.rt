//! The texts of states, which bind ports to pads and flip-flops to values, and of pad constraints.
#![tactic(auto)]

mod constraints;
mod kind;
mod laws;
mod lines;
mod reader;
mod state;
mod writer;

pub use constraints::read_pcf;
pub use laws::spelled_texts_are_read;
pub use reader::read_state;
pub use state::State;
pub use writer::print_state;
