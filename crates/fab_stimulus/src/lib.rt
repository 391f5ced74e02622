//! The texts of simulations: stimuli, which say what the input ports of a design are fed cycle by cycle, and traces of its outputs.
#![tactic(auto)]

mod laws;
mod lines;
mod reader;
mod stimulus;
mod trace;

pub use laws::spelled_stimuli_are_read;
pub use reader::read_stimulus;
pub use stimulus::Stimulus;
pub use trace::print_trace;
