//! The simulator: a text with the pads and flip-flops of a state, to which words are loaded and which then runs cycle by cycle.
#![tactic(auto)]

mod forming;
mod machine;
mod making;
mod starting;
mod stepper;
mod stepping;

pub use fab_ordering_laws::simulations_exist;
pub use machine::Machine;
pub use stepper::Stepper;
