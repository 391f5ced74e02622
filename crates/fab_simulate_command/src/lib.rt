//! The command `simulate`: what a Verilog text shows where a bitstream is loaded, cycle by cycle.
#![tactic(auto)]

mod device;
mod ordered;
mod running;
mod simulating;
mod standing;
mod telling;

pub use simulating::do_simulate;
