//! The longest timed walk of a design on a fabric: how long a signal is under way at most, and by which wires.
#![tactic(auto)]

mod ends;
mod search;
mod steps;
mod text;
mod timing;
mod trace;

pub use text::print_timing;
pub use timing::{Path, arrivals, longest};
