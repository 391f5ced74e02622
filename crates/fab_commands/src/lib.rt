//! Commands, from the job that words spell to what is stored and reported: what a call does and answers.
#![tactic(auto)]

mod running;

pub use running::run;
