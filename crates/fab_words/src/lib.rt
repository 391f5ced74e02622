//! The words of a command line: the forms that they may have, what clap gives of them, and the job that they spell.
#![tactic(auto)]

mod arguments;
mod forms;
mod job;
mod matching;
mod numbers;
mod words;

pub use job::Job;
pub use words::parse;
