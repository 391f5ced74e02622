//! The lines of BLIF: the bytes of a file become a list of models, and every refusal that is judged line by line is made
//! here. What is judged after the last line is left to the crate that makes a netlist of the models.
#![tactic(auto)]

mod bodies;
mod context;
mod cover;
mod judging;
mod model;
mod reader;
mod words;

pub use model::{Body, Model, Statement};
pub use reader::read_models;
