//! The loader of a fabric: a module that takes words of 32 bits and hands frame data to the rows of tiles.
#![tactic(auto)]

mod expressions;
mod loader;
mod names;

pub use loader::loader_module;
