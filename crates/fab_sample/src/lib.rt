//! Samples: the files of a fabric, of a design and of a stimulus for it, all told by a size and a seed.
#![tactic(auto)]

mod design;
mod fabric;
mod file;
mod lines;
mod lists;
mod net;
mod netlist;
mod sample;
mod side;
mod stimulus;

pub use file::File;
pub use sample::{Sample, make};
