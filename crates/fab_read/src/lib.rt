//! Fabrics as files: a fabric file with all that it names, which a desk hands out.
#![tactic(auto)]

mod fabric;
mod grid;
mod laws;
mod matrix;
mod rows;
mod table;
mod tile;
mod tile_pairs;

pub use fab_list_files::read_pairs;
pub use fabric::read_fabric;
pub use laws::{fabrics_are_spelled_once, spelled_fabrics_are_not_refused};
