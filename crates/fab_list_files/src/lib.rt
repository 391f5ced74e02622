//! Switch lists as files: INCLUDE rows stand for the rows of other files, which a desk hands out.
#![tactic(auto)]

mod crowd;
mod laws;
mod listing;
mod matrix_pairs;
mod pair_set;
mod pairs;

pub use crowd::MOST_INPUTS;
pub use laws::{
    listed_names_are_wire_names, lists_are_spelled_once, spelled_lists_are_not_refused,
};
pub use listing::{ListState, MOST_OPEN, read_list_file};
pub use pair_set::PairSet;
pub use pairs::read_pairs;
