//! A design mapped onto a fabric: placed, and its nets routed.
#![tactic(auto)]

mod mapping;
mod names;
mod reports;
mod trees;

pub use mapping::{map, map_with_progress};
