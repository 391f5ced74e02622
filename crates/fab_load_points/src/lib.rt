//! Which points of a text loading sets.
#![tactic(auto)]

mod causes;
mod flops;
mod known;
mod points;
mod search;
mod stream;

pub use points::loading_points;
