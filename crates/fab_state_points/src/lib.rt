//! The points of a text on which the lines of a state stand, or why a line stands nowhere.
#![tactic(auto)]

mod entry;
mod finding;
mod names;
mod points;

pub use entry::Entry;
pub use finding::point_of;
pub use points::{DataPoints, StatePoints, Stream, state_points};
