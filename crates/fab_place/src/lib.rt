//! Placements of a design on a fabric.
#![tactic(auto)]

mod board;
mod bounding;
mod constraints;
mod costing;
mod implementation;
mod nets;
mod pins;
mod placing;
mod sites;
mod start;

pub use costing::cost;
pub use implementation::implementation_of;
pub use nets::{Pin, nets_of};
pub use pins::pins_of;
pub use placing::{place, place_with_progress};
pub use sites::sites_of_kind;
