//! Placements and routes on a fabric: definitions, and what follows from them.
#![tactic(auto)]

mod laws;

pub use laws::{
    ends_are_steps, ends_are_there, least_bounds_walks, least_is_consistent, mapping_is_legal,
    origins_are_steps, place_is, unshared_is_legal,
};
