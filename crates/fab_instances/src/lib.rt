//! The models of a BLIF file and their instances: which models the first one uses, and what is judged of them before they are
//! flattened. These are the names of models, unknown and recursive ones, the words by which instances join nets to ports, and
//! the number of instances.
#![tactic(auto)]

mod counting;
mod faults;
mod formals;
mod names;
mod ranking;
mod ranks;
mod recursion;
mod refusals;
mod soonest;
mod uses;

pub use faults::malformed;
pub use formals::sides;
pub use names::place_of;
pub use refusals::index_models;
