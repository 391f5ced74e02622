//! The equations of a text over compiled expressions: what a point shows, where it leads, and tables of what it shows.
#![tactic(auto)]

mod forms;
mod inputs;
mod leading;
mod network;
mod sharing;
mod tables;

pub use forms::{Form, forms_of, shown_by_form};
pub use leading::{lead_of_source, part_of_source};
pub use network::{Clock, Drive, Network, Source, evaluate, shown, shown_meanwhile};
pub use sharing::{KeptValues, Shared};
pub use tables::{Inputs, Table};
