//! Which points read a point, and which runs of points of wide expressions do, so that what comes to be known is followed and nothing else is looked at.
#![tactic(auto)]

mod readers;
mod reads;
mod runs;

pub use readers::Readers;
pub use runs::{Run, Runs};
