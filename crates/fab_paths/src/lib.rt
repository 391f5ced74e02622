//! Names of files and their parts, and which file a path means that stands in another file.
#![tactic(auto)]

mod parts;
mod resolving;

pub use parts::stem;
pub use resolving::resolve;
