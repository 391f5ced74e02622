//! What every crate of fab speaks of: names, places in files, and the faults that end a command.
#![tactic(auto)]

mod fault;
mod memory;
mod name;
mod problem;
mod words;

pub use fault::{Fault, Place, SiteKind, Status};
pub use memory::Memory;
pub use name::Name;
pub use problem::Problem;
pub use words::{Quantity, Reason};

/// The longest file that is read: 64 MiB.
pub const MAX_FILE_BYTES: usize = 67_108_864;
