//! The bitstream of some columns of a fabric, and whether an implementation uses these columns: if it does not, their content may be
//! exchanged while the design runs.
#![tactic(auto)]

mod columns;
mod uses;

pub use columns::partial;
pub use uses::{Use, used};
