//! Files that commands ask for, one after the other: which are handed out, what a reader comes upon before anything is
//! refused.
#![tactic(auto)]

mod fetching;

pub use fetching::{fetch, fetch_if_there};
