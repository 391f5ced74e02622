//! What a command stores, and why it ends otherwise.
#![tactic(auto)]

mod storing;

pub use storing::{Output, one_output, put_output, store_all};
