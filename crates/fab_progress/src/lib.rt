//! What a command that takes long says of itself on the way.
#![tactic(auto)]

mod err_progress;
mod progress;
mod step;

pub use err_progress::{ErrProgress, is_asked_for};
pub use progress::{Progress, Silent};
pub use step::Step;
