//! Where steps are told.

use crate::step::Step;

/// A place where a command tells what it does. It answers nothing, so nothing that a command does depends on it, and a place
/// that cannot take a step passes it over.
pub trait Progress {
    /// Tells a step: of reading, beginning again, loading and writing before it is taken, and of the others when it is done.
    fn tell(&mut self, step: Step<'_>);
}

/// A place that takes no step.
#[derive(Clone, Copy, Debug)]
pub struct Silent;

impl Progress for Silent {
    fn tell(&mut self, _step: Step<'_>) {}
}
