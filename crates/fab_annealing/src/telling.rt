//! What is told of a placement on the way.

use crate::placement::Placement;
use fab_progress::{Progress, Step};

/// Tells of every fourth step of the annealing how far the placement has come.
pub(crate) fn tell_step<P: Progress>(progress: &mut P, placement: &Placement, done: u32, all: u32) {
    if done % 4 == 0 {
        let cost = placement.cost();
        progress.tell(Step::Placing { done, all, cost });
    }
}
