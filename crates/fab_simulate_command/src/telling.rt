//! Cycles that are told.

use fab_progress::{Progress, Step};

/// How many cycles lie between two that are told.
const TOLD_CYCLES: usize = 1000;

/// Tells of a cycle that is done, counted from 1, where it is a thousandth or the last of all.
pub fn tell_cycle<P: Progress>(progress: &mut P, cycle: usize, cycles: usize) {
    if cycle % TOLD_CYCLES == 0 || cycle == cycles {
        progress.tell(Step::Simulating { cycle, cycles });
    }
}
