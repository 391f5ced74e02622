//! Pairs of numbers, of which those that go on by one step are printed as the first and the last.

use crate::shown::put_number;
use fab_base::Memory;

/// Pairs of numbers that go on by one step.
#[derive(Clone, Copy)]
struct Run {
    first: (u32, u32),
    last: (u32, u32),
    step: (i64, i64),
}

fn step(from: (u32, u32), to: (u32, u32)) -> (i64, i64) {
    (
        i64::from(to.0) - i64::from(from.0),
        i64::from(to.1) - i64::from(from.1),
    )
}

/// Whether a step changes some number, and none by more than 1: then the first and the last of a run tell those between them.
fn is_short(step: (i64, i64)) -> bool {
    let near = -1..=1;
    near.contains(&step.0) && near.contains(&step.1) && step != (0, 0)
}

impl Run {
    fn of(only: (u32, u32)) -> Run {
        Run {
            first: only,
            last: only,
            step: (0, 0),
        }
    }

    /// The run with one more, where it goes on so.
    fn with(&self, next: (u32, u32)) -> Option<Run> {
        let by = step(self.last, next);
        let goes_on = self.first == self.last || by == self.step;
        if !is_short(by) || !goes_on {
            return None;
        }
        Some(Run {
            first: self.first,
            last: next,
            step: by,
        })
    }

    /// Two of a run are printed as two, more as the first and the last.
    fn put(&self, out: &mut Vec<u8>, sign: u8) -> Result<(), Memory> {
        out.push(b' ')?;
        put_two(out, self.first, sign)?;
        if self.first == self.last {
            return Ok(());
        }
        let between = if step(self.first, self.last) == self.step {
            b" ".as_slice()
        } else {
            b"..".as_slice()
        };
        out.extend_from_slice(between)?;
        put_two(out, self.last, sign)
    }
}

fn put_two(out: &mut Vec<u8>, two: (u32, u32), sign: u8) -> Result<(), Memory> {
    put_number(out, u64::from(two.0))?;
    out.push(sign)?;
    put_number(out, u64::from(two.1))
}

/// Puts pairs of numbers with a sign between them, behind a blank each.
pub fn put_runs(out: &mut Vec<u8>, pairs: &[(u32, u32)], sign: u8) -> Result<(), Memory> {
    let mut open: Option<Run> = None;
    for pair in pairs {
        let Some(run) = open else {
            open = Some(Run::of(*pair));
            continue;
        };
        open = match run.with(*pair) {
            Some(longer) => Some(longer),
            None => {
                run.put(out, sign)?;
                Some(Run::of(*pair))
            }
        };
    }
    match open {
        Some(run) => run.put(out, sign),
        None => Ok(()),
    }
}
