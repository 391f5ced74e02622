//! The steps of a command.

use fab_base::Name;
use std::{fmt, str};

/// What a command does, or has just done.
#[derive(Clone, Copy)]
pub enum Step<'a> {
    /// It reads a file of its words, with all files that this one names.
    Reading(&'a Name),
    /// It places a design: so many of all steps of the annealing are done, and the placement has this cost.
    Placing { done: u32, all: u32, cost: u64 },
    /// It routes a design: this round, counted from 1, is done, and left so many inputs of switch matrices in the trees of
    /// several nets.
    Routing { round: u32, shared: usize },
    /// It begins again to place and route a design, with this seed. The last such step names the seed that answered; where there is
    /// none, the seed that was given did.
    Retrying { seed: u64 },
    /// It loads the words of a bitstream into a text.
    Loading,
    /// It simulates a text: this cycle of all, counted from 1, is done.
    Simulating { cycle: usize, cycles: usize },
    /// It writes a file.
    Writing(&'a Name),
}

impl Step<'_> {
    /// Whether the step is shown however short the command is: what it comes to depends on it.
    pub fn is_urgent(&self) -> bool {
        matches!(self, Step::Retrying { .. })
    }
}

/// A name as text; `?` where it is none.
fn text_of(name: &Name) -> &str {
    str::from_utf8(name.bytes()).unwrap_or("?")
}

impl fmt::Display for Step<'_> {
    fn fmt<W: fmt::Write>(&self, f: &mut fmt::Formatter<W>) -> fmt::Result {
        match *self {
            Step::Reading(name) => write!(f, "reading {}", text_of(name)),
            Step::Placing { done, all, cost } => {
                write!(f, "placing, step {done} of {all}, cost {cost}")
            }
            Step::Routing { round, shared } => {
                write!(f, "routing, round {round}, {shared} shared")
            }
            Step::Retrying { seed } => write!(f, "mapping again, seed {seed}"),
            Step::Loading => write!(f, "loading"),
            Step::Simulating { cycle, cycles } => write!(f, "cycle {cycle} of {cycles}"),
            Step::Writing(name) => write!(f, "writing {}", text_of(name)),
        }
    }
}

#[cfg(test)]
mod tests {
    use super::*;
    use std::test::Fail;

    #[test]
    fn steps_have_texts(rt: HostRuntime) -> Result<(), Fail> {
        let alloc = rt.alloc();
        let name = Name::of(alloc, b"a/b.csv")?;
        let table = [
            (Step::Reading(&name), "reading a/b.csv"),
            (
                Step::Placing {
                    done: 4,
                    all: 40,
                    cost: 120,
                },
                "placing, step 4 of 40, cost 120",
            ),
            (
                Step::Routing {
                    round: 1,
                    shared: 7,
                },
                "routing, round 1, 7 shared",
            ),
            (Step::Retrying { seed: 3 }, "mapping again, seed 3"),
            (Step::Loading, "loading"),
            (
                Step::Simulating {
                    cycle: 1000,
                    cycles: 2500,
                },
                "cycle 1000 of 2500",
            ),
            (Step::Writing(&name), "writing a/b.csv"),
        ];
        for (step, text) in table {
            let shown = format!(in alloc; "{step}")?;
            assert_eq!(rt; shown.as_str(), text);
        }
        Ok(())
    }
}
