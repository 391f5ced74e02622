//! Steps on standard error.

use crate::progress::Progress;
use crate::step::Step;
use std::alloc::Global;
use std::env;
use std::fmt::Write;
use std::io::Eprint;
use std::rt::{Clock, Env};
use std::time::{Duration, Instant};

/// Whether the environment asks for progress, by `FAB_PROGRESS=1`.
pub fn is_asked_for<R: Env + Alloc>(rt: &R) -> bool {
    match env::var(rt, "FAB_PROGRESS") {
        Ok(value) => value.as_str() == "1",
        Err(_) => false,
    }
}

/// Standard error. It shows each step as a line, once a second has passed since it was made: the lines of this second are
/// held back, and come with the first later one, or with one that is urgent.
///
/// It shows nothing where that is not wanted, or where the clock fails. A line that standard error does not take, or for
/// which there is no memory, is lost.
#[derive(Drop)]
pub struct ErrProgress<'a, R: Eprint + Clock> {
    rt: &'a R,
    // When it was made; none where it shows nothing.
    since: Option<Instant>,
    // The lines that are held back.
    held: String,
}

impl<'a, R: Eprint + Clock> ErrProgress<'a, R> {
    /// Standard error, which shows steps if that is wanted.
    pub fn new(alloc: Global, rt: &'a R, is_wanted: bool) -> ErrProgress<'a, R> {
        let since = if is_wanted {
            Instant::now(rt).ok()
        } else {
            None
        };
        let held = String::new(alloc);
        ErrProgress { rt, since, held }
    }

    /// Shows what is held back, and then the step.
    fn show(&mut self, step: Step<'_>) {
        if !self.held.is_empty() {
            let _ = eprint!(self.rt; "{}", self.held);
            self.held.clear();
        }
        let _ = eprintln!(self.rt; "fab: {step}");
    }
}

impl<R: Eprint + Clock> Progress for ErrProgress<'_, R> {
    fn tell(&mut self, step: Step<'_>) {
        let Some(since) = self.since else {
            return;
        };
        match since.elapsed(self.rt) {
            Ok(passed) if step.is_urgent() || passed >= Duration::from_secs(1) => self.show(step),
            Ok(_) => {
                let _ = writeln!(self.held, "fab: {step}");
            }
            Err(_) => {}
        }
    }
}

#[cfg(test)]
mod tests {
    use super::*;
    use fab_base::Name;
    use std::cell::Cell;
    use std::fmt::Display;
    use std::io::{self, ErrorKind};
    use std::test::Fail;

    /// A clock, and a standard error that counts what it is to take and takes nothing.
    #[derive(Drop)]
    struct Fake {
        seconds: Cell<u64>,
        pieces: Cell<u32>,
    }

    impl Clock for Fake {
        fn monotonic(&self) -> io::Result<Duration> {
            Ok(Duration::from_secs(self.seconds.get()))
        }

        fn since_1970(&self) -> io::Result<Duration> {
            Err(io::Error::from(ErrorKind::Unsupported))
        }
    }

    impl Eprint for Fake {
        fn eprint<D: Display + Drop>(&self, value: D) -> io::Result<()> {
            self.eprintln(value)
        }

        fn eprintln<D: Display + Drop>(&self, _value: D) -> io::Result<()> {
            self.pieces.set(self.pieces.get().saturating_add(1));
            Err(io::Error::from(ErrorKind::BrokenPipe))
        }
    }

    /// How many pieces come to standard error where these seconds pass before each step.
    fn pieces(alloc: Global, is_wanted: bool, seconds: [u64; 3], name: &Name) -> u32 {
        let fake = Fake {
            seconds: Cell::new(100),
            pieces: Cell::new(0),
        };
        let mut progress = ErrProgress::new(alloc, &fake, is_wanted);
        for passed in seconds {
            fake.seconds.set(fake.seconds.get().saturating_add(passed));
            progress.tell(Step::Reading(name));
        }
        fake.pieces.get()
    }

    #[test]
    fn shows_steps_after_a_second(rt: HostRuntime) -> Result<(), Fail> {
        let alloc = rt.alloc();
        let name = Name::of(alloc, b"list")?;
        assert_eq!(rt; pieces(alloc, true, [0, 0, 0], &name), 0);
        assert_eq!(rt; pieces(alloc, true, [0, 0, 1], &name), 2);
        assert_eq!(rt; pieces(alloc, true, [1, 0, 0], &name), 3);
        assert_eq!(rt; pieces(alloc, false, [1, 1, 1], &name), 0);
        Ok(())
    }

    #[test]
    fn shows_urgent_steps_at_once(rt: HostRuntime) -> Result<(), Fail> {
        let alloc = rt.alloc();
        let name = Name::of(alloc, b"list")?;
        let fake = Fake {
            seconds: Cell::new(100),
            pieces: Cell::new(0),
        };
        let mut progress = ErrProgress::new(alloc, &fake, true);
        progress.tell(Step::Reading(&name));
        assert_eq!(rt; fake.pieces.get(), 0);
        progress.tell(Step::Retrying { seed: 2 });
        assert_eq!(rt; fake.pieces.get(), 2);
        Ok(())
    }
}
