//! What is wrong with a line, before its file and number are known.

ghost use Rattle.std.specs.Prelude.{◌≡◌};
ghost use Rattle.fab_base.specs.Reading.{fault_at, IsFaultOr};
ghost use Rattle.fab_base.specs.declared.problem.Problem.TheVariants as problems;

use crate::fault::{Fault, Place};
use crate::memory::Memory;
use crate::name::Name;
use crate::words::{Quantity, Reason};
use std::alloc::{AllocError, AllocFailed, Global};

/// Why a reader does not take a line. It becomes a fault with the line's place.
#[derive(Debug, Drop)]
pub enum Problem {
    /// The line is malformed.
    Malformed(Reason),
    /// The line holds a construct that fab does not support.
    Unsupported(Name),
    /// A quantity, here with its value, is above its bound.
    Limit(Quantity, u64, u64),
    /// An allocation was refused.
    Memory,
}

impl From<Memory> for Problem {
    ghost from_gives = { λ _ problem. problem ≡ problems.Memory };

    fn from(_: Memory) -> Problem {
        Problem::Memory
    }
}

impl From<AllocError> for Problem {
    ghost from_gives = { λ _ problem. problem ≡ problems.Memory };

    fn from(_: AllocError) -> Problem {
        Problem::Memory
    }
}

impl<T: Drop> From<AllocFailed<T>> for Problem {
    ghost from_gives = { λ _ problem. problem ≡ problems.Memory };

    fn from(_: AllocFailed<T>) -> Problem {
        Problem::Memory
    }
}

impl Problem {
    /// The fault of a line of a file; want of memory where there is none for the file's name.
    pub fn at(self, alloc: Global, file: &Name, line: u32) -> Fault
        ensures { IsFaultOr result (fault_at file.now line self) }
    {
        let Ok(file) = file.copy(alloc) else {
            return Fault::Memory;
        };
        let place = Place { file, line };
        match self {
            Problem::Malformed(reason) => Fault::Malformed(place, reason),
            Problem::Unsupported(construct) => Fault::Unsupported(place, construct),
            Problem::Limit(quantity, value, bound) => Fault::Limit(place, quantity, value, bound),
            Problem::Memory => Fault::Memory,
        }
    }
}
