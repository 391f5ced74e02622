//! What ends a program early.

use fab_base::{Fault, Memory};
use fab_desk::SinkFault;
use std::alloc::{AllocError, AllocFailed};
use std::num::ParseIntError;
use std::str::Utf8Error;

/// Why a program ended before its work was done.
#[derive(Debug, Drop)]
pub enum Stop {
    /// A file is not there or not as it should be, or memory was refused.
    Fault(Fault),
    /// A text is not UTF-8.
    Text,
    /// A file of the program, or what is made of it, is not as the program expects it.
    Data,
    /// Nothing could be printed.
    Print(SinkFault),
}

impl From<Fault> for Stop {
    fn from(fault: Fault) -> Stop {
        Stop::Fault(fault)
    }
}

impl From<SinkFault> for Stop {
    fn from(fault: SinkFault) -> Stop {
        Stop::Print(fault)
    }
}

impl From<Utf8Error> for Stop {
    fn from(_: Utf8Error) -> Stop {
        Stop::Text
    }
}

impl From<ParseIntError> for Stop {
    fn from(_: ParseIntError) -> Stop {
        Stop::Data
    }
}

impl From<Memory> for Stop {
    fn from(_: Memory) -> Stop {
        Stop::Fault(Fault::Memory)
    }
}

impl From<AllocError> for Stop {
    fn from(_: AllocError) -> Stop {
        Stop::Fault(Fault::Memory)
    }
}

impl<T: Drop> From<AllocFailed<T>> for Stop {
    fn from(_: AllocFailed<T>) -> Stop {
        Stop::Fault(Fault::Memory)
    }
}
