//! How faults are made: from want of memory, and from a failed call, which is counted.

ghost use Rattle.std.specs.Prelude.{◌≡◌, ◌<◌, ◌≤◌};
ghost use Rattle.fab_desk.specs.Memory.{desk_failure, one_more, sink_failure};
ghost use Rattle.fab_desk.specs.declared.outside.DeskFault.TheVariants as desk_faults;
ghost use Rattle.fab_desk.specs.declared.outside.SinkFault.TheVariants as sink_faults;

use crate::outside::{DeskFault, SinkFault};
use std::alloc::{AllocError, AllocFailed};

impl From<AllocError> for DeskFault {
    ghost from_gives = { λ _ fault. fault ≡ desk_faults.Memory };

    fn from(_: AllocError) -> DeskFault {
        DeskFault::Memory
    }
}

impl<T: Drop> From<AllocFailed<T>> for DeskFault {
    ghost from_gives = { λ _ fault. fault ≡ desk_faults.Memory };

    fn from(_: AllocFailed<T>) -> DeskFault {
        DeskFault::Memory
    }
}

impl From<AllocError> for SinkFault {
    ghost from_gives = { λ _ fault. fault ≡ sink_faults.Memory };

    fn from(_: AllocError) -> SinkFault {
        SinkFault::Memory
    }
}

impl DeskFault {
    /// Counts a failed call, and answers its fault. At the ceiling of the count, which no run reaches, that is `Memory`,
    /// so that `Failed` always says that the count rose.
    pub(crate) fn counted(count: &mut u64) -> DeskFault
        ensures count { count.new ≡ one_more count.old }
        ensures rises { count.old ≤ count.new }
        ensures failed { result ≡ DeskFault.Failed → count.old < count.new }
        ensures fault { result ≡ desk_failure count.old }
    {
        match count.checked_add(1) {
            Some(next) => {
                *count = next;
                DeskFault::Failed
            }
            None => DeskFault::Memory,
        }
    }
}

impl SinkFault {
    /// Counts a failed call, and answers its fault, as `DeskFault::counted` does.
    pub(crate) fn counted(count: &mut u64) -> SinkFault
        ensures count { count.new ≡ one_more count.old }
        ensures rises { count.old ≤ count.new }
        ensures failed { result ≡ SinkFault.Failed → count.old < count.new }
        ensures fault { result ≡ sink_failure count.old }
    {
        match count.checked_add(1) {
            Some(next) => {
                *count = next;
                SinkFault::Failed
            }
            None => SinkFault::Memory,
        }
    }
}
