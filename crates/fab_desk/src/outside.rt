//! What fab asks of the world: files by their names, and a place for reports.

ghost use Rattle.std.specs.Prelude.{◌≡◌, ◌≢◌, ◌<◌, ◌≤◌, ℕ, List, Option, option_map, ◌++◌, IfOk, IfSome, OnOk, OnErr, vec_len, Err};
ghost use Rattle.std.specs.Option.{ForSome};
ghost use Rattle.fab_desk.specs.Files.{Map, with_file, Fetches, PutsPart};

use fab_base::MAX_FILE_BYTES;
use std::alloc::Global;
use thiserror::Error;

/// Why a desk did not do what it was asked.
#[derive(Clone, Copy, Debug, PartialEq, Eq, Error)]
pub enum DeskFault {
    /// The device failed.
    #[error("the device failed")]
    Failed,
    /// The file is longer than `MAX_FILE_BYTES`.
    #[error("the file is too long")]
    Long,
    /// An allocation was refused.
    #[error("out of memory")]
    Memory,
}

/// Why a sink did not take a piece.
#[derive(Clone, Copy, Debug, PartialEq, Eq, Error)]
pub enum SinkFault {
    /// The device failed.
    #[error("the device failed")]
    Failed,
    /// An allocation was refused.
    #[error("out of memory")]
    Memory,
}

/// Files by their names.
///
/// A desk may tell its files, as one in memory does; one over a device does not, and nothing is claimed of its bytes.
pub trait Desk {
    /// The bytes under each name, where the desk tells them.
    ghost told: { Self → Option Map };

    /// How many reads failed so far.
    ghost reads: { Self → ℕ };

    /// How many writes failed so far.
    ghost writes: { Self → ℕ };

    /// The bytes under a name; `None` where there are none. Also after an `Err` the desk may be used again.
    fn fetch(&mut self, alloc: Global, name: &str) -> Result<Option<Vec<u8>>, DeskFault>
        ensures told { told self.new ≡ told self.old }
        ensures writes { writes self.new ≡ writes self.old }
        ensures reads { reads self.old ≤ reads self.new }
        ensures failed { result ≡ Err DeskFault.Failed → reads self.old < reads self.new }
        ensures small { IfOk result (λ found. IfSome found (λ bytes. vec_len bytes ≤ MAX_FILE_BYTES)) }
        ensures answers { ForSome (told self.old) (λ map. Fetches (map name.now) result) };

    /// Puts bytes under a name, in place of those that stood there. After an `Err` the files that a desk tells are as
    /// before; a device may keep a front of the bytes.
    fn store(&mut self, name: &str, bytes: &[u8]) -> Result<(), DeskFault>
        ensures reads { reads self.new ≡ reads self.old }
        ensures writes { writes self.old ≤ writes self.new }
        ensures failed { result ≡ Err DeskFault.Failed → writes self.old < writes self.new }
        ensures never_long { result ≢ Err DeskFault.Long }
        ensures ok { OnOk result (told self.new ≡ option_map (with_file name.now bytes.now) (told self.old)) }
        ensures err { OnErr result (told self.new ≡ told self.old) };
}

/// A place where bytes are put in order.
pub trait Sink {
    /// The bytes so far, where the sink tells them.
    ghost so_far: { Self → Option (List ℕ) };

    /// How many calls failed so far.
    ghost faults: { Self → ℕ };

    /// Appends a piece. After `Failed` a front of it stands there, and after `Memory` nothing of it.
    fn put(&mut self, bytes: &[u8]) -> Result<(), SinkFault>
        ensures faults { faults self.old ≤ faults self.new }
        ensures failed { result ≡ Err SinkFault.Failed → faults self.old < faults self.new }
        ensures ok { OnOk result (so_far self.new ≡ option_map (λ old. old ++ bytes.now) (so_far self.old)) }
        ensures part { result ≡ Err SinkFault.Failed → PutsPart (so_far self.old) (so_far self.new) bytes.now }
        ensures memory { result ≡ Err SinkFault.Memory → so_far self.new ≡ so_far self.old };
}
