//! The files beside a program.

ghost use Rattle.std.specs.Prelude.{◌≡◌, ◌≤◌, ◌<◌, IfOk, length, vec_len, Some};
ghost use Rattle.std.specs.Option.{ForSome};

use fab_base::{Fault, MAX_FILE_BYTES, Name};
use fab_desk::{Desk, DeskFault};
use std::alloc::Global;

/// The bytes of a file that has to be there.
///
/// `Missing` comes where it is absent, `TooLong` where the desk does not hand it out, and `ReadFault` where the device failed.
pub fn fetch<D: Desk>(alloc: Global, desk: &mut D, file: &str) -> Result<Vec<u8>, Fault>
    ensures told { D.told desk.new ≡ D.told desk.old }
    ensures small { IfOk result (λ bytes. length bytes.items ≤ MAX_FILE_BYTES) }
    ensures found { ForSome (D.told desk.old) (λ files. IfOk result (λ bytes. files file.now ≡ Some bytes.items)) }
{
    let name = Name::of(alloc, file.as_bytes())?;
    match desk.fetch(alloc, file) {
        Ok(Some(bytes)) => Ok(bytes),
        Ok(None) => Err(Fault::Missing(name)),
        Err(DeskFault::Long) => Err(Fault::TooLong(name)),
        Err(DeskFault::Failed) => Err(Fault::ReadFault(name)),
        Err(DeskFault::Memory) => Err(Fault::Memory),
    }
}
