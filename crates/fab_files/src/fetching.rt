//! Files that have to be there.

ghost use Rattle.std.specs.Prelude.{◌≡◌, ◌<◌, ◌≤◌, Ok, Some, None, IfOk, IfErr, IfSome, option_map, vec_len, if◌then◌else◌};
ghost use Rattle.std.specs.Option.{ForSome};
ghost use Rattle.std.specs.Str.{is_utf8};
ghost use Rattle.fab_files.specs.Files.{handed_out, handed_out_if_there, HasReadCause, IsSupported, MeetsFile, MeetsIfThere};

use fab_base::{Fault, MAX_FILE_BYTES, Name};
use fab_desk::{Desk, DeskFault};
use std::alloc::Global;
use std::str;

/// The text of a name, if it is UTF-8.
fn text_of(name: &Name) -> Option<&str>
    ensures { option_map (λ text. text.now) result ≡ (if is_utf8 name.now then Some name.now else None) }
{
    str::from_utf8(name.bytes()).ok()
}

/// The bytes of a file, if there is one of this name. A name that is not UTF-8 is that of no file.
///
/// `TooLong` comes where the desk does not hand it out, and `ReadFault` where the device failed.
pub fn fetch_if_there<D: Desk>(
    alloc: Global,
    desk: &mut D,
    file: &Name,
) -> Result<Option<Vec<u8>>, Fault>
    ensures told { D.told desk.new ≡ D.told desk.old }
    ensures writes { D.writes desk.new ≡ D.writes desk.old }
    ensures reads { D.reads desk.old ≤ D.reads desk.new }
    ensures small { IfOk result (λ found. IfSome found (λ bytes. vec_len bytes ≤ MAX_FILE_BYTES)) }
    ensures found { ForSome (D.told desk.old) (λ files. IfOk result (λ found. handed_out_if_there files file.now ≡ Ok (option_map (λ bytes. bytes.items) found))) }
    ensures cause { IfErr result (HasReadCause (D.told desk.old) (D.reads desk.old < D.reads desk.new) (λ files. MeetsIfThere files file.now)) }
    ensures supported { IfErr result IsSupported }
{
    let name = file.copy(alloc)?;
    let Some(text) = text_of(file) else {
        return Ok(None);
    };
    match desk.fetch(alloc, text) {
        Ok(found) => Ok(found),
        Err(DeskFault::Long) => Err(Fault::TooLong(name)),
        Err(DeskFault::Failed) => Err(Fault::ReadFault(name)),
        Err(DeskFault::Memory) => Err(Fault::Memory),
    }
}

/// The bytes of a file that has to be there.
///
/// `Missing` comes where it is absent, `TooLong` where the desk does not hand it out, and `ReadFault` where the device failed.
pub fn fetch<D: Desk>(alloc: Global, desk: &mut D, file: &Name) -> Result<Vec<u8>, Fault>
    ensures told { D.told desk.new ≡ D.told desk.old }
    ensures writes { D.writes desk.new ≡ D.writes desk.old }
    ensures reads { D.reads desk.old ≤ D.reads desk.new }
    ensures small { IfOk result (λ bytes. vec_len bytes ≤ MAX_FILE_BYTES) }
    ensures found { ForSome (D.told desk.old) (λ files. IfOk result (λ bytes. handed_out files file.now ≡ Ok bytes.items)) }
    ensures cause { IfErr result (HasReadCause (D.told desk.old) (D.reads desk.old < D.reads desk.new) (λ files. MeetsFile files file.now)) }
    ensures supported { IfErr result IsSupported }
{
    match fetch_if_there(alloc, desk, file) {
        Ok(Some(bytes)) => Ok(bytes),
        Ok(None) => Err(Fault::Missing(file.copy(alloc)?)),
        Err(fault) => Err(fault),
    }
}
