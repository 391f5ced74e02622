//! Writing to a device until it has taken everything.

ghost use Rattle.std.specs.Bool.{OnTrue};
ghost use Rattle.std.specs.Io.KnownBytes.{Appends};

use std::io::Write;

/// Whether the device took each byte. One that takes none of some has failed, since it would be asked without end.
pub(crate) fn write_whole<W: Write>(device: &mut W, bytes: &[u8]) -> bool
    ensures { OnTrue result (Appends (W.contents device.old) (W.contents device.new) bytes.now) }
{
    let mut written = 0;
    while written < bytes.len() {
        match device.write(&bytes[written..]) {
            Ok(0) | Err(_) => return false,
            Ok(count) => written += count,
        }
    }
    true
}
