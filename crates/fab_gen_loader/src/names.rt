//! Names with numbers.

ghost use Rattle.std.specs.Prelude.{◌≡◌, ◌++◌, IfOk, decimal};

use fab_base::{Memory, Name};
use itoa::Buffer;
use std::alloc::Global;

/// A name with a number behind it.
pub fn numbered(alloc: Global, name: &[u8], number: u32) -> Result<Name, Memory>
    ensures { IfOk result (λ whole. whole ≡ name.now ++ decimal number) }
{
    let mut bytes = Vec::from_slice(alloc, name)?;
    bytes.extend_from_slice(Buffer::new().format(number).as_bytes())?;
    Ok(Name::from(bytes))
}
