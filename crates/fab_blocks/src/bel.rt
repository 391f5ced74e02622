//! A row of a BEL.

ghost use Rattle.std.specs.Prelude.{◌≡◌, ◌++◌, Some, IfOk};
ghost use Rattle.fab_blocks.specs.Rows.{is_matrix_file, is_prefix, kind_of, may_lack_prefix, pins_of};

use fab_base::{Memory, Name};
use fab_kinds::Kind;
use fab_lines::{is_identifier, is_reserved};
use std::alloc::Global;

/// The kind of the BEL that a file with this stem has.
#[tactic(auto, unfolding(crate::specs::Rows::kind_of))]
pub fn kind_of(stem: &[u8]) -> Option<Kind>
    ensures { result ≡ kind_of stem.now }
{
    if stem == b"LUT4c_frame_config".as_slice() || stem == b"LUT4c_frame_config_dffesr".as_slice() {
        return Some(Kind::Lut4c);
    }
    if stem == b"IO_1_bidirectional_frame_config_pass".as_slice() {
        return Some(Kind::Io);
    }
    if stem == b"MUX8LUT_frame_config".as_slice()
        || stem == b"MUX8LUT_frame_config_mux".as_slice()
    {
        return Some(Kind::Mux8);
    }
    None
}

/// Whether the pins of a BEL may have this prefix.
#[tactic(auto, unfolding(crate::specs::Rows::is_prefix))]
pub fn is_prefix(prefix: &[u8]) -> bool
    ensures { result ≡ is_prefix prefix.now }
{
    prefix.is_empty() || is_identifier(prefix) && !is_reserved(prefix)
}

/// Whether the pins of a BEL may have no prefix.
#[tactic(auto, unfolding(crate::specs::Rows::may_lack_prefix))]
pub fn may_lack_prefix(kind: Option<Kind>) -> bool
    ensures { result ≡ may_lack_prefix kind }
{
    kind == Some(Kind::Mux8)
}

/// Whether a switch matrix may be in a file of this name.
#[tactic(auto, unfolding(crate::specs::Rows::is_matrix_file))]
pub fn is_matrix_file(file: &[u8]) -> bool
    ensures { result ≡ is_matrix_file file.now }
{
    file.ends_with(b".list") || file.ends_with(b".csv")
}

fn pin_of(alloc: Global, prefix: &[u8], pin: &str) -> Result<Name, Memory>
    ensures { IfOk result (λ name. name ≡ prefix.now ++ pin.now) }
{
    let mut name = Vec::from_slice(alloc, prefix)?;
    name.extend_from_slice(pin.as_bytes())?;
    Ok(Name::from(name))
}

/// The names of the pins of a BEL.
pub fn pins_of(alloc: Global, kind: Kind, prefix: &[u8]) -> Result<Vec<Name>, Memory>
    ensures { IfOk result (λ pins. pins.items ≡ pins_of (Some kind) prefix.now) }
{
    let mut pins = Vec::new(alloc);
    for pin in 0..kind.inputs() + kind.outputs() {
        let name = pin_of(alloc, prefix, kind.pin_name(pin))?;
        pins.push(name)?;
    }
    Ok(pins)
}
