//! The names of nets in reports.

ghost use Rattle.std.specs.Prelude.{◌≡◌, IfOk};
ghost use Rattle.fab_legal.specs.WellMade.{IsNetId};
ghost use Rattle.fab_map.specs.Causes.{name_of};

use fab_base::{Memory, Name};
use fab_netlist::{NetId, Packed};
use itoa::Buffer;
use std::alloc::Global;

/// A net of a design, as `zero`, `one`, `in a` or `cell c0`.
pub(crate) fn net_name(alloc: Global, packed: &Packed, net: NetId) -> Result<Name, Memory>
    requires { IsNetId packed.now net }
    ensures { IfOk result (λ text. text ≡ name_of packed.now net) }
{
    let mut text = Vec::new(alloc);
    match net {
        NetId::Zero => text.extend_from_slice(b"zero")?,
        NetId::One => text.extend_from_slice(b"one")?,
        NetId::In(number) => {
            text.extend_from_slice(b"in ")?;
            text.extend_from_slice(packed.inputs[number as usize].bytes())?;
        }
        NetId::Cell(number) => {
            text.extend_from_slice(b"cell c")?;
            text.extend_from_slice(Buffer::new().format(number).as_bytes())?;
        }
    }
    Ok(Name::from(text))
}
