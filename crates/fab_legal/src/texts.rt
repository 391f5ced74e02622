//! How the items of broken rules are written.

ghost use Rattle.std.specs.Prelude.{◌≡◌, ◌<◌, ◌++◌, ℕ, IfOk, OnOk, length};
ghost use Rattle.fab_implementation.specs.fab_netlist.specs.declared.net_id.NetId.TheVariants as ids;
ghost use Rattle.fab_implementation.specs.fab_fabric.specs.Fabric.{wire_count};
ghost use Rattle.fab_legal.specs.Broken.{cell_text, net_text, IsWireText};
ghost use Rattle.fab_legal.specs.Nets.{net_of};

use fab_base::{Memory, Name};
use fab_implementation::Implementation;
use fab_implementation::fab_fabric::{Fabric, Wire, wires_are_numbered};
use fab_implementation::fab_netlist::NetId;
use itoa::Buffer;
use std::alloc::Global;

fn put_cell(text: &mut Vec<u8>, number: u32) -> Result<(), Memory>
    ensures { OnOk result (text.new.items ≡ text.old.items ++ cell_text number) }
{
    text.push(b'c')?;
    text.extend_from_slice(Buffer::new().format(number).as_bytes())?;
    Ok(())
}

/// A cell by its number, as `c5`.
pub fn cell_text(alloc: Global, number: u32) -> Result<Name, Memory>
    ensures { IfOk result (λ text. text ≡ cell_text number) }
{
    let mut text = Vec::new(alloc);
    put_cell(&mut text, number)?;
    Ok(Name::from(text))
}

/// A net of an implementation, as `zero`, `in a` or `cell c0`.
pub fn net_text(alloc: Global, implementation: &Implementation, net: NetId) -> Result<Name, Memory>
    requires { (number : ℕ) → net ≡ ids.In number → number < length implementation.now.ins }
    ensures { IfOk result (λ text. text ≡ net_text (net_of implementation.now net)) }
{
    let mut text = Vec::new(alloc);
    match net {
        NetId::Zero => text.extend_from_slice(b"zero")?,
        NetId::One => text.extend_from_slice(b"one")?,
        NetId::In(number) => {
            text.extend_from_slice(b"in ")?;
            text.extend_from_slice(implementation.ins[number as usize].0.bytes())?;
        }
        NetId::Cell(number) => {
            text.extend_from_slice(b"cell ")?;
            put_cell(&mut text, number)?;
        }
    }
    Ok(Name::from(text))
}

/// A wire, as `X1Y0/LA_I0`.
pub fn wire_text(alloc: Global, fabric: &Fabric, wire: Wire) -> Result<Name, Memory>
    requires { wire.0 < wire_count fabric.now }
    ensures { IfOk result (IsWireText fabric.now wire) }
{
    wires_are_numbered();
    fabric.wire_name(alloc, wire)
}
