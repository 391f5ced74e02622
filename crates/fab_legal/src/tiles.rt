//! Tiles by place, and what their rows and BELs say of wires.

ghost use Rattle.std.specs.Prelude.{◌≡◌, ◌<◌, ◌↔◌, Bool, Some, IfOk, MatchOption, option_copied};
ghost use Rattle.fab_implementation.specs.fab_model.specs.Grid.{tile_at};
ghost use Rattle.fab_implementation.specs.fab_fabric.specs.Fabric.{IsFabric, AreTiles, wire_count};
ghost use Rattle.fab_legal.specs.Steps.{pin_wire, IsConstant, bit_drive, HasPin};
ghost use Rattle.fab_legal.specs.inner.Keeping.{IsConstantRow};

use fab_base::Memory;
use fab_implementation::fab_fabric::{Fabric, Site, Wire};
use fab_implementation::fab_model::{Dir, TileType, WireRow};
use std::alloc::Global;

/// The tile at a place; none where there is no tile.
pub fn find_tile(fabric: &Fabric, x: u32, y: u32) -> Option<&TileType>
    ensures found { option_copied result ≡ tile_at fabric.now x y }
    ensures is_fabric { IsFabric fabric.now }
    ensures are_tiles { AreTiles fabric.now }
{
    let types = fabric.types();
    if x >= fabric.columns() || y >= fabric.rows() {
        return None;
    }
    let number = fabric.type_at(x, y)?;
    Some(&types[number as usize])
}

// The value of the bits of a row, if they are constant.
fn constant_of(row: &WireRow) -> Option<bool>
    ensures { MatchOption result ((value : Bool) → IsConstantRow row.now value → ⊥) (IsConstantRow row.now) }
{
    if row.dir != Dir::Jump || row.source.is_some() {
        return None;
    }
    match &row.dest {
        Some(name) => Some(name.bytes() == b"VCC".as_slice()),
        None => Some(false),
    }
}

/// The value of a wire, if it is constant.
pub fn constant_at(fabric: &Fabric, wire: Wire) -> Option<bool>
    requires { wire.0 < wire_count fabric.now }
    ensures { (value : Bool) → (result ≡ Some value) ↔ IsConstant fabric.now (bit_drive value) wire }
{
    let (there, _) = fabric.dest_at(wire)?;
    constant_of(fabric.row(there))
}

/// The wire of a pin of a BEL.
pub fn find_pin(alloc: Global, fabric: &Fabric, site: Site, pin: u32) -> Result<Wire, Memory>
    requires { HasPin fabric.now site pin }
    ensures wire { IfOk result (λ wire. wire ≡ pin_wire fabric.now site pin) }
    ensures within { IfOk result (λ wire. wire.0 < wire_count fabric.now) }
{
    let Some(tile) = find_tile(fabric, site.x, site.y) else {
        unreachable!()
    };
    let bel = &tile.bels()[site.bel as usize];
    let mut name = Vec::from_slice(alloc, bel.prefix.bytes())?;
    name.extend_from_slice(bel.kind.pin_name(pin).as_bytes())?;
    match fabric.wire_of(site.x, site.y, &name) {
        Some(wire) => Ok(wire),
        None => unreachable!(),
    }
}
