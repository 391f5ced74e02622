//! A small fabric: a tile with two pads, a tile with a LUT, and an empty place.

ghost use Rattle.std.specs.Prelude.{◌≡◌, [], ◌∷◌, IfOk};
ghost use Rattle.fab_fabric.specs.Fabric.{fabric_of};
ghost use Rattle.fab_fabric.specs.Examples.{lut, pads, three_places};

use crate::tiles::{lut_table, lut_with, pad_table, pads_with};
use fab_base::Memory;
use fab_fabric::Fabric;
use fab_model::TileType;
use std::alloc::Global;

fn pads_and_lut(alloc: Global) -> Result<Vec<TileType>, Memory>
    ensures { IfOk result (λ types. types.items ≡ pads ∷ lut ∷ []) }
{
    let mut types = Vec::new(alloc);
    types.push(pads_with(alloc, pad_table(alloc)?)?)?;
    types.push(lut_with(alloc, lut_table(alloc)?)?)?;
    Ok(types)
}

fn three_places(alloc: Global) -> Result<Vec<Option<u32>>, Memory>
    ensures { IfOk result (λ grid. grid.items ≡ three_places) }
{
    let grid = vec![in alloc; Some(0), Some(1), None]?;
    Ok(grid)
}

/// The fabric: columns 0, 1 and 2 of one row.
pub fn small_fabric(alloc: Global) -> Result<Fabric, Memory>
    ensures { IfOk result (λ fabric. fabric ≡ fabric_of (pads ∷ lut ∷ []) 3 three_places) }
{
    let types = pads_and_lut(alloc)?;
    let grid = three_places(alloc)?;
    Fabric::new(alloc, types, 3, grid)
}
