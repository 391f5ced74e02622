//! Which wires are matrix inputs: those that no switch matrix drives.

ghost use Rattle.std.specs.Prelude.{◌≡◌, ◌<◌, ◌++◌, ◌↔◌, IsTrue, IfOk, OnOk, map, replicate};
ghost use Rattle.std.specs.List.{flat_map};
ghost use Rattle.fab_model.specs.Tiles.{tile_wires, row_wires, bel_wires, is_matrix_output};
ghost use Rattle.fab_fabric.specs.Fabric.{wire_count};
ghost use Rattle.fab_nodes_laws.specs.Nodes.{IsMatrixInput};
ghost use Rattle.fab_route.specs.inner.Numbers.{HaveDriven};

use fab_base::Memory;
use fab_fabric::{Fabric, Wire};
use fab_model::{Bel, TileType, WireRow};
use std::alloc::Global;

/// For each tile type whether its switch matrix drives its wires, by matrix name number.
pub(crate) fn driven(alloc: Global, fabric: &Fabric) -> Result<Vec<Vec<bool>>, Memory>
    ensures { IfOk result (λ tables. HaveDriven fabric.now.types tables.items) }
{
    let mut tables = Vec::new(alloc);
    for tile in fabric.types() {
        tables.push(driven_of(alloc, tile)?)?;
    }
    Ok(tables)
}

fn driven_of(alloc: Global, tile: &TileType) -> Result<Vec<bool>, Memory>
    ensures { IfOk result (λ marks. marks.items ≡ map is_matrix_output (tile_wires tile.now)) }
{
    let mut marks = Vec::new(alloc);
    mark_rows(&mut marks, tile.rows())?;
    mark_bels(&mut marks, tile.bels())?;
    Ok(marks)
}

// It drives source bits.
fn mark_rows(marks: &mut Vec<bool>, rows: &[WireRow]) -> Result<(), Memory>
    ensures { OnOk result (marks.new.items ≡ marks.old.items ++ map is_matrix_output (flat_map row_wires rows.now)) }
{
    for row in rows {
        mark(marks, row.source_bits(), true)?;
        mark(marks, row.dest_bits(), false)?;
    }
    Ok(())
}

// It drives input pins.
fn mark_bels(marks: &mut Vec<bool>, bels: &[Bel]) -> Result<(), Memory>
    ensures { OnOk result (marks.new.items ≡ marks.old.items ++ map is_matrix_output (flat_map bel_wires bels.now)) }
{
    for bel in bels {
        mark(marks, u64::from(bel.kind.inputs()), true)?;
        mark(marks, u64::from(bel.kind.outputs()), false)?;
    }
    Ok(())
}

// So many wires more.
fn mark(marks: &mut Vec<bool>, wires: u64, driven: bool) -> Result<(), Memory>
    ensures { OnOk result (marks.new.items ≡ marks.old.items ++ replicate wires driven) }
{
    for _wire in 0..wires {
        marks.push(driven)?;
    }
    Ok(())
}

/// Whether a wire is a matrix input.
pub(crate) fn is_input(fabric: &Fabric, driven: &Vec<Vec<bool>>, wire: Wire) -> bool
    requires driven { HaveDriven fabric.now.types driven.now.items }
    requires wire { wire.0 < wire_count fabric.now }
    ensures { IsTrue result ↔ IsMatrixInput fabric.now wire }
{
    fabric.is_well_made();
    let (x, y, number) = fabric.spot(wire);
    match fabric.type_at(x, y) {
        Some(place) => !driven[place as usize][number as usize],
        None => unreachable!(),
    }
}
