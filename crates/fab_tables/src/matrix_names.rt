//! The outputs and the inputs of a tile's switch matrix by name.

ghost use Rattle.std.specs.Prelude.{◌≡◌, ◌++◌, IfOk, OnOk, map, replicate};
ghost use Rattle.std.specs.List.{flat_map};
ghost use Rattle.fab_model.specs.Tiles.{bel_wires, is_matrix_output, row_wires, tile_wires};
ghost use Rattle.fab_tables.specs.Matrix.{input_number, output_number};

use fab_base::Memory;
use fab_model::{Bel, TileType, WireRow};
use std::alloc::{AllocError, Global};
use std::marker::Model;

fn push_sides(sides: &mut Vec<bool>, side: bool, bits: u64) -> Result<(), AllocError>
    ensures { OnOk result (sides.new.items ≡ sides.old.items ++ replicate bits side) }
{
    for _bit in 0..bits {
        sides.push(side)?;
    }
    Ok(())
}

fn push_row(sides: &mut Vec<bool>, row: &WireRow) -> Result<(), AllocError>
    ensures { OnOk result (sides.new.items ≡ sides.old.items ++ map is_matrix_output (row_wires row.now)) }
{
    push_sides(sides, true, row.source_bits())?;
    push_sides(sides, false, row.dest_bits())
}

fn push_bel(sides: &mut Vec<bool>, bel: &Bel) -> Result<(), AllocError>
    ensures { OnOk result (sides.new.items ≡ sides.old.items ++ map is_matrix_output (bel_wires bel.now)) }
{
    let inputs = bel.kind.inputs();
    for pin in 0..inputs + bel.kind.outputs() {
        sides.push(pin < inputs)?;
    }
    Ok(())
}

fn push_rows(sides: &mut Vec<bool>, rows: &[WireRow]) -> Result<(), AllocError>
    ensures { OnOk result (sides.new.items ≡ sides.old.items ++ map is_matrix_output (flat_map row_wires rows.now)) }
{
    for row in rows {
        push_row(sides, row)?;
    }
    Ok(())
}

fn push_bels(sides: &mut Vec<bool>, bels: &[Bel]) -> Result<(), AllocError>
    ensures { OnOk result (sides.new.items ≡ sides.old.items ++ map is_matrix_output (flat_map bel_wires bels.now)) }
{
    for bel in bels {
        push_bel(sides, bel)?;
    }
    Ok(())
}

/// Whether each wire of a tile, at its number, is a matrix output.
fn sides_of(alloc: Global, tile: &TileType) -> Result<Vec<bool>, AllocError>
    ensures { IfOk result (λ sides. sides.items ≡ map is_matrix_output (tile_wires tile.now)) }
{
    let mut sides = Vec::new(alloc);
    push_rows(&mut sides, tile.rows())?;
    push_bels(&mut sides, tile.bels())?;
    Ok(sides)
}

/// A tile type, and which of its wires are matrix outputs. Contracts see the tile.
#[derive(Drop)]
pub struct MatrixNames<'a> {
    tile: &'a TileType,
    are_outputs: Vec<bool>,
}

impl<'a> Model for MatrixNames<'a> {
    ghost use Rattle.fab_model.specs.Tiles.{PlainTile};
    ghost use Rattle.fab_tables.specs.inner.FollowingMatrix.{AreSides};

    ghost Value = { PlainTile };

    ghost view = { λ names. names.tile.now };

    ghost invariant = { λ names. AreSides names.tile.now names.are_outputs.items };
}

impl<'a> MatrixNames<'a> {
    /// The names of a tile.
    pub fn new(alloc: Global, tile: &'a TileType) -> Result<MatrixNames<'a>, Memory>
        ensures { IfOk result (λ names. names ≡ tile.now) }
    {
        let are_outputs = sides_of(alloc, tile)?;
        Ok(MatrixNames { tile, are_outputs })
    }

    /// The number of a matrix output; none where the tile has no matrix output of this name.
    pub fn output(&self, name: &[u8]) -> Option<u32>
        ensures { result ≡ output_number self.now name.now }
    {
        let number = self.tile.number_of(name)?;
        let is_output = *self.are_outputs.get(number as usize)?;
        if is_output { Some(number) } else { None }
    }

    /// The number of a matrix input; none where the tile has no matrix input of this name.
    pub fn input(&self, name: &[u8]) -> Option<u32>
        ensures { result ≡ input_number self.now name.now }
    {
        let number = self.tile.number_of(name)?;
        let is_output = *self.are_outputs.get(number as usize)?;
        if is_output { None } else { Some(number) }
    }
}
