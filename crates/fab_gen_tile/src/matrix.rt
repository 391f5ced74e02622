//! The module of a tile's switch matrix.

ghost use Rattle.std.specs.Prelude.{◌≡◌, ◌++◌, ℕ, map, IfOk, OnOk, slice_index_or};
ghost use Rattle.std.specs.List.{flat_map};
ghost use Rattle.fab_syntax.specs.Plain.{plain_module};
ghost use Rattle.fab_model.specs.Tiles.{counted, row_wires, bel_wires, tile_wires, is_matrix_output};
ghost use Rattle.fab_gen_tile.specs.TileModule.{matrix_input_names, matrix_output_names};
ghost use Rattle.fab_gen_tile.specs.MatrixModule.{matrix_module};
ghost use Rattle.fab_gen_tile.specs.inner.Places.{HasPlaces, placed_pair};

use crate::names::prefixed;
use fab_base::{Memory, Name};
use fab_matrix::matrix_module;
use fab_model::{Bel, Pair, TileType, WireRow};
use fab_syntax::Module;
use std::alloc::Global;

/// The module of the switch matrix of a tile. The time is linear in the names and the pairs.
///
/// Want of memory is also the answer where the inputs of an output, or all select bits, are too many for 32 bits.
pub fn tile_matrix_module(alloc: Global, tile: &TileType) -> Result<Module, Memory>
    ensures { IfOk result (λ m. plain_module m ≡ matrix_module tile.now) }
{
    let name = prefixed(alloc, b"matrix_", tile.name())?;
    let are_outputs = are_outputs(alloc, tile)?;
    let sides = sides_of(alloc, tile, &are_outputs)?;
    let pairs = placed_pairs(alloc, &sides.places, tile.pairs())?;
    let module = matrix_module(alloc, &name, &sides.inputs, &sides.outputs, &pairs)?;
    Ok(module)
}

// ---- sides

// For each wire of a tile whether it is an output of the matrix.
fn are_outputs(alloc: Global, tile: &TileType) -> Result<Vec<bool>, Memory>
    ensures { IfOk result (λ outputs. outputs.items ≡ map is_matrix_output (tile_wires tile.now)) }
{
    let mut outputs = Vec::new(alloc);
    push_rows_outputs(&mut outputs, tile.rows())?;
    push_bels_outputs(&mut outputs, tile.bels())?;
    Ok(outputs)
}

#[tactic(auto, using(crate::proofs::Placing::outputs_more))]
fn push_rows_outputs(outputs: &mut Vec<bool>, rows: &[WireRow]) -> Result<(), Memory>
    ensures { OnOk result (outputs.new.items ≡ outputs.old.items ++ map is_matrix_output (flat_map row_wires rows.now)) }
{
    for row in rows {
        push_row_outputs(outputs, row)?;
    }
    Ok(())
}

// Source bits are outputs, and destination bits are not.
#[tactic(auto, using(crate::proofs::Placing::outputs_of_row))]
fn push_row_outputs(outputs: &mut Vec<bool>, row: &WireRow) -> Result<(), Memory>
    ensures { OnOk result (outputs.new.items ≡ outputs.old.items ++ map is_matrix_output (row_wires row.now)) }
{
    push_several(outputs, true, row.source_bits())?;
    push_several(outputs, false, row.dest_bits())
}

#[tactic(auto, using(crate::proofs::Placing::outputs_more))]
fn push_bels_outputs(outputs: &mut Vec<bool>, bels: &[Bel]) -> Result<(), Memory>
    ensures { OnOk result (outputs.new.items ≡ outputs.old.items ++ map is_matrix_output (flat_map bel_wires bels.now)) }
{
    for bel in bels {
        push_bel_outputs(outputs, bel)?;
    }
    Ok(())
}

// The matrix drives input pins.
#[tactic(auto, using(crate::proofs::Placing::outputs_of_bel))]
fn push_bel_outputs(outputs: &mut Vec<bool>, bel: &Bel) -> Result<(), Memory>
    ensures { OnOk result (outputs.new.items ≡ outputs.old.items ++ map is_matrix_output (bel_wires bel.now)) }
{
    push_several(outputs, true, u64::from(bel.kind.inputs()))?;
    push_several(outputs, false, u64::from(bel.kind.outputs()))
}

// Adds the same for so many wires.
fn push_several(outputs: &mut Vec<bool>, output: bool, wires: u64) -> Result<(), Memory>
    ensures { OnOk result (outputs.new.items ≡ outputs.old.items ++ counted wires (λ wire. output)) }
{
    for _wire in 0..wires {
        outputs.push(output)?;
    }
    Ok(())
}

// The names on both sides of a matrix, and for each wire of the tile its place on its side.
#[derive(Drop)]
struct Sides {
    inputs: Vec<Name>,
    outputs: Vec<Name>,
    places: Vec<u32>,
}

fn sides_of(alloc: Global, tile: &TileType, are_outputs: &[bool]) -> Result<Sides, Memory>
    requires { are_outputs.now ≡ map is_matrix_output (tile_wires tile.now) }
    ensures inputs { IfOk result (λ sides. sides.inputs.items ≡ matrix_input_names tile.now) }
    ensures outputs { IfOk result (λ sides. sides.outputs.items ≡ matrix_output_names tile.now) }
    ensures places { IfOk result (λ sides. HasPlaces (tile_wires tile.now) sides.places.items) }
{
    let mut inputs = Vec::new(alloc);
    let mut outputs = Vec::new(alloc);
    let mut places = Vec::new(alloc);
    for number in 0..tile.matrix_names() {
        let name = tile.matrix_name(alloc, number)?;
        if are_outputs[number as usize] {
            places.push(outputs.len() as u32)?;
            outputs.push(name)?;
        } else {
            places.push(inputs.len() as u32)?;
            inputs.push(name)?;
        }
    }
    Ok(Sides {
        inputs,
        outputs,
        places,
    })
}

// ---- pairs

// The pairs by the places of their wires.
fn placed_pairs(alloc: Global, places: &[u32], pairs: &[Pair]) -> Result<Vec<Pair>, Memory>
    ensures { IfOk result (λ placed. placed.items ≡ map (placed_pair places.now) pairs.now) }
{
    let mut placed = Vec::new(alloc);
    for pair in pairs {
        placed.push(Pair {
            output: place_of(places, pair.output),
            input: place_of(places, pair.input),
        })?;
    }
    Ok(placed)
}

fn place_of(places: &[u32], number: u32) -> u32
    ensures { result ≡ slice_index_or places.now number 0 }
{
    places.get(number as usize).copied().unwrap_or(0)
}
