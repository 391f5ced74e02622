//! The features that configuration bits spell.

ghost use Rattle.std.specs.Prelude.{◌≡◌, ◌≤◌, ◌<◌, ◌+◌, ◌-◌, ◌∷◌, [], IfOk, OnOk, Some, false, length, nat_eq, slice_get, slice_index_or};
ghost use Rattle.std.specs.List.{flat_map, filter_map};
ghost use Rattle.fab_bits.specs.Bits.{bit_number};
ghost use Rattle.fab_kinds.specs.declared.kind.Kind.TheVariants as kinds;
ghost use Rattle.fab_lines.specs.Numbers.{capped};
ghost use Rattle.fab_model.specs.Tiles.{counted};
ghost use Rattle.fab_model.specs.Grid.{tile_at};
ghost use Rattle.fab_model.specs.Drive.{select_value};
ghost use Rattle.fab_fabric.specs.Bits.{plain_bits};
ghost use Rattle.fab_fabric.specs.Fabric.{IsFabric};
ghost use Rattle.fab_use_defs.specs.fab_fabric_text_defs_Places.{column_tiles, placed_tiles};
ghost use Rattle.fab_features.specs.Design.{field_name};
ghost use Rattle.fab_features.specs.inner.Listing.{Pushes, placed_tile};
ghost use Rattle.fab_features.specs.inner.Matrices.{AreMatricesOf, IsMatrixOf};
ghost use Rattle.fab_features.specs.Spelled.{bel_features, features_in, field_features, kind_features, picked_input, place_spells, tile_picks, tile_spells, unless_zero, value_of};

use crate::design::first_bit;
use crate::features::{field_name, pair_name, push_line};
use crate::matrices::{Matrix, matrices_of, tile_with};
use fab_base::{Memory, Name};
use fab_fabric::{Bits, Fabric, Site};
use fab_fasm::Feature;
use fab_kinds::Kind;
use fab_model::TileType;
use std::alloc::Global;

// ---- values

fn bit_in(bits: &[bool], number: u64) -> bool
    ensures { result ≡ slice_index_or bits.now number false }
{
    match bits.get(number as usize) {
        Some(bit) => *bit,
        None => false,
    }
}

fn bit_value(bits: &[bool], number: u64) -> u64
    ensures { result ≡ bit_number (slice_index_or bits.now number false) }
{
    u64::from(bit_in(bits, number))
}

// The number that the bits from `low` on spell, the least significant first, or the greatest of 64 bits where it is above that.
fn value_of(bits: &[bool], low: u32, width: u32) -> u64
    ensures { result ≡ capped (value_of (λ place. slice_index_or bits.now place false) low width) }
{
    let mut value: u64 = 0;
    for place in 0..width {
        let number = u64::from(low) + u64::from(width - 1 - place);
        let bit = bit_value(bits, number);
        value = value.saturating_mul(2).saturating_add(bit);
    }
    value
}

// ---- BELs

// Adds a line, if its value is not 0.
fn push_value(features: &mut Vec<Feature>, name: Name, high: u32, value: u64) -> Result<(), Memory>
    ensures { OnOk result (Pushes features.old.items features.new.items (unless_zero name high value)) }
{
    if value == 0 {
        return Ok(());
    }
    push_line(features, name, high, u128::from(value))
}

// Adds the line of a field of the BEL at a site.
fn push_field(
    features: &mut Vec<Feature>,
    alloc: Global,
    bits: &[bool],
    site: Site,
    field: &[u8],
    low: u32,
    width: u32,
) -> Result<(), Memory>
    requires bel { site.bel < 26 }
    requires some { 1 ≤ width }
    requires few { width ≤ 16 }
    ensures { OnOk result (Pushes features.old.items features.new.items (field_features (λ place. slice_index_or bits.now place false) site field.now low width)) }
{
    let name = field_name(alloc, site, field)?;
    push_value(features, name, width - 1, value_of(bits, low, width))?;
    Ok(())
}

fn push_lut(
    features: &mut Vec<Feature>,
    alloc: Global,
    bits: &[bool],
    site: Site,
    low: u32,
) -> Result<(), Memory>
    requires bel { site.bel < 26 }
    requires low { low ≤ 494 }
    ensures { OnOk result (Pushes features.old.items features.new.items (kind_features (λ place. slice_index_or bits.now place false) site low kinds.Lut4c)) }
{
    push_field(features, alloc, bits, site, b"INIT", low, 16)?;
    push_field(features, alloc, bits, site, b"FF", low + 16, 1)?;
    push_field(features, alloc, bits, site, b"IOmux", low + 17, 1)?;
    push_field(features, alloc, bits, site, b"SET_NORESET", low + 18, 1)?;
    Ok(())
}

fn push_mux(
    features: &mut Vec<Feature>,
    alloc: Global,
    bits: &[bool],
    site: Site,
    low: u32,
) -> Result<(), Memory>
    requires bel { site.bel < 26 }
    requires low { low ≤ 494 }
    ensures { OnOk result (Pushes features.old.items features.new.items (kind_features (λ place. slice_index_or bits.now place false) site low kinds.Mux8)) }
{
    push_field(features, alloc, bits, site, b"c0", low, 1)?;
    push_field(features, alloc, bits, site, b"c1", low + 1, 1)
}

// Adds the lines of a BEL of this kind.
fn push_bel(
    features: &mut Vec<Feature>,
    alloc: Global,
    bits: &[bool],
    site: Site,
    low: u32,
    kind: Kind,
) -> Result<(), Memory>
    requires bel { site.bel < 26 }
    requires low { low ≤ 494 }
    ensures { OnOk result (Pushes features.old.items features.new.items (kind_features (λ place. slice_index_or bits.now place false) site low kind)) }
{
    match kind {
        Kind::Lut4c => push_lut(features, alloc, bits, site, low),
        Kind::Io => Ok(()),
        Kind::Mux8 => push_mux(features, alloc, bits, site, low),
    }
}

// Adds the lines of a BEL of a tile.
fn push_bel_of(
    features: &mut Vec<Feature>,
    alloc: Global,
    bits: &[bool],
    tile: &TileType,
    site: Site,
) -> Result<(), Memory>
    requires few { length tile.now.bels ≤ 26 }
    requires inside { site.bel < length tile.now.bels }
    ensures { OnOk result (Pushes features.old.items features.new.items (bel_features (λ place. slice_index_or bits.now place false) (placed_tile site.x site.y tile.now) site.bel)) }
{
    let bels = tile.bels();
    let place = site.bel as usize;
    let low = first_bit(tile, place);
    push_bel(features, alloc, bits, site, low, bels[place].kind)?;
    Ok(())
}

// Adds the lines of the BELs of a tile, by letter.
fn push_bels(
    features: &mut Vec<Feature>,
    alloc: Global,
    bits: &[bool],
    x: u32,
    y: u32,
    tile: &TileType,
) -> Result<(), Memory>
    requires { length tile.now.bels ≤ 26 }
    ensures { OnOk result (Pushes features.old.items features.new.items (flat_map (bel_features (λ place. slice_index_or bits.now place false) (placed_tile x y tile.now)) (counted (length tile.now.bels) (λ bel. bel)))) }
{
    for bel in 0..tile.bels().len() as u32 {
        let site = Site { x, y, bel };
        push_bel_of(features, alloc, bits, tile, site)?;
    }
    Ok(())
}

// ---- outputs

// The input that the select bits of an output pick, unless it is the first, or there are fewer.
fn picked_input(tile: &TileType, matrix: &Matrix, bits: &[bool], output: u32) -> Option<u32>
    requires { IsMatrixOf tile.now matrix.now }
    ensures { result ≡ picked_input tile.now (λ place. slice_index_or bits.now place false) output }
{
    let inputs = matrix.inputs_of(output);
    let (low, width) = tile.field(output);
    let value = value_of(bits, low, width);
    if value == 0 || value >= inputs.len() as u64 {
        None
    } else {
        Some(inputs[value as usize])
    }
}

// Adds a line for each of these outputs of a tile that does not have its first input.
fn push_outputs(
    features: &mut Vec<Feature>,
    alloc: Global,
    bits: &[bool],
    x: u32,
    y: u32,
    tile: &TileType,
    matrix: &Matrix,
) -> Result<(), Memory>
    requires matrix { IsMatrixOf tile.now matrix.now }
    ensures { OnOk result (Pushes features.old.items features.new.items (filter_map (tile_picks (λ place. slice_index_or bits.now place false) (placed_tile x y tile.now)) matrix.now.outputs.keys)) }
{
    let outputs = matrix.outputs.as_slice();
    for output in outputs {
        if let Some(input) = picked_input(tile, matrix, bits, *output) {
            let name = pair_name(alloc, x, y, tile, *output, input)?;
            push_line(features, name, 0, 1)?;
        }
    }
    Ok(())
}

// ---- tiles

fn push_tile(
    features: &mut Vec<Feature>,
    alloc: Global,
    bits: &[bool],
    x: u32,
    y: u32,
    tile: &TileType,
    matrix: &Matrix,
) -> Result<(), Memory>
    requires matrix { IsMatrixOf tile.now matrix.now }
    requires bels { length tile.now.bels ≤ 26 }
    ensures { OnOk result (Pushes features.old.items features.new.items (tile_spells (λ place. slice_index_or bits.now place false) (placed_tile x y tile.now))) }
{
    push_bels(features, alloc, bits, x, y, tile)?;
    push_outputs(features, alloc, bits, x, y, tile, matrix)?;
    Ok(())
}

// Adds the lines of a column, from the top.
fn push_column(
    features: &mut Vec<Feature>,
    alloc: Global,
    fabric: &Fabric,
    matrices: &[Matrix],
    bits: &Bits,
    x: u32,
) -> Result<(), Memory>
    requires matrices { AreMatricesOf fabric.now.types matrices.now }
    requires is_fabric { IsFabric fabric.now }
    ensures { OnOk result (Pushes features.old.items features.new.items (flat_map (place_spells (plain_bits bits.now)) (column_tiles fabric.now x))) }
{
    for y in 0..fabric.rows() {
        if let Some((tile, matrix)) = tile_with(fabric, matrices, x, y) {
            push_tile(features, alloc, bits.tile(x, y), x, y, tile, matrix)?;
        }
    }
    Ok(())
}

fn push_columns(
    features: &mut Vec<Feature>,
    alloc: Global,
    fabric: &Fabric,
    matrices: &[Matrix],
    bits: &Bits,
) -> Result<(), Memory>
    requires matrices { AreMatricesOf fabric.now.types matrices.now }
    requires is_fabric { IsFabric fabric.now }
    ensures { OnOk result (Pushes features.old.items features.new.items (flat_map (place_spells (plain_bits bits.now)) (placed_tiles fabric.now))) }
{
    for x in 0..fabric.columns() {
        push_column(features, alloc, fabric, matrices, bits, x)?;
    }
    Ok(())
}

/// The features that configuration bits spell, in the order of `features_of`: of each BEL the fields that are not 0,
/// `INIT` whole, and of each output of a switch matrix its input, unless it has its first or the bits pick none. Lines
/// are numbered from 1.
///
/// Want of memory is also the answer where a line number does not fit 32 bits.
pub fn features_of_bits(alloc: Global, fabric: &Fabric, bits: &Bits) -> Result<Vec<Feature>, Memory>
    ensures { IfOk result (λ features. features.items ≡ features_in fabric.now (plain_bits bits.now)) }
{
    let matrices = matrices_of(alloc, fabric)?;
    let mut features = Vec::new(alloc);
    push_columns(&mut features, alloc, fabric, &matrices, bits)?;
    Ok(features)
}
