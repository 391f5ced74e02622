//! What is printed of a fabric.

use crate::runs::put_runs;
use crate::shown::put_number;
use fab_base::{Memory, Name};
use fab_fabric::Fabric;
use fab_kinds::Kind;
use fab_model::{Bel, Dir, TileType, WireRow};
use fab_tables::MatrixNames;
use std::alloc::Global;

/// A number and what it counts.
fn put_count(out: &mut Vec<u8>, number: u32, what: &[u8]) -> Result<(), Memory> {
    put_number(out, u64::from(number))?;
    out.extend_from_slice(what)?;
    Ok(())
}

/// The name of the tile at a place of the grid.
fn put_place(out: &mut Vec<u8>, types: &[TileType], place: Option<u32>) -> Result<(), Memory> {
    out.push(b' ')?;
    let name = match place {
        Some(number) => match types.get(number as usize) {
            Some(tile) => tile.name().bytes(),
            None => b"?",
        },
        None => b"NULL",
    };
    out.extend_from_slice(name)?;
    Ok(())
}

/// The names of the tiles, a line for each row from the top.
fn put_grid(out: &mut Vec<u8>, fabric: &Fabric) -> Result<(), Memory> {
    let columns = fabric.columns() as usize;
    if columns == 0 {
        return Ok(());
    }
    for row in fabric.grid().chunks(columns) {
        out.push(b' ')?;
        for place in row {
            put_place(out, fabric.types(), *place)?;
        }
        out.push(b'\n')?;
    }
    Ok(())
}

fn word_of(dir: Dir) -> &'static [u8] {
    match dir {
        Dir::North => b"NORTH",
        Dir::East => b"EAST",
        Dir::South => b"SOUTH",
        Dir::West => b"WEST",
        Dir::Jump => b"JUMP",
    }
}

fn put_end(out: &mut Vec<u8>, end: &Option<Name>) -> Result<(), Memory> {
    out.push(b' ')?;
    let name = match end {
        Some(name) => name.bytes(),
        None => b"NULL",
    };
    out.extend_from_slice(name)?;
    Ok(())
}

fn put_wires(out: &mut Vec<u8>, row: &WireRow) -> Result<(), Memory> {
    out.extend_from_slice(b"    ")?;
    out.extend_from_slice(word_of(row.dir))?;
    put_end(out, &row.source)?;
    put_end(out, &row.dest)?;
    out.extend_from_slice(b" span ")?;
    put_number(out, u64::from(row.span))?;
    out.extend_from_slice(b" count ")?;
    put_count(out, row.count, b"\n")
}

fn put_bel(out: &mut Vec<u8>, bel: &Bel) -> Result<(), Memory> {
    let kind: &[u8] = match bel.kind {
        Kind::Lut4c => b" LUT4c:",
        Kind::Io => b" IO:",
        Kind::Mux8 => b" MUX8LUT:",
    };
    out.extend_from_slice(kind)?;
    out.extend_from_slice(bel.prefix.bytes())?;
    Ok(())
}

/// How many of a tile's matrix names are those of outputs.
fn outputs_among(alloc: Global, tile: &TileType, names: &MatrixNames) -> Result<u32, Memory> {
    let mut outputs: u32 = 0;
    for number in 0..tile.matrix_names() {
        let name = tile.matrix_name(alloc, number)?;
        if names.output(name.bytes()).is_some() {
            outputs = outputs.saturating_add(1);
        }
    }
    Ok(outputs)
}

fn output_count(alloc: Global, tile: &TileType) -> Result<u32, Memory> {
    let names = MatrixNames::new(alloc, tile)?;
    outputs_among(alloc, tile, &names)
}

/// The numbers of a tile's names, and how many of them are those of outputs and of inputs.
fn put_names(alloc: Global, out: &mut Vec<u8>, tile: &TileType) -> Result<(), Memory> {
    let names = tile.matrix_names();
    let outputs = output_count(alloc, tile)?;
    out.extend_from_slice(b"  ")?;
    out.extend_from_slice(tile.name().bytes())?;
    out.extend_from_slice(b": ")?;
    put_count(out, names, b" names, ")?;
    put_count(out, outputs, b" outputs, ")?;
    put_count(out, names.saturating_sub(outputs), b" inputs\n")
}

/// The pairs, each as the number of its output, `<` and that of its input.
fn put_pairs(alloc: Global, out: &mut Vec<u8>, tile: &TileType) -> Result<(), Memory> {
    let mut pairs = Vec::new(alloc);
    for pair in tile.pairs() {
        pairs.push((pair.output, pair.input))?;
    }
    out.extend_from_slice(b"    pairs")?;
    put_runs(out, &pairs, b'<')?;
    out.push(b'\n')?;
    Ok(())
}

/// The places of the configuration bits from bit 0 on, each as its frame, a dot and its bit there.
fn put_places(alloc: Global, out: &mut Vec<u8>, tile: &TileType) -> Result<(), Memory> {
    let mut places = Vec::new(alloc);
    for place in tile.table().places() {
        places.push((u32::from(place.0), u32::from(place.1)))?;
    }
    out.extend_from_slice(b"    ")?;
    put_count(out, tile.bits(), b" bits")?;
    put_runs(out, &places, b'.')?;
    out.push(b'\n')?;
    Ok(())
}

fn put_type(alloc: Global, out: &mut Vec<u8>, tile: &TileType) -> Result<(), Memory> {
    put_names(alloc, out, tile)?;
    for row in tile.rows() {
        put_wires(out, row)?;
    }
    out.extend_from_slice(b"    BELs")?;
    for bel in tile.bels() {
        put_bel(out, bel)?;
    }
    out.push(b'\n')?;
    put_pairs(alloc, out, tile)?;
    put_places(alloc, out, tile)
}

/// A fabric's size, its grid, and each of its tile types with all that it has. Pairs and places are printed in runs.
pub fn summary(alloc: Global, fabric: &Fabric) -> Result<Vec<u8>, Memory> {
    let mut out = Vec::new(alloc);
    put_count(&mut out, fabric.columns(), b" columns, ")?;
    put_count(&mut out, fabric.rows(), b" rows, ")?;
    put_count(&mut out, fabric.wires(), b" wires\n")?;
    put_grid(&mut out, fabric)?;
    for tile in fabric.types() {
        put_type(alloc, &mut out, tile)?;
    }
    Ok(out)
}
