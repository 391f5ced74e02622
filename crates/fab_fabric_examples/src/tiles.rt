//! What is asked of the tile types of a fabric.

use crate::shown::{number_of, put_number, put_some};
use fab_base::{Fault, Memory};
use fab_examples::Stop;
use fab_fabric::Fabric;
use fab_model::TileType;
use std::alloc::Global;

/// Puts a number behind a blank.
fn put_count(out: &mut Vec<u8>, count: usize) -> Result<(), Memory> {
    out.push(b' ')?;
    put_number(out, count as u64)
}

/// Puts the name of a tile type, and how many rows, BELs, matrix names, pairs and configuration bits it has.
fn put_size(out: &mut Vec<u8>, tile: &TileType) -> Result<(), Memory> {
    out.push(b' ')?;
    out.extend_from_slice(tile.name().bytes())?;
    put_count(out, tile.rows().len())?;
    put_count(out, tile.bels().len())?;
    put_count(out, tile.matrix_names() as usize)?;
    put_count(out, tile.pairs().len())?;
    put_count(out, tile.bits() as usize)
}

/// Puts all matrix names in the order of their numbers.
fn put_names(alloc: Global, out: &mut Vec<u8>, tile: &TileType) -> Result<(), Memory> {
    for number in 0..tile.matrix_names() {
        let name = tile.matrix_name(alloc, number)?;
        out.push(b' ')?;
        out.extend_from_slice(name.bytes())?;
    }
    Ok(())
}

/// Puts the numbers of matrix names.
fn put_numbers(out: &mut Vec<u8>, tile: &TileType, names: &[&[u8]]) -> Result<(), Memory> {
    for name in names {
        out.push(b' ')?;
        put_some(out, tile.number_of(name).map(u64::from))?;
    }
    Ok(())
}

/// Puts the first configuration bit of each matrix output and how many it has.
fn put_fields(out: &mut Vec<u8>, tile: &TileType, outputs: &[&[u8]]) -> Result<(), Stop> {
    for output in outputs {
        let (first, width) = tile.field(number_of(output)?);
        put_count(out, first as usize)?;
        out.push(b'+')?;
        put_number(out, u64::from(width))?;
    }
    Ok(())
}

/// Puts the places of configuration bits.
fn put_places(out: &mut Vec<u8>, tile: &TileType, numbers: &[&[u8]]) -> Result<(), Stop> {
    for number in numbers {
        let place = tile.table().places().get(number_of(number)? as usize);
        let (frame, bit) = place.ok_or(Stop::Fault(Fault::Usage))?;
        put_count(out, usize::from(*frame))?;
        out.push(b'.')?;
        put_number(out, u64::from(*bit))?;
    }
    Ok(())
}

/// Puts what is asked of the tile type of a number.
pub fn put_tiles(
    alloc: Global,
    out: &mut Vec<u8>,
    fabric: &Fabric,
    words: &[&[u8]],
) -> Result<(), Stop> {
    let [number, verb, rest @ ..] = words else {
        return Err(Stop::Fault(Fault::Usage));
    };
    let tile = fabric.types().get(number_of(number)? as usize);
    let tile = tile.ok_or(Stop::Fault(Fault::Usage))?;
    match *verb {
        b"size" => put_size(out, tile)?,
        b"names" => put_names(alloc, out, tile)?,
        b"numbers" => put_numbers(out, tile, rest)?,
        b"fields" => put_fields(out, tile, rest)?,
        b"places" => put_places(out, tile, rest)?,
        _ => return Err(Stop::Fault(Fault::Usage)),
    }
    Ok(())
}
