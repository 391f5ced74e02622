//! The grid of a fabric: the types of its places, and how many wires it has.

ghost use Rattle.std.specs.Prelude.{◌≡◌, ◌<◌, ◌≤◌, ◌/◌, ◌++◌, IfOk, OnOk, length, map, option_copied, position};
ghost use Rattle.std.specs.List.{list_any};
ghost use Rattle.std.specs.Str.{bytes_eq};
ghost use Rattle.fab_blocks.specs.Cells.{is_null};
ghost use Rattle.fab_fabric.specs.Fabric.{fabric_of, wires_at, column_wires, wire_count};
ghost use Rattle.fab_read.specs.Fabrics.{type_number, is_strange, strange_line, places};

use fab_base::{Memory, Name};
use fab_blocks::GridLine;
use fab_model::TileType;
use std::alloc::Global;

#[tactic(auto, unfolding(fab_blocks::specs::Cells::is_null))]
fn is_null(cell: &[u8]) -> bool
    ensures { result ≡ is_null cell.now }
{
    cell.eq_ignore_ascii_case(b"null")
}

fn number_of(types: &[TileType], cell: &[u8]) -> Option<usize>
    ensures { result ≡ position (λ tile. bytes_eq cell.now tile.name) types.now }
{
    types.iter().position(|tile| cell == tile.name().bytes())
}

/// The number of the type that a cell names; none of an empty place.
fn type_number(types: &[TileType], cell: &Name) -> Option<u32>
    requires { length types.now ≤ 64 }
    ensures { result ≡ type_number types.now cell.now }
{
    if is_null(cell.bytes()) {
        return None;
    }
    let number = number_of(types, cell.bytes())?;
    Some(number as u32)
}

fn is_strange(types: &[TileType], cell: &Name) -> bool
    requires { length types.now ≤ 64 }
    ensures { result ≡ is_strange types.now cell.now }
{
    !is_null(cell.bytes()) && type_number(types, cell).is_none()
}

fn has_strange(types: &[TileType], line: &GridLine) -> bool
    requires { length types.now ≤ 64 }
    ensures { result ≡ list_any (is_strange types.now) line.now.cells }
{
    line.cells.iter().any(|cell| is_strange(types, cell))
}

/// The first line with a cell that names a tile which there is not.
pub fn strange_line<'a>(types: &[TileType], lines: &'a [GridLine]) -> Option<&'a GridLine>
    requires { length types.now ≤ 64 }
    ensures { option_copied result ≡ strange_line types.now lines.now }
{
    lines.iter().find(|line| has_strange(types, line))
}

fn push_line(
    places: &mut Vec<Option<u32>>,
    types: &[TileType],
    cells: &[Name],
) -> Result<(), Memory>
    requires { length types.now ≤ 64 }
    ensures { OnOk result (places.new.items ≡ places.old.items ++ map (type_number types.now) cells.now) }
{
    for cell in cells {
        places.push(type_number(types, cell))?;
    }
    Ok(())
}

/// The types of the places, line by line.
pub fn places(
    alloc: Global,
    types: &[TileType],
    lines: &[GridLine],
) -> Result<Vec<Option<u32>>, Memory>
    requires { length types.now ≤ 64 }
    ensures { IfOk result (λ found. found.items ≡ places types.now lines.now) }
{
    let mut found = Vec::new(alloc);
    for line in lines {
        push_line(&mut found, types, &line.cells)?;
    }
    Ok(found)
}

/// How many wires a place has.
fn wires_at(types: &[TileType], columns: u32, grid: &[Option<u32>], x: u32, y: u32) -> u64
    requires x { x < columns }
    requires y { y < length grid.now / columns }
    ensures { result ≡ wires_at (fabric_of types.now columns grid.now) x y }
{
    let place = u64::from(y) * u64::from(columns) + u64::from(x);
    let Some(Some(number)) = grid.get(place as usize) else {
        return 0;
    };
    let Some(tile) = types.get(*number as usize) else {
        return 0;
    };
    u64::from(tile.matrix_names())
}

fn column_wires(
    types: &[TileType],
    columns: u32,
    rows: u32,
    grid: &[Option<u32>],
    x: u32,
) -> Result<u64, Memory>
    requires rows { rows ≡ length grid.now / columns }
    requires x { x < columns }
    ensures { IfOk result (λ wires. wires ≡ column_wires (fabric_of types.now columns grid.now) x) }
{
    let mut wires: u64 = 0;
    for y in 0..rows {
        let more = wires_at(types, columns, grid, x, y);
        wires = wires.checked_add(more).ok_or(Memory)?;
    }
    Ok(wires)
}

/// How many wires a fabric has. Want of memory is also the answer where they are too many for 64 bits.
pub fn count_wires(
    types: &[TileType],
    columns: u32,
    rows: u32,
    grid: &[Option<u32>],
) -> Result<u64, Memory>
    requires { rows ≡ length grid.now / columns }
    ensures { IfOk result (λ wires. wires ≡ wire_count (fabric_of types.now columns grid.now)) }
{
    let mut wires: u64 = 0;
    for x in 0..columns {
        let more = column_wires(types, columns, rows, grid, x)?;
        wires = wires.checked_add(more).ok_or(Memory)?;
    }
    Ok(wires)
}
