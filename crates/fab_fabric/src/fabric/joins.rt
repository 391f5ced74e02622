//! The joins of a fabric's wires, followed from tile to tile.

ghost use Rattle.std.specs.Prelude.{◌≡◌, ◌<◌, ◌+◌, ◌^◌, ◌↔◌, ℕ, Some, IfSome, option_map, option_and_then};
ghost use Rattle.fab_model.specs.declared.tiles.Dir.{Dir};
ghost use Rattle.fab_model.specs.Rows.{source_bits, dest_bits, border_bits};
ghost use Rattle.fab_model.specs.Wires.{PlainWire, HasWire, source_of, dest_of};
ghost use Rattle.fab_model.specs.Cascade.{step, opposite, next_row, previous_row, nth_row, fitting, passing_bits, ends_there, walk_to, walk_from, row_join_to, row_join_from, join_to, join_from, placed_row};
ghost use Rattle.fab_model.specs.Grid.{tile_at};
ghost use Rattle.fab_fabric.specs.Fabric.{AreTiles, wire_count};
ghost use Rattle.fab_fabric.specs.Wires.{IsIndexOf, wire_join_to, wire_join_from, numbered_wire, index_of};
ghost use Rattle.fab_fabric.specs.inner.Index.{has_side};
ghost use Rattle.fab_fabric.specs.declared.fabric.joins.RowAt.{RowAt};
ghost use Rattle.fab_fabric.specs.Walks.{place_of, found_bit, HasRow, FindsRow, placed_at, row_at, both_sides};

use super::Fabric;
use crate::ends::Side;
use crate::index::TileWire;
use crate::wire::Wire;
use fab_model::{Dir, WireRow};

/// A row of the tile at a place.
#[derive(Clone, Copy, Debug)]
pub struct RowAt {
    pub x: u32,
    pub y: u32,
    pub row: usize,
}

impl Fabric {
    /// The matrix input to which a matrix output is joined; none where it is joined to none, and for other wires.
    pub fn join_to(&self, wire: Wire) -> Option<Wire>
        requires { wire.0 < wire_count self.now }
        ensures join { (x y : ℕ) (plain : PlainWire) → IsIndexOf self.now wire.0 x y plain → result ≡ wire_join_to self.now x y plain }
        ensures within { IfSome result (λ input. input.0 < wire_count self.now) }
    {
        let (x, y, number) = self.spot(wire);
        let TileWire::Source(row, bit) = self.tile_wire(x, y, number) else {
            return None;
        };
        let (there, dest) = self.row_join_to(RowAt { x, y, row }, bit)?;
        Some(self.dest_wire(there, dest))
    }

    /// The matrix output that is joined to a matrix input; none where none is, and for other wires.
    pub fn join_from(&self, wire: Wire) -> Option<Wire>
        requires { wire.0 < wire_count self.now }
        ensures join { (x y : ℕ) (plain : PlainWire) → IsIndexOf self.now wire.0 x y plain → result ≡ wire_join_from self.now x y plain }
        ensures within { IfSome result (λ output. output.0 < wire_count self.now) }
    {
        let (there, bit) = self.dest_at(wire)?;
        let (from, source) = self.row_join_from(there, bit)?;
        Some(self.source_wire(from, source))
    }

    /// The destination bit that a wire is; none for other wires.
    pub fn dest_at(&self, wire: Wire) -> Option<(RowAt, u64)>
        requires { wire.0 < wire_count self.now }
        ensures dest { (at : RowAt) (bit : ℕ) → (result ≡ Some (at, bit)) ↔ IsIndexOf self.now wire.0 at.x at.y (dest_of at.row bit) }
        ensures stands { IfSome result (λ found. HasRow self.now found.0) }
    {
        let (x, y, number) = self.spot(wire);
        match self.tile_wire(x, y, number) {
            TileWire::Dest(row, bit) => Some((RowAt { x, y, row }, bit)),
            _ => None,
        }
    }

    // The destination bit to which a source bit is joined.
    fn row_join_to(&self, here: RowAt, source: u64) -> Option<(RowAt, u64)>
        requires { HasWire self.now here.x here.y (source_of here.row source) }
        ensures join { option_map found_bit result ≡ join_to self.now (place_of here) source }
        ensures are_tiles { AreTiles self.now }
    {
        let row = self.row(here);
        if row.dir == Dir::Jump {
            return other_side(row, here, source);
        }
        let from = self.next_row(here);
        self.walk_to(from, passing_bits(row) + source, row.border_bits())
    }

    /// The source bit that is joined to a destination bit.
    pub fn row_join_from(&self, there: RowAt, dest: u64) -> Option<(RowAt, u64)>
        requires { HasWire self.now there.x there.y (dest_of there.row dest) }
        ensures join { option_map found_bit result ≡ join_from self.now (place_of there) dest }
        ensures are_tiles { AreTiles self.now }
    {
        let row = self.row(there);
        if row.dir == Dir::Jump {
            return other_side(row, there, dest);
        }
        let from = self.previous_row(there);
        self.walk_from(from, dest, row.border_bits())
    }

    // Follows a border bit from a row to the row where it ends, over so many borders at most.
    fn walk_to(&self, from: Option<RowAt>, bit: u64, borders: u64) -> Option<(RowAt, u64)>
        requires { IfSome from (HasRow self.now) }
        ensures { option_map found_bit result ≡ walk_to self.now borders (placed_at self.now from) bit }
    {
        let mut here = from?;
        let mut rest = bit;
        for _border in 0..borders {
            let row = self.row(here);
            if ends_there(row, rest) {
                return Some((here, rest));
            }
            rest -= u64::from(row.count);
            here = self.next_row(here)?;
        }
        None
    }

    // Follows a border bit from a row back to the row where it begins, over so many borders at most.
    fn walk_from(&self, from: Option<RowAt>, bit: u64, borders: u64) -> Option<(RowAt, u64)>
        requires { IfSome from (HasRow self.now) }
        ensures { option_map found_bit result ≡ walk_from self.now borders (placed_at self.now from) bit }
    {
        let mut here = from?;
        let mut rest = bit;
        for _border in 0..borders {
            let row = self.row(here);
            let passing = passing_bits(row);
            if rest >= passing {
                return Some((here, rest - passing));
            }
            rest += u64::from(row.count);
            here = self.previous_row(here)?;
        }
        None
    }

    // The row to which the bits of a row go.
    fn next_row(&self, here: RowAt) -> Option<RowAt>
        requires { HasRow self.now here }
        ensures { FindsRow self.now result (option_and_then (next_row self.now) (placed_row self.now (place_of here))) }
    {
        let (tile, index) = self.tile_at(here.x, here.y)?;
        let row = &tile.rows()[here.row];
        let (x, y) = step(row.dir, here.x, here.y)?;
        let before = index.ends(Side::Source, row.dir).before[here.row];
        self.fitting_row(x, y, Side::Dest, row, before)
    }

    /// The row from which the bits of a row with a destination come; none where no such row stands next door, or one with another number
    /// of border bits.
    pub fn previous_row(&self, here: RowAt) -> Option<RowAt>
        requires { HasRow self.now here }
        ensures { FindsRow self.now result (option_and_then (previous_row self.now) (placed_row self.now (place_of here))) }
    {
        let (tile, index) = self.tile_at(here.x, here.y)?;
        let row = &tile.rows()[here.row];
        let (x, y) = step(opposite(row.dir), here.x, here.y)?;
        let before = index.ends(Side::Dest, row.dir).before[here.row];
        self.fitting_row(x, y, Side::Source, row, before)
    }

    // The row of the tile at a place that has this number among those of a row's direction with a side, if it has as many
    // border bits as that row.
    fn fitting_row(&self, x: u32, y: u32, side: Side, row: &WireRow, number: usize) -> Option<RowAt>
        ensures { FindsRow self.now result (option_and_then
            (λ tile. option_and_then (fitting (border_bits row.now) x y tile) (nth_row (has_side side row.now.dir) tile.rows 0 number))
            (tile_at self.now x y)) }
    {
        let (tile, index) = self.tile_at(x, y)?;
        let found = *index.ends(side, row.dir).rows.get(number)?;
        if tile.rows()[found].border_bits() != row.border_bits() {
            return None;
        }
        Some(RowAt { x, y, row: found })
    }

    /// The row that stands at a place.
    pub fn row(&self, at: RowAt) -> &WireRow
        requires { HasRow self.now at }
        ensures row { row_at self.now at ≡ Some result.now }
        ensures are_tiles { AreTiles self.now }
    {
        match self.tile_at(at.x, at.y) {
            Some((tile, _)) => &tile.rows()[at.row],
            None => unreachable!(),
        }
    }

    // The wire of a destination bit.
    fn dest_wire(&self, at: RowAt, bit: u64) -> Wire
        requires { HasWire self.now at.x at.y (dest_of at.row bit) }
        ensures index { result ≡ numbered_wire (index_of self.now at.x at.y (dest_of at.row bit)) }
        ensures within { result.0 < wire_count self.now }
    {
        match self.tile_at(at.x, at.y) {
            Some((tile, index)) => {
                let number = index.starts[at.row] + tile.rows()[at.row].source_bits() + bit;
                self.wire_at(at.x, at.y, number as u32)
            }
            None => unreachable!(),
        }
    }

    /// The wire of a source bit.
    pub fn source_wire(&self, at: RowAt, bit: u64) -> Wire
        requires { HasWire self.now at.x at.y (source_of at.row bit) }
        ensures index { result ≡ numbered_wire (index_of self.now at.x at.y (source_of at.row bit)) }
        ensures within { result.0 < wire_count self.now }
    {
        match self.tile_at(at.x, at.y) {
            Some((_, index)) => self.wire_at(at.x, at.y, (index.starts[at.row] + bit) as u32),
            None => unreachable!(),
        }
    }
}

// Both sides of a jump have the same bits, if it has both.
fn other_side(row: &WireRow, at: RowAt, bit: u64) -> Option<(RowAt, u64)>
    ensures { result ≡ both_sides row.now at bit }
{
    if row.source.is_some() && row.dest.is_some() {
        Some((at, bit))
    } else {
        None
    }
}

// Whether a bit that comes into a row ends there.
fn ends_there(row: &WireRow, bit: u64) -> bool
    ensures { result ≡ ends_there row.now bit }
{
    row.source.is_none() || bit < u64::from(row.count)
}

// How many of the bits that go out of a row with both ends came into it.
fn passing_bits(row: &WireRow) -> u64
    ensures value { result ≡ passing_bits row.now }
    ensures room { result + row.now.count < 2 ^ 64 }
{
    let count = u64::from(row.count);
    if row.dest.is_some() {
        row.border_bits().saturating_sub(count)
    } else {
        0
    }
}

// The place one step in a direction.
fn step(dir: Dir, x: u32, y: u32) -> Option<(u32, u32)>
    requires x { x < 32 }
    requires y { y < 31 }
    ensures { result ≡ step dir x y }
{
    match dir {
        Dir::North => Some((x, y.checked_sub(1)?)),
        Dir::East => Some((x + 1, y)),
        Dir::South => Some((x, y + 1)),
        Dir::West => Some((x.checked_sub(1)?, y)),
        Dir::Jump => None,
    }
}

fn opposite(dir: Dir) -> Dir
    ensures { result ≡ opposite dir }
{
    match dir {
        Dir::North => Dir::South,
        Dir::East => Dir::West,
        Dir::South => Dir::North,
        Dir::West => Dir::East,
        Dir::Jump => Dir::Jump,
    }
}
