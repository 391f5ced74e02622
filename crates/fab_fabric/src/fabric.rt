//! Fabrics.

ghost use Rattle.std.specs.Prelude.{◌≡◌, ◌<◌, ◌≤◌, ◌+◌, ◌*◌, ◌/◌, ◌%◌, ℕ, Some, None, IfOk, IfSome, All, length, slice_get, slice_index_or, position, option_map, option_and_then};
ghost use Rattle.std.specs.Str.{bytes_eq};
ghost use Rattle.std.specs.Option.{MatchOption, option_map_or};
ghost use Rattle.fab_model.specs.Tiles.{IsTile, matrix_names};
ghost use Rattle.fab_model.specs.Wires.{PlainWire, HasWire, wire_number};
ghost use Rattle.fab_model.specs.Grid.{PlainFabric, tile_at};
ghost use Rattle.fab_fabric.specs.Sums.{sum_to};
ghost use Rattle.fab_fabric.specs.Fabric.{fabric_of, in_mode, IsFabric, AreTiles, wires_at, wire_count};
ghost use Rattle.fab_fabric.specs.Wires.{wire_index, numbered_wire, index_of, IsIndexOf};
ghost use Rattle.fab_fabric.specs.Bits.{bits_at};
ghost use Rattle.fab_fabric.specs.inner.Index.{plain_wire, place_wires, HasIndex, HaveIndexes, HasFirsts};

mod counting;
mod drives;
mod joins;
mod names;

use crate::index::{TileIndex, TileWire};
use crate::wire::{Site, Wire};
use fab_base::Memory;
use fab_model::fab_kinds::Kind;
use fab_model::{Mode, TileType};
pub use joins::RowAt;
pub use names::place_name;
use std::alloc::Global;
use std::marker::Model;

/// A fabric: its tile types, which of them stands at each place of its grid, and what keeps its configuration.
#[derive(Debug, Drop)]
pub struct Fabric {
    types: Vec<TileType>,
    columns: u32,
    rows: u32,
    // row by row, from the top
    grid: Vec<Option<u32>>,
    mode: Mode,
    // what is kept of each type
    indexes: Vec<TileIndex>,
    // the number of the first wire of each place, column by column
    firsts: Vec<u32>,
    wires: u32,
}

impl Model for Fabric {
    ghost use Rattle.fab_model.specs.Grid.{PlainFabric};
    ghost use Rattle.fab_fabric.specs.inner.Index.{IsIndexed};

    ghost Value = { PlainFabric };

    ghost view = { λ fabric. record { types = fabric.types.items; columns = fabric.columns; rows = fabric.rows; grid = fabric.grid.items; mode = fabric.mode } };

    ghost invariant = { λ fabric. IsIndexed
        (record { types = fabric.types.items; columns = fabric.columns; rows = fabric.rows; grid = fabric.grid.items; mode = fabric.mode })
        fabric.indexes.items fabric.firsts.items fabric.wires };
}

impl Fabric {
    /// The fabric of these types, with so many columns, whose configuration frames keep. The grid lists its places row by row
    /// from the top; a place has the number of a type or is empty.
    pub fn new(
        alloc: Global,
        types: Vec<TileType>,
        columns: u32,
        grid: Vec<Option<u32>>,
    ) -> Result<Fabric, Memory>
        requires { IsFabric (fabric_of types.items columns grid.items) }
        ensures { IfOk result (λ fabric. fabric ≡ fabric_of types.items columns grid.items) }
    {
        Fabric::with_mode(alloc, types, columns, grid, Mode::Frames)
    }

    /// The fabric of these types, columns and places whose configuration is kept in this mode.
    pub fn with_mode(
        alloc: Global,
        types: Vec<TileType>,
        columns: u32,
        grid: Vec<Option<u32>>,
        mode: Mode,
    ) -> Result<Fabric, Memory>
        requires { IsFabric (fabric_of types.items columns grid.items) }
        ensures { IfOk result (λ fabric. fabric ≡ in_mode mode (fabric_of types.items columns grid.items)) }
    {
        let rows = (grid.len() / columns as usize) as u32;
        let indexes = indexes_of(alloc, &types)?;
        let (firsts, wires) = firsts_of(alloc, &types, columns, rows, &grid)?;
        Ok(Fabric {
            types,
            columns,
            rows,
            grid,
            mode,
            indexes,
            firsts,
            wires,
        })
    }

    /// Its tile types.
    pub fn types(&self) -> &[TileType]
        ensures types { result.now ≡ self.now.types }
        ensures is_fabric { IsFabric self.now }
        ensures are_tiles { AreTiles self.now }
    {
        &self.types
    }

    /// States what holds of every fabric, for the calls that rest on it. It does nothing.
    pub fn is_well_made(&self)
        ensures is_fabric { IsFabric self.now }
        ensures are_tiles { AreTiles self.now }
    {
        let _ = &self.types;
    }

    /// How many columns its grid has.
    pub fn columns(&self) -> u32
        ensures { result ≡ self.now.columns }
    {
        self.columns
    }

    /// How many rows its grid has.
    pub fn rows(&self) -> u32
        ensures { result ≡ self.now.rows }
    {
        self.rows
    }

    /// The places of its grid row by row, from the top: each has the number of a type or is empty.
    pub fn grid(&self) -> &[Option<u32>]
        ensures { result.now ≡ self.now.grid }
    {
        &self.grid
    }

    /// What keeps its configuration.
    pub fn mode(&self) -> Mode
        ensures { result ≡ self.now.mode }
    {
        self.mode
    }

    /// How many wires it has.
    pub fn wires(&self) -> u32
        ensures { result ≡ wire_count self.now }
    {
        self.wires
    }

    /// The number of the type of the tile at a place; none where the place is empty.
    pub fn type_at(&self, x: u32, y: u32) -> Option<u32>
        requires x { x < self.now.columns }
        requires y { y < self.now.rows }
        ensures { slice_get self.now.grid (y * self.now.columns + x) ≡ Some result }
    {
        self.grid[(y * self.columns + x) as usize]
    }

    /// The column, the row and the matrix name number of a wire.
    pub fn spot(&self, wire: Wire) -> (u32, u32, u32)
        requires { wire.0 < wire_count self.now }
        ensures number { result.2 < wires_at self.now result.0 result.1 }
        ensures index { wire.0 ≡ wire_index self.now result.0 result.1 result.2 }
    {
        let place = self.firsts.partition_point(|first| *first <= wire.0) - 1;
        let rows = self.rows as usize;
        (
            (place / rows) as u32,
            (place % rows) as u32,
            wire.0 - self.firsts[place],
        )
    }

    /// The wire that has a matrix name number in the tile at a place.
    pub fn wire_at(&self, x: u32, y: u32, number: u32) -> Wire
        requires { number < wires_at self.now x y }
        ensures index { result ≡ numbered_wire (wire_index self.now x y number) }
        ensures within { result.0 < wire_count self.now }
    {
        Wire(self.firsts[(x * self.rows + y) as usize] + number)
    }

    /// The wire of a matrix name in the tile at a place; none where the place is empty, or the tile has no such name.
    pub fn wire_of(&self, x: u32, y: u32, name: &[u8]) -> Option<Wire>
        ensures named { result ≡ option_map (λ number. numbered_wire (wire_index self.now x y number))
            (option_and_then (λ tile. position (bytes_eq name.now) (matrix_names tile)) (tile_at self.now x y)) }
        ensures within { IfSome result (λ wire. wire.0 < wire_count self.now) }
    {
        let (tile, _) = self.tile_at(x, y)?;
        let number = tile.number_of(name)?;
        Some(self.wire_at(x, y, number))
    }

    /// The kind of the BEL at a site; none where there is no such site.
    pub fn kind_at(&self, site: Site) -> Option<Kind>
        ensures { result ≡ option_map (λ bel. bel.kind)
            (option_and_then (λ tile. slice_get tile.bels site.bel) (tile_at self.now site.x site.y)) }
    {
        let (tile, _) = self.tile_at(site.x, site.y)?;
        let bel = tile.bels().get(site.bel as usize)?;
        Some(bel.kind)
    }

    /// How many configuration bits a place has.
    pub fn bits_at(&self, x: u32, y: u32) -> u32
        ensures { result ≡ bits_at self.now x y }
    {
        match self.tile_at(x, y) {
            Some((tile, _)) => tile.bits(),
            None => 0,
        }
    }

    // The tile at a place and what is kept of its type; none where there is no tile.
    fn tile_at(&self, x: u32, y: u32) -> Option<(&TileType, &TileIndex)>
        ensures are_tiles { AreTiles self.now }
        ensures small { IfSome result (λ _. (x < 32) × (y < 31)) }
        ensures few_bels { IfSome result (λ found. length found.0.now.bels ≤ 26) }
        ensures found { MatchOption result (tile_at self.now x y ≡ None)
            (λ found. (tile_at self.now x y ≡ Some found.0.now) × HasIndex found.0.now found.1.now) }
    {
        if x >= self.columns || y >= self.rows {
            return None;
        }
        let number = self.grid[(y * self.columns + x) as usize]? as usize;
        Some((&self.types[number], &self.indexes[number]))
    }

    // The wire of the tile at a place that has a matrix name number.
    fn tile_wire(&self, x: u32, y: u32, number: u32) -> TileWire
        requires { number < wires_at self.now x y }
        ensures { IsIndexOf self.now (wire_index self.now x y number) x y (plain_wire result) }
    {
        match self.tile_at(x, y) {
            Some((_, index)) => index.wires[number as usize],
            None => unreachable!(),
        }
    }
}

// What is kept of each type.
fn indexes_of(alloc: Global, types: &[TileType]) -> Result<Vec<TileIndex>, Memory>
    ensures indexes { IfOk result (λ indexes. HaveIndexes types.now indexes.items) }
    ensures are_tiles { IfOk result (λ indexes. All IsTile types.now) }
{
    let mut indexes = Vec::new(alloc);
    for tile in types {
        indexes.push(TileIndex::of(alloc, tile)?)?;
    }
    Ok(indexes)
}

// The number of the first wire of each place, column by column, and how many wires there are.
fn firsts_of(
    alloc: Global,
    types: &[TileType],
    columns: u32,
    rows: u32,
    grid: &[Option<u32>],
) -> Result<(Vec<u32>, u32), Memory>
    requires rows { rows ≡ length grid.now / columns }
    requires is_fabric { IsFabric (fabric_of types.now columns grid.now) }
    ensures firsts { IfOk result (λ found. HasFirsts (fabric_of types.now columns grid.now) found.0.items) }
    ensures wires { IfOk result (λ found. found.1 ≡ wire_count (fabric_of types.now columns grid.now)) }
{
    let mut firsts = Vec::new(alloc);
    let mut first = 0;
    for place in 0..columns * rows {
        firsts.push(first)?;
        first += wires_in(types, columns, rows, grid, place / rows, place % rows);
    }
    Ok((firsts, first))
}

// How many wires a place has.
fn wires_in(
    types: &[TileType],
    columns: u32,
    rows: u32,
    grid: &[Option<u32>],
    x: u32,
    y: u32,
) -> u32
    requires rows { rows ≡ length grid.now / columns }
    requires is_fabric { IsFabric (fabric_of types.now columns grid.now) }
    requires x { x < columns }
    requires y { y < rows }
    ensures { result ≡ wires_at (fabric_of types.now columns grid.now) x y }
{
    match grid[(y * columns + x) as usize] {
        Some(number) => types[number as usize].matrix_names(),
        None => 0,
    }
}
