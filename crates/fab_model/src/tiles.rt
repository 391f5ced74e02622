//! Tile types.

ghost use Rattle.std.specs.Prelude.{◌≡◌, ◌<◌, Some, IfOk, OnErr, OnOk, All, length, position, slice_get, sum_by};
ghost use Rattle.fab_kinds.specs.Pins.{bit_count};
ghost use Rattle.std.specs.Str.{bytes_eq};
ghost use Rattle.fab_model.specs.Rows.{border_bits, side_bits, source_bits, dest_bits};
ghost use Rattle.fab_model.specs.Tiles.{bare_tile, with_pairs, with_table, matrix_names, bel_field, tile_bits, output_field, IsTile, IsPair};

use crate::fields::{Fields, bel_fields_of, fields_of};
use crate::numbering::{place_of, places_of};
use fab_base::{Memory, Name};
use fab_kinds::Kind;
use fab_select::Pair;
use indexmap::IndexSet;
use std::alloc::Global;
use std::marker::Model;

/// The direction in which the wires of a row go. X grows to the east and Y grows downward.
#[derive(Clone, Copy, Debug, PartialEq, Eq)]
pub enum Dir {
    North,
    East,
    South,
    West,
    /// The wires stay in their tile.
    Jump,
}

/// A row of wires of a tile type. Without a source the wires have no begin in the tile, and without a destination no end.
#[derive(Debug, Drop)]
pub struct WireRow {
    pub dir: Dir,
    pub source: Option<Name>,
    /// How many tiles a wire goes, at most 31; 0 for a jump.
    pub span: u32,
    pub dest: Option<Name>,
    /// How many wires begin in each tile.
    pub count: u32,
}

impl WireRow {
    /// How many of its wires cross each border of the tile that they cross.
    pub fn border_bits(&self) -> u64
        ensures { result ≡ border_bits self.now }
    {
        u64::from(self.span) * u64::from(self.count)
    }

    /// How many matrix outputs it has.
    pub fn source_bits(&self) -> u64
        ensures { result ≡ source_bits self.now }
    {
        self.side_bits(&self.source, &self.dest)
    }

    /// How many matrix inputs it has.
    pub fn dest_bits(&self) -> u64
        ensures { result ≡ dest_bits self.now }
    {
        self.side_bits(&self.dest, &self.source)
    }

    fn side_bits(&self, side: &Option<Name>, other: &Option<Name>) -> u64
        ensures { result ≡ side_bits self.now side.now other.now }
    {
        if side.is_none() {
            0
        } else if self.dir == Dir::Jump || other.is_some() {
            u64::from(self.count)
        } else {
            self.border_bits()
        }
    }
}

/// A BEL of a tile type. Its pins are named by the prefix and the pin.
#[derive(Debug, Drop)]
pub struct Bel {
    pub kind: Kind,
    pub prefix: Name,
}

/// The frame and the bit in it of each configuration bit of a tile.
#[derive(Debug, Drop)]
pub struct FrameTable {
    places: Vec<(u8, u8)>,
}

impl Model for FrameTable {
    ghost use Rattle.std.specs.Prelude.{ℕ, List};

    ghost Value = { List (ℕ × ℕ) };

    ghost view = { λ table. table.places.items };
}

impl From<Vec<(u8, u8)>> for FrameTable {
    ghost from_gives = { λ places table. table ≡ places.items };

    fn from(places: Vec<(u8, u8)>) -> FrameTable {
        FrameTable { places }
    }
}

impl FrameTable {
    /// The frame and the bit in it of each configuration bit.
    pub fn places(&self) -> &[(u8, u8)]
        ensures { result.now ≡ self.now }
    {
        &self.places
    }
}

/// A tile type: its wires, its BELs, the pairs of its switch matrix by matrix name numbers, and the places of its
/// configuration bits.
#[derive(Debug, Drop)]
pub struct TileType {
    name: Name,
    rows: Vec<WireRow>,
    bels: Vec<Bel>,
    pairs: Vec<Pair>,
    table: FrameTable,
    // the matrix names, each at its number
    places: IndexSet<Vec<u8>>,
    // the first configuration bit of each BEL and how many it has
    bel_fields: Vec<(u32, u32)>,
    fields: Fields,
}

impl Model for TileType {
    ghost use Rattle.fab_model.specs.Tiles.{PlainTile};
    ghost use Rattle.fab_kinds.specs.fab_bits.specs.Keys.{key_names};
    ghost use Rattle.fab_model.specs.inner.Numbering.{HasTables};

    ghost Value = { PlainTile };

    ghost view = { λ tile. record { name = tile.name; rows = tile.rows.items; bels = tile.bels.items; pairs = tile.pairs.items; table = tile.table } };

    ghost invariant = { λ tile. HasTables
        (record { name = tile.name; rows = tile.rows.items; bels = tile.bels.items; pairs = tile.pairs.items; table = tile.table })
        (key_names tile.places.keys) tile.bel_fields.items tile.fields.order.keys tile.fields.fields.items tile.fields.bits };
}

impl TileType {
    /// A tile type without pairs and without places of configuration bits.
    pub fn new(
        alloc: Global,
        name: Name,
        rows: Vec<WireRow>,
        bels: Vec<Bel>,
    ) -> Result<TileType, Memory>
        requires { IsTile (bare_tile name rows.items bels.items) }
        ensures { IfOk result (λ tile. tile ≡ bare_tile name rows.items bels.items) }
    {
        let places = places_of(alloc, &rows, &bels)?;
        let bel_fields = bel_fields_of(alloc, &bels)?;
        let first = bel_bits(&bels)?;
        let fields = fields_of(alloc, first, 0, &[])?;
        Ok(TileType {
            name,
            rows,
            bels,
            pairs: Vec::new(alloc),
            table: FrameTable::from(Vec::new(alloc)),
            places,
            bel_fields,
            fields,
        })
    }

    /// Gives it the pairs of its switch matrix. It stays as it was where memory is refused, which is also the answer where the
    /// configuration bits are too many for 32 bits.
    pub fn set_pairs(&mut self, alloc: Global, pairs: Vec<Pair>) -> Result<(), Memory>
        requires { All (IsPair self.old) pairs.items }
        ensures set { OnOk result (self.new ≡ with_pairs self.old pairs.items) }
        ensures kept { OnErr result (self.new ≡ self.old) }
    {
        let first = bel_bits(&self.bels)?;
        let fields = fields_of(alloc, first, self.places.len(), &pairs)?;
        self.pairs = pairs;
        self.fields = fields;
        Ok(())
    }

    /// Gives it the places of its configuration bits.
    pub fn set_table(&mut self, table: FrameTable)
        ensures { self.new ≡ with_table self.old table }
    {
        self.table = table;
    }

    /// Its name.
    pub fn name(&self) -> &Name
        ensures { result.now ≡ self.now.name }
    {
        &self.name
    }

    /// Its rows of wires in their order.
    pub fn rows(&self) -> &[WireRow]
        ensures rows { result.now ≡ self.now.rows }
        ensures is_tile { IsTile self.now }
    {
        &self.rows
    }

    /// Its BELs in their order.
    pub fn bels(&self) -> &[Bel]
        ensures { result.now ≡ self.now.bels }
    {
        &self.bels
    }

    /// The pairs of its switch matrix.
    pub fn pairs(&self) -> &[Pair]
        ensures pairs { result.now ≡ self.now.pairs }
        ensures is_tile { IsTile self.now }
    {
        &self.pairs
    }

    /// The places of its configuration bits.
    pub fn table(&self) -> &FrameTable
        ensures { result.now ≡ self.now.table }
    {
        &self.table
    }

    /// How many matrix names it has.
    pub fn matrix_names(&self) -> u32
        ensures count { result ≡ length (matrix_names self.now) }
        ensures is_tile { IsTile self.now }
    {
        self.places.len() as u32
    }

    /// The matrix name of a number.
    pub fn matrix_name(&self, alloc: Global, number: u32) -> Result<Name, Memory>
        requires { number < length (matrix_names self.now) }
        ensures { IfOk result (λ name. slice_get (matrix_names self.now) number ≡ Some name) }
    {
        Name::of(alloc, &self.places.as_slice()[number as usize])
    }

    /// The number of a matrix name; none where the tile has no such name.
    pub fn number_of(&self, name: &[u8]) -> Option<u32>
        ensures { result ≡ position (bytes_eq name.now) (matrix_names self.now) }
    {
        let place = place_of(&self.places, name)?;
        Some(place as u32)
    }

    /// The first configuration bit of a matrix output and how many it has; (0, 0) where it has none.
    pub fn field(&self, output: u32) -> (u32, u32)
        ensures { result ≡ output_field self.now output }
    {
        let Some(place) = self.fields.order.get_index_of(&output) else {
            return (0, 0);
        };
        let (low, width) = self.fields.fields[place];
        if width == 0 { (0, 0) } else { (low, width) }
    }

    /// The first configuration bit of a BEL and how many it has; (0, 0) where there is no such BEL.
    pub fn bel_field(&self, bel: usize) -> (u32, u32)
        ensures { result ≡ bel_field self.now bel }
    {
        if bel < self.bel_fields.len() {
            self.bel_fields[bel]
        } else {
            (0, 0)
        }
    }

    /// How many configuration bits it has.
    pub fn bits(&self) -> u32
        ensures { result ≡ tile_bits self.now }
    {
        self.fields.bits
    }
}

// The configuration bits of BELs; want of memory where they are too many to count.
fn bel_bits(bels: &[Bel]) -> Result<u32, Memory>
    ensures { IfOk result (λ bits. bits ≡ sum_by (λ bel. bit_count bel.kind) bels.now) }
{
    let mut bits: u32 = 0;
    for bel in bels {
        bits = bits.checked_add(bel.kind.bits()).ok_or(Memory)?;
    }
    Ok(bits)
}
