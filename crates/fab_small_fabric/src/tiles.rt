//! The tile types: one with two pads and one with a LUT.

ghost use Rattle.std.specs.Prelude.{◌≡◌, Some, IfOk, All};
ghost use Rattle.fab_fabric.specs.Examples.{bel_of, lut_bels, lut_pairs, lut_rows, lut_table, pad_bels, pad_pairs, pad_rows, pad_table, pair_of, row_of, tile_with};
ghost use Rattle.fab_model.specs.Tiles.{bare_tile, IsPair, IsTile};
ghost use Rattle.fab_small_fabric.specs.Tiles.{pads_with, lut_with};

use fab_base::{Memory, Name};
use fab_kinds::Kind;
use fab_model::{Bel, Dir, FrameTable, Pair, TileType, WireRow};
use std::alloc::Global;

fn named(alloc: Global, name: &[u8]) -> Result<Option<Name>, Memory>
    ensures { IfOk result (λ side. side ≡ Some name.now) }
{
    Ok(Some(Name::of(alloc, name)?))
}

fn row_of(dir: Dir, source: Option<Name>, span: u32, dest: Option<Name>, count: u32) -> WireRow
    ensures { result ≡ row_of dir source span dest count }
{
    WireRow {
        dir,
        source,
        span,
        dest,
        count,
    }
}

fn bel_of(alloc: Global, kind: Kind, prefix: &[u8]) -> Result<Bel, Memory>
    ensures { IfOk result (λ bel. bel ≡ bel_of kind prefix.now) }
{
    let prefix = Name::of(alloc, prefix)?;
    Ok(Bel { kind, prefix })
}

fn pair_of(output: u32, input: u32) -> Pair
    ensures { result ≡ pair_of output input }
{
    Pair { output, input }
}

fn tile_with(
    alloc: Global,
    name: &[u8],
    rows: Vec<WireRow>,
    bels: Vec<Bel>,
    pairs: Vec<Pair>,
    places: Vec<(u8, u8)>,
) -> Result<TileType, Memory>
    requires is_tile { IsTile (bare_tile name.now rows.items bels.items) }
    requires pairs { All (IsPair (bare_tile name.now rows.items bels.items)) pairs.items }
    ensures { IfOk result (λ tile. tile ≡ tile_with name.now rows.items bels.items pairs.items places.items) }
{
    let name = Name::of(alloc, name)?;
    let mut tile = TileType::new(alloc, name, rows, bels)?;
    tile.set_pairs(alloc, pairs)?;
    tile.set_table(FrameTable::from(places));
    Ok(tile)
}

fn pad_rows(alloc: Global) -> Result<Vec<WireRow>, Memory>
    ensures { IfOk result (λ rows. rows.items ≡ pad_rows) }
{
    let mut rows = Vec::new(alloc);
    rows.push(row_of(Dir::East, named(alloc, b"E1BEG")?, 1, None, 2))?;
    rows.push(row_of(Dir::West, None, 1, named(alloc, b"W1END")?, 1))?;
    rows.push(row_of(Dir::Jump, None, 0, named(alloc, b"GND")?, 1))?;
    rows.push(row_of(Dir::Jump, None, 0, named(alloc, b"VCC")?, 1))?;
    Ok(rows)
}

fn pad_bels(alloc: Global) -> Result<Vec<Bel>, Memory>
    ensures { IfOk result (λ bels. bels.items ≡ pad_bels) }
{
    let mut bels = Vec::new(alloc);
    bels.push(bel_of(alloc, Kind::Io, b"A_")?)?;
    bels.push(bel_of(alloc, Kind::Io, b"B_")?)?;
    Ok(bels)
}

fn pad_pairs(alloc: Global) -> Result<Vec<Pair>, Memory>
    ensures { IfOk result (λ pairs. pairs.items ≡ pad_pairs) }
{
    let pairs = vec![in alloc;
        pair_of(0, 7),
        pair_of(1, 11),
        pair_of(5, 2),
        pair_of(9, 2),
        pair_of(6, 3),
        pair_of(10, 3),
        pair_of(6, 4),
        pair_of(10, 4),
    ]?;
    Ok(pairs)
}

fn lut_rows(alloc: Global) -> Result<Vec<WireRow>, Memory>
    ensures { IfOk result (λ rows. rows.items ≡ lut_rows) }
{
    let mut rows = Vec::new(alloc);
    rows.push(row_of(Dir::East, None, 1, named(alloc, b"E1END")?, 2))?;
    rows.push(row_of(Dir::West, named(alloc, b"W1BEG")?, 1, None, 1))?;
    rows.push(row_of(
        Dir::Jump,
        named(alloc, b"J_BEG")?,
        0,
        named(alloc, b"J_END")?,
        1,
    ))?;
    rows.push(row_of(Dir::Jump, None, 0, named(alloc, b"GND")?, 1))?;
    rows.push(row_of(Dir::Jump, None, 0, named(alloc, b"VCC")?, 1))?;
    Ok(rows)
}

fn lut_bels(alloc: Global) -> Result<Vec<Bel>, Memory>
    ensures { IfOk result (λ bels. bels.items ≡ lut_bels) }
{
    let mut bels = Vec::new(alloc);
    bels.push(bel_of(alloc, Kind::Lut4c, b"LA_")?)?;
    Ok(bels)
}

fn lut_pairs(alloc: Global) -> Result<Vec<Pair>, Memory>
    ensures { IfOk result (λ pairs. pairs.items ≡ lut_pairs) }
{
    let pairs = vec![in alloc;
        pair_of(7, 0),
        pair_of(7, 1),
        pair_of(7, 14),
        pair_of(8, 1),
        pair_of(9, 14),
        pair_of(10, 14),
        pair_of(11, 4),
        pair_of(12, 5),
        pair_of(13, 6),
        pair_of(3, 4),
        pair_of(2, 14),
    ]?;
    Ok(pairs)
}

/// A tile with two pads, whose two configuration bits have these places.
pub fn pads_with(alloc: Global, places: Vec<(u8, u8)>) -> Result<TileType, Memory>
    ensures { IfOk result (λ tile. tile ≡ pads_with places.items) }
{
    let rows = pad_rows(alloc)?;
    let bels = pad_bels(alloc)?;
    let pairs = pad_pairs(alloc)?;
    let tile = tile_with(alloc, b"IO", rows, bels, pairs, places)?;
    Ok(tile)
}

/// A tile with a LUT, whose 21 configuration bits have these places.
pub fn lut_with(alloc: Global, places: Vec<(u8, u8)>) -> Result<TileType, Memory>
    ensures { IfOk result (λ tile. tile ≡ lut_with places.items) }
{
    let rows = lut_rows(alloc)?;
    let bels = lut_bels(alloc)?;
    let pairs = lut_pairs(alloc)?;
    let tile = tile_with(alloc, b"LOG", rows, bels, pairs, places)?;
    Ok(tile)
}

/// The places of the two configuration bits of a tile with pads that has no table of its own.
pub fn pad_table(alloc: Global) -> Result<Vec<(u8, u8)>, Memory>
    ensures { IfOk result (λ places. places.items ≡ pad_table) }
{
    let places = vec![in alloc; (0, 30), (0, 31)]?;
    Ok(places)
}

/// The places of the 21 configuration bits of a tile with a LUT that has no table of its own.
pub fn lut_table(alloc: Global) -> Result<Vec<(u8, u8)>, Memory>
    ensures { IfOk result (λ places. places.items ≡ lut_table) }
{
    let places = vec![in alloc;
        (0, 11),
        (0, 12),
        (0, 13),
        (0, 14),
        (0, 15),
        (0, 16),
        (0, 17),
        (0, 18),
        (0, 19),
        (0, 20),
        (0, 21),
        (0, 22),
        (0, 23),
        (0, 24),
        (0, 25),
        (0, 26),
        (0, 27),
        (0, 28),
        (0, 29),
        (0, 30),
        (0, 31),
    ]?;
    Ok(places)
}
