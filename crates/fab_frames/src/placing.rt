//! Which configuration bit is placed at which bit of which word.

ghost use Rattle.std.specs.Prelude.{◌≡◌, ◌<◌, IfOk};
ghost use Rattle.fab_model.specs.declared.mode.Mode.TheVariants as modes;
ghost use Rattle.fab_model.specs.Tables.{HasTable};
ghost use Rattle.fab_frames.specs.Positions.{chain};
ghost use Rattle.fab_frames.specs.Stream.{stream_mode};
ghost use Rattle.fab_frames.specs.inner.Placing.{IsMap, HaveMaps, IsPlacedRow, HavePlaces};
ghost use Rattle.fab_frames.specs.inner.Taking.{plain_part, placed_by, IsWithin};

use crate::plan::{Part, WORD_BITS, stream_mode};
use crate::positions::{BitPlace, chain};
use fab_base::Memory;
use fab_fabric::Fabric;
use fab_model::{Mode, TileType};
use std::alloc::Global;

// How many bits all frames have for each row of the grid.
const ALL_BITS: usize = 640;

/// Frame by frame the configuration bit of a tile type that is placed at each bit.
#[derive(Debug, Drop)]
pub struct FrameMap {
    pub placed: Vec<Option<u32>>,
}

impl FrameMap {
    /// The map of a tile type.
    pub fn of(alloc: Global, tile: &TileType) -> Result<FrameMap, Memory>
        requires { HasTable tile.now }
        ensures { IfOk result (λ map. IsMap tile.now map.placed.items) }
    {
        let mut placed = vec![in alloc; None; ALL_BITS]?;
        let places = tile.table().places();
        for number in 0..tile.bits() {
            let (frame, bit) = places[number as usize];
            placed[usize::from(frame) * WORD_BITS + usize::from(bit)] = Some(number);
        }
        Ok(FrameMap { placed })
    }
}

// The maps of the tile types of a fabric.
fn frame_maps(alloc: Global, fabric: &Fabric) -> Result<Vec<FrameMap>, Memory>
    ensures { IfOk result (λ maps. HaveMaps fabric.now maps.items) }
{
    let mut maps = Vec::new(alloc);
    for tile in fabric.types() {
        maps.push(FrameMap::of(alloc, tile)?)?;
    }
    Ok(maps)
}

// The configuration bits that are placed in a row of a frame, bit by bit. Where there is no tile, none is.
fn placed_row<'a>(
    fabric: &Fabric,
    maps: &'a [FrameMap],
    x: u32,
    y: u32,
    frame: u32,
) -> &'a [Option<u32>]
    requires maps { HaveMaps fabric.now maps.now }
    requires x { x < fabric.now.columns }
    requires y { y < fabric.now.rows }
    requires frame { frame < 20 }
    ensures { IsPlacedRow fabric.now x y frame result.now }
{
    let Some(number) = fabric.type_at(x, y) else {
        return &[None; WORD_BITS];
    };
    let first = frame as usize * WORD_BITS;
    &maps[number as usize].placed[first..first + WORD_BITS]
}

// The configuration bits of a fabric by position; in frames none has one.
fn positions(alloc: Global, fabric: &Fabric) -> Result<Vec<BitPlace>, Memory>
    ensures { IfOk result (λ places. stream_mode fabric.now ≡ modes.Chain → places.items ≡ chain fabric.now) }
{
    match stream_mode(fabric) {
        Mode::Frames => Ok(Vec::new(alloc)),
        Mode::Chain => chain(alloc, fabric),
    }
}

/// What is kept of a fabric, so that no bit of a word takes a search.
#[derive(Debug, Drop)]
pub struct Places {
    /// The maps of its tile types.
    pub maps: Vec<FrameMap>,
    /// Its configuration bits by position, where they are a chain.
    pub chain: Vec<BitPlace>,
}

impl Places {
    /// What is kept of this fabric.
    pub fn of(alloc: Global, fabric: &Fabric) -> Result<Places, Memory>
        ensures { IfOk result (HavePlaces fabric.now) }
    {
        let maps = frame_maps(alloc, fabric)?;
        let chain = positions(alloc, fabric)?;
        Ok(Places { maps, chain })
    }

    /// The configuration bit that is placed at a bit of the word of a part; none is placed in words that are the same for all configurations.
    pub fn at(&self, fabric: &Fabric, part: Part, bit: usize) -> Option<BitPlace>
        requires places { HavePlaces fabric.now self.now }
        requires part { IsWithin fabric.now (plain_part part) }
        requires bit { bit < 32 }
        ensures { result ≡ placed_by fabric.now (plain_part part) bit }
    {
        match part {
            Part::Fixed(_) => None,
            Part::Row { x, y, frame } => {
                let number = placed_row(fabric, &self.maps, x, y, frame)[bit]?;
                Some(BitPlace { x, y, bit: number })
            }
            Part::Chain(word) => self.chain.get(WORD_BITS * word + bit).copied(),
        }
    }
}
