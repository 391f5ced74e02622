//! The words of a stream in their order, before the configuration bits are known.

ghost use Rattle.std.specs.Prelude.{◌≡◌, ◌++◌, ◌<◌, IfOk, OnOk, length, map, reverse};
ghost use Rattle.fab_model.specs.declared.mode.Mode.TheVariants as modes;
ghost use Rattle.fab_model.specs.Tiles.{counted};
ghost use Rattle.fab_fabric.specs.Fabric.{IsFabric};
ghost use Rattle.fab_frames.specs.Positions.{chain};
ghost use Rattle.fab_frames.specs.Stream.{stream_mode, fixed, waiting_words, synchronizing_words, address_word, frame_parts, column_parts, all_frames, of_chain, parts};
ghost use Rattle.fab_frames.specs.inner.Taking.{plain_part};

use fab_base::Memory;
use fab_fabric::Fabric;
use fab_model::Mode;
use std::alloc::Global;

/// How many bits a word has: as many as a frame has for each row of the grid.
pub const WORD_BITS: usize = 32;

// How many frames a column has.
const FRAMES: u32 = 20;

// Bit 20 in an address' place sets the loader waiting.
const WAITING_WORD: u32 = 0x0010_0000;

// In every state the loader takes at most 32 words as rows, so the last of these sets it waiting.
const WAITING_WORDS: u32 = 33;

// What stands between them and the first address. The last word wakes the loader.
const SYNCHRONIZING_WORDS: [u32; 5] = [0x00AA_FF01, 0x0000_0001, 0, 0, 0xFAB0_FAB1];

/// A word of a stream.
#[derive(Clone, Copy, Debug)]
pub enum Part {
    /// It is the same for all configurations.
    Fixed(u32),
    /// It has the configuration bits that are placed in a frame of the tile at a column and a row.
    Row { x: u32, y: u32, frame: u32 },
    /// It has the configuration bits of a chain from a position on. The word that comes last is counted as 0.
    Chain(usize),
}

/// The mode in which the words of a fabric's stream come: that of the fabric.
pub fn stream_mode(fabric: &Fabric) -> Mode
    ensures told { result ≡ stream_mode fabric.now }
    ensures mode { result ≡ fabric.now.mode }
{
    fabric.mode()
}

/// The words of a stream in their order. In a chain there are so many positions.
pub fn parts(alloc: Global, fabric: &Fabric, positions: usize) -> Result<Vec<Part>, Memory>
    requires is_fabric { IsFabric fabric.now }
    requires positions { stream_mode fabric.now ≡ modes.Chain → positions ≡ length (chain fabric.now) }
    ensures { IfOk result (λ found. map plain_part found.items ≡ parts fabric.now) }
{
    match stream_mode(fabric) {
        Mode::Frames => all_frames(alloc, fabric),
        Mode::Chain => whole_chain(alloc, positions.div_ceil(WORD_BITS)),
    }
}

// Those of a chain, the last of which is counted as 0.
fn whole_chain(alloc: Global, words: usize) -> Result<Vec<Part>, Memory>
    ensures { IfOk result (λ found. map plain_part found.items ≡ reverse (counted words of_chain)) }
{
    let mut parts = Vec::new(alloc);
    for word in (0..words).rev() {
        parts.push(Part::Chain(word))?;
    }
    Ok(parts)
}

// Those of all frames.
fn all_frames(alloc: Global, fabric: &Fabric) -> Result<Vec<Part>, Memory>
    requires { IsFabric fabric.now }
    ensures { IfOk result (λ found. map plain_part found.items ≡ all_frames fabric.now) }
{
    let mut parts = Vec::new(alloc);
    put_waiting(&mut parts)?;
    put_synchronizing(&mut parts)?;
    for x in 0..fabric.columns() {
        put_column(&mut parts, fabric, x)?;
    }
    parts.push(Part::Fixed(WAITING_WORD))?;
    Ok(parts)
}

fn put_waiting(parts: &mut Vec<Part>) -> Result<(), Memory>
    ensures { OnOk result (map plain_part parts.new.items ≡ map plain_part parts.old.items ++ map fixed waiting_words) }
{
    for _place in 0..WAITING_WORDS {
        parts.push(Part::Fixed(WAITING_WORD))?;
    }
    Ok(())
}

fn put_synchronizing(parts: &mut Vec<Part>) -> Result<(), Memory>
    ensures { OnOk result (map plain_part parts.new.items ≡ map plain_part parts.old.items ++ map fixed synchronizing_words) }
{
    for word in SYNCHRONIZING_WORDS {
        parts.push(Part::Fixed(word))?;
    }
    Ok(())
}

fn put_column(parts: &mut Vec<Part>, fabric: &Fabric, x: u32) -> Result<(), Memory>
    requires is_fabric { IsFabric fabric.now }
    requires x { x < fabric.now.columns }
    ensures { OnOk result (map plain_part parts.new.items ≡ map plain_part parts.old.items ++ column_parts fabric.now x) }
{
    for frame in 0..FRAMES {
        put_frame(parts, fabric, x, frame)?;
    }
    Ok(())
}

fn put_frame(parts: &mut Vec<Part>, fabric: &Fabric, x: u32, frame: u32) -> Result<(), Memory>
    requires is_fabric { IsFabric fabric.now }
    requires x { x < fabric.now.columns }
    requires frame { frame < 20 }
    ensures { OnOk result (map plain_part parts.new.items ≡ map plain_part parts.old.items ++ frame_parts fabric.now x frame) }
{
    parts.push(Part::Fixed(address_word(x, frame)))?;
    for y in 0..fabric.rows() {
        parts.push(Part::Row { x, y, frame })?;
    }
    Ok(())
}

// The column in the five high bits, and the bit of the frame.
fn address_word(x: u32, frame: u32) -> u32
    requires x { x < 32 }
    requires frame { frame < 20 }
    ensures { result ≡ address_word x frame }
{
    x << 27 | 1 << frame
}
