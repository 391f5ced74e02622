//! The configuration bits of a fabric as words.

ghost use Rattle.std.specs.Prelude.{◌≡◌, ◌<◌, false, IfOk};
ghost use Rattle.std.specs.Option.{option_map_or};
ghost use Rattle.fab_fabric.specs.Bits.{AreBitsOf, plain_bits};
ghost use Rattle.fab_frames.specs.Positions.{bit_in};
ghost use Rattle.fab_frames.specs.Stream.{word_of, placed_word, stream};
ghost use Rattle.fab_frames.specs.inner.Placing.{HavePlaces};
ghost use Rattle.fab_frames.specs.inner.Taking.{plain_part, placed_by, IsWithin};

use crate::placing::Places;
use crate::plan::{Part, WORD_BITS, parts};
use fab_base::Memory;
use fab_fabric::{Bits, Fabric};
use std::alloc::Global;

/// The stream that loads these configuration bits into the fabric, as words of 32 bits.
///
/// # Errors
///
/// Want of memory.
pub fn frames(alloc: Global, fabric: &Fabric, bits: &Bits) -> Result<Vec<u32>, Memory>
    requires { AreBitsOf fabric.now bits.now }
    ensures { IfOk result (λ words. words.items ≡ stream fabric.now (plain_bits bits.now)) }
{
    let places = Places::of(alloc, fabric)?;
    let parts = parts(alloc, fabric, places.chain.len())?;
    let mut words = Vec::new(alloc);
    for part in &parts {
        words.push(word_of(fabric, &places, bits, *part))?;
    }
    Ok(words)
}

// The word of a part.
fn word_of(fabric: &Fabric, places: &Places, bits: &Bits, part: Part) -> u32
    requires bits { AreBitsOf fabric.now bits.now }
    requires places { HavePlaces fabric.now places.now }
    requires part { IsWithin fabric.now (plain_part part) }
    ensures { result ≡ word_of fabric.now (plain_bits bits.now) (plain_part part) }
{
    match part {
        Part::Fixed(word) => word,
        _ => placed_word(fabric, places, bits, part),
    }
}

// The word that has the bits of a part at their places.
fn placed_word(fabric: &Fabric, places: &Places, bits: &Bits, part: Part) -> u32
    requires bits { AreBitsOf fabric.now bits.now }
    requires places { HavePlaces fabric.now places.now }
    requires part { IsWithin fabric.now (plain_part part) }
    ensures { result ≡ placed_word (placed_by fabric.now (plain_part part)) (bit_in (plain_bits bits.now)) }
{
    let mut word = 0;
    for bit in 0..WORD_BITS {
        word |= u32::from(bit_of(fabric, places, bits, part, bit)) << bit;
    }
    word
}

// The bit that is placed at a bit of the word of a part; 0 where none is.
fn bit_of(fabric: &Fabric, places: &Places, bits: &Bits, part: Part, bit: usize) -> bool
    requires bits { AreBitsOf fabric.now bits.now }
    requires places { HavePlaces fabric.now places.now }
    requires part { IsWithin fabric.now (plain_part part) }
    requires bit { bit < 32 }
    ensures { result ≡ option_map_or (bit_in (plain_bits bits.now)) (placed_by fabric.now (plain_part part) bit) false }
{
    match places.at(fabric, part, bit) {
        Some(at) => bits.get(at.x, at.y, at.bit),
        None => false,
    }
}
