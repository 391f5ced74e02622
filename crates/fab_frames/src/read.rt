//! Words as the configuration bits of a fabric.

ghost use Rattle.std.specs.Prelude.{◌≡◌, ◌<◌, ◌≤◌, ◌⊎◌, ◌+◌, ℕ, Bool, List, Some, None, IfOk, IfErr, OnOk, length, slice_get, not};
ghost use Rattle.std.specs.Bool.{OnTrue};
ghost use Rattle.std.specs.Result.{MatchResult};
ghost use Rattle.fab_base.specs.declared.fault.Fault.TheVariants as faults;
ghost use Rattle.fab_base.specs.declared.problem.Problem.TheVariants as problems;
ghost use Rattle.fab_base.specs.Reading.{fault_at, IsFaultOr};
ghost use Rattle.fab_fabric.specs.Bits.{AreBitsOf, plain_bits};
ghost use Rattle.fab_frames.specs.Stream.{problem_of, word_bit, has_spare, stream};
ghost use Rattle.fab_frames.specs.Refusals.{IsStreamRefusal};
ghost use Rattle.fab_frames.specs.inner.Placing.{HavePlaces};
ghost use Rattle.fab_frames.specs.inner.Taking.{plain_part, placed_by, IsWithin, TakesBits, TakesWord};

use crate::placing::Places;
use crate::plan::{Part, WORD_BITS, parts};
use fab_base::{Fault, Name, Problem, Reason};
use fab_fabric::{Bits, Fabric};
use std::alloc::Global;

/// The configuration bits that a stream of the fabric loads. The words are those of the file of this name.
///
/// # Errors
///
/// The first word that no stream of the fabric has there, by its number from 1: malformed `stream` for a word that is the same
/// in all streams, for a missing word and for one behind the last; malformed `spare bit` for a bit that is 1 where no
/// configuration bit is placed. Want of memory at any time.
pub fn bits_of(alloc: Global, fabric: &Fabric, file: &Name, words: &[u32]) -> Result<Bits, Fault>
    requires { length words.now ≤ 16777216 }
    ensures are_bits { IfOk result (AreBitsOf fabric.now) }
    ensures stream { IfOk result (λ bits. words.now ≡ stream fabric.now (plain_bits bits)) }
    ensures refused { IfErr result (λ fault. (fault ≡ faults.Memory) ⊎ IsStreamRefusal fabric.now file.now words.now fault) }
    ensures read_back { (bits : List (List (List Bool))) → AreBitsOf fabric.now bits → words.now ≡ stream fabric.now (plain_bits bits) →
        MatchResult result (λ found. found ≡ bits) (λ fault. fault ≡ faults.Memory) }
{
    fabric.is_well_made();
    read_words(alloc, fabric, file, words)
}

// The configuration bits of the words, or the first word that is refused.
fn read_words(alloc: Global, fabric: &Fabric, file: &Name, words: &[u32]) -> Result<Bits, Fault>
    requires { length words.now ≤ 16777216 }
    ensures are_bits { IfOk result (AreBitsOf fabric.now) }
    ensures stream { IfOk result (λ bits. words.now ≡ stream fabric.now (plain_bits bits)) }
    ensures refused { IfErr result (λ fault. (fault ≡ faults.Memory) ⊎ IsStreamRefusal fabric.now file.now words.now fault) }
{
    let places = Places::of(alloc, fabric)?;
    let parts = parts(alloc, fabric, places.chain.len())?;
    let mut bits = Bits::new(alloc, fabric)?;
    for (place, part) in parts.iter().enumerate() {
        if let Err(reason) = take_word(fabric, &places, *part, word_at(words, place), &mut bits) {
            return Err(fault_at(alloc, file, place, reason));
        }
    }
    if words.len() > parts.len() {
        return Err(fault_at(alloc, file, parts.len(), Reason::Stream));
    }
    Ok(bits)
}

// The word in a place, which is counted from 0.
fn word_at(words: &[u32], place: usize) -> Option<u32>
    ensures { result ≡ slice_get words.now place }
{
    words.get(place).copied()
}

// The fault of the word in a place, which is counted from 0.
fn fault_at(alloc: Global, file: &Name, place: usize, reason: Reason) -> Fault
    requires { place ≤ 16777216 }
    ensures { IsFaultOr result (fault_at file.now (place + 1) (problems.Malformed reason)) }
{
    Problem::Malformed(reason).at(alloc, file, place as u32 + 1)
}

// Takes the bits of the word in the place of a part. Words that are refused may change bits too.
fn take_word(
    fabric: &Fabric,
    places: &Places,
    part: Part,
    word: Option<u32>,
    bits: &mut Bits,
) -> Result<(), Reason>
    requires places { HavePlaces fabric.now places.now }
    requires part { IsWithin fabric.now (plain_part part) }
    requires bits { AreBitsOf fabric.now bits.old }
    ensures are_bits { AreBitsOf fabric.now bits.new }
    ensures fine { OnOk result (problem_of fabric.now (Some (plain_part part)) word ≡ None) }
    ensures refused { IfErr result (λ reason. problem_of fabric.now (Some (plain_part part)) word ≡ Some reason) }
    ensures taken { OnOk result (TakesWord fabric.now (plain_part part) word bits.old bits.new) }
{
    let word = word.ok_or(Reason::Stream)?;
    match part {
        Part::Fixed(expected) => {
            if word == expected {
                Ok(())
            } else {
                Err(Reason::Stream)
            }
        }
        _ => {
            if take_bits(fabric, places, part, word, bits) {
                Ok(())
            } else {
                Err(Reason::SpareBit)
            }
        }
    }
}

// Takes the bits of the word of a part at their places, and tells whether each bit that is 1 has a configuration bit.
fn take_bits(fabric: &Fabric, places: &Places, part: Part, word: u32, bits: &mut Bits) -> bool
    requires places { HavePlaces fabric.now places.now }
    requires part { IsWithin fabric.now (plain_part part) }
    requires bits { AreBitsOf fabric.now bits.old }
    ensures are_bits { AreBitsOf fabric.now bits.new }
    ensures spare { result ≡ not (has_spare (placed_by fabric.now (plain_part part)) word) }
    ensures taken { OnTrue result (TakesBits (placed_by fabric.now (plain_part part)) word bits.old bits.new) }
{
    for bit in 0..WORD_BITS {
        let value = word_bit(word, bit);
        match places.at(fabric, part, bit) {
            Some(at) => bits.set(at.x, at.y, at.bit, value),
            None => {
                if value {
                    return false;
                }
            }
        }
    }
    true
}

// A bit of a word, from the least significant.
fn word_bit(word: u32, bit: usize) -> bool
    requires { bit < 32 }
    ensures { result ≡ word_bit word bit }
{
    word >> bit & 1 == 1
}
