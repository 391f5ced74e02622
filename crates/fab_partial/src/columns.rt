//! The bitstream of some columns.

ghost use Rattle.std.specs.Prelude.{◌≡◌, ◌<◌, ◌≤◌, ◌++◌, [], ◌∷◌, IfOk, length, slice_range};
ghost use Rattle.fab_implementation.specs.fab_model.specs.declared.mode.Mode.TheVariants as modes;
ghost use Rattle.fab_implementation.specs.fab_fabric.specs.Bits.{AreBitsOf, plain_bits};
ghost use Rattle.fab_frames.specs.Stream.{stream_mode, waiting_word};
ghost use Rattle.fab_partial.specs.Columns.{partial_stream};

use fab_base::Memory;
use fab_frames::frames;
use fab_implementation::fab_fabric::{Bits, Fabric};
use std::alloc::Global;

// How many words a stream has before its first address.
const HEADER_WORDS: usize = 38;

// How many frames a column has.
const FRAMES: usize = 20;

// Bit 20 in the place of an address sets the loader waiting.
const WAITING_WORD: u32 = 0x0010_0000;

/// The words, of 32 bits each, that load configuration bits into the columns from the first to the last and leave all others as they are.
/// They are the stream of the whole fabric without the frames of the other columns. A chain has no frames, and moves on as a whole.
///
/// # Errors
///
/// Want of memory.
pub fn partial(
    alloc: Global,
    fabric: &Fabric,
    bits: &Bits,
    first: u32,
    last: u32,
) -> Result<Vec<u32>, Memory>
    requires frames { stream_mode fabric.now ≡ modes.Frames }
    requires bits { AreBitsOf fabric.now bits.now }
    requires order { first ≤ last }
    requires within { last < fabric.now.columns }
    ensures { IfOk result (λ words. words.items ≡ partial_stream fabric.now (plain_bits bits.now) first last) }
{
    fabric.is_well_made();
    let all = frames(alloc, fabric, bits)?;
    let size = FRAMES * (fabric.rows() as usize + 1);
    let begin = HEADER_WORDS + first as usize * size;
    let end = HEADER_WORDS + (last as usize + 1) * size;
    put_together(alloc, &all, begin, end)
}

// The words before the first address, those from `begin` to `end`, and the last word.
fn put_together(alloc: Global, all: &[u32], begin: usize, end: usize) -> Result<Vec<u32>, Memory>
    requires header { 38 ≤ begin }
    requires order { begin ≤ end }
    requires within { end ≤ length all.now }
    ensures { IfOk result (λ words. words.items ≡ slice_range all.now 0 38 ++ (slice_range all.now begin end ++ waiting_word ∷ [])) }
{
    let mut words = Vec::new(alloc);
    words.extend_from_slice(&all[0..HEADER_WORDS])?;
    words.extend_from_slice(&all[begin..end])?;
    words.push(WAITING_WORD)?;
    Ok(words)
}
