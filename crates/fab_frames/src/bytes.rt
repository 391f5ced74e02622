//! Words as the bytes of a file.

ghost use Rattle.std.specs.Prelude.{◌≡◌, ◌≤◌, ◌<◌, ◌⊎◌, ◌^◌, ℕ, List, All, IfOk, IfErr, length};
ghost use Rattle.std.specs.List.{flat_map};
ghost use Rattle.std.specs.Result.{MatchResult};
ghost use Rattle.fab_base.specs.declared.fault.Fault.TheVariants as faults;
ghost use Rattle.fab_frames.specs.Bytes.{word_bytes};
ghost use Rattle.fab_frames.specs.Refusals.{IsCut};

use byteorder::{BigEndian, ByteOrder};
use fab_base::{Fault, MAX_FILE_BYTES, Memory, Name, Problem, Reason};
use std::alloc::Global;

// How many bytes a word has.
const WORD_BYTES: usize = 4;

/// The bytes of words, the most significant byte of each first.
///
/// # Errors
///
/// Want of memory.
pub fn to_bytes(alloc: Global, words: &[u32]) -> Result<Vec<u8>, Memory>
    ensures { IfOk result (λ bytes. bytes.items ≡ flat_map word_bytes words.now) }
{
    let mut bytes = vec![in alloc; 0; WORD_BYTES * words.len()]?;
    BigEndian::write_u32_into(words, &mut bytes);
    Ok(bytes)
}

/// The words of the bytes of a file of this name, the most significant byte of each first.
///
/// # Errors
///
/// Malformed `word` where the bytes end within a word, at the number of this word from 1. Want of memory at any time.
pub fn to_words(alloc: Global, file: &Name, bytes: &[u8]) -> Result<Vec<u32>, Fault>
    requires { length bytes.now ≤ MAX_FILE_BYTES }
    ensures bytes { IfOk result (λ words. bytes.now ≡ flat_map word_bytes words.items) }
    ensures refused { IfErr result (λ fault. (fault ≡ faults.Memory) ⊎ IsCut file.now bytes.now fault) }
    ensures read_back { (words : List ℕ) → All (λ word. word < 2 ^ 32) words → bytes.now ≡ flat_map word_bytes words →
        MatchResult result (λ found. found.items ≡ words) (λ fault. fault ≡ faults.Memory) }
{
    let whole = bytes.len() / WORD_BYTES;
    if bytes.len() % WORD_BYTES != 0 {
        return Err(Problem::Malformed(Reason::Word).at(alloc, file, whole as u32 + 1));
    }
    let mut words = vec![in alloc; 0; whole]?;
    BigEndian::read_u32_into(bytes, &mut words);
    Ok(words)
}
