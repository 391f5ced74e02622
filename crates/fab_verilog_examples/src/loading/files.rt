//! What the loader's run reads: the text of a fabric, and the words of a bitstream.

use crate::fabrics::stored_text;
use fab_base::Name;
use fab_desk::Desk;
use fab_examples::{Stop, fetch};
use fab_syntax::Text;
use fab_vread::read;
use std::alloc::Global;
use std::str;

/// The fabric.
const FABRIC: &str = "duo";

/// The words of the bitstream, one a line.
const WORDS: &str = "duo.words";

/// The text that `generate` stores of the fabric, as it reads back.
pub fn fabric_text<D: Desk>(alloc: Global, desk: &mut D, file: &Name) -> Result<Text, Stop> {
    let stored = stored_text(alloc, desk, FABRIC)?;
    Ok(read(alloc, file, &stored)?)
}

/// The words of the bitstream.
pub fn bitstream<D: Desk>(alloc: Global, desk: &mut D) -> Result<Vec<u32>, Stop> {
    let bytes = fetch(alloc, desk, WORDS)?;
    let mut words = Vec::new(alloc);
    for line in str::from_utf8(&bytes)?.lines() {
        words.push(u32::from_str_radix(line, 16)?)?;
    }
    Ok(words)
}
