//! Numbers as bits.

use fab_bits::{digits, select_width};
use fab_desk::{Desk, Sink};
use fab_examples::{Stop, fetch};
use fab_syntax::Word;
use std::alloc::{AllocError, Global};
use std::str;

/// The bits that a word writes with the digits 0 and 1.
pub fn bits_of(alloc: Global, word: &str) -> Result<Vec<bool>, AllocError> {
    let mut bits = Vec::new(alloc);
    for digit in word.as_bytes() {
        bits.push(*digit == b'1')?;
    }
    Ok(bits)
}

/// The digits of bits, the first of them in front.
pub fn bits_text(alloc: Global, bits: &[bool]) -> Result<String, AllocError> {
    let mut text = String::new(alloc);
    for bit in bits {
        text.push(if *bit { '1' } else { '0' })?;
    }
    Ok(text)
}

// How many bits select one of so many things.
fn width_line(alloc: Global, count: &str) -> Result<String, Stop> {
    let width = select_width(count.parse::<u32>()?);
    Ok(format!(in alloc; "{count}: {width} bits\n")?)
}

// The digits of a number at a width, as a constant keeps them and gives them back.
fn digits_line(alloc: Global, width: &str, number: &str) -> Result<String, Stop> {
    let word = Word::from(digits(alloc, width.parse::<u32>()?, number.parse::<u32>()?)?);
    let kept = bits_text(alloc, word.bits())?;
    let given = bits_text(alloc, &word.into_vec())?;
    Ok(format!(in alloc; "{number} at {width}: {kept} {given}\n")?)
}

/// Prints how many bits select one of so many things, for a line of one number, and the digits of a number, the least significant
/// first, for a line of a width and a number.
pub fn put_numbers<D: Desk, S: Sink>(alloc: Global, desk: &mut D, out: &mut S) -> Result<(), Stop> {
    let bytes = fetch(alloc, desk, "bits.lines")?;
    for line in str::from_utf8(&bytes)?.lines() {
        let told = match line.split_once(' ') {
            None => width_line(alloc, line)?,
            Some((width, number)) => digits_line(alloc, width, number)?,
        };
        out.put(told.as_bytes())?;
    }
    Ok(())
}
