//! Words that are read, and bytes and words as lines of text.

use fab_base::{Fault, Memory};
use fab_examples::Stop;
use fab_lines::capped_number;
use itoa::Buffer;
use std::alloc::Global;

/// What stands between signs.
pub fn parts_of(alloc: Global, line: &[u8], sign: u8) -> Result<Vec<&[u8]>, Memory> {
    let mut parts = Vec::new(alloc);
    for part in line.split(|byte| *byte == sign) {
        parts.push(part)?;
    }
    Ok(parts)
}

/// The number that a word of a case writes.
pub fn number_of(word: &[u8]) -> Result<u32, Stop> {
    match capped_number(word) {
        Some(number) => u32::try_from(number).map_err(|_| Stop::Fault(Fault::Usage)),
        None => Err(Stop::Fault(Fault::Usage)),
    }
}

/// The numbers that words of a case write.
pub fn numbers_of(alloc: Global, words: &[&[u8]]) -> Result<Vec<u32>, Stop> {
    let mut numbers = Vec::new(alloc);
    for word in words {
        numbers.push(number_of(word)?)?;
    }
    Ok(numbers)
}

fn digit_of(byte: u8) -> Result<u32, Stop> {
    match byte {
        b'0'..=b'9' => Ok(u32::from(byte - b'0')),
        b'A'..=b'F' => Ok(u32::from(byte - b'A') + 10),
        _ => Err(Stop::Fault(Fault::Usage)),
    }
}

/// What hexadecimal digits write, or the greatest number of 32 bits where that is less.
pub fn hexadecimal(word: &[u8]) -> Result<u32, Stop> {
    let mut value: u32 = 0;
    for byte in word {
        value = value.saturating_mul(16).saturating_add(digit_of(*byte)?);
    }
    Ok(value)
}

/// Puts a number.
pub fn put_number(out: &mut Vec<u8>, number: u64) -> Result<(), Memory> {
    out.extend_from_slice(Buffer::new().format(number).as_bytes())?;
    Ok(())
}

/// Puts a number, and `-` where there is none.
pub fn put_some(out: &mut Vec<u8>, number: Option<u64>) -> Result<(), Memory> {
    match number {
        Some(number) => put_number(out, number),
        None => Ok(out.push(b'-')?),
    }
}

fn put_byte(out: &mut Vec<u8>, byte: u8) -> Result<(), Memory> {
    match byte {
        b'\n' => out.extend_from_slice(b"\\n")?,
        b'\r' => out.extend_from_slice(b"\\r")?,
        b'\t' => out.extend_from_slice(b"\\t")?,
        b' '..=b'~' => out.push(byte)?,
        _ => out.push(b'?')?,
    }
    Ok(())
}

/// Puts bytes so that they stand on one line.
pub fn put_bytes(out: &mut Vec<u8>, bytes: &[u8]) -> Result<(), Memory> {
    for byte in bytes {
        put_byte(out, *byte)?;
    }
    Ok(())
}

/// Puts bytes between brackets.
pub fn put_bracketed(out: &mut Vec<u8>, bytes: &[u8]) -> Result<(), Memory> {
    out.push(b'[')?;
    put_bytes(out, bytes)?;
    out.push(b']')?;
    Ok(())
}
