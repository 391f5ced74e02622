//! What is asked of the stream of configuration bits: its words, and what is read of words and bytes with edits.

ghost use Rattle.fab_fabric.specs.Bits.{AreBitsOf};

use crate::shown::{hexadecimal, number_of, parts_of};
use fab_base::{Fault, MAX_FILE_BYTES, Memory, Name};
use fab_examples::{Stop, report_of};
use fab_fabric::{Bits, Fabric};
use fab_frames::{bits_of, frames, to_bytes, to_words};
use std::alloc::Global;

// The most words that are read.
const MOST_WORDS: usize = 16_777_216;

/// Edits words, as parts between colons say: only so many words are left, the word of a number from 1 is another, the first word is left
/// out, or one more stands at the end.
fn edit(words: &mut Vec<u32>, parts: &[&[u8]]) -> Result<(), Stop> {
    match parts {
        [b"cut", count] => words.truncate(number_of(count)? as usize),
        [b"word", number, word] => {
            let number = number_of(number)? as usize;
            if 0 < number && number <= words.len() {
                words[number - 1] = hexadecimal(word)?;
            }
        }
        [b"headless"] => {
            if !words.is_empty() {
                words.remove(0);
            }
        }
        [b"further", word] => words.push(hexadecimal(word)?)?,
        _ => return Err(Stop::Fault(Fault::Usage)),
    }
    Ok(())
}

fn edit_all(alloc: Global, words: &mut Vec<u32>, edits: &[&[u8]]) -> Result<(), Stop> {
    for text in edits {
        edit(words, &parts_of(alloc, text, b':')?)?;
    }
    Ok(())
}

// A line for equal words that stand one behind the other.
fn run_text(alloc: Global, count: usize, word: u32) -> Result<String, Memory> {
    let text = if count > 1 {
        format!(in alloc; "\n{count} times {word:08X}")?
    } else {
        format!(in alloc; "\n{word:08X}")?
    };
    Ok(text)
}

/// Puts words, with equal neighbours in one line.
fn put_words(alloc: Global, out: &mut Vec<u8>, words: &[u32]) -> Result<(), Memory> {
    let mut count: usize = 0;
    for (place, word) in words.iter().enumerate() {
        count = count.saturating_add(1);
        if words.get(place + 1) != Some(word) {
            out.extend_from_slice(run_text(alloc, count, *word)?.as_bytes())?;
            count = 0;
        }
    }
    Ok(())
}

/// Puts the bits of the tile at a place that are 1.
fn put_tile_bits(
    alloc: Global,
    out: &mut Vec<u8>,
    bits: &Bits,
    x: u32,
    y: u32,
) -> Result<(), Memory> {
    for (number, bit) in bits.tile(x, y).iter().enumerate() {
        if *bit {
            let line = format!(in alloc; "\nX{x}Y{y} {number}")?;
            out.extend_from_slice(line.as_bytes())?;
        }
    }
    Ok(())
}

/// Puts the bits that are 1, a line for each.
fn put_bits(alloc: Global, out: &mut Vec<u8>, fabric: &Fabric, bits: &Bits) -> Result<(), Memory> {
    for x in 0..fabric.columns() {
        for y in 0..fabric.rows() {
            put_tile_bits(alloc, out, bits, x, y)?;
        }
    }
    Ok(())
}

// The bits that words of a file spell, and whether their stream is those words again.
fn read_again(
    alloc: Global,
    fabric: &Fabric,
    file: &Name,
    words: &[u32],
) -> Result<Vec<u8>, Fault> {
    if words.len() > MOST_WORDS {
        return Err(Fault::TooLong(file.copy(alloc)?));
    }
    let bits = bits_of(alloc, fabric, file, words)?;
    Ok(bits_text(alloc, fabric, &bits, words)?)
}

fn bits_text(alloc: Global, fabric: &Fabric, bits: &Bits, words: &[u32]) -> Result<Vec<u8>, Memory>
    requires { AreBitsOf fabric.now bits.now }
{
    let mut out = Vec::new(alloc);
    put_bits(alloc, &mut out, fabric, bits)?;
    let again = frames(alloc, fabric, bits)?;
    if again.as_slice() == words {
        out.extend_from_slice(b"\nthe same words again")?;
    }
    Ok(out)
}

// How many bytes are read and how many words they spell, and whether these are the words that they were made of.
fn read_bytes(alloc: Global, file: &Name, words: &[u32], count: usize) -> Result<Vec<u8>, Fault> {
    let mut bytes = to_bytes(alloc, words)?;
    bytes.truncate(count);
    if bytes.len() > MAX_FILE_BYTES {
        return Err(Fault::TooLong(file.copy(alloc)?));
    }
    let read = to_words(alloc, file, &bytes)?;
    let (length, count) = (bytes.len(), read.len());
    let mut out = format!(in alloc; " {length} bytes, {count} words")?.into_bytes();
    if read.as_slice() == words {
        out.extend_from_slice(b"\nthe same words again")?;
    }
    Ok(out)
}

/// Puts a report behind a blank, without its line feed.
fn put_report(out: &mut Vec<u8>, report: &[u8]) -> Result<(), Memory> {
    let line = match report {
        [front @ .., b'\n'] => front,
        _ => report,
    };
    out.push(b' ')?;
    out.extend_from_slice(line)?;
    Ok(())
}

/// Puts what was read, or the report of a refusal.
fn put_read(alloc: Global, out: &mut Vec<u8>, read: Result<Vec<u8>, Fault>) -> Result<(), Memory> {
    match read {
        Ok(text) => out.extend_from_slice(&text)?,
        Err(fault) => put_report(out, &report_of(alloc, fault)?)?,
    }
    Ok(())
}

/// Puts the words of the stream, or what is read of them with edits, or of the first so many bytes, as a file of a name.
pub fn put_streams(
    alloc: Global,
    out: &mut Vec<u8>,
    fabric: &Fabric,
    bits: &Bits,
    question: &[&[u8]],
) -> Result<(), Stop>
    requires { AreBitsOf fabric.now bits.now }
{
    let mut words = frames(alloc, fabric, bits)?;
    put_stream(alloc, out, fabric, &mut words, question)
}

// Puts what is asked of the words of a stream.
fn put_stream(
    alloc: Global,
    out: &mut Vec<u8>,
    fabric: &Fabric,
    words: &mut Vec<u32>,
    question: &[&[u8]],
) -> Result<(), Stop> {
    match question {
        [b"words"] => Ok(put_words(alloc, out, words)?),
        [b"read", name, edits @ ..] => {
            edit_all(alloc, words, edits)?;
            let file = Name::of(alloc, name)?;
            let read = read_again(alloc, fabric, &file, words);
            Ok(put_read(alloc, out, read)?)
        }
        [b"bytes", name, count] => {
            let count = number_of(count)? as usize;
            let file = Name::of(alloc, name)?;
            let read = read_bytes(alloc, &file, words, count);
            Ok(put_read(alloc, out, read)?)
        }
        _ => Err(Stop::Fault(Fault::Usage)),
    }
}
