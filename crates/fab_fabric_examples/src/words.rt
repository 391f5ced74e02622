//! Words: the function in front of a case's title takes each that is asked.

use crate::cases::Case;
use crate::shown::{number_of, parts_of, put_bracketed, put_bytes, put_number, put_some};
use fab_base::{Fault, Memory, Name};
use fab_examples::Stop;
use fab_lines::{
    all_cells, capped_number, is_name, is_wire_name, place_or_end, uncommented, without_empty,
};
use fab_paths::{resolve, stem};
use fab_tables::{MAX_BITS, default_table};
use std::alloc::Global;

/// Whether a word is a name, and whether it names a wire.
fn put_name(out: &mut Vec<u8>, word: &[u8]) -> Result<(), Memory> {
    let text = match (is_name(word), is_wire_name(word)) {
        (false, false) => b"neither".as_slice(),
        (true, false) => b"name".as_slice(),
        (false, true) => b"wire name".as_slice(),
        (true, true) => b"both".as_slice(),
    };
    out.extend_from_slice(text)?;
    Ok(())
}

/// The cells of a line, and how many are left without the empty ones at the end.
fn put_cells(alloc: Global, out: &mut Vec<u8>, line: &[u8]) -> Result<(), Memory> {
    let cells = all_cells(alloc, line)?;
    for cell in &cells {
        put_bracketed(out, cell)?;
    }
    out.push(b' ')?;
    put_number(out, without_empty(&cells).len() as u64)
}

/// The file that is meant in the file before the first blank by the path behind it.
fn put_path(alloc: Global, out: &mut Vec<u8>, line: &[u8]) -> Result<(), Memory> {
    let (front, behind) = line.split_at(place_or_end(line, b' '));
    let holder = Name::of(alloc, front)?;
    let path = match behind {
        [b' ', path @ ..] => path,
        _ => behind,
    };
    match resolve(alloc, &holder, path)? {
        Some(file) => put_bracketed(out, file.bytes()),
        None => Ok(out.push(b'-')?),
    }
}

/// How many places a table of so many bits has, and the place of one of them.
fn put_place(alloc: Global, out: &mut Vec<u8>, line: &[u8]) -> Result<(), Stop> {
    let words = parts_of(alloc, line, b' ')?;
    let [bits, bit] = words.as_slice() else {
        return Err(Stop::Fault(Fault::Usage));
    };
    let bits = number_of(bits)?;
    if bits > MAX_BITS {
        return Err(Stop::Fault(Fault::Usage));
    }
    let table = default_table(alloc, bits)?;
    put_number(out, table.places().len() as u64)?;
    if let Some((frame, place)) = table.places().get(number_of(bit)? as usize) {
        out.push(b' ')?;
        put_number(out, u64::from(*frame))?;
        out.push(b'.')?;
        put_number(out, u64::from(*place))?;
    }
    Ok(())
}

fn put_answer(alloc: Global, out: &mut Vec<u8>, front: &[u8], word: &[u8]) -> Result<(), Stop> {
    match front {
        b"number" => put_some(out, capped_number(word))?,
        b"name" => put_name(out, word)?,
        b"cells" => put_cells(alloc, out, word)?,
        b"comment" => put_bracketed(out, uncommented(word))?,
        b"stem" => put_bracketed(out, stem(word))?,
        b"path" => put_path(alloc, out, word)?,
        b"places" => put_place(alloc, out, word)?,
        _ => return Err(Stop::Fault(Fault::Usage)),
    }
    Ok(())
}

/// A line for each word.
pub fn words_text(alloc: Global, case: &Case) -> Result<Vec<u8>, Stop> {
    let mut out = Vec::new(alloc);
    for word in &case.asked {
        out.extend_from_slice(b"  ")?;
        put_bytes(&mut out, word.bytes())?;
        out.extend_from_slice(b": ")?;
        put_answer(alloc, &mut out, case.front.bytes(), word.bytes())?;
        out.push(b'\n')?;
    }
    Ok(out)
}
