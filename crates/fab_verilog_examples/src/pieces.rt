//! Verilog texts that come in pieces: wherever a text is cut, the answer is that of the whole.

ghost use Rattle.std.specs.Prelude.{◌≤◌, ◌+◌, length};
ghost use Rattle.fab_vread.specs.Pieces.{fed_len};

use crate::cases::{Case, cases_of, tree_of};
use crate::fabrics::stored_text;
use crate::reading::shown;
use fab_base::{Fault, MAX_FILE_BYTES, Name};
use fab_desk::{Desk, Sink};
use fab_examples::{Stop, fetch};
use fab_syntax::Text;
use fab_vread::Reader;
use std::alloc::Global;

// Feeds bytes in pieces of so many; the last may be shorter. Where memory is refused, the end of the text says so.
fn feed_by(reader: &mut Reader, size: usize, bytes: &[u8])
    requires some { 1 ≤ size }
    requires few { fed_len reader.old + length bytes.now ≤ MAX_FILE_BYTES }
{
    let mut rest = bytes;
    while !rest.is_empty() {
        let (piece, after) = rest.split_at(size.min(rest.len()));
        let _ = reader.feed(piece);
        rest = after;
    }
}

// What is read of a text whose first bytes come as one piece, and the others in pieces of so many.
fn tree_in_pieces(alloc: Global, case: Case, cut: usize, size: usize) -> Result<Text, Fault>
    requires cut { cut ≤ length case.text.now }
    requires some { 1 ≤ size }
    requires few { length case.text.now ≤ MAX_FILE_BYTES }
{
    let file = Name::of(alloc, case.name.as_bytes())?;
    let (first, others) = case.text.split_at(cut);
    let mut reader = Reader::new(alloc, &file)?;
    let _ = reader.feed(first);
    feed_by(&mut reader, size, others);
    reader.finish()
}

// How many of the ways to cut a text at a place and to go on in pieces of so many give this answer.
fn count_alike(alloc: Global, case: Case, size: usize, answer: &[u8]) -> Result<usize, Stop>
    requires some { 1 ≤ size }
    requires few { length case.text.now ≤ MAX_FILE_BYTES }
{
    let mut alike = 0;
    for cut in 0..=case.text.len() {
        let found = tree_in_pieces(alloc, case, cut, size);
        if shown(alloc, case.name, found)?.as_slice() == answer {
            alike += 1;
        }
    }
    Ok(alike)
}

// A line of text with how many of the ways to cut a text agree.
fn agreed(alloc: Global, case: Case, answer: &[u8]) -> Result<String, Stop>
    requires { length case.text.now ≤ MAX_FILE_BYTES }
{
    let two = count_alike(alloc, case, MAX_FILE_BYTES, answer)?;
    let sevens = count_alike(alloc, case, 7, answer)?;
    let ones = count_alike(alloc, case, 1, answer)?;
    Ok(format!(in alloc;
        "in two pieces {two}, and then in sevens {sevens}, or one by one {ones} of {} ways alike\n",
        case.text.len() + 1
    )?)
}

// Whether a text that comes in pieces of so many gives this answer.
fn is_alike(alloc: Global, case: Case, size: usize, answer: &[u8]) -> Result<bool, Stop>
    requires some { 1 ≤ size }
    requires few { length case.text.now ≤ MAX_FILE_BYTES }
{
    let found = tree_in_pieces(alloc, case, 0, size);
    Ok(shown(alloc, case.name, found)?.as_slice() == answer)
}

// Prints whether a text that comes byte by byte, or in pieces of seven, gives this answer.
fn put_alike<S: Sink>(alloc: Global, out: &mut S, case: Case, answer: &[u8]) -> Result<(), Stop>
    requires { length case.text.now ≤ MAX_FILE_BYTES }
{
    let ones = is_alike(alloc, case, 1, answer)?;
    let sevens = is_alike(alloc, case, 7, answer)?;
    let line = format!(in alloc;
        "{}: one by one alike {ones}, in sevens alike {sevens}\n",
        case.name
    )?;
    out.put(line.as_bytes())?;
    Ok(())
}

// Prints the same of the whole text of a fabric, and of that text without its last bytes, so that it ends inside `endmodule`.
fn put_fabric_text<D: Desk, S: Sink>(alloc: Global, desk: &mut D, out: &mut S) -> Result<(), Stop> {
    let bytes = stored_text(alloc, desk, "duo")?;
    let name = "inv.v";
    let whole = Case { name, text: &bytes };
    let answer = shown(alloc, name, tree_of(alloc, whole))?;
    put_alike(alloc, out, whole, &answer)?;
    let front = bytes.strip_suffix(b"dule\n").ok_or(Stop::Data)?;
    let cut = Case { name, text: front };
    let refusal = shown(alloc, name, tree_of(alloc, cut))?;
    out.put(&refusal)?;
    put_alike(alloc, out, cut, &refusal)
}

/// Prints what is read of texts, and of how many ways to cut them the same is read.
pub fn put_pieces<D: Desk, S: Sink>(alloc: Global, desk: &mut D, out: &mut S) -> Result<(), Stop> {
    let bytes = fetch(alloc, desk, "pieces.cases")?;
    for case in cases_of(alloc, &bytes)? {
        if case.text.len() <= MAX_FILE_BYTES {
            let answer = shown(alloc, case.name, tree_of(alloc, case))?;
            out.put(&answer)?;
            out.put(agreed(alloc, case, &answer)?.as_bytes())?;
        }
    }
    put_fabric_text(alloc, desk, out)
}
