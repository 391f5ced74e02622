//! The signs, texts and choices of a cell of a switch list.

ghost use Rattle.std.specs.Prelude.{◌≡◌, ◌==◌, IfOk, false, map};
ghost use Rattle.std.specs.List.{after_first, before_first, list_all, list_any, slice_split};
ghost use Rattle.fab_lines.specs.Numbers.{capped};
ghost use Rattle.fab_tables.specs.Cells.{
  are_pieces,
  begins_repeat,
  body,
  has_bad_number,
  has_brackets,
  is_brace,
  is_cell_byte,
  is_choice,
  is_repeat_number,
  is_text,
  repeat_digits,
  repeats,
};
ghost use Rattle.fab_tables.specs.inner.Expanding.{is_sign};

use fab_lines::{capped_number, place_or_end};
use std::alloc::{AllocError, Global};

pub fn has(text: &[u8], sought: u8) -> bool
    ensures { result ≡ list_any (λ byte. byte == sought) text.now }
{
    text.iter().any(|byte| *byte == sought)
}

/// What stands before the first such byte; all where there is none.
pub fn before(text: &[u8], sought: u8) -> &[u8]
    ensures { result.now ≡ before_first (λ byte. byte == sought) text.now }
{
    &text[..place_or_end(text, sought)]
}

/// What stands behind the first such byte; nothing where there is none.
pub fn after(text: &[u8], sought: u8) -> &[u8]
    ensures { result.now ≡ after_first (λ byte. byte == sought) text.now }
{
    let place = place_or_end(text, sought);
    if place == text.len() {
        return &[];
    }
    let (_, rest) = text.split_at(place + 1);
    rest
}

/// The pieces between such bytes.
pub fn pieces(alloc: Global, text: &[u8], separator: u8) -> Result<Vec<&[u8]>, AllocError>
    ensures { IfOk result (λ pieces. map (λ piece. piece.now) pieces.items ≡ slice_split (λ byte. byte == separator) text.now) }
{
    let mut pieces = Vec::new(alloc);
    for piece in text.split(|byte| *byte == separator) {
        pieces.push(piece)?;
    }
    Ok(pieces)
}

fn begins_repeat(cell: &[u8]) -> bool
    ensures { result ≡ begins_repeat cell.now }
{
    match cell {
        [] => false,
        [first, rest @ ..] => *first == b'{' && has(rest, b'}'),
    }
}

fn repeat_digits(cell: &[u8]) -> &[u8]
    ensures { result.now ≡ repeat_digits cell.now }
{
    match cell {
        [] => &[],
        [_, rest @ ..] => before(rest, b'}'),
    }
}

/// What stands behind the braces in front of a cell; the whole cell where there are none.
pub fn body(cell: &[u8]) -> &[u8]
    ensures { result.now ≡ body cell.now }
{
    if begins_repeat(cell) {
        after(cell, b'}')
    } else {
        cell
    }
}

/// How often each name of the cell comes, up to the greatest number of 64 bits.
pub fn repeats(cell: &[u8]) -> u64
    requires { has_bad_number cell.now ≡ false }
    ensures { result ≡ capped (repeats cell.now) }
{
    if !begins_repeat(cell) {
        return 1;
    }
    capped_number(repeat_digits(cell)).unwrap_or(0)
}

fn is_repeat_number(digits: &[u8]) -> bool
    ensures { result ≡ is_repeat_number digits.now }
{
    match capped_number(digits) {
        Some(number) => 0 < number,
        None => false,
    }
}

/// Whether the braces in front of a cell hold no number from 1 on, or other braces stand elsewhere.
pub fn has_bad_number(cell: &[u8]) -> bool
    ensures { result ≡ has_bad_number cell.now }
{
    if begins_repeat(cell) && !is_repeat_number(repeat_digits(cell)) {
        return true;
    }
    has(after(body(cell), b'{'), b'}')
}

fn is_cell_byte(byte: u8) -> bool
    ensures { result ≡ is_cell_byte byte }
{
    matches!(byte, b'a'..=b'z' | b'A'..=b'Z' | b'0'..=b'9' | b'_' | b'[' | b']' | b'|' | b'{' | b'}')
}

/// Whether a cell has a bracket, a bar or a brace. One that has none is a name as it stands.
pub fn has_signs(cell: &[u8]) -> bool
    ensures { result ≡ list_any is_sign cell.now }
{
    cell.iter()
        .any(|byte| matches!(*byte, b'[' | b']' | b'|' | b'{' | b'}'))
}

/// Whether every byte of a cell may stand in one.
pub fn has_only_cell_bytes(cell: &[u8]) -> bool
    ensures { result ≡ list_all is_cell_byte cell.now }
{
    cell.iter().all(|byte| is_cell_byte(*byte))
}

fn has_brace(text: &[u8]) -> bool
    ensures { result ≡ list_any is_brace text.now }
{
    text.iter().any(|byte| *byte == b'{' || *byte == b'}')
}

fn is_text(piece: &[u8]) -> bool
    ensures { result ≡ is_text piece.now }
{
    !has(piece, b']') && !has(piece, b'|')
}

fn is_choice(piece: &[u8]) -> bool
    ensures { result ≡ is_choice piece.now }
{
    has(piece, b']') && is_text(after(piece, b']'))
}

fn are_choices(pieces: &[&[u8]]) -> bool
    ensures { result ≡ list_all (λ piece. is_choice piece.now) pieces.now }
{
    pieces.iter().all(|piece| is_choice(piece))
}

#[tactic(auto, using(crate::proofs::Seen::all_seen))]
fn are_pieces(pieces: &[&[u8]]) -> bool
    ensures { result ≡ are_pieces (map (λ piece. piece.now) pieces.now) }
{
    match pieces {
        [] => true,
        [text, choices @ ..] => is_text(text) && are_choices(choices),
    }
}

/// Whether the brackets of a cell match, and no brace is left in it.
pub fn has_brackets(alloc: Global, cell: &[u8]) -> Result<bool, AllocError>
    ensures { IfOk result (λ matching. matching ≡ has_brackets cell.now) }
{
    let text = body(cell);
    if has_brace(text) {
        return Ok(false);
    }
    let pieces = pieces(alloc, text, b'[')?;
    Ok(are_pieces(&pieces))
}
