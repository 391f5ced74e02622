//! The names that a cell of a switch list expands to.

ghost use Rattle.std.specs.Prelude.{◌≡◌, ◌≤◌, ◌++◌, ◌*◌, [], ◌∷◌, false, IfOk, OnOk, map, replicate, length};
ghost use Rattle.std.specs.List.{flat_map};
ghost use Rattle.fab_lines.specs.Numbers.{capped};
ghost use Rattle.fab_tables.specs.Cells.{
  alternatives,
  choice_parts,
  count,
  has_bad_number,
  names,
  parts,
  parts_of,
  product,
  product_size,
  repeats,
};
ghost use Rattle.fab_tables.specs.inner.Expanding.{extended, extended_by};

use crate::cell::{after, before, body, has_signs, pieces, repeats};
use fab_base::{Memory, Name};
use std::alloc::Global;

/// The most names of one cell.
pub const MAX_NAMES: u64 = 4096;

fn joined(alloc: Global, front: &[u8], back: &[u8]) -> Result<Name, Memory>
    ensures { IfOk result (λ name. name ≡ front.now ++ back.now) }
{
    let mut bytes = Vec::from_slice(alloc, front)?;
    bytes.extend_from_slice(back)?;
    Ok(Name::from(bytes))
}

fn push_joined(
    longer: &mut Vec<Name>,
    alloc: Global,
    name: &[u8],
    alternatives: &[&[u8]],
) -> Result<(), Memory>
    ensures { OnOk result (longer.new.items
        ≡ longer.old.items ++ map (λ alternative. name.now ++ alternative) (map (λ alternative. alternative.now) alternatives.now)) }
{
    for alternative in alternatives {
        longer.push(joined(alloc, name, alternative)?)?;
    }
    Ok(())
}

/// Each name with each of the alternatives behind it.
fn with_each(alloc: Global, names: &[Name], alternatives: &[&[u8]]) -> Result<Vec<Name>, Memory>
    ensures { IfOk result (λ longer. longer.items ≡ extended names.now (map (λ alternative. alternative.now) alternatives.now)) }
{
    let mut longer = Vec::new(alloc);
    for name in names {
        push_joined(&mut longer, alloc, name.bytes(), alternatives)?;
    }
    Ok(longer)
}

fn extend(name: Name, text: &[u8]) -> Result<Name, Memory>
    ensures { IfOk result (λ longer. longer ≡ name ++ text.now) }
{
    let mut bytes = name.into_vec();
    bytes.extend_from_slice(text)?;
    Ok(Name::from(bytes))
}

/// Each name with the text behind it, without a copy of the names.
fn with_text(alloc: Global, names: Vec<Name>, text: &[u8]) -> Result<Vec<Name>, Memory>
    ensures { IfOk result (λ longer. longer.items ≡ extended names.items (text.now ∷ [])) }
{
    let mut longer = Vec::new(alloc);
    for name in names {
        longer.push(extend(name, text)?)?;
    }
    Ok(longer)
}

fn with_alternatives(
    alloc: Global,
    names: Vec<Name>,
    alternatives: &[&[u8]],
) -> Result<Vec<Name>, Memory>
    ensures { IfOk result (λ longer. longer.items ≡ extended names.items (map (λ alternative. alternative.now) alternatives.now)) }
{
    if alternatives.len() == 1 {
        with_text(alloc, names, alternatives[0])
    } else {
        with_each(alloc, &names, alternatives)
    }
}

/// The names with what stands behind a `[`: a choice and a text.
fn with_piece(alloc: Global, names: Vec<Name>, piece: &[u8]) -> Result<Vec<Name>, Memory>
    ensures { IfOk result (λ longer. longer.items ≡ extended_by names.items (choice_parts piece.now)) }
{
    let alternatives = pieces(alloc, before(piece, b']'), b'|')?;
    let chosen = with_alternatives(alloc, names, &alternatives)?;
    with_text(alloc, chosen, after(piece, b']'))
}

fn with_pieces(alloc: Global, text: &[u8], choices: &[&[u8]]) -> Result<Vec<Name>, Memory>
    ensures { IfOk result (λ names. names.items ≡ product (parts_of (text.now ∷ map (λ choice. choice.now) choices.now))) }
{
    let mut names = Vec::new(alloc);
    names.push(Name::of(alloc, text)?)?;
    for choice in choices {
        names = with_piece(alloc, names, choice)?;
    }
    Ok(names)
}

fn product(alloc: Global, cell: &[u8]) -> Result<Vec<Name>, Memory>
    ensures { IfOk result (λ names. names.items ≡ product (parts cell.now)) }
{
    let pieces = pieces(alloc, body(cell), b'[')?;
    match pieces.as_slice() {
        [] => one_name(alloc, b""),
        [text, choices @ ..] => with_pieces(alloc, text, choices),
    }
}

fn push_copies(copies: &mut Vec<Name>, alloc: Global, name: &Name, times: u64) -> Result<(), Memory>
    ensures { OnOk result (copies.new.items ≡ copies.old.items ++ replicate times name.now) }
{
    for _copy in 0..times {
        copies.push(name.copy(alloc)?)?;
    }
    Ok(())
}

/// Each name so many times, in its place.
fn repeated(alloc: Global, names: &[Name], times: u64) -> Result<Vec<Name>, Memory>
    ensures { IfOk result (λ copies. copies.items ≡ flat_map (λ name. replicate times name) names.now) }
{
    let mut copies = Vec::new(alloc);
    for name in names {
        push_copies(&mut copies, alloc, name, times)?;
    }
    Ok(copies)
}

/// A name alone.
fn one_name(alloc: Global, name: &[u8]) -> Result<Vec<Name>, Memory>
    ensures { IfOk result (λ made. made.items ≡ name.now ∷ []) }
{
    let mut names = Vec::new(alloc);
    names.push(Name::of(alloc, name)?)?;
    Ok(names)
}

/// The names that a cell expands to. They are counted before: the cell has not too many.
pub fn names(alloc: Global, cell: &[u8]) -> Result<Vec<Name>, Memory>
    requires numbered { has_bad_number cell.now ≡ false }
    requires counted { count cell.now ≤ MAX_NAMES }
    ensures { IfOk result (λ made. made.items ≡ names cell.now) }
{
    if !has_signs(cell) {
        return one_name(alloc, cell);
    }
    let once = product(alloc, cell)?;
    repeated(alloc, &once, repeats(cell))
}

fn count_alternatives(alloc: Global, piece: &[u8]) -> Result<u64, Memory>
    ensures { IfOk result (λ count. count ≡ length (alternatives piece.now)) }
{
    let alternatives = pieces(alloc, before(piece, b']'), b'|')?;
    Ok(alternatives.len() as u64)
}

fn count_choices(alloc: Global, times: u64, choices: &[&[u8]]) -> Result<u64, Memory>
    ensures { IfOk result (λ count. count ≡ capped (times * product_size (flat_map choice_parts (map (λ choice. choice.now) choices.now)))) }
{
    let mut count = times;
    for choice in choices {
        count = count.saturating_mul(count_alternatives(alloc, choice)?);
    }
    Ok(count)
}

/// How many names a cell expands to, up to the greatest number of 64 bits.
pub fn count(alloc: Global, cell: &[u8]) -> Result<u64, Memory>
    requires { has_bad_number cell.now ≡ false }
    ensures { IfOk result (λ number. number ≡ count cell.now) }
{
    let pieces = pieces(alloc, body(cell), b'[')?;
    match pieces.as_slice() {
        [] => Ok(repeats(cell)),
        [_, choices @ ..] => count_choices(alloc, repeats(cell), choices),
    }
}
