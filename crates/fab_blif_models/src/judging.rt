//! Why a line is refused, if it is.

ghost use Rattle.std.specs.Prelude.{◌≡◌, ◌++◌, ◌||◌, ◌&&◌, find, map, option_map, IfOk};
ghost use Rattle.std.specs.Str.{bytes_eq};
ghost use Rattle.fab_base.specs.declared.problem.Problem.TheVariants as problems;
ghost use Rattle.fab_blif_models.specs.Judge.{breaks_number, breaks_row, construct_problem, count_fits, has_initial, has_type, is_initial, judge_words, malformed_by, names_twice, needs_model, on_both_sides, port_problem, repeats_port, row_fits, type_problem};
ghost use Rattle.fab_lines.specs.Items.{is_among};
ghost use Rattle.fab_bits.specs.Keys.{key_names};

use crate::context::Context;
use crate::cover::is_fine_row;
use crate::words::{Kind, has_foreign, words_from};
use fab_base::{Memory, Name, Problem, Reason};
use fab_lines::word_at;
use indexmap::IndexSet;
use std::alloc::Global;

fn row_fits(width: Option<usize>, count: usize) -> bool
    ensures { result ≡ row_fits width count }
{
    match width {
        None => false,
        Some(0) => count == 1,
        Some(_) => count == 2,
    }
}

/// Whether a line of this kind may have so many words.
fn count_fits(kind: Kind, width: Option<usize>, count: usize) -> bool
    ensures { result ≡ count_fits kind width count }
{
    match kind {
        Kind::Model | Kind::Clock => count == 2,
        Kind::End => count == 1,
        Kind::Names | Kind::Instance => 2 <= count,
        Kind::Latch => 3 <= count && count <= 6,
        Kind::Buffer => count == 3,
        Kind::Row => row_fits(width, count),
        Kind::Blank | Kind::Inputs | Kind::Outputs | Kind::Passed | Kind::Other => true,
    }
}

fn is_initial(word: &[u8]) -> bool
    ensures { result ≡ is_initial word.now }
{
    word.len() == 1 && b'0' <= word[0] && word[0] <= b'3'
}

/// Whether a latch of so many words has an initial value.
pub fn has_initial(count: usize) -> bool
    ensures { result ≡ has_initial count }
{
    count == 4 || count == 6
}

/// Whether a latch of so many words has a type and a control.
pub fn has_type(count: usize) -> bool
    ensures { result ≡ has_type count }
{
    5 <= count
}

fn breaks_number(kind: Kind, words: &[&[u8]]) -> bool
    ensures { result ≡ breaks_number kind (map (λ w. w.now) words.now) }
{
    if kind == Kind::Latch && has_initial(words.len()) {
        return !is_initial(word_at(words, words.len().saturating_sub(1)));
    }
    false
}

fn needs_model(kind: Kind) -> bool
    ensures { result ≡ needs_model kind }
{
    kind != Kind::Blank && kind != Kind::Model
}

fn is_among(names: &IndexSet<Vec<u8>>, name: &[u8]) -> bool
    ensures { result ≡ is_among (key_names names.now.keys) name.now }
{
    names.contains(name)
}

fn is_in_either(first: &IndexSet<Vec<u8>>, second: &IndexSet<Vec<u8>>, name: &[u8]) -> bool
    ensures { result ≡ (is_among (key_names first.now.keys) name.now || is_among (key_names second.now.keys) name.now) }
{
    is_among(first, name) || is_among(second, name)
}

/// Whether some name stands among these, or among those before it.
fn names_twice(alloc: Global, before: &IndexSet<Vec<u8>>, names: &[&[u8]]) -> Result<bool, Memory>
    ensures { IfOk result (λ twice. twice ≡ names_twice (key_names before.now.keys) (map (λ w. w.now) names.now)) }
{
    let mut seen = IndexSet::new(alloc);
    for name in names {
        if is_in_either(before, &seen, name) {
            return Ok(true);
        }
        let key = Vec::from_slice(alloc, name)?;
        seen.insert(key)?;
    }
    Ok(false)
}

fn repeats_port(
    alloc: Global,
    context: &Context,
    kind: Kind,
    words: &[&[u8]],
) -> Result<bool, Memory>
    ensures { IfOk result (λ twice. twice ≡ repeats_port context.now kind (map (λ w. w.now) words.now)) }
{
    match kind {
        Kind::Inputs => names_twice(alloc, &context.inputs, words_from(words, 1)),
        Kind::Outputs => names_twice(alloc, &context.outputs, words_from(words, 1)),
        _ => Ok(false),
    }
}

fn breaks_row(width: Option<usize>, on: Option<bool>, kind: Kind, words: &[&[u8]]) -> bool
    ensures { result ≡ breaks_row width on kind (map (λ w. w.now) words.now) }
{
    match (kind, width) {
        (Kind::Row, Some(width)) => !is_fine_row(width, on, words),
        _ => false,
    }
}

/// Why a line is malformed, if it is; the reason that stands first in the order of reasons decides.
fn malformed_by(
    alloc: Global,
    context: &Context,
    line: &[u8],
    kind: Kind,
    words: &[&[u8]],
) -> Result<Option<Reason>, Memory>
    ensures { IfOk result (λ reason. reason ≡ malformed_by context.now line.now kind (map (λ w. w.now) words.now)) }
{
    if !count_fits(kind, context.width, words.len()) {
        return Ok(Some(Reason::Row));
    }
    if breaks_number(kind, words) {
        return Ok(Some(Reason::Number));
    }
    if has_foreign(line) {
        return Ok(Some(Reason::Name));
    }
    if context.ended && needs_model(kind) {
        return Ok(Some(Reason::AfterEnd));
    }
    if repeats_port(alloc, context, kind, words)? {
        return Ok(Some(Reason::NameTwice));
    }
    if !context.begun && needs_model(kind) {
        return Ok(Some(Reason::NoModel));
    }
    if breaks_row(context.width, context.on, kind, words) {
        return Ok(Some(Reason::CoverRow));
    }
    Ok(None)
}

/// The first name that is a key of one of the sets.
fn first_among<'a>(
    first: &IndexSet<Vec<u8>>,
    second: &IndexSet<Vec<u8>>,
    names: &[&'a [u8]],
) -> Option<&'a [u8]>
    ensures { option_map (λ n. n.now) result ≡ find (λ name. is_among (key_names first.now.keys) name || is_among (key_names second.now.keys) name) (map (λ w. w.now) names.now) }
{
    for name in names {
        if is_in_either(first, second, name) {
            return Some(name);
        }
    }
    None
}

/// The first port of a line that is named on the other side too.
fn on_both_sides<'a>(context: &Context, kind: Kind, words: &[&'a [u8]]) -> Option<&'a [u8]>
    ensures { option_map (λ n. n.now) result ≡ on_both_sides context.now kind (map (λ w. w.now) words.now) }
{
    let names = words_from(words, 1);
    match kind {
        Kind::Inputs | Kind::Clock => first_among(&context.outputs, &context.outputs, names),
        Kind::Outputs => first_among(&context.inputs, &context.clocks, names),
        _ => None,
    }
}

/// A construct that begins with these words and goes on with a word of the file.
fn construct(alloc: Global, front: &[u8], word: &[u8]) -> Result<Name, Memory>
    ensures { IfOk result (λ name. name ≡ front.now ++ word.now) }
{
    let mut text = Vec::from_slice(alloc, front)?;
    text.extend_from_slice(word)?;
    Ok(Name::from(text))
}

fn type_construct(alloc: Global, words: &[&[u8]]) -> Result<Option<Name>, Memory>
    ensures { IfOk result (λ name. option_map problems.Unsupported name ≡ type_problem (map (λ w. w.now) words.now)) }
{
    let kind = word_at(words, 3);
    if has_type(words.len()) && kind != b"re".as_slice() {
        return Ok(Some(construct(alloc, b"latch type ", kind)?));
    }
    Ok(None)
}

fn port_construct(alloc: Global, port: Option<&[u8]>) -> Result<Option<Name>, Memory>
    ensures { IfOk result (λ name. option_map problems.Unsupported name ≡ port_problem (option_map (λ p. p.now) port.entry)) }
{
    match port {
        Some(port) => Ok(Some(construct(alloc, b"input and output ", port)?)),
        None => Ok(None),
    }
}

/// The construct of a line that is not supported, if it has one.
fn unsupported_by(
    alloc: Global,
    most: usize,
    context: &Context,
    kind: Kind,
    words: &[&[u8]],
) -> Result<Option<Name>, Memory>
    ensures { IfOk result (λ name. option_map problems.Unsupported name ≡ construct_problem most context.now kind (map (λ w. w.now) words.now)) }
{
    match kind {
        Kind::Names => {
            if most < words.len().saturating_sub(2) {
                return Ok(Some(Name::of(alloc, b"wide cover")?));
            }
            Ok(None)
        }
        Kind::Latch => type_construct(alloc, words),
        Kind::Other => Ok(Some(Name::of(alloc, word_at(words, 0))?)),
        _ => port_construct(alloc, on_both_sides(context, kind, words)),
    }
}

/// Why a line is refused, if it is. A cover has at most so many inputs.
pub fn judge(
    alloc: Global,
    most: usize,
    context: &Context,
    line: &[u8],
    kind: Kind,
    words: &[&[u8]],
) -> Result<Option<Problem>, Memory>
    ensures { IfOk result (λ problem. problem ≡ judge_words most context.now line.now kind (map (λ w. w.now) words.now)) }
{
    if let Some(reason) = malformed_by(alloc, context, line, kind, words)? {
        return Ok(Some(Problem::Malformed(reason)));
    }
    match unsupported_by(alloc, most, context, kind, words)? {
        Some(construct) => Ok(Some(Problem::Unsupported(construct))),
        None => Ok(None),
    }
}
