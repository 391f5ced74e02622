//! The words of a line, and what kind of line they make.

ghost use Rattle.std.specs.Prelude.{◌≡◌, ◌==◌, IfOk, drop, map, slice_index, take};
ghost use Rattle.std.specs.List.{list_any};
ghost use Rattle.fab_blif_models.specs.Words.{arguments, is_foreign, is_of_word, is_passed, kind_of, kind_of_word, words};

use fab_base::{Memory, Name};
use fab_lines::is_blank;
use std::alloc::Global;

/// What a line is, by its first word.
#[derive(Clone, Copy, Debug, PartialEq, Eq)]
pub enum Kind {
    /// There is no word.
    Blank,
    /// The first word has no leading dot.
    Row,
    /// `.model`
    Model,
    /// `.end`
    End,
    /// `.inputs`
    Inputs,
    /// `.outputs`
    Outputs,
    /// `.clock`
    Clock,
    /// `.names`
    Names,
    /// `.latch`
    Latch,
    /// `.subckt`
    Instance,
    /// `.conn`
    Buffer,
    /// `.attr`, `.cname` or `.param`
    Passed,
    /// Another word with a leading dot.
    Other,
}

fn is_of_word(byte: u8) -> bool
    ensures { result ≡ is_of_word byte }
{
    b'!' <= byte && byte <= b'~'
}

fn is_foreign(byte: u8) -> bool
    ensures { result ≡ is_foreign byte }
{
    !(is_of_word(byte) || is_blank(byte))
}

/// Whether a byte stands in a line that is neither printable nor a tab.
pub fn has_foreign(line: &[u8]) -> bool
    ensures { result ≡ list_any is_foreign line.now }
{
    line.iter().any(|byte| is_foreign(*byte))
}

/// The words of a line.
pub fn words_of(alloc: Global, line: &[u8]) -> Result<Vec<&[u8]>, Memory>
    ensures { IfOk result (λ v. map (λ s. s.now) v.items ≡ words line.now) }
{
    let mut words = Vec::new(alloc);
    for word in line.split(|byte| !is_of_word(*byte)) {
        if !word.is_empty() {
            words.push(word)?;
        }
    }
    Ok(words)
}

/// The words from a place on.
pub fn words_from<'a, 'b>(words: &'a [&'b [u8]], place: usize) -> &'a [&'b [u8]]
    ensures { map (λ w. w.now) result.now ≡ drop place (map (λ w. w.now) words.now) }
{
    let (_, rest) = words.split_at(place.min(words.len()));
    rest
}

/// The first so many words.
pub fn words_up_to<'a, 'b>(words: &'a [&'b [u8]], count: usize) -> &'a [&'b [u8]]
    ensures { map (λ w. w.now) result.now ≡ take count (map (λ w. w.now) words.now) }
{
    let (first, _) = words.split_at(count.min(words.len()));
    first
}

/// Names of these words.
pub fn names_of(alloc: Global, words: &[&[u8]]) -> Result<Vec<Name>, Memory>
    ensures { IfOk result (λ names. names.items ≡ map (λ w. w.now) words.now) }
{
    let mut names = Vec::new(alloc);
    for word in words {
        names.push(Name::of(alloc, word)?)?;
    }
    Ok(names)
}

fn is_passed(word: &[u8]) -> bool
    ensures { result ≡ is_passed word.now }
{
    word == b".attr".as_slice() || word == b".cname".as_slice() || word == b".param".as_slice()
}

fn begins_with_dot(word: &[u8]) -> bool
    ensures { result ≡ (slice_index word.now 0 == 46) }
{
    0 < word.len() && word[0] == b'.'
}

fn kind_of_word(word: &[u8]) -> Kind
    ensures { result ≡ kind_of_word word.now }
{
    if !begins_with_dot(word) {
        return Kind::Row;
    }
    if word == b".model".as_slice() {
        return Kind::Model;
    }
    if word == b".end".as_slice() {
        return Kind::End;
    }
    if word == b".inputs".as_slice() {
        return Kind::Inputs;
    }
    if word == b".outputs".as_slice() {
        return Kind::Outputs;
    }
    if word == b".clock".as_slice() {
        return Kind::Clock;
    }
    if word == b".names".as_slice() {
        return Kind::Names;
    }
    if word == b".latch".as_slice() {
        return Kind::Latch;
    }
    if word == b".subckt".as_slice() {
        return Kind::Instance;
    }
    if word == b".conn".as_slice() {
        return Kind::Buffer;
    }
    if is_passed(word) {
        return Kind::Passed;
    }
    Kind::Other
}

/// What a line of these words is.
pub fn kind_of(words: &[&[u8]]) -> Kind
    ensures { result ≡ kind_of (map (λ w. w.now) words.now) }
{
    match words {
        [] => Kind::Blank,
        [first, ..] => kind_of_word(first),
    }
}
