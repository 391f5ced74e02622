//! What the lines of a stimulus hold.

ghost use Rattle.std.specs.Prelude.{◌≡◌, ◌==◌, ◌||◌, IfOk, length, map, option_map};
ghost use Rattle.std.specs.List.{list_all};
ghost use Rattle.fab_state.specs.Spelled.{AreApart};
ghost use Rattle.fab_lines.specs.Items.{is_among};
ghost use Rattle.fab_stimulus.specs.Stimuli.{columns_of, digits_of, is_digit, is_nothing, once, ports_of, value_at, values_at};

use fab_base::{Memory, Name};
use fab_fabric::Site;
use fab_lines::word_at;
use fab_texts::WordSet;
use std::alloc::Global;

/// The names of ports, which differ.
pub fn ports_of(alloc: Global, pads: &[(Name, Site)]) -> Result<WordSet, Memory>
    requires { AreApart (ports_of pads.now) }
    ensures { IfOk result (λ ports. ports ≡ ports_of pads.now) }
{
    let mut ports = WordSet::new(alloc);
    for (port, _) in pads {
        ports.add(alloc, port.bytes())?;
    }
    Ok(ports)
}

/// The words, each once, and how many these are.
pub fn once(alloc: Global, words: &[&[u8]]) -> Result<(WordSet, usize), Memory>
    ensures { IfOk result (λ found. (found.0 ≡ once (map (λ w. w.now) words.now)) × (found.1 ≡ length (once (map (λ w. w.now) words.now)))) }
{
    let mut different = WordSet::new(alloc);
    let mut count = 0;
    for word in words {
        if !different.contains(word) {
            different.add(alloc, word)?;
            count += 1;
        }
    }
    Ok((different, count))
}

fn is_each_named(pads: &[(Name, Site)], names: &WordSet) -> bool
    ensures { result ≡ list_all (λ pad. is_among names.now pad.0) pads.now }
{
    pads.iter().all(|pad| names.contains(pad.0.bytes()))
}

/// Whether each port is named.
pub fn are_named(pads: &[(Name, Site)], names: &WordSet) -> bool
    ensures { result ≡ list_all (is_among names.now) (ports_of pads.now) }
{
    is_each_named(pads, names)
}

fn is_each_among(words: &[&[u8]], others: &WordSet) -> bool
    ensures { result ≡ list_all (λ word. is_among others.now word.now) words.now }
{
    words.iter().all(|word| others.contains(word))
}

/// Whether each word is among others.
pub fn are_among(words: &[&[u8]], others: &WordSet) -> bool
    ensures { result ≡ list_all (is_among others.now) (map (λ w. w.now) words.now) }
{
    is_each_among(words, others)
}

/// For each port its place among names.
pub fn columns_of(
    alloc: Global,
    pads: &[(Name, Site)],
    names: &WordSet,
) -> Result<Vec<usize>, Memory>
    ensures { IfOk result (λ columns. columns.items ≡ columns_of (ports_of pads.now) names.now) }
{
    let mut columns = Vec::new(alloc);
    for (port, _) in pads {
        columns.push(names.place_of(port.bytes()).unwrap_or(0))?;
    }
    Ok(columns)
}

/// Whether a line is `-`.
pub fn is_nothing(words: &[&[u8]]) -> bool
    ensures { result ≡ is_nothing (map (λ w. w.now) words.now) }
{
    words.len() == 1 && word_at(words, 0) == b"-".as_slice()
}

/// The digits of a line, where there are so many ports.
pub fn digits_of<'a>(count: usize, words: &[&'a [u8]]) -> Option<&'a [u8]>
    ensures { option_map (λ d. d.now) result ≡ digits_of count (map (λ w. w.now) words.now) }
{
    if count == 0 {
        return if is_nothing(words) { Some(b"") } else { None };
    }
    let word = word_at(words, 0);
    if words.len() == 1 && word.len() == count {
        Some(word)
    } else {
        None
    }
}

fn is_digit(byte: u8) -> bool
    ensures { result ≡ is_digit byte }
{
    byte == b'0' || byte == b'1'
}

pub fn are_digits(bytes: &[u8]) -> bool
    ensures { result ≡ list_all is_digit bytes.now }
{
    bytes.iter().all(|byte| is_digit(*byte))
}

fn value_at(digits: &[u8], column: usize) -> bool
    ensures { result ≡ value_at digits.now column }
{
    match digits.get(column) {
        Some(digit) => *digit == b'1',
        None => false,
    }
}

/// The values in these columns.
pub fn values_at(alloc: Global, digits: &[u8], columns: &[usize]) -> Result<Vec<bool>, Memory>
    ensures { IfOk result (λ values. values.items ≡ values_at digits.now columns.now) }
{
    let mut values = Vec::new(alloc);
    for column in columns {
        values.push(value_at(digits, *column))?;
    }
    Ok(values)
}
