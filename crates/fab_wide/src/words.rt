//! Tables of covers as words of 16 bits, and how many nets their split takes.

ghost use Rattle.std.specs.Prelude.{◌≡◌, ◌+◌, ◌*◌, ◌-◌, ◌^◌, ◌≤◌, IfOk, length, nat_eq};
ghost use Rattle.std.specs.Cmp.Lexicographic.{pointwise};
ghost use Rattle.std.specs.List.{All};
ghost use Rattle.fab_netlist.specs.Wide.{IsFineRow, tabled_cover};
ghost use Rattle.fab_wide.specs.Split.{taken, taken_by};
ghost use Rattle.fab_wide.specs.inner.Words.{AreWords, covered_words, number_of_words};

use crate::marks::{mark_row, turn_over};
use fab_base::Memory;
use fab_netlist::WideCover;
use std::alloc::Global;

/// How many words the table of so many inputs has.
fn word_count(inputs: usize) -> usize
    requires { inputs ≤ 16 }
    ensures { result ≡ 2 ^ (inputs - 4) }
{
    1_usize << inputs.saturating_sub(4)
}

/// The words of the table that has 1 where a row of the cover matches.
fn covered_words(alloc: Global, cover: &WideCover) -> Result<Vec<u16>, Memory>
    requires few { length cover.now.inputs ≤ 16 }
    requires rows { All (IsFineRow (length cover.now.inputs)) cover.now.rows }
    ensures { IfOk result (λ words. words.items ≡ covered_words cover.now.rows 0 (2 ^ (length cover.now.inputs - 4))) }
{
    let count = word_count(cover.inputs.len());
    let mut words = vec![in alloc; 0; count]?;
    for row in &cover.rows {
        mark_row(&mut words, *row);
    }
    Ok(words)
}

/// The table of a cover. Bit i of word w is the value of the output where the first four inputs spell i, and those from the fifth on w.
pub(crate) fn words_of(alloc: Global, cover: &WideCover) -> Result<Vec<u16>, Memory>
    requires few { length cover.now.inputs ≤ 16 }
    requires rows { All (IsFineRow (length cover.now.inputs)) cover.now.rows }
    ensures words { IfOk result (λ words. AreWords (length cover.now.inputs) words.items) }
    ensures table { IfOk result (λ words. number_of_words words.items ≡ (tabled_cover cover.now).table) }
{
    let mut words = covered_words(alloc, cover)?;
    if !cover.on {
        turn_over(&mut words);
    }
    Ok(words)
}

/// Whether two lists of words are equal.
pub(crate) fn same_words(first: &[u16], second: &[u16]) -> bool
    ensures { result ≡ pointwise nat_eq first.now second.now }
{
    first == second
}

/// How many new nets the split of a table takes: two for each pair of halves that differ.
fn taken(inputs: usize, words: &[u16]) -> u32
    requires few { inputs ≤ 16 }
    requires words { AreWords inputs words.now }
    ensures value { result ≡ taken inputs (number_of_words words.now) }
    ensures small { result + 2 ≤ 2 * length words.now }
{
    if inputs <= 4 {
        return 0;
    }
    let (low, high) = words.split_at(words.len() / 2);
    let first = taken(inputs - 1, low);
    if same_words(low, high) {
        return first;
    }
    2 + (first + taken(inputs - 1, high))
}

/// How many new nets the split of a cover takes.
pub(crate) fn taken_by(alloc: Global, cover: &WideCover) -> Result<u32, Memory>
    requires few { length cover.now.inputs ≤ 16 }
    requires rows { All (IsFineRow (length cover.now.inputs)) cover.now.rows }
    ensures value { IfOk result (λ nets. nets ≡ taken_by (tabled_cover cover.now)) }
    ensures small { IfOk result (λ nets. nets ≤ 8192) }
{
    let words = words_of(alloc, cover)?;
    Ok(taken(cover.inputs.len(), &words))
}
