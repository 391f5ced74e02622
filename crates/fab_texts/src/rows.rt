//! The words of lines.

ghost use Rattle.std.specs.Prelude.{◌≡◌, ◌≤◌, IfOk, length, map, not, ◌==◌};
ghost use Rattle.std.specs.List.{list_any};
ghost use Rattle.fab_lines.specs.Parts.{is_blank};
ghost use Rattle.fab_texts.specs.Rows.{entry_line, rows_of, words};

use fab_base::{MAX_FILE_BYTES, Memory};
use fab_lines::{first_line, is_blank, uncommented};
use std::alloc::Global;

/// The words of a line: what blanks and tabs part, before the first `#`. The error comes where memory is refused.
pub fn words_of(alloc: Global, line: &[u8]) -> Result<Vec<&[u8]>, Memory>
    ensures { IfOk result (λ v. map (λ s. s.now) v.items ≡ words line.now) }
{
    let mut words = Vec::new(alloc);
    for word in uncommented(line).split(|byte| is_blank(*byte)) {
        if !word.is_empty() {
            words.push(word)?;
        }
    }
    Ok(words)
}

fn has_filled(text: &[u8]) -> bool
    ensures { result ≡ list_any (λ byte. not (is_blank byte)) text.now }
{
    text.iter().any(|byte| !is_blank(*byte))
}

fn holds_word(line: &[u8]) -> bool
    ensures { result ≡ not (length (words line.now) == 0) }
{
    has_filled(uncommented(line))
}

/// The number of the line that is the entry-th of those that hold a word, where entries and lines are counted from 1; 0 where
/// there is none.
pub fn entry_line(bytes: &[u8], entry: u32) -> u32
    requires { length bytes.now ≤ MAX_FILE_BYTES }
    ensures { result ≡ entry_line (rows_of bytes.now) entry }
{
    let mut left = entry;
    let mut rest = bytes;
    let mut number: u32 = 1;
    while 0 < rest.len() {
        let (line, after) = first_line(rest);
        if holds_word(line) {
            if left == 1 {
                return number;
            }
            left = left.saturating_sub(1);
        }
        rest = after;
        number += 1;
    }
    0
}
