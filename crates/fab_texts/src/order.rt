//! Lines of words are taken in turn, and the first that is refused decides.

ghost use Rattle.std.specs.Prelude.{◌≡◌, ◌≤◌, ℕ, List, Result, length, map};
ghost use Rattle.fab_base.specs.declared.problem.Problem.{Problem as Refusal};
ghost use Rattle.fab_base.specs.Reading.{Answers, Gives};
ghost use Rattle.fab_lines.specs.Order.{placed, read_all};
ghost use Rattle.fab_texts.specs.Rows.{after_line, after_row, rows_of};

use crate::rows::words_of;
use fab_base::{Fault, MAX_FILE_BYTES, Name, Problem};
use fab_lines::first_line;
use std::alloc::Global;

/// What a format knows of the lines that it has taken so far.
pub trait WordReader: Drop {
    /// The state after a line of these words, or why the line is refused.
    ghost after: { Self → List (List ℕ) → Result Self Refusal };

    /// Takes the next line that holds a word. After an error the reader is of no more use.
    fn take_words(&mut self, alloc: Global, words: &[&[u8]]) -> Result<(), Problem>
        ensures { Answers (λ _. self.new) result (after self.old (map (λ w. w.now) words.now)) };
}

/// Takes a line, which may hold no word.
fn take_line<R: WordReader>(reader: &mut R, alloc: Global, line: &[u8]) -> Result<(), Problem>
    ensures { Answers (λ _. reader.new) result (after_line R.after reader.old line.now) }
{
    let words = words_of(alloc, line)?;
    if words.is_empty() {
        return Ok(());
    }
    reader.take_words(alloc, &words)
}

/// Reads the text of a file, line by line; lines without a word are passed over.
///
/// The error is that of the first line that is refused, with its number, or want of memory.
pub fn read_words<R: WordReader>(
    alloc: Global,
    file: &Name,
    bytes: &[u8],
    start: R,
) -> Result<R, Fault>
    requires { length bytes.now ≤ MAX_FILE_BYTES }
    ensures { Gives (λ reader. reader) result (placed file.now (read_all (after_row R.after) (λ row. row.line) start (rows_of bytes.now))) }
{
    let mut reader = start;
    let mut rest = bytes;
    let mut number: u32 = 1;
    while 0 < rest.len() {
        let (line, after) = first_line(rest);
        if let Err(problem) = take_line(&mut reader, alloc, line) {
            return Err(problem.at(alloc, file, number));
        }
        rest = after;
        number += 1;
    }
    Ok(reader)
}
