//! A text is read line by line, and the least line that is refused decides.

ghost use Rattle.std.specs.Prelude.{◌≡◌, ◌≤◌, ℕ, List, Result, length};
ghost use Rattle.std.specs.Str.Lines.{lines};
ghost use Rattle.fab_base.specs.declared.problem.Problem.{Problem as Refusal};
ghost use Rattle.fab_base.specs.Reading.{Answers, Gives};
ghost use Rattle.fab_lines.specs.Order.{placed, read_from};

use crate::cut::first_line;
use fab_base::{Fault, MAX_FILE_BYTES, Name, Problem};
use std::alloc::Global;

/// What a format knows of the lines that it has taken so far.
pub trait LineReader: Drop {
    /// The state after a line of this number, or why the line is refused.
    ghost after: { Self → ℕ → List ℕ → Result Self Refusal };

    /// Takes the next line of the text, of this number counted from 1. After an error the reader is of no more use.
    fn take_line(&mut self, alloc: Global, number: u32, line: &[u8]) -> Result<(), Problem>
        ensures { Answers (λ _. self.new) result (after self.old number line.now) };
}

/// Reads the text of a file, line by line.
///
/// The error is that of the first line that is refused, with its number, or want of memory.
pub fn read_lines<R: LineReader>(
    alloc: Global,
    file: &Name,
    bytes: &[u8],
    start: R,
) -> Result<R, Fault>
    requires { length bytes.now ≤ MAX_FILE_BYTES }
    ensures { Gives (λ reader. reader) result (placed file.now (read_from R.after start 1 (lines bytes.now))) }
{
    let mut reader = start;
    let mut rest = bytes;
    let mut number: u32 = 1;
    while 0 < rest.len() {
        let (line, after) = first_line(rest);
        if let Err(problem) = reader.take_line(alloc, number, line) {
            return Err(problem.at(alloc, file, number));
        }
        rest = after;
        number += 1;
    }
    Ok(reader)
}
