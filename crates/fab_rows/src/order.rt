//! Rows are taken in turn, and the first that is refused decides.

ghost use Rattle.std.specs.Prelude.{◌≡◌, Result};
ghost use Rattle.fab_base.specs.declared.problem.Problem.{Problem as Refusal};
ghost use Rattle.fab_base.specs.Reading.{Answers, Gives};
ghost use Rattle.fab_lines.specs.Order.{placed, read_all};
ghost use Rattle.fab_rows.specs.Rows.{PlainRow};

use crate::row::Row;
use fab_base::{Fault, Name, Problem};
use std::alloc::Global;

/// What a format knows of the rows that it has taken so far.
pub trait RowReader: Drop {
    /// The state after a row, or why the row is refused.
    ghost after: { Self → PlainRow → Result Self Refusal };

    /// Takes the next row. After an error the reader is of no more use.
    fn take_row(&mut self, alloc: Global, row: &Row) -> Result<(), Problem>
        ensures { Answers (λ _. self.new) result (after self.old row.now) };
}

/// Takes the rows of a file in turn.
///
/// The error is that of the first row that is refused, with its line, or want of memory.
pub fn read_rows<R: RowReader>(
    alloc: Global,
    file: &Name,
    rows: &[Row],
    start: R,
) -> Result<R, Fault>
    ensures { Gives (λ reader. reader) result (placed file.now (read_all R.after (λ row. row.line) start rows.now)) }
{
    let mut reader = start;
    for row in rows {
        if let Err(problem) = reader.take_row(alloc, row) {
            return Err(problem.at(alloc, file, row.line));
        }
    }
    Ok(reader)
}
