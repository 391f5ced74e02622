//! The rows of a text.

ghost use Rattle.std.specs.Prelude.{◌≡◌, ◌<◌, ◌≤◌, ◌+◌, ◌∷◌, [], IfOk, IfSome, MatchOption, length};
ghost use Rattle.fab_rows.specs.Rows.{rows_at, rows_of};

use crate::cells::cells_of;
use fab_base::{MAX_FILE_BYTES, Memory, Name};
use fab_lines::first_line;
use std::alloc::Global;
use std::marker::Model;

/// A line of a table that has cells, and its number, counted from 1.
#[derive(Debug, Drop)]
pub struct Row {
    pub line: u32,
    pub cells: Vec<Name>,
}

impl Model for Row {
    ghost use Rattle.fab_rows.specs.Rows.{PlainRow};

    ghost Value = { PlainRow };

    ghost view = { λ row. record { line = row.line; cells = row.cells.items } };
}

/// The first row of a text whose first line has this number, and the text after that row's line; nothing where it has no row. A
/// reader that takes the rows of a file by it keeps no more than one.
///
/// The error comes where memory is refused.
pub fn next_row<'a>(
    alloc: Global,
    bytes: &'a [u8],
    line: u32,
) -> Result<Option<(Row, &'a [u8])>, Memory>
    requires { line + length bytes.now ≤ MAX_FILE_BYTES + 1 }
    ensures next { IfOk result (λ r. MatchOption r (rows_at line bytes.now ≡ []) (λ found. rows_at line bytes.now ≡ found.0 ∷ rows_at (found.0.line + 1) found.1.now)) }
    ensures numbered { IfOk result (λ r. IfSome r (λ found. found.0.line + 1 + length found.1.now ≤ line + length bytes.now)) }
    ensures shorter { IfOk result (λ r. IfSome r (λ found. length found.1.now < length bytes.now)) }
{
    let mut rest = bytes;
    let mut number = line;
    while 0 < rest.len() {
        let (text, after) = first_line(rest);
        let cells = cells_of(alloc, text)?;
        if !cells.is_empty() {
            return Ok(Some((
                Row {
                    line: number,
                    cells,
                },
                after,
            )));
        }
        rest = after;
        number += 1;
    }
    Ok(None)
}

/// The rows of a text. A line's cells are those of the first record that csv finds before the line's first `#`, without the
/// blanks and tabs at their ends; empty cells at the end of a line are none, and a line without cells is no row.
///
/// The error comes where memory is refused.
pub fn rows(alloc: Global, bytes: &[u8]) -> Result<Vec<Row>, Memory>
    requires { length bytes.now ≤ MAX_FILE_BYTES }
    ensures { IfOk result (λ rows. rows.items ≡ rows_of bytes.now) }
{
    let mut rows = Vec::new(alloc);
    let mut rest = bytes;
    let mut line: u32 = 1;
    while let Some((row, after)) = next_row(alloc, rest, line)? {
        rest = after;
        line = row.line + 1;
        rows.push(row)?;
    }
    Ok(rows)
}
