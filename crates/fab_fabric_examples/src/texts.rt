//! Texts: the function in front of a case's title takes each of its files.

ghost use Rattle.std.specs.Prelude.{List, ℕ, Ok, Err, length, ◌==◌, if◌then◌else◌};
ghost use Rattle.fab_base.specs.declared.problem.Problem.TheVariants as problems;
ghost use Rattle.fab_base.specs.declared.words.Reason.TheVariants as reasons;

use crate::cases::Case;
use crate::shown::{put_bracketed, put_number};
use fab_base::{Fault, MAX_FILE_BYTES, Memory, Name, Problem, Reason};
use fab_examples::{Stop, report_of};
use fab_lines::{LineReader, first_line, last_line, read_lines};
use fab_rows::{Row, rows};
use fab_tables::read_list;
use std::alloc::Global;

/// Takes lines that are not empty, and keeps the number of the last.
#[derive(Debug, Drop)]
struct LastLine {
    number: u32,
}

impl LineReader for LastLine {
    ghost after = { λ _ number line. if length line == 0 then Err (problems.Malformed reasons.Row) else Ok (record { number = number }) };

    fn take_line(&mut self, _: Global, number: u32, line: &[u8]) -> Result<(), Problem> {
        if line.is_empty() {
            return Err(Problem::Malformed(Reason::Row));
        }
        self.number = number;
        Ok(())
    }
}

/// The first line, and what stands behind it.
fn put_first(out: &mut Vec<u8>, text: &[u8]) -> Result<(), Memory> {
    if text.is_empty() {
        return Ok(());
    }
    let (line, rest) = first_line(text);
    put_bracketed(out, line)?;
    put_bracketed(out, rest)
}

fn put_row(out: &mut Vec<u8>, row: &Row) -> Result<(), Memory> {
    out.push(b' ')?;
    put_number(out, u64::from(row.line))?;
    for cell in &row.cells {
        put_bracketed(out, cell.bytes())?;
    }
    Ok(())
}

/// The rows of a table, each as the number of its line and its cells.
fn put_rows(alloc: Global, out: &mut Vec<u8>, text: &[u8]) -> Result<(), Memory> {
    if text.len() > MAX_FILE_BYTES {
        return Ok(());
    }
    for row in &rows(alloc, text)? {
        put_row(out, row)?;
    }
    Ok(())
}

/// What is read of a text of this name: how many lines it has by itself, how many a reader takes, or how many rows its list has.
fn count_of(alloc: Global, front: &[u8], file: &Name, text: &[u8]) -> Result<u64, Fault> {
    if text.len() > MAX_FILE_BYTES {
        return Err(Fault::TooLong(file.copy(alloc)?));
    }
    match front {
        b"last line" => Ok(u64::from(last_line(text))),
        b"reader" => {
            let LastLine { number } = read_lines(alloc, file, text, LastLine { number: 0 })?;
            Ok(u64::from(number))
        }
        b"list" => Ok(read_list(alloc, file, text)?.len() as u64),
        _ => Err(Fault::Usage),
    }
}

fn put_count(
    alloc: Global,
    out: &mut Vec<u8>,
    front: &[u8],
    file: &Name,
    text: &[u8],
) -> Result<(), Memory> {
    match count_of(alloc, front, file, text) {
        Ok(count) => {
            put_number(out, count)?;
            out.push(b'\n')?;
        }
        Err(fault) => out.extend_from_slice(&report_of(alloc, fault)?)?,
    }
    Ok(())
}

fn put_answer(
    alloc: Global,
    out: &mut Vec<u8>,
    front: &[u8],
    name: &[u8],
    text: &[u8],
) -> Result<(), Memory> {
    match front {
        b"first line" => put_first(out, text)?,
        b"rows" => put_rows(alloc, out, text)?,
        _ => return put_count(alloc, out, front, &Name::of(alloc, name)?, text),
    }
    out.push(b'\n')?;
    Ok(())
}

/// A line for each file.
pub fn texts_text(alloc: Global, case: &Case) -> Result<Vec<u8>, Stop> {
    let mut out = Vec::new(alloc);
    for file in &case.files {
        let name = file.0.as_bytes();
        out.extend_from_slice(b"  ")?;
        out.extend_from_slice(name)?;
        out.extend_from_slice(b": ")?;
        put_answer(alloc, &mut out, case.front.bytes(), name, &file.1)?;
    }
    Ok(out)
}
