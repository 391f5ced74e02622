//! The cells of one line.

ghost use Rattle.std.specs.Prelude.{◌≡◌, [], IfOk, map, option_map, take, length, ◌≤◌};
ghost use Rattle.std.specs.List.{list_all, slice_split};
ghost use Rattle.csv.specs.Machine.{next_record};
ghost use Rattle.csv.specs.Reading.{default_config, strip_bom};
ghost use Rattle.csv.specs.Records.{fields_of};
ghost use Rattle.csv.specs.declared.parser.State.TheVariants as states;
ghost use Rattle.fab_lines.specs.Parts.{is_empty_cell, trimmed, without_back};
ghost use Rattle.fab_rows.specs.inner.Plain.{is_comma, is_gap, is_plain_byte};
ghost use Rattle.fab_rows.specs.Rows.{cells_of_line, fields_of_line};

use csv::{ByteRecord, Error, ReaderBuilder};
use fab_base::{Memory, Name};
use fab_lines::{is_blank, trimmed, uncommented};
use std::alloc::Global;

/// The first record of a line that is read alone, if it has one.
fn first_record(alloc: Global, line: &[u8]) -> Result<Option<ByteRecord>, Error>
    ensures { IfOk result (λ found. option_map fields_of found
        ≡ option_map (λ read. read.0) (next_record default_config states.StartRecord [] [] (strip_bom line.now))) }
{
    let mut reader = ReaderBuilder::new()
        .has_headers(false)
        .from_reader(alloc, line);
    let mut record = ByteRecord::new(alloc);
    if reader.read_byte_record(&mut record)? {
        Ok(Some(record))
    } else {
        Ok(None)
    }
}

fn trimmed_fields(alloc: Global, found: &ByteRecord) -> Result<Vec<Name>, Memory>
    ensures { IfOk result (λ cells. cells.items ≡ map trimmed (fields_of found.now)) }
{
    let mut cells = Vec::new(alloc);
    let mut count = 0;
    while let Some(field) = found.get(count) {
        cells.push(Name::of(alloc, trimmed(field))?)?;
        count += 1;
    }
    Ok(cells)
}

/// How many cells are left without the empty ones at the end.
fn count_kept(cells: &[Name]) -> usize
    ensures within { result ≤ length cells.now }
    ensures kept { take result cells.now ≡ without_back is_empty_cell cells.now }
{
    let mut count = cells.len();
    while 0 < count {
        if 0 < cells[count - 1].bytes().len() {
            break;
        }
        count -= 1;
    }
    count
}

/// The cells without the empty ones at the end.
fn kept(cells: Vec<Name>) -> Vec<Name>
    ensures { result.items ≡ without_back is_empty_cell cells.items }
{
    let mut cells = cells;
    cells.truncate(count_kept(&cells));
    cells
}

/// Whether no byte of a line is a quote, ends a record or begins a byte order mark.
fn is_plain(line: &[u8]) -> bool
    ensures { result ≡ list_all is_plain_byte line.now }
{
    line.iter().all(|byte| *byte != b'"' && *byte != b'\r' && *byte != b'\n' && *byte != 0xef)
}

fn is_gap(byte: u8) -> bool
    ensures { result ≡ is_gap byte }
{
    byte == b',' || is_blank(byte)
}

/// A line without the commas and blanks at its end, so that no empty cells are made of them.
fn without_gaps(line: &[u8]) -> &[u8]
    ensures { result.now ≡ without_back is_gap line.now }
{
    let mut rest = line;
    while let Some((last, before)) = rest.split_last() {
        if !is_gap(*last) {
            break;
        }
        rest = before;
    }
    rest
}

/// What stands between commas.
fn between_commas(alloc: Global, line: &[u8]) -> Result<Vec<Name>, Memory>
    ensures { IfOk result (λ cells. cells.items ≡ map trimmed (slice_split is_comma line.now)) }
{
    let mut cells = Vec::new(alloc);
    for cell in line.split(|byte| *byte == b',') {
        cells.push(Name::of(alloc, trimmed(cell))?)?;
    }
    Ok(cells)
}

/// The fields that csv finds. Where it answers with an error, memory was refused, for the line is there as a whole.
fn csv_fields(alloc: Global, line: &[u8]) -> Result<Vec<Name>, Memory>
    ensures { IfOk result (λ cells. cells.items ≡ map trimmed (fields_of_line line.now)) }
{
    let Ok(found) = first_record(alloc, line) else {
        return Err(Memory);
    };
    match found {
        Some(record) => trimmed_fields(alloc, &record),
        None => Ok(Vec::new(alloc)),
    }
}

/// The cells of a line. A reader of CSV takes a buffer, so it is made only for lines that need one.
#[tactic(auto, using(crate::proofs::PlainLines::plain_cells, crate::proofs::LastGaps::cells_without_gaps))]
pub fn cells_of(alloc: Global, line: &[u8]) -> Result<Vec<Name>, Memory>
    ensures { IfOk result (λ cells. cells.items ≡ cells_of_line line.now) }
{
    let text = uncommented(line);
    if is_plain(text) {
        return Ok(kept(between_commas(alloc, without_gaps(text))?));
    }
    Ok(kept(csv_fields(alloc, text)?))
}
