//! The parts of a line: what stands before its comment, and its cells.

ghost use Rattle.std.specs.Prelude.{◌≡◌, ◌≤◌, ◌==◌, ◌||◌, IfOk, length, map, position, take};
ghost use Rattle.std.specs.List.{before_first, position_or_len, slice_split};
ghost use Rattle.fab_lines.specs.Parts.{all_cells, is_blank, is_empty_cell, trimmed, uncommented, without_back, without_front};

use std::alloc::{AllocError, Global};

/// The place of the first such byte.
pub(crate) fn place(bytes: &[u8], sought: u8) -> Option<usize>
    ensures { result ≡ position (λ byte. byte == sought) bytes.now }
{
    bytes.iter().position(|byte| *byte == sought)
}

/// The place of the first such byte, and the end where there is none.
pub fn place_or_end(bytes: &[u8], sought: u8) -> usize
    ensures value { result ≡ position_or_len (λ byte. byte == sought) bytes.now }
    ensures within { result ≤ length bytes.now }
{
    place(bytes, sought).unwrap_or(bytes.len())
}

/// What stands before the first `#` of a line.
pub fn uncommented(line: &[u8]) -> &[u8]
    ensures { result.now ≡ uncommented line.now }
{
    &line[..place_or_end(line, b'#')]
}

/// Whether a byte is a blank or a tab.
pub fn is_blank(byte: u8) -> bool
    ensures { result ≡ is_blank byte }
{
    byte == b' ' || byte == b'\t'
}

fn without_blanks_in_front(cell: &[u8]) -> &[u8]
    ensures { result.now ≡ without_front is_blank cell.now }
{
    let mut rest = cell;
    while let Some((first, after)) = rest.split_first() {
        if !is_blank(*first) {
            break;
        }
        rest = after;
    }
    rest
}

fn without_blanks_at_end(cell: &[u8]) -> &[u8]
    ensures { result.now ≡ without_back is_blank cell.now }
{
    let mut rest = cell;
    while let Some((last, before)) = rest.split_last() {
        if !is_blank(*last) {
            break;
        }
        rest = before;
    }
    rest
}

/// A cell without the blanks and tabs at both ends.
pub fn trimmed(cell: &[u8]) -> &[u8]
    ensures { result.now ≡ trimmed cell.now }
{
    without_blanks_at_end(without_blanks_in_front(cell))
}

/// What stands between the commas of a line, each without the blanks and tabs at its ends. An empty line has one empty
/// cell. The error comes where memory is refused.
pub fn all_cells(alloc: Global, line: &[u8]) -> Result<Vec<&[u8]>, AllocError>
    ensures { IfOk result (λ v. map (λ s. s.now) v.items ≡ all_cells line.now) }
{
    let mut cells = Vec::new(alloc);
    for cell in line.split(|byte| *byte == b',') {
        cells.push(trimmed(cell))?;
    }
    Ok(cells)
}

/// How many cells are left without the empty ones at the end.
fn count_kept(cells: &[&[u8]]) -> usize
    ensures within { result ≤ length cells.now }
    ensures kept { map (λ s. s.now) (take result cells.now) ≡ without_back is_empty_cell (map (λ s. s.now) cells.now) }
{
    let mut count = cells.len();
    while 0 < count {
        if 0 < cells[count - 1].len() {
            break;
        }
        count -= 1;
    }
    count
}

/// The cells without the empty ones at the end.
pub fn without_empty<'a, 'b>(cells: &'a [&'b [u8]]) -> &'a [&'b [u8]]
    ensures { map (λ s. s.now) result.now ≡ without_back is_empty_cell (map (λ s. s.now) cells.now) }
{
    let (kept, _) = cells.split_at(count_kept(cells));
    kept
}
