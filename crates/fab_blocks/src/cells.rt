//! The cells of rows.

ghost use Rattle.std.specs.Prelude.{◌≡◌, true, IfOk};
ghost use Rattle.fab_lines.specs.Numbers.{capped};
ghost use Rattle.fab_paths.specs.Paths.{is_path};
ghost use Rattle.fab_blocks.specs.Cells.{cell_at, is_negative, is_null, is_positive, is_side, is_signed, is_tile_name, is_zero, long_of, long_problem, magnitude, unsigned};

use fab_base::{Memory, Name, Problem, Quantity};
use fab_lines::{capped_number, is_identifier, is_wire_name};
use fab_paths::resolve;
use std::alloc::Global;

/// The most bytes of a name in a table.
const MAX_NAME_BYTES: usize = 64;

/// The cell at a place; it is empty past the end.
pub fn cell_at(cells: &[Name], place: usize) -> &[u8]
    ensures { result.now ≡ cell_at cells.now place }
{
    if place < cells.len() {
        cells[place].bytes()
    } else {
        b""
    }
}

/// Whether a number has a minus.
pub fn is_negative(cell: &[u8]) -> bool
    ensures { result ≡ is_negative cell.now }
{
    !cell.is_empty() && cell[0] == b'-'
}

fn unsigned(cell: &[u8]) -> &[u8]
    ensures { result.now ≡ unsigned cell.now }
{
    if !is_negative(cell) {
        return cell;
    }
    let (_, digits) = cell.split_at(1);
    digits
}

/// Whether the cell is a number, with a minus or without; 0 has none.
#[tactic(auto, unfolding(crate::specs::Cells::is_signed))]
pub fn is_signed(cell: &[u8]) -> bool
    ensures { result ≡ is_signed cell.now }
{
    match capped_number(unsigned(cell)) {
        None => false,
        Some(magnitude) => !(is_negative(cell) && magnitude == 0),
    }
}

/// A number without its minus, or the greatest number of 64 bits where that is less.
#[tactic(auto, unfolding(crate::specs::Cells::is_signed))]
pub fn magnitude(cell: &[u8]) -> u64
    requires { is_signed cell.now ≡ true }
    ensures { result ≡ capped (magnitude cell.now) }
{
    capped_number(unsigned(cell)).unwrap_or(0)
}

/// Whether a number is 0.
pub fn is_zero(cell: &[u8]) -> bool
    requires { is_signed cell.now ≡ true }
    ensures { result ≡ is_zero cell.now }
{
    magnitude(cell) == 0
}

/// Whether a number is neither 0 nor has a minus.
pub fn is_positive(cell: &[u8]) -> bool
    requires { is_signed cell.now ≡ true }
    ensures { result ≡ is_positive cell.now }
{
    !is_negative(cell) && !is_zero(cell)
}

/// Whether the cell is `NULL`, in any letter case.
#[tactic(auto, unfolding(crate::specs::Cells::is_null))]
pub fn is_null(cell: &[u8]) -> bool
    ensures { result ≡ is_null cell.now }
{
    cell.eq_ignore_ascii_case(b"null")
}

/// Whether a tile may be called so: a name of any length that is not `NULL`.
#[tactic(auto, unfolding(crate::specs::Cells::is_tile_name))]
pub fn is_tile_name(cell: &[u8]) -> bool
    ensures { result ≡ is_tile_name cell.now }
{
    is_identifier(cell) && !is_null(cell)
}

/// Whether the cell may be a side of a row of wires.
#[tactic(auto, unfolding(crate::specs::Cells::is_side))]
pub fn is_side(cell: &[u8]) -> bool
    ensures { result ≡ is_side cell.now }
{
    is_null(cell) || is_wire_name(cell)
}

/// The limit that a name is over, if it is.
#[tactic(auto, unfolding(crate::specs::Cells::long_of))]
pub fn long_of(name: &[u8]) -> Option<Problem>
    ensures { result ≡ long_of name.now }
{
    if MAX_NAME_BYTES < name.len() {
        return Some(Problem::Limit(
            Quantity::NameBytes,
            name.len() as u64,
            MAX_NAME_BYTES as u64,
        ));
    }
    None
}

/// The limit that the first long one of these names is over, if there is one.
#[tactic(auto, unfolding(crate::specs::Cells::long_problem))]
pub fn long_problem(names: &[Name]) -> Option<Problem>
    ensures { result ≡ long_problem names.now }
{
    for name in names {
        if let Some(problem) = long_of(name.bytes()) {
            return Some(problem);
        }
    }
    None
}

/// Whether the cell is a path that this file may hold.
pub fn is_path(alloc: Global, holder: &Name, cell: &[u8]) -> Result<bool, Memory>
    ensures { IfOk result (λ is. is ≡ is_path holder.now cell.now) }
{
    Ok(resolve(alloc, holder, cell)?.is_some())
}
