//! The grid: its lines, and why a line is refused.

ghost use Rattle.std.specs.Prelude.{◌≡◌, IfOk};
ghost use Rattle.std.specs.List.{list_all};
ghost use Rattle.fab_blocks.specs.Saying.{fits_grid, is_grid_cell, line_limit, line_problem, line_reason};

use crate::cells::{is_null, is_tile_name, long_problem};
use crate::holder::Holder;
use fab_base::{Memory, Name, Problem, Quantity, Reason};
use fab_rows::Row;
use std::alloc::Global;
use std::marker::Model;

/// The most columns and rows of a grid.
const MAX_COLUMNS: usize = 32;

const MAX_ROWS: usize = 31;

/// A line of the grid: where it stands, and its cells.
#[derive(Debug, Drop)]
pub struct GridLine {
    pub file: Name,
    pub line: u32,
    pub cells: Vec<Name>,
}

impl Model for GridLine {
    ghost use Rattle.fab_blocks.specs.Reading.{PlainGridLine};

    ghost Value = { PlainGridLine };

    ghost view = { λ l. record { file = l.file; line = l.line; cells = l.cells.items } };
}

#[tactic(auto, unfolding(crate::specs::Saying::is_grid_cell))]
fn is_grid_cell(cell: &Name) -> bool
    ensures { result ≡ is_grid_cell cell.now }
{
    is_null(cell.bytes()) || is_tile_name(cell.bytes())
}

fn are_grid_cells(cells: &[Name]) -> bool
    ensures { result ≡ list_all is_grid_cell cells.now }
{
    cells.iter().all(|cell| is_grid_cell(cell))
}

#[tactic(auto, unfolding(crate::specs::Saying::fits_grid))]
fn fits_grid(lines: &[GridLine], cells: &[Name]) -> bool
    ensures { result ≡ fits_grid lines.now cells.now }
{
    match lines {
        [] => true,
        [first, ..] => first.cells.len() == cells.len(),
    }
}

#[tactic(auto, unfolding(crate::specs::Saying::line_reason))]
fn line_reason(lines: &[GridLine], cells: &[Name]) -> Option<Reason>
    ensures { result ≡ line_reason lines.now cells.now }
{
    if !are_grid_cells(cells) {
        return Some(Reason::Name);
    }
    if !fits_grid(lines, cells) {
        return Some(Reason::Grid);
    }
    None
}

#[tactic(auto, unfolding(crate::specs::Saying::line_limit))]
fn line_limit(lines: &[GridLine], cells: &[Name]) -> Option<Problem>
    ensures { result ≡ line_limit lines.now cells.now }
{
    if MAX_COLUMNS < cells.len() {
        let count = cells.len() as u64;
        return Some(Problem::Limit(Quantity::Columns, count, MAX_COLUMNS as u64));
    }
    if MAX_ROWS <= lines.len() {
        let count = lines.len() as u64 + 1;
        return Some(Problem::Limit(Quantity::Rows, count, MAX_ROWS as u64));
    }
    long_problem(cells)
}

/// Why a line of the grid is refused, if it is, after these lines.
pub fn line_problem(lines: &[GridLine], cells: &[Name]) -> Option<Problem>
    ensures { result ≡ line_problem lines.now cells.now }
{
    match line_reason(lines, cells) {
        Some(reason) => Some(Problem::Malformed(reason)),
        None => line_limit(lines, cells),
    }
}

fn copies(alloc: Global, cells: &[Name]) -> Result<Vec<Name>, Memory>
    ensures { IfOk result (λ made. made.items ≡ cells.now) }
{
    let mut made = Vec::new(alloc);
    for cell in cells {
        made.push(cell.copy(alloc)?)?;
    }
    Ok(made)
}

/// The line of the grid that a row is.
pub fn line_of(alloc: Global, holder: &Holder, row: &Row) -> Result<GridLine, Memory>
    ensures { IfOk result (λ line. line ≡ record { file = holder.now.file; line = row.now.line; cells = row.now.cells }) }
{
    let file = holder.file.copy(alloc)?;
    let cells = copies(alloc, &row.cells)?;
    Ok(GridLine {
        file,
        line: row.line,
        cells,
    })
}
