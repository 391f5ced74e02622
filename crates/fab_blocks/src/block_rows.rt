//! The rows of a tile block.

ghost use Rattle.std.specs.Prelude.{◌≡◌, ◌≤◌, length, IfOk};
ghost use Rattle.fab_base.specs.Reading.{Answers};
ghost use Rattle.fab_blocks.specs.Inner.{IsPlain, bel_row, block_row, matrix_row, wire_row};

use crate::block::Block;
use crate::cells::cell_at;
use crate::holder::Holder;
use crate::inner::{foreign_row, include_row};
use crate::standing::Said;
use crate::wire::Cells;
use crate::words::Word;
use fab_base::{Name, Problem, Reason};
use fab_model::Dir;
use std::alloc::Global;

#[tactic(auto, unfolding(crate::specs::Inner::wire_row))]
fn wire_row(block: &mut Block, alloc: Global, dir: Dir, cells: &[Name]) -> Result<Said, Problem>
    requires { length block.old.bels ≤ 26 }
    ensures said { Answers (λ said. (block.new, said)) result (wire_row block.old dir cells.now) }
    ensures plain { IfOk result IsPlain }
    ensures name { block.new.name ≡ block.old.name }
    ensures few_bels { length block.new.bels ≤ 26 }
{
    if cells.len() < 6 {
        return Err(Problem::Malformed(Reason::Row));
    }
    let cells = Cells {
        dir,
        source: cell_at(cells, 1),
        dx: cell_at(cells, 2),
        dy: cell_at(cells, 3),
        dest: cell_at(cells, 4),
        count: cell_at(cells, 5),
    };
    block.take_wire(alloc, &cells)
}

#[tactic(auto, unfolding(crate::specs::Inner::bel_row))]
fn bel_row(
    block: &mut Block,
    alloc: Global,
    holder: &Holder,
    cells: &[Name],
) -> Result<Said, Problem>
    requires { length block.old.bels ≤ 26 }
    ensures said { Answers (λ said. (block.new, said)) result (bel_row block.old holder.now cells.now) }
    ensures plain { IfOk result IsPlain }
    ensures name { block.new.name ≡ block.old.name }
    ensures few_bels { length block.new.bels ≤ 26 }
{
    if !(cells.len() == 2 || cells.len() == 3) {
        return Err(Problem::Malformed(Reason::Row));
    }
    block.take_bel(alloc, holder.file, cell_at(cells, 1), cell_at(cells, 2))
}

#[tactic(auto, unfolding(crate::specs::Inner::matrix_row))]
fn matrix_row(
    block: &mut Block,
    alloc: Global,
    holder: &Holder,
    cells: &[Name],
) -> Result<Said, Problem>
    requires { length block.old.bels ≤ 26 }
    ensures said { Answers (λ said. (block.new, said)) result (matrix_row block.old holder.now cells.now) }
    ensures plain { IfOk result IsPlain }
    ensures name { block.new.name ≡ block.old.name }
    ensures few_bels { length block.new.bels ≤ 26 }
{
    if cells.len() != 2 {
        return Err(Problem::Malformed(Reason::Row));
    }
    block.take_matrix(alloc, holder.file, cell_at(cells, 1))
}

/// Takes a row of a tile block.
#[tactic(auto, unfolding(crate::specs::Inner::block_row))]
pub fn block_row(
    block: &mut Block,
    alloc: Global,
    holder: &Holder,
    word: Word,
    cells: &[Name],
) -> Result<Said, Problem>
    requires { length block.old.bels ≤ 26 }
    ensures said { Answers (λ said. (block.new, said)) result (block_row block.old holder.now word cells.now) }
    ensures plain { IfOk result IsPlain }
    ensures name { block.new.name ≡ block.old.name }
    ensures few_bels { length block.new.bels ≤ 26 }
{
    match word {
        Word::Foreign => foreign_row(alloc, cells),
        Word::Include => include_row(alloc, holder, cells),
        Word::Bel => bel_row(block, alloc, holder, cells),
        Word::Matrix => matrix_row(block, alloc, holder, cells),
        Word::Wire(dir) => wire_row(block, alloc, dir, cells),
        _ => Err(Problem::Malformed(Reason::Row)),
    }
}
