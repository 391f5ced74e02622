//! Rows that leave what was read so far as it is, as those that name other files; and what a parameter tells.

ghost use Rattle.std.specs.Prelude.{◌≡◌, IfOk};
ghost use Rattle.fab_base.specs.Reading.{Answers};
ghost use Rattle.fab_blocks.specs.Inner.{IsPlain, depth_problem, file_named, foreign_row, include_row, mode_problem, outer_row, path_problem, tiles_row, told_mode, value_problem};

use crate::cells::{cell_at, is_path};
use crate::holder::Holder;
use crate::standing::Said;
use crate::words::Word;
use fab_base::{Memory, Name, Problem, Quantity, Reason};
use fab_model::Mode;
use fab_paths::resolve;
use std::alloc::Global;

/// How many INCLUDE rows may be open.
const MAX_DEPTH: u64 = 8;

#[tactic(auto, unfolding(crate::specs::Inner::foreign_row))]
pub fn foreign_row(alloc: Global, cells: &[Name]) -> Result<Said, Problem>
    ensures said { Answers (λ said. said) result (foreign_row cells.now) }
    ensures plain { IfOk result IsPlain }
{
    Err(Problem::Unsupported(Name::of(alloc, cell_at(cells, 0))?))
}

#[tactic(auto, unfolding(crate::specs::Inner::mode_problem))]
fn mode_problem(value: &[u8]) -> Option<Problem>
    ensures { result ≡ mode_problem value.now }
{
    if value == b"frame_based".as_slice() || value == b"FlipFlopChain".as_slice() {
        return None;
    }
    Some(Problem::Malformed(Reason::Row))
}

/// The mode behind a row of parameters whose value is not refused, where this one came before.
#[tactic(auto, unfolding(crate::specs::Inner::told_mode))]
pub fn told_mode(key: &[u8], value: &[u8], old: Mode) -> Mode
    ensures { result ≡ told_mode key.now value.now old }
{
    if key != b"ConfigBitMode".as_slice() {
        return old;
    }
    if value == b"FlipFlopChain".as_slice() {
        return Mode::Chain;
    }
    Mode::Frames
}

/// Why a parameter may not have this value, if so.
#[tactic(auto, unfolding(crate::specs::Inner::value_problem))]
pub fn value_problem(alloc: Global, key: &[u8], value: &[u8]) -> Result<Option<Problem>, Memory>
    ensures { IfOk result (λ problem. problem ≡ value_problem key.now value.now) }
{
    if key == b"ConfigBitMode".as_slice() {
        return Ok(mode_problem(value));
    }
    if key == b"FrameBitsPerRow".as_slice() && value != b"32".as_slice() {
        return Ok(Some(Problem::Unsupported(Name::of(alloc, key)?)));
    }
    if key == b"MaxFramesPerCol".as_slice() && value != b"20".as_slice() {
        return Ok(Some(Problem::Unsupported(Name::of(alloc, key)?)));
    }
    Ok(None)
}

#[tactic(auto, unfolding(crate::specs::Inner::path_problem))]
fn path_problem(alloc: Global, holder: &Holder, cells: &[Name]) -> Result<Option<Problem>, Memory>
    ensures { IfOk result (λ problem. problem ≡ path_problem holder.now cells.now) }
{
    if cells.len() != 2 {
        return Ok(Some(Problem::Malformed(Reason::Row)));
    }
    if !is_path(alloc, holder.file, cell_at(cells, 1))? {
        return Ok(Some(Problem::Malformed(Reason::Name)));
    }
    Ok(None)
}

#[tactic(auto, unfolding(crate::specs::Inner::depth_problem))]
fn depth_problem(holder: &Holder) -> Option<Problem>
    ensures { result ≡ depth_problem holder.now }
{
    if holder.left == 0 {
        return Some(Problem::Limit(Quantity::IncludeDepth, MAX_DEPTH + 1, MAX_DEPTH));
    }
    None
}

/// The file that a row names whose path is good.
fn file_named(alloc: Global, holder: &Holder, cells: &[Name]) -> Result<Name, Memory>
    ensures { IfOk result (λ file. file ≡ file_named holder.now cells.now) }
{
    resolve(alloc, holder.file, cell_at(cells, 1))?.ok_or(Memory)
}

#[tactic(auto, unfolding(crate::specs::Inner::include_row))]
pub fn include_row(alloc: Global, holder: &Holder, cells: &[Name]) -> Result<Said, Problem>
    ensures said { Answers (λ said. said) result (include_row holder.now cells.now) }
    ensures plain { IfOk result IsPlain }
{
    if let Some(problem) = path_problem(alloc, holder, cells)? {
        return Err(problem);
    }
    if let Some(problem) = depth_problem(holder) {
        return Err(problem);
    }
    Ok(Said::Includes(file_named(alloc, holder, cells)?))
}

#[tactic(auto, unfolding(crate::specs::Inner::tiles_row))]
pub fn tiles_row(alloc: Global, holder: &Holder, cells: &[Name]) -> Result<Said, Problem>
    ensures said { Answers (λ said. said) result (tiles_row holder.now cells.now) }
    ensures plain { IfOk result IsPlain }
{
    if let Some(problem) = path_problem(alloc, holder, cells)? {
        return Err(problem);
    }
    Ok(Said::NamesTiles(file_named(alloc, holder, cells)?))
}

/// What a row says outside of all blocks.
#[tactic(auto, unfolding(crate::specs::Inner::outer_row))]
pub fn outer_row(
    alloc: Global,
    holder: &Holder,
    word: Word,
    cells: &[Name],
) -> Result<Said, Problem>
    ensures said { Answers (λ said. said) result (outer_row holder.now word cells.now) }
    ensures plain { IfOk result IsPlain }
{
    match word {
        Word::Foreign => foreign_row(alloc, cells),
        Word::Tile => {
            if holder.is_fabric {
                return tiles_row(alloc, holder, cells);
            }
            Err(Problem::Malformed(Reason::Row))
        }
        Word::Include => include_row(alloc, holder, cells),
        _ => Err(Problem::Malformed(Reason::Row)),
    }
}
