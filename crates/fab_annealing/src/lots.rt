//! The sites of each tile.
ghost use Rattle.std.specs.Prelude.{◌≡◌, ℕ, ◌≤◌, IfOk, [], length, slice_get};
ghost use Rattle.fab_annealing.specs.Measured.{numbers_of};
ghost use Rattle.fab_annealing.specs.Boards.{IsBoard};
ghost use Rattle.fab_annealing.specs.inner.Standing.{AreLots, HasLots, lots_of_kind, lot_number};

use crate::board::Board;
use std::alloc::{AllocError, Global};

/// A number above those of all tiles.
const TILES: usize = 1024;

/// The sites of each tile, in two lists by their kinds.
#[derive(Drop)]
pub struct Lots {
    first: Vec<Vec<u32>>,
    second: Vec<Vec<u32>>,
}

impl Lots {
    /// The sites of each tile of a board.
    pub fn of(alloc: Global, board: &Board) -> Result<Lots, AllocError>
        requires { IsBoard board.now }
        ensures { IfOk result (HasLots board.now) }
    {
        Ok(Lots {
            first: lots_of(alloc, board, false)?,
            second: lots_of(alloc, board, true)?,
        })
    }

    /// The sites of a kind in a tile.
    pub fn at(&self, second: bool, column: u32, row: u32) -> &[u32]
        requires first { length self.now.first.items ≡ 1024 }
        requires second { length self.now.second.items ≡ 1024 }
        requires column { column ≤ 31 }
        requires row { row ≤ 31 }
        ensures { result.now ≡ numbers_of (slice_get (lots_of_kind self.now second) (lot_number column row)) }
    {
        let number = (column * 32 + row) as usize;
        if second {
            &self.second[number]
        } else {
            &self.first[number]
        }
    }
}

/// The sites of one kind by the numbers of their tiles.
fn lots_of(alloc: Global, board: &Board, second: bool) -> Result<Vec<Vec<u32>>, AllocError>
    requires { IsBoard board.now }
    ensures { IfOk result (λ lots. AreLots board.now second lots.items) }
{
    let mut lots = no_lots(alloc)?;
    for site in 0..board.sites() {
        if !board.is_of(site, second) {
            continue;
        }
        let number = board.column(site) * 32 + board.row(site);
        lots[number as usize].push(site)?;
    }
    Ok(lots)
}

/// An empty list for each number of a tile.
fn no_lots(alloc: Global) -> Result<Vec<Vec<u32>>, AllocError>
    ensures len { IfOk result (λ lots. length lots.items ≡ 1024) }
    ensures empty { IfOk result (λ lots. (number : ℕ) → numbers_of (slice_get lots.items number) ≡ []) }
{
    let mut lots = Vec::with_capacity(alloc, TILES)?;
    for _tile in 0..TILES {
        lots.push(Vec::new(alloc))?;
    }
    Ok(lots)
}
