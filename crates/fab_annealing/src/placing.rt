//! Placements that no exchange betters.
ghost use Rattle.std.specs.Prelude.{◌≤◌, IfOk};
ghost use Rattle.fab_annealing.specs.Boards.{IsBoard, IsPlaced, IsOptimal, Keeps, cost};

use crate::annealing::anneal;
use crate::board::Board;
use crate::descent::descend;
use crate::lots::Lots;
use crate::placement::Placement;
use crate::ties::Ties;
use fab_progress::Progress;
use std::alloc::{AllocError, Global};

/// The sites of the items after exchanges from these sites, so that no exchange within distance 4 lowers the cost. Items that are
/// locked stay, and all keep to sites of their kind.
///
/// Random exchanges come first, by a seed, and then those that lower the cost. Where that came out above the cost of the
/// beginning, which is not to be expected, those that lower the cost start from there again.
pub fn settled<P: Progress>(
    alloc: Global,
    progress: &mut P,
    board: &Board,
    sites: &[u32],
    seed: u64,
) -> Result<Vec<u32>, AllocError>
    requires board { IsBoard board.now }
    requires placed { IsPlaced board.now sites.now }
    ensures placed { IfOk result (λ settled. IsPlaced board.now settled.items) }
    ensures keeps { IfOk result (λ settled. Keeps board.now sites.now settled.items) }
    ensures low { IfOk result (λ settled. cost board.now settled.items ≤ cost board.now sites.now) }
    ensures optimal { IfOk result (λ settled. IsOptimal board.now settled.items) }
{
    let lots = Lots::of(alloc, board)?;
    let mut placement = Placement::new(alloc, board, sites)?;
    let start = placement.cost();
    let ties = Ties::of(alloc, &board.nets)?;
    anneal(progress, &mut placement, board, &lots, &ties, seed)?;
    descend(&mut placement, board, &lots, &ties)?;
    if placement.cost() <= start {
        return Ok(placement.into_sites());
    }
    let mut again = Placement::new(alloc, board, sites)?;
    descend(&mut again, board, &lots, &ties)?;
    Ok(again.into_sites())
}
