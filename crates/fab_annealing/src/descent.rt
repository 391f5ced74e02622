//! Exchanges that lower the cost, until none does.
ghost use Rattle.std.specs.Prelude.{◌≡◌, ℕ, ◌+◌, ◌-◌, ◌<◌, ◌≤◌, Bool, All, Contains, IfOk, OnOk, length, slice_index, false};
ghost use Rattle.fab_annealing.specs.Measured.{item_count};
ghost use Rattle.fab_annealing.specs.Boards.{IsBoard, IsOptimal, site_count, cost, column, row, is_second, is_locked};
ghost use Rattle.fab_annealing.specs.inner.Standing.{IsKept, HasLots, Falls, IsTried, AreTried, IsNext};
ghost use Rattle.fab_annealing.specs.inner.Tied.{HasTies};

use crate::board::Board;
use crate::lots::Lots;
use crate::placement::Placement;
use crate::ties::Ties;
use std::alloc::AllocError;

/// Exchanges an item with what stands on a site of its kind if that may be done and lowers the cost. For most sites the spans of the
/// nets tell at once that it does not.
fn try_site(
    placement: &mut Placement,
    board: &Board,
    ties: &Ties,
    item: u32,
    site: u32,
) -> Result<(), AllocError>
    requires board { IsBoard board.now }
    requires ties { HasTies board.now.nets ties.now }
    requires kept { IsKept board.now placement.old }
    requires item { item < length placement.old.sites.items }
    requires site { site < site_count board.now }
    requires same_kind { is_second board.now site ≡ is_second board.now (slice_index placement.old.sites.items item) }
    requires free { is_locked board.now item ≡ false }
    ensures kept { OnOk result (IsKept board.now placement.new) }
    ensures falls { OnOk result (Falls board.now placement.old.sites.items placement.new.sites.items) }
    ensures tried { OnOk result (cost board.now placement.new.sites.items ≡ cost board.now placement.old.sites.items
        → IsTried board.now placement.new.sites.items item site) }
{
    let cost = placement.cost();
    if cost == 0 {
        return Ok(());
    }
    if !placement.is_loose(board, item, site) {
        return Ok(());
    }
    if !placement.may_fall(board, ties, item, site) {
        return Ok(());
    }
    let _lower = placement.exchange_below(board, item, site, cost - 1)?;
    Ok(())
}

/// Tries an item with each of some sites of its kind.
fn try_sites(
    placement: &mut Placement,
    board: &Board,
    ties: &Ties,
    item: u32,
    second: bool,
    sites: &[u32],
) -> Result<(), AllocError>
    requires board { IsBoard board.now }
    requires ties { HasTies board.now.nets ties.now }
    requires kept { IsKept board.now placement.old }
    requires item { item < length placement.old.sites.items }
    requires kind { is_second board.now (slice_index placement.old.sites.items item) ≡ second }
    requires free { is_locked board.now item ≡ false }
    requires sites { All (λ site. (site < site_count board.now) × (is_second board.now site ≡ second)) sites.now }
    ensures kept { OnOk result (IsKept board.now placement.new) }
    ensures falls { OnOk result (Falls board.now placement.old.sites.items placement.new.sites.items) }
    ensures tried { OnOk result (cost board.now placement.new.sites.items ≡ cost board.now placement.old.sites.items
        → (site : ℕ) → Contains sites.now site → IsTried board.now placement.new.sites.items item site) }
{
    for site in sites {
        try_site(placement, board, ties, item, *site)?;
    }
    Ok(())
}

/// Tries an item with each site of its kind in some rows of a column.
fn try_column(
    placement: &mut Placement,
    board: &Board,
    lots: &Lots,
    ties: &Ties,
    item: u32,
    second: bool,
    at: u32,
    low: u32,
    high: u32,
) -> Result<(), AllocError>
    requires board { IsBoard board.now }
    requires kept { IsKept board.now placement.old }
    requires lots { HasLots board.now lots.now }
    requires ties { HasTies board.now.nets ties.now }
    requires item { item < length placement.old.sites.items }
    requires kind { is_second board.now (slice_index placement.old.sites.items item) ≡ second }
    requires free { is_locked board.now item ≡ false }
    requires at { at ≤ 31 }
    requires high { high ≤ 32 }
    ensures kept { OnOk result (IsKept board.now placement.new) }
    ensures falls { OnOk result (Falls board.now placement.old.sites.items placement.new.sites.items) }
    ensures tried { OnOk result (cost board.now placement.new.sites.items ≡ cost board.now placement.old.sites.items
        → (site : ℕ) → site < site_count board.now → is_second board.now site ≡ second → column board.now site ≡ at → low ≤ row board.now site → row board.now site < high
        → IsTried board.now placement.new.sites.items item site) }
{
    for row in low..high {
        let lot = lots.at(second, at, row);
        try_sites(placement, board, ties, item, second, lot)?;
    }
    Ok(())
}

/// Tries an item with each site of its kind within distance 4.
fn try_item(
    placement: &mut Placement,
    board: &Board,
    lots: &Lots,
    ties: &Ties,
    item: u32,
) -> Result<(), AllocError>
    requires board { IsBoard board.now }
    requires kept { IsKept board.now placement.old }
    requires lots { HasLots board.now lots.now }
    requires ties { HasTies board.now.nets ties.now }
    requires item { item < length placement.old.sites.items }
    ensures kept { OnOk result (IsKept board.now placement.new) }
    ensures falls { OnOk result (Falls board.now placement.old.sites.items placement.new.sites.items) }
    ensures tried { OnOk result (cost board.now placement.new.sites.items ≡ cost board.now placement.old.sites.items
        → (site : ℕ) → site < site_count board.now → IsTried board.now placement.new.sites.items item site) }
{
    if board.locked[item as usize] {
        return Ok(());
    }
    let site = placement.site_of(item);
    let second = board.is_second(site);
    let x = board.column(site);
    let y = board.row(site);
    let first = x.saturating_sub(4);
    let last = (x + 5).min(32);
    for at in first..last {
        let off = x.abs_diff(at);
        let reach = 4 - off;
        let low = y.saturating_sub(reach);
        let high = (y + reach + 1).min(32);
        try_column(placement, board, lots, ties, item, second, at, low, high)?;
    }
    Ok(())
}

/// Tries an item that follows those which are tried from a number on, and says from which number on they and it are tried then.
fn try_next(
    placement: &mut Placement,
    board: &Board,
    lots: &Lots,
    ties: &Ties,
    item: u32,
    since: u32,
) -> Result<u32, AllocError>
    requires board { IsBoard board.now }
    requires kept { IsKept board.now placement.old }
    requires lots { HasLots board.now lots.now }
    requires ties { HasTies board.now.nets ties.now }
    requires item { item < length placement.old.sites.items }
    requires tried { AreTried board.now placement.old.sites.items since item }
    ensures kept { OnOk result (IsKept board.now placement.new) }
    ensures falls { OnOk result (Falls board.now placement.old.sites.items placement.new.sites.items) }
    ensures tried { IfOk result (λ next. AreTried board.now placement.new.sites.items next (item + 1)) }
    ensures next { IfOk result (λ next. IsNext board.now placement.old.sites.items placement.new.sites.items since next) }
{
    let before = placement.cost();
    try_item(placement, board, lots, ties, item)?;
    if placement.cost() == before {
        return Ok(since);
    }
    Ok(item + 1)
}

/// Tries the items in their order, of which those from a number on are tried already. It says from which number on they are tried in
/// the placement that it leaves, and ends where nothing changed and the others are.
fn sweep(
    placement: &mut Placement,
    board: &Board,
    lots: &Lots,
    ties: &Ties,
    tried: u32,
) -> Result<u32, AllocError>
    requires board { IsBoard board.now }
    requires kept { IsKept board.now placement.old }
    requires lots { HasLots board.now lots.now }
    requires ties { HasTies board.now.nets ties.now }
    requires tried { AreTried board.now placement.old.sites.items tried (item_count board.now.nets) }
    ensures kept { OnOk result (IsKept board.now placement.new) }
    ensures falls { OnOk result (Falls board.now placement.old.sites.items placement.new.sites.items) }
    ensures tried { IfOk result (λ since. AreTried board.now placement.new.sites.items since (item_count board.now.nets)) }
    ensures next { IfOk result (λ since. IsNext board.now placement.old.sites.items placement.new.sites.items 0 since) }
{
    let mut since = 0;
    for item in 0..board.locked.len() as u32 {
        if since == 0 && tried <= item {
            return Ok(0);
        }
        since = try_next(placement, board, lots, ties, item, since)?;
    }
    Ok(since)
}

/// Exchanges items until no exchange within distance 4 lowers the cost.
pub fn descend(
    placement: &mut Placement,
    board: &Board,
    lots: &Lots,
    ties: &Ties,
) -> Result<(), AllocError>
    requires board { IsBoard board.now }
    requires kept { IsKept board.now placement.old }
    requires lots { HasLots board.now lots.now }
    requires ties { HasTies board.now.nets ties.now }
    ensures kept { OnOk result (IsKept board.now placement.new) }
    ensures falls { OnOk result (Falls board.now placement.old.sites.items placement.new.sites.items) }
    ensures optimal { OnOk result (IsOptimal board.now placement.new.sites.items) }
{
    let mut tried = board.locked.len() as u32;
    'sweeps: loop {
        tried = sweep(placement, board, lots, ties, tried)?;
        if tried == 0 {
            return Ok(());
        }
    }
}
