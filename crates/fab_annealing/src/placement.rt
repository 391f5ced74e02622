//! Placements that keep the spans of their nets.
ghost use Rattle.std.specs.Prelude.{◌≡◌, ◌↔◌, ℕ, ◌+◌, ◌<◌, ◌≤◌, length, map, slice_index, slice_set, IfOk, OnOk, IfSome, IsTrue, All, [], true, false, Some};
ghost use Rattle.fab_annealing.specs.Measured.{undone};
ghost use Rattle.fab_annealing.specs.Boards.{IsBoard, IsPlaced, AreLoose, site_count, cost, exchanged, is_locked};
ghost use Rattle.fab_annealing.specs.inner.Standing.{IsLaid, IsKept, AreStanding, set_at};
ghost use Rattle.fab_annealing.specs.inner.Tied.{HasTies, AreForecast, ties_of, ties_at};

use crate::axis::Axis;
use crate::board::Board;
use crate::ties::{Change, Ties};
use std::alloc::{AllocError, Global};

/// The site of each item and the item of each site, with the spans of the nets in both directions.
#[derive(Drop)]
pub struct Placement {
    sites: Vec<u32>,
    items: Vec<Option<u32>>,
    across: Axis,
    down: Axis,
}

impl Placement {
    /// The placement of items on these sites.
    pub fn new(alloc: Global, board: &Board, sites: &[u32]) -> Result<Placement, AllocError>
        requires board { IsBoard board.now }
        requires placed { IsPlaced board.now sites.now }
        ensures sites { IfOk result (λ placement. placement.sites.items ≡ sites.now) }
        ensures kept { IfOk result (IsKept board.now) }
    {
        let items = items_of(alloc, board, sites)?;
        let across = Axis::new(alloc, &board.nets, places_of(alloc, &board.columns, sites)?)?;
        let down = Axis::new(alloc, &board.nets, places_of(alloc, &board.rows, sites)?)?;
        Ok(Placement {
            sites: Vec::from_slice(alloc, sites)?,
            items,
            across,
            down,
        })
    }

    /// The sites of the items.
    pub fn into_sites(self) -> Vec<u32>
        ensures { result.items ≡ self.sites.items }
    {
        self.sites
    }

    /// The site of an item.
    pub fn site_of(&self, item: u32) -> u32
        requires { item < length self.now.sites.items }
        ensures { result ≡ slice_index self.now.sites.items item }
    {
        self.sites[item as usize]
    }

    /// The sum of the spreads of the nets.
    pub fn cost(&self) -> u64
        ensures { result ≡ self.now.across.total + self.now.down.total }
    {
        self.across.total() as u64 + self.down.total() as u64
    }

    /// Whether neither of two sites, of which the first is that of an item that may move, has an item that stays.
    pub fn is_loose(&self, board: &Board, item: u32, site: u32) -> bool
        requires board { IsBoard board.now }
        requires kept { IsKept board.now self.now }
        requires item { item < length self.now.sites.items }
        requires site { site < site_count board.now }
        requires free { is_locked board.now item ≡ false }
        ensures { IsTrue result ↔ AreLoose board.now self.now.sites.items (slice_index self.now.sites.items item) site }
    {
        match self.items[site as usize] {
            None => true,
            Some(other) => !board.locked[other as usize],
        }
    }

    /// What the spans tell of an item that goes from a site to another.
    fn forecast_item(&self, board: &Board, ties: &Ties, item: u32, from: u32, to: u32) -> Change
        requires board { IsBoard board.now }
        requires kept { IsKept board.now self.now }
        requires ties { HasTies board.now.nets ties.now }
        requires item { item < length self.now.sites.items }
        requires from { from < site_count board.now }
        requires to { to < site_count board.now }
        ensures { AreForecast board.now self.now (ties_of ties.now item) from to result }
    {
        let nets = ties.at(item);
        let across = self
            .across
            .forecast(nets, board.column(from), board.column(to));
        let down = self.down.forecast(nets, board.row(from), board.row(to));
        across.and(down)
    }

    /// The same of an item, if there is one.
    fn forecast_other(
        &self,
        board: &Board,
        ties: &Ties,
        other: Option<u32>,
        from: u32,
        to: u32,
    ) -> Change
        requires board { IsBoard board.now }
        requires kept { IsKept board.now self.now }
        requires ties { HasTies board.now.nets ties.now }
        requires other { IfSome other (λ item. item < length self.now.sites.items) }
        requires from { from < site_count board.now }
        requires to { to < site_count board.now }
        ensures { AreForecast board.now self.now (ties_at ties.now other) from to result }
    {
        match other {
            None => Change::NONE,
            Some(item) => self.forecast_item(board, ties, item, from, to),
        }
    }

    /// What the spans tell of the exchange of an item with what stands on a site.
    fn forecast(&self, board: &Board, ties: &Ties, item: u32, site: u32) -> Change
        requires board { IsBoard board.now }
        requires kept { IsKept board.now self.now }
        requires ties { HasTies board.now.nets ties.now }
        requires item { item < length self.now.sites.items }
        requires site { site < site_count board.now }
        ensures { cost board.now self.now.sites.items + result.after
            ≤ result.before + cost board.now (exchanged (slice_index self.now.sites.items item) site self.now.sites.items) }
    {
        let from = self.sites[item as usize];
        let here = self.forecast_item(board, ties, item, from, site);
        let there = self.forecast_other(board, ties, self.items[site as usize], site, from);
        here.and(there)
    }

    /// Whether the exchange of an item with what stands on a site may lower the cost. Where it says no, the exchange would not.
    pub fn may_fall(&self, board: &Board, ties: &Ties, item: u32, site: u32) -> bool
        requires board { IsBoard board.now }
        requires kept { IsKept board.now self.now }
        requires ties { HasTies board.now.nets ties.now }
        requires item { item < length self.now.sites.items }
        requires site { site < site_count board.now }
        ensures { result ≡ false → cost board.now self.now.sites.items
            ≤ cost board.now (exchanged (slice_index self.now.sites.items item) site self.now.sites.items) }
    {
        self.forecast(board, ties, item, site).may_fall()
    }

    /// Whether the exchange of an item with what stands on a site may raise the cost by this much at most. Where it says no, the
    /// cost would rise by more.
    pub fn may_rise_within(
        &self,
        board: &Board,
        ties: &Ties,
        item: u32,
        site: u32,
        room: u64,
    ) -> bool
        requires board { IsBoard board.now }
        requires kept { IsKept board.now self.now }
        requires ties { HasTies board.now.nets ties.now }
        requires item { item < length self.now.sites.items }
        requires site { site < site_count board.now }
    {
        self.forecast(board, ties, item, site).may_be_within(room)
    }

    /// Puts an item on a site, and leaves the spans of its nets as they are.
    fn put(&mut self, board: &Board, item: u32, site: u32)
        requires board { IsBoard board.now }
        requires item { item < length self.old.sites.items }
        requires site { site < site_count board.now }
        requires across { length self.old.across.places.items ≡ length self.old.sites.items }
        requires down { length self.old.down.places.items ≡ length self.old.sites.items }
        ensures sites { self.new.sites.items ≡ slice_set self.old.sites.items item site }
        ensures items { self.new.items.items ≡ self.old.items.items }
        ensures columns { self.new.across.places.items ≡ slice_set self.old.across.places.items item (slice_index board.now.columns.items site) }
        ensures across_spans { self.new.across.spans.items ≡ self.old.across.spans.items }
        ensures across_total { self.new.across.total ≡ self.old.across.total }
        ensures across_changed { self.new.across.changed.items ≡ self.old.across.changed.items }
        ensures rows { self.new.down.places.items ≡ slice_set self.old.down.places.items item (slice_index board.now.rows.items site) }
        ensures down_spans { self.new.down.spans.items ≡ self.old.down.spans.items }
        ensures down_total { self.new.down.total ≡ self.old.down.total }
        ensures down_changed { self.new.down.changed.items ≡ self.old.down.changed.items }
    {
        self.sites[item as usize] = site;
        self.across.put(item, board.column(site));
        self.down.put(item, board.row(site));
    }

    /// Moves an item to a site, whatever stands there.
    fn shift(&mut self, board: &Board, item: u32, site: u32) -> Result<(), AllocError>
        requires board { IsBoard board.now }
        requires laid { IsLaid board.now self.old }
        requires item { item < length self.old.sites.items }
        requires site { site < site_count board.now }
        ensures sites { self.new.sites.items ≡ slice_set self.old.sites.items item site }
        ensures items { self.new.items.items ≡ self.old.items.items }
        ensures laid { OnOk result (IsLaid board.now self.new) }
        ensures across { OnOk result (undone self.new.across.changed.items self.new.across.spans.items ≡ undone self.old.across.changed.items self.old.across.spans.items) }
        ensures down { OnOk result (undone self.new.down.changed.items self.new.down.spans.items ≡ undone self.old.down.changed.items self.old.down.spans.items) }
    {
        let from = self.sites[item as usize];
        let left = board.column(from);
        let right = board.column(site);
        let upper = board.row(from);
        let lower = board.row(site);
        self.put(board, item, site);
        self.across.refresh(&board.nets, item, left, right)?;
        self.down.refresh(&board.nets, item, upper, lower)?;
        Ok(())
    }

    /// Moves an item, if there is one, to a site.
    fn shift_other(
        &mut self,
        board: &Board,
        other: Option<u32>,
        site: u32,
    ) -> Result<(), AllocError>
        requires board { IsBoard board.now }
        requires laid { IsLaid board.now self.old }
        requires other { IfSome other (λ item. item < length self.old.sites.items) }
        requires site { site < site_count board.now }
        ensures sites { self.new.sites.items ≡ set_at other site self.old.sites.items }
        ensures items { self.new.items.items ≡ self.old.items.items }
        ensures laid { OnOk result (IsLaid board.now self.new) }
        ensures across { OnOk result (undone self.new.across.changed.items self.new.across.spans.items ≡ undone self.old.across.changed.items self.old.across.spans.items) }
        ensures down { OnOk result (undone self.new.down.changed.items self.new.down.spans.items ≡ undone self.old.down.changed.items self.old.down.spans.items) }
    {
        match other {
            None => Ok(()),
            Some(item) => self.shift(board, item, site),
        }
    }

    /// Exchanges an item with what stands on a site, unless the cost is then above a bound, and says whether it did.
    pub fn exchange_below(
        &mut self,
        board: &Board,
        item: u32,
        site: u32,
        most: u64,
    ) -> Result<bool, AllocError>
        requires board { IsBoard board.now }
        requires kept { IsKept board.now self.old }
        requires item { item < length self.old.sites.items }
        requires site { site < site_count board.now }
        ensures kept { OnOk result (IsKept board.now self.new) }
        ensures taken { IfOk result (λ taken. taken ≡ true → (self.new.sites.items ≡ exchanged (slice_index self.old.sites.items item) site self.old.sites.items)
            × (cost board.now self.new.sites.items ≤ most)) }
        ensures left { IfOk result (λ taken. taken ≡ false → (self.new.sites.items ≡ self.old.sites.items)
            × (most < cost board.now (exchanged (slice_index self.old.sites.items item) site self.old.sites.items))) }
    {
        let from = self.sites[item as usize];
        let other = self.items[site as usize];
        let across = self.across.total();
        let down = self.down.total();
        self.shift(board, item, site)?;
        self.shift_other(board, other, from)?;
        if self.cost() <= most {
            self.accept(item, from, other, site);
            return Ok(true);
        }
        self.take_back(
            board,
            Exchange {
                item,
                from,
                other,
                site,
                across,
                down,
            },
        );
        Ok(false)
    }

    /// Takes an exchange that was made.
    fn accept(&mut self, item: u32, from: u32, other: Option<u32>, site: u32)
        requires from { from < length self.old.items.items }
        requires site { site < length self.old.items.items }
        ensures sites { self.new.sites.items ≡ self.old.sites.items }
        ensures items { self.new.items.items ≡ slice_set (slice_set self.old.items.items from other) site (Some item) }
        ensures columns { self.new.across.places.items ≡ self.old.across.places.items }
        ensures across_spans { self.new.across.spans.items ≡ self.old.across.spans.items }
        ensures across_total { self.new.across.total ≡ self.old.across.total }
        ensures across_changed { self.new.across.changed.items ≡ [] }
        ensures rows { self.new.down.places.items ≡ self.old.down.places.items }
        ensures down_spans { self.new.down.spans.items ≡ self.old.down.spans.items }
        ensures down_total { self.new.down.total ≡ self.old.down.total }
        ensures down_changed { self.new.down.changed.items ≡ [] }
    {
        self.items[from as usize] = other;
        self.items[site as usize] = Some(item);
        self.across.settle();
        self.down.settle();
    }

    /// Puts everything back as it was before an exchange.
    fn take_back(&mut self, board: &Board, back: Exchange)
        requires board { IsBoard board.now }
        requires laid { IsLaid board.now self.old }
        requires item { back.item < length self.old.sites.items }
        requires from { back.from < site_count board.now }
        requires other { IfSome back.other (λ other. other < length self.old.sites.items) }
        requires site { back.site < site_count board.now }
        ensures sites { self.new.sites.items ≡ set_at back.other back.site (slice_set self.old.sites.items back.item back.from) }
        ensures items { self.new.items.items ≡ self.old.items.items }
        ensures columns { self.new.across.places.items ≡ set_at back.other (slice_index board.now.columns.items back.site) (slice_set self.old.across.places.items back.item (slice_index board.now.columns.items back.from)) }
        ensures across_spans { self.new.across.spans.items ≡ undone self.old.across.changed.items self.old.across.spans.items }
        ensures across_total { self.new.across.total ≡ back.across }
        ensures across_changed { self.new.across.changed.items ≡ [] }
        ensures rows { self.new.down.places.items ≡ set_at back.other (slice_index board.now.rows.items back.site) (slice_set self.old.down.places.items back.item (slice_index board.now.rows.items back.from)) }
        ensures down_spans { self.new.down.spans.items ≡ undone self.old.down.changed.items self.old.down.spans.items }
        ensures down_total { self.new.down.total ≡ back.down }
        ensures down_changed { self.new.down.changed.items ≡ [] }
    {
        self.put(board, back.item, back.from);
        self.put_other(board, back.other, back.site);
        self.across.put_back(back.across);
        self.down.put_back(back.down);
    }

    /// Puts an item, if there is one, on a site, and leaves the spans of its nets as they are.
    fn put_other(&mut self, board: &Board, other: Option<u32>, site: u32)
        requires board { IsBoard board.now }
        requires other { IfSome other (λ item. item < length self.old.sites.items) }
        requires site { site < site_count board.now }
        requires across { length self.old.across.places.items ≡ length self.old.sites.items }
        requires down { length self.old.down.places.items ≡ length self.old.sites.items }
        ensures sites { self.new.sites.items ≡ set_at other site self.old.sites.items }
        ensures items { self.new.items.items ≡ self.old.items.items }
        ensures columns { self.new.across.places.items ≡ set_at other (slice_index board.now.columns.items site) self.old.across.places.items }
        ensures across_spans { self.new.across.spans.items ≡ self.old.across.spans.items }
        ensures across_total { self.new.across.total ≡ self.old.across.total }
        ensures across_changed { self.new.across.changed.items ≡ self.old.across.changed.items }
        ensures rows { self.new.down.places.items ≡ set_at other (slice_index board.now.rows.items site) self.old.down.places.items }
        ensures down_spans { self.new.down.spans.items ≡ self.old.down.spans.items }
        ensures down_total { self.new.down.total ≡ self.old.down.total }
        ensures down_changed { self.new.down.changed.items ≡ self.old.down.changed.items }
    {
        match other {
            None => {}
            Some(item) => self.put(board, item, site),
        }
    }
}

/// What an exchange changes, as it was before.
#[derive(Clone, Copy)]
struct Exchange {
    item: u32,
    /// Where it stood.
    from: u32,
    /// What stood where it comes to.
    other: Option<u32>,
    site: u32,
    /// The sums of the widths.
    across: u32,
    down: u32,
}

/// The place of each item in one direction, by those of the sites.
fn places_of(alloc: Global, table: &[u32], sites: &[u32]) -> Result<Vec<u32>, AllocError>
    requires { All (λ site. site < length table.now) sites.now }
    ensures { IfOk result (λ places. places.items ≡ map (slice_index table.now) sites.now) }
{
    let mut places = Vec::with_capacity(alloc, sites.len())?;
    for site in sites {
        places.push(table[*site as usize])?;
    }
    Ok(places)
}

/// The item of each site.
fn items_of(alloc: Global, board: &Board, sites: &[u32]) -> Result<Vec<Option<u32>>, AllocError>
    requires board { IsBoard board.now }
    requires placed { IsPlaced board.now sites.now }
    ensures { IfOk result (λ items. AreStanding board.now sites.now items.items) }
{
    let mut items: Vec<Option<u32>> = vec![in alloc; None; board.columns.len()]?;
    for (item, site) in sites.iter().enumerate() {
        items[*site as usize] = Some(item as u32);
    }
    Ok(items)
}
