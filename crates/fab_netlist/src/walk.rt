//! The search for an order of the covers, or for a cycle of them: depth first, without recursion. Each cover is met once, and its inputs are looked at
//! again each time that one of them is done.

ghost use Rattle.std.specs.Prelude.{◌≡◌, ◌<◌, ◌≤◌, ◌-◌, List, [], Contains, ◌∷◌, IfOk, OnOk, MatchOption, get_or, length};
ghost use Rattle.std.specs.List.{All};
ghost use Rattle.std.specs.Option.{ForSome, IfNone, IfSome, OnSome};
ghost use Rattle.fab_netlist.specs.Plain.{cover_at};
ghost use Rattle.fab_netlist.specs.Cycles.{HasNoCycle};
ghost use Rattle.fab_netlist.specs.inner.Order.{IsFound, IsOrder};
ghost use Rattle.fab_netlist.specs.inner.Search.{HasEnded, IsDriverTable, IsListed, IsRound, IsSearch, if_unfinished, is_done, is_open, unfinished};
ghost use Rattle.fab_netlist.specs.WellMade.{IsWired};

use crate::netlist::{Cover, Order, Parts};
use fab_base::Memory;
use std::alloc::Global;

/// What the search knows of a cover.
#[derive(Clone, Copy, Debug)]
enum Mark {
    /// It was not met yet.
    New,
    /// It is on the path.
    Open,
    /// It leads to no cycle.
    Done,
}

impl Mark {
    fn is_open(self) -> bool
        ensures { result ≡ is_open self }
    {
        match self {
            Mark::Open => true,
            Mark::New | Mark::Done => false,
        }
    }

    fn is_done(self) -> bool
        ensures { result ≡ is_done self }
    {
        match self {
            Mark::Done => true,
            Mark::New | Mark::Open => false,
        }
    }
}

/// For each net the place of the cover that drives it.
fn driver_table(alloc: Global, netlist: &Parts<'_>) -> Result<Vec<Option<u32>>, Memory>
    requires { IsWired netlist.now }
    ensures { IfOk result (λ drivers. IsDriverTable netlist.now drivers.items) }
{
    let mut drivers = vec![in alloc; None; netlist.nets.len()]?;
    for (place, cover) in netlist.covers.iter().enumerate() {
        drivers[cover.output as usize] = Some(place as u32);
    }
    Ok(drivers)
}

fn if_unfinished(marks: &[Mark], driver: Option<u32>) -> Option<u32>
    requires { ForSome driver (λ place. place < length marks.now) }
    ensures { result ≡ if_unfinished marks.now driver }
{
    let place = driver?;
    if marks[place as usize].is_done() {
        return None;
    }
    Some(place)
}

/// The first cover that is not done among those that drive the nets.
fn unfinished(drivers: &[Option<u32>], marks: &[Mark], nets: &[u32]) -> Option<u32>
    requires nets { All (λ net. net < length drivers.now) nets.now }
    requires drivers { All (λ driver. ForSome driver (λ place. place < length marks.now)) drivers.now }
    ensures { result ≡ unfinished drivers.now marks.now nets.now }
{
    for net in nets {
        if let Some(place) = if_unfinished(marks, drivers[*net as usize]) {
            return Some(place);
        }
    }
    None
}

/// The first cover that is not done among those that a cover reads.
fn next_source(
    netlist: &Parts<'_>,
    drivers: &[Option<u32>],
    marks: &[Mark],
    reader: u32,
) -> Option<u32>
    requires wired { IsWired netlist.now }
    requires table { IsDriverTable netlist.now drivers.now }
    requires fits { length marks.now ≡ length netlist.now.covers }
    requires within { reader < length netlist.now.covers }
    ensures { result ≡ unfinished drivers.now marks.now (cover_at netlist.now reader).inputs }
{
    let cover: &Cover = &netlist.covers[reader as usize];
    unfinished(drivers, marks, &cover.inputs)
}

fn last(path: &[u32]) -> Option<u32>
    ensures none { IfNone result (path.now ≡ []) }
    ensures some { OnSome result (0 < length path.now) }
    ensures last { IfSome result (λ reader. reader ≡ get_or path.now (length path.now - 1) 0) }
{
    path.last().copied()
}

/// Goes on from the last cover of the path until the path is empty, or until the last cover reads one of the path, which is
/// returned.
fn follow(
    netlist: &Parts<'_>,
    drivers: &[Option<u32>],
    marks: &mut [Mark],
    path: &mut Vec<u32>,
    order: &mut Vec<u32>,
) -> Result<Option<u32>, Memory>
    requires wired { IsWired netlist.now }
    requires table { IsDriverTable netlist.now drivers.now }
    requires state { IsSearch netlist.now marks.old path.old.items }
    requires listed { IsListed netlist.now marks.old order.old.items }
    ensures found { IfOk result (λ met. MatchOption met (HasEnded netlist.now marks.old marks.new path.old.items path.new.items) (IsRound netlist.now path.new.items)) }
    ensures listed { OnOk result (IsListed netlist.now marks.new order.new.items) }
{
    while let Some(reader) = last(path) {
        match next_source(netlist, drivers, marks, reader) {
            None => {
                marks[reader as usize] = Mark::Done;
                path.pop();
                order.push(reader)?;
            }
            Some(source) => {
                if marks[source as usize].is_open() {
                    return Ok(Some(source));
                }
                path.push(source)?;
                marks[source as usize] = Mark::Open;
            }
        }
    }
    Ok(None)
}

/// Searches from one cover, where the path is empty.
fn search_from(
    netlist: &Parts<'_>,
    drivers: &[Option<u32>],
    start: u32,
    marks: &mut [Mark],
    path: &mut Vec<u32>,
    order: &mut Vec<u32>,
) -> Result<Option<u32>, Memory>
    requires wired { IsWired netlist.now }
    requires table { IsDriverTable netlist.now drivers.now }
    requires within { start < length netlist.now.covers }
    requires empty { path.old.items ≡ [] }
    requires state { IsSearch netlist.now marks.old [] }
    requires listed { IsListed netlist.now marks.old order.old.items }
    ensures found { IfOk result (λ met. MatchOption met (HasEnded netlist.now marks.old marks.new (start ∷ []) path.new.items) (IsRound netlist.now path.new.items)) }
    ensures listed { OnOk result (IsListed netlist.now marks.new order.new.items) }
{
    if marks[start as usize].is_done() {
        return Ok(None);
    }
    path.push(start)?;
    marks[start as usize] = Mark::Open;
    follow(netlist, drivers, marks, path, order)
}

/// Searches from one cover after another, where none was met yet.
fn search_all(
    netlist: &Parts<'_>,
    drivers: &[Option<u32>],
    marks: &mut [Mark],
    path: &mut Vec<u32>,
    order: &mut Vec<u32>,
) -> Result<Option<u32>, Memory>
    requires wired { IsWired netlist.now }
    requires table { IsDriverTable netlist.now drivers.now }
    requires empty { path.old.items ≡ [] }
    requires state { IsSearch netlist.now marks.old [] }
    requires listed { IsListed netlist.now marks.old order.old.items }
    ensures { IfOk result (λ met. MatchOption met (IsOrder netlist.now order.new.items × HasNoCycle netlist.now) (IsRound netlist.now path.new.items)) }
{
    for start in 0..netlist.covers.len() {
        let met = search_from(netlist, drivers, start as u32, marks, path, order)?;
        if met.is_some() {
            return Ok(met);
        }
    }
    Ok(None)
}

/// The place of a member in a list.
fn place_in(places: &[u32], sought: u32) -> usize
    requires { Contains places.now sought }
    ensures within { result < length places.now }
    ensures here { get_or places.now result 0 ≡ sought }
{
    for (index, place) in places.iter().enumerate() {
        if *place == sought {
            return index;
        }
    }
    0
}

/// An order of the covers, or those of a cycle where there is one.
pub(crate) fn find_order(alloc: Global, netlist: &Parts<'_>) -> Result<Order, Memory>
    requires { IsWired netlist.now }
    ensures { IfOk result (IsFound netlist.now) }
{
    let drivers = driver_table(alloc, netlist)?;
    let mut marks = vec![in alloc; Mark::New; netlist.covers.len()]?;
    let mut path = Vec::new(alloc);
    let mut order = Vec::with_capacity(alloc, netlist.covers.len())?;
    match search_all(netlist, &drivers, &mut marks, &mut path, &mut order)? {
        None => Ok(Order::Straight(order)),
        Some(source) => {
            let (_before, round) = path.split_at(place_in(&path, source));
            Ok(Order::Round(Vec::from_slice(alloc, round)?))
        }
    }
}
