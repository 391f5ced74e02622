//! Placing and routing, one behind the other.

ghost use Rattle.std.specs.Prelude.{◌≡◌, ◌≤◌, Ok, None, IfOk, IfErr, IfSome};
ghost use Rattle.fab_implementation.specs.OnFabric.{IsOnFabric};
ghost use Rattle.fab_legal.specs.Legal.{IsLegal};
ghost use Rattle.fab_ways_laws.specs.Placing.{IsGoodPlacement};
ghost use Rattle.fab_ways_laws.specs.Mapping.{IsMapping};
ghost use Rattle.fab_implementation.specs.Inputs.{InputsAreLines};
ghost use Rattle.fab_place.specs.Fixings.{AreFixed, Fits};
ghost use Rattle.fab_map.specs.Causes.{HasMapCause};

use crate::reports::fault_of;
use crate::trees::with_trees;
use fab_base::Fault;
use fab_fabric::Fabric;
use fab_implementation::{Fixed, Implementation};
use fab_netlist::Packed;
use fab_place::place_with_progress;
use fab_progress::{Progress, Silent, Step};
use fab_route::{route_with_progress, try_route};
use std::alloc::Global;

/// Maps a design onto a fabric: places it, and routes its nets in at most so many rounds. Where nets share a wire after the
/// last round, it is tried again with the next seed, twice at most. A try before the last ends earlier where it gets no better,
/// as `try_route` of `fab_route` says. The same seed gives the same implementation.
///
/// The fault is `NoPath` where no walk leads from a net to one of its sinks, with the text of the placement. It is `Overused`
/// where nets share a wire after the last round of the last try, with the text of the placement and the trees of that round.
/// Else it is `Memory`: memory was refused.
pub fn map(
    alloc: Global,
    fabric: &Fabric,
    packed: &Packed,
    fixed: &Fixed,
    seed: u64,
    rounds: u32,
) -> Result<Implementation, Fault>
    requires fits { Fits fabric.now packed.now }
    requires fixed { AreFixed fabric.now packed.now fixed.now }
    requires some { 1 ≤ rounds }
    requires few { rounds ≤ 64 }
    ensures mapping { IfOk result (IsMapping fabric.now packed.now fixed.now rounds) }
    ensures legal { IfOk result (IsLegal fabric.now packed.now fixed.now) }
    ensures on_fabric { IfOk result (IsOnFabric fabric.now) }
    ensures inputs { IfOk result InputsAreLines }
    ensures cause { IfErr result (HasMapCause fabric.now packed.now fixed.now rounds) }
{
    map_with_progress(alloc, &mut Silent, fabric, packed, fixed, seed, rounds)
}

/// Maps a design as `map` does, and tells on the way how far placing and routing are, and with which seed it begins again.
pub fn map_with_progress<P: Progress>(
    alloc: Global,
    progress: &mut P,
    fabric: &Fabric,
    packed: &Packed,
    fixed: &Fixed,
    seed: u64,
    rounds: u32,
) -> Result<Implementation, Fault>
    requires fits { Fits fabric.now packed.now }
    requires fixed { AreFixed fabric.now packed.now fixed.now }
    requires some { 1 ≤ rounds }
    requires few { rounds ≤ 64 }
    ensures mapping { IfOk result (IsMapping fabric.now packed.now fixed.now rounds) }
    ensures legal { IfOk result (IsLegal fabric.now packed.now fixed.now) }
    ensures on_fabric { IfOk result (IsOnFabric fabric.now) }
    ensures inputs { IfOk result InputsAreLines }
    ensures cause { IfErr result (HasMapCause fabric.now packed.now fixed.now rounds) }
{
    if let Some(mapped) = try_seed(alloc, progress, fabric, packed, fixed, seed, rounds)? {
        return Ok(mapped);
    }
    let next = seed.wrapping_add(1);
    progress.tell(Step::Retrying { seed: next });
    if let Some(mapped) = try_seed(alloc, progress, fabric, packed, fixed, next, rounds)? {
        return Ok(mapped);
    }
    let last = seed.wrapping_add(2);
    progress.tell(Step::Retrying { seed: last });
    attempt(alloc, progress, fabric, packed, fixed, last, rounds)
}

/// Places a design, and routes it as long as that gets better; none where nets share a wire in the end.
fn try_seed<P: Progress>(
    alloc: Global,
    progress: &mut P,
    fabric: &Fabric,
    packed: &Packed,
    fixed: &Fixed,
    seed: u64,
    rounds: u32,
) -> Result<Option<Implementation>, Fault>
    requires fits { Fits fabric.now packed.now }
    requires fixed { AreFixed fabric.now packed.now fixed.now }
    requires some { 1 ≤ rounds }
    requires few { rounds ≤ 64 }
    ensures mapping { IfOk result (λ found. IfSome found (IsMapping fabric.now packed.now fixed.now rounds)) }
    ensures legal { IfOk result (λ found. IfSome found (IsLegal fabric.now packed.now fixed.now)) }
    ensures on_fabric { IfOk result (λ found. IfSome found (IsOnFabric fabric.now)) }
    ensures inputs { IfOk result (λ found. IfSome found InputsAreLines) }
    ensures cause { IfErr result (HasMapCause fabric.now packed.now fixed.now rounds) }
{
    let placed = place_with_progress(alloc, progress, fabric, packed, fixed, seed)?;
    tried_on(alloc, progress, fabric, packed, fixed, placed, rounds)
}

/// Routes a placed design as long as that gets better.
fn tried_on<P: Progress>(
    alloc: Global,
    progress: &mut P,
    fabric: &Fabric,
    packed: &Packed,
    _fixed: &Fixed,
    placed: Implementation,
    rounds: u32,
) -> Result<Option<Implementation>, Fault>
    requires fits { Fits fabric.now packed.now }
    requires good { IsGoodPlacement fabric.now packed.now _fixed.now placed }
    requires on_fabric { IsOnFabric fabric.now placed }
    requires some { 1 ≤ rounds }
    requires few { rounds ≤ 64 }
    ensures mapping { IfOk result (λ found. IfSome found (IsMapping fabric.now packed.now _fixed.now rounds)) }
    ensures legal { IfOk result (λ found. IfSome found (IsLegal fabric.now packed.now _fixed.now)) }
    ensures on_fabric { IfOk result (λ found. IfSome found (IsOnFabric fabric.now)) }
    ensures inputs { IfOk result (λ found. IfSome found InputsAreLines) }
    ensures cause { IfErr result (HasMapCause fabric.now packed.now _fixed.now rounds) }
{
    fabric.is_well_made();
    match try_route(alloc, progress, fabric, packed, &placed, rounds) {
        Ok(Some(routed)) => Ok(Some(with_trees(placed, routed.trees))),
        Ok(None) => given_up(placed),
        Err(fault) => Err(fault_of(alloc, fabric, packed, _fixed, placed, fault, rounds)?),
    }
}

/// Lets a placement go that is not routed.
fn given_up(_placed: Implementation) -> Result<Option<Implementation>, Fault>
    ensures { result ≡ Ok None }
{
    Ok(None)
}

/// Places a design, and routes it.
fn attempt<P: Progress>(
    alloc: Global,
    progress: &mut P,
    fabric: &Fabric,
    packed: &Packed,
    fixed: &Fixed,
    seed: u64,
    rounds: u32,
) -> Result<Implementation, Fault>
    requires fits { Fits fabric.now packed.now }
    requires fixed { AreFixed fabric.now packed.now fixed.now }
    requires some { 1 ≤ rounds }
    requires few { rounds ≤ 64 }
    ensures mapping { IfOk result (IsMapping fabric.now packed.now fixed.now rounds) }
    ensures legal { IfOk result (IsLegal fabric.now packed.now fixed.now) }
    ensures on_fabric { IfOk result (IsOnFabric fabric.now) }
    ensures inputs { IfOk result InputsAreLines }
    ensures cause { IfErr result (HasMapCause fabric.now packed.now fixed.now rounds) }
{
    let placed = place_with_progress(alloc, progress, fabric, packed, fixed, seed)?;
    routed_on(alloc, progress, fabric, packed, fixed, placed, rounds)
}

/// Routes a placed design.
fn routed_on<P: Progress>(
    alloc: Global,
    progress: &mut P,
    fabric: &Fabric,
    packed: &Packed,
    _fixed: &Fixed,
    placed: Implementation,
    rounds: u32,
) -> Result<Implementation, Fault>
    requires fits { Fits fabric.now packed.now }
    requires good { IsGoodPlacement fabric.now packed.now _fixed.now placed }
    requires on_fabric { IsOnFabric fabric.now placed }
    requires some { 1 ≤ rounds }
    requires few { rounds ≤ 64 }
    ensures mapping { IfOk result (IsMapping fabric.now packed.now _fixed.now rounds) }
    ensures legal { IfOk result (IsLegal fabric.now packed.now _fixed.now) }
    ensures on_fabric { IfOk result (IsOnFabric fabric.now) }
    ensures inputs { IfOk result InputsAreLines }
    ensures cause { IfErr result (HasMapCause fabric.now packed.now _fixed.now rounds) }
{
    fabric.is_well_made();
    match route_with_progress(alloc, progress, fabric, packed, &placed, rounds) {
        Ok(routed) => Ok(with_trees(placed, routed.trees)),
        Err(fault) => Err(fault_of(alloc, fabric, packed, _fixed, placed, fault, rounds)?),
    }
}
