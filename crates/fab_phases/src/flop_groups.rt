//! Flip-flops in groups that take new values together.

ghost use Rattle.std.specs.Prelude.{◌≡◌, ◌<◌, ◌≤◌, length, slice_get, IfOk, IsTrue, Some};
ghost use Rattle.fab_network.specs.Network.{AreBeside};
ghost use Rattle.fab_phases.specs.Lists.{Each};
ghost use Rattle.fab_phases.specs.declared.enables.Enable.TheVariants.{Test};
ghost use Rattle.fab_phases.specs.inner.Enables.{AreBesideUpTo, AreFlopGroups, AreInFlopGroups, HasBack, Holds, IsFitEnable, IsFlopGroupOf, IsLedBack};
ghost use Rattle.fab_phases.specs.inner.Ticks.{AreFitFlops, IsFit};

use crate::enables::Enable;
use crate::loading::LoadedFlop;
use fab_base::Memory;
use fab_compiled::Tree;
use fab_demand::Demand;
use fab_network::{Network, Source};
use std::alloc::Global;

/// Neighbours among the flip-flops that loading sets whose next values are bits of one expression. They hold what they have where their
/// enable is 0.
#[derive(Drop)]
pub struct FlopGroup {
    pub enable: Enable,
    pub flops: Vec<LoadedFlop>,
}

/// Flip-flops in groups, in their order.
pub fn groups_of(
    alloc: Global,
    network: &Network,
    demand: &Demand,
    flops: &[LoadedFlop],
) -> Result<Vec<FlopGroup>, Memory>
    requires flops { AreFitFlops network.now flops.now }
    ensures groups { IfOk result (λ groups. AreFlopGroups network.now demand.now flops.now groups.items) }
    ensures all { IfOk result (λ groups. AreInFlopGroups groups.items flops.now) }
{
    let mut groups = Vec::new(alloc);
    let mut rest = flops;
    'groups: while let Some(first) = rest.first() {
        let count = together(first.next, rest);
        let (front, after) = rest.split_at(count);
        groups.push(group_of(alloc, network, demand, first.next, front)?)?;
        rest = after;
    }
    Ok(groups)
}

// How many flip-flops at the front take bits of the same expression as this one.
fn together(next: Source, flops: &[LoadedFlop]) -> usize
    ensures { AreBesideUpTo next flops.now result }
{
    for (place, flop) in flops.iter().enumerate() {
        if !flop.next.is_beside(next) {
            return place;
        }
    }
    flops.len()
}

// The group of flip-flops that take bits of the same expression as this one.
fn group_of(
    alloc: Global,
    network: &Network,
    demand: &Demand,
    next: Source,
    flops: &[LoadedFlop],
) -> Result<FlopGroup, Memory>
    requires next { IsFit network.now next }
    requires beside { Each flops.now (λ flop. AreBeside flop.next next) }
    ensures { IfOk result (λ group. IsFlopGroupOf network.now demand.now flops.now group) }
{
    let enable = enable_of(network, demand, next, flops);
    let flops = flops.iter().map(|flop| *flop).collect(alloc)?;
    Ok(FlopGroup { enable, flops })
}

// What lets flip-flops take bits of the same expression as this one: its test, if each of them takes what it has where the test is 0.
fn enable_of(network: &Network, demand: &Demand, next: Source, flops: &[LoadedFlop]) -> Enable
    requires next { IsFit network.now next }
    requires beside { Each flops.now (λ flop. AreBeside flop.next next) }
    ensures fit { IsFitEnable network.now result }
    ensures holds { Each flops.now (Holds network.now demand.now result) }
{
    for flop in flops {
        if !is_held(network, demand, *flop) {
            return Enable::Always;
        }
    }
    Enable::Test(next)
}

// Whether a flip-flop takes what it has where the test of its expression is 0.
fn is_held(network: &Network, demand: &Demand, flop: LoadedFlop) -> bool
    ensures { IsTrue result → Holds network.now demand.now (Test flop.next) flop }
{
    match network.trees.get(flop.next.tree as usize) {
        Some(Tree::Cond(_, _, no)) => is_back(demand, no, flop),
        Some(_) | None => false,
    }
}

// Whether a flip-flop's bit of an expression is a point that is led to the flip-flop.
fn is_back(demand: &Demand, tree: &Tree, flop: LoadedFlop) -> bool
    ensures { IsTrue result → HasBack demand.now tree.now flop }
{
    match tree {
        Tree::Bits(place, count) => {
            let back = flop.next.first as usize + *place as usize + flop.next.bit as usize;
            flop.next.bit < *count && is_led(demand, back, flop.point)
        }
        _ => false,
    }
}

// Whether a point has been asked for and is led to this one.
fn is_led(demand: &Demand, back: usize, point: u32) -> bool
    ensures { IsTrue result → IsLedBack demand.now back point }
{
    match (demand.marks().get(back), demand.view().leads.get(back)) {
        (Some(true), Some(lead)) => *lead == point,
        _ => false,
    }
}
