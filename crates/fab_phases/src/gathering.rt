//! How the flip-flops and latches that loading sets are gathered, and how all that they need is asked for.

ghost use Rattle.std.specs.Prelude.{◌≡◌, ◌+◌, ◌<◌, ◌≤◌, ◌^◌, Bool, List, length, map, IfOk, OnOk, IsPermutation, IsTrue};
ghost use Rattle.fab_network.specs.declared.network.Clock.TheVariants.{Loader};
ghost use Rattle.fab_network.specs.Network.{AreFit};
ghost use Rattle.fab_network.specs.Passes.{kept_tern};
ghost use Rattle.fab_demand.specs.Asked.{AsksMore};
ghost use Rattle.fab_demand.specs.Demand.{IsAsked};
ghost use Rattle.fab_phases.specs.Loading.{AreFlops, AreLoading, AreRuns, GoTogether, HasFlops, IsReady, IsRun};
ghost use Rattle.fab_phases.specs.inner.Gathering.{AreGated, AreInRuns, HasGated, IsFlopAt, IsGated, IsGatedAt, IsLoaderFlop, IsTogetherUpTo};

use crate::chain::chain_source;
use crate::loading::{Latch, LoadedFlop, Loading, Run};
use fab_base::Memory;
use fab_compiled::{Lead, Tree, View};
use fab_demand::Demand;
use fab_demand::laws::sources_stay_asked;
use fab_network::{Clock, Drive, Network, Source, lead_of_source};
use fab_ternary::Tern;
use std::alloc::Global;

/// A latch that loading sets, with its gate.
#[derive(Clone, Copy, Debug)]
pub struct GatedLatch {
    pub gate: Source,
    pub latch: Latch,
}

/// The flip-flops and the latches that loading sets, among marked points. All that they need is asked for, where this is given.
pub fn loading_of(
    alloc: Global,
    network: &Network,
    loads: &[bool],
    given: &[Tern],
    demand: &mut Demand,
) -> Result<Loading, Memory>
    requires fit { AreFit network.now.trees.items network.now.drives.items }
    requires points { length network.now.drives.items ≡ length demand.old.leads }
    requires loads { length loads.now ≡ length demand.old.leads }
    requires given { length given.now ≡ length demand.old.leads }
    requires asked { IsAsked network.now Loader (kept_tern given.now) demand.old }
    ensures asked { OnOk result (IsAsked network.now Loader (kept_tern given.now) demand.new) }
    ensures more { OnOk result (AsksMore demand.old demand.new) }
    ensures loading { IfOk result (λ loading. AreLoading network.now demand.new loads.now loading) }
{
    sources_stay_asked();
    let flops = flops_of(alloc, network, loads, given, demand)?;
    let mut latches = latches_of(alloc, network, loads, given, demand)?;
    bring_together(network, demand, &mut latches)?;
    let runs = runs_of(alloc, network, demand, &latches)?;
    let chain = chain_source(network, demand, &flops, &runs);
    Ok(Loading { flops, runs, chain })
}

// ---- flip-flops

// The flip-flops that loading sets.
fn flops_of(
    alloc: Global,
    network: &Network,
    loads: &[bool],
    given: &[Tern],
    demand: &mut Demand,
) -> Result<Vec<LoadedFlop>, Memory>
    requires fit { AreFit network.now.trees.items network.now.drives.items }
    requires points { length network.now.drives.items ≡ length demand.old.leads }
    requires loads { length loads.now ≡ length demand.old.leads }
    requires given { length given.now ≡ length demand.old.leads }
    requires asked { IsAsked network.now Loader (kept_tern given.now) demand.old }
    ensures asked { OnOk result (IsAsked network.now Loader (kept_tern given.now) demand.new) }
    ensures more { OnOk result (AsksMore demand.old demand.new) }
    ensures flops { IfOk result (λ flops. AreFlops network.now demand.new loads.now flops.items) }
    ensures all { IfOk result (λ flops. HasFlops network.now loads.now (length network.now.drives.items) flops.items) }
{
    let mut flops = Vec::new(alloc);
    for point in 0..network.drives.len() {
        add_flop(network, loads, given, demand, &mut flops, point)?;
    }
    Ok(flops)
}

// One more point, which may be such a flip-flop.
fn add_flop(
    network: &Network,
    loads: &[bool],
    given: &[Tern],
    demand: &mut Demand,
    flops: &mut Vec<LoadedFlop>,
    point: usize,
) -> Result<(), Memory>
    requires fit { AreFit network.now.trees.items network.now.drives.items }
    requires points { length network.now.drives.items ≡ length demand.old.leads }
    requires loads { length loads.now ≡ length demand.old.leads }
    requires given { length given.now ≡ length demand.old.leads }
    requires asked { IsAsked network.now Loader (kept_tern given.now) demand.old }
    requires within { point < length demand.old.leads }
    requires flops { AreFlops network.now demand.old loads.now flops.old.items }
    requires all { HasFlops network.now loads.now point flops.old.items }
    ensures asked { OnOk result (IsAsked network.now Loader (kept_tern given.now) demand.new) }
    ensures more { OnOk result (AsksMore demand.old demand.new) }
    ensures flops { OnOk result (AreFlops network.now demand.new loads.now flops.new.items) }
    ensures all { OnOk result (HasFlops network.now loads.now (point + 1) flops.new.items) }
{
    sources_stay_asked();
    if let Some(flop) = flop_at(network, loads, point) {
        demand.ask_source(network, Clock::Loader, given, flop.next);
        flops.push(flop)?;
    }
    Ok(())
}

// The flip-flop that is a point, if loading sets it.
fn flop_at(network: &Network, loads: &[bool], point: usize) -> Option<LoadedFlop>
    requires loads { length loads.now ≡ length network.now.drives.items }
    requires within { point < length network.now.drives.items }
    requires few { length network.now.drives.items ≤ 2 ^ 32 }
    ensures { IsFlopAt network.now loads.now point result }
{
    if !loads[point] {
        return None;
    }
    match network.drives[point] {
        Drive::Flop(clock, next) => loaded_flop(clock, point as u32, next),
        Drive::Given | Drive::Same(_) | Drive::Value(_) | Drive::Hold(_, _) => None,
    }
}

// A flip-flop, if its clock is the loader's.
fn loaded_flop(clock: Clock, point: u32, next: Source) -> Option<LoadedFlop>
    ensures { IsLoaderFlop clock point next result }
{
    match clock {
        Clock::Loader => Some(LoadedFlop { point, next }),
        Clock::User | Clock::Other => None,
    }
}

// ---- latches

// The latches that loading sets.
fn latches_of(
    alloc: Global,
    network: &Network,
    loads: &[bool],
    given: &[Tern],
    demand: &mut Demand,
) -> Result<Vec<GatedLatch>, Memory>
    requires fit { AreFit network.now.trees.items network.now.drives.items }
    requires points { length network.now.drives.items ≡ length demand.old.leads }
    requires loads { length loads.now ≡ length demand.old.leads }
    requires given { length given.now ≡ length demand.old.leads }
    requires asked { IsAsked network.now Loader (kept_tern given.now) demand.old }
    ensures asked { OnOk result (IsAsked network.now Loader (kept_tern given.now) demand.new) }
    ensures more { OnOk result (AsksMore demand.old demand.new) }
    ensures latches { IfOk result (λ latches. AreGated network.now demand.new loads.now latches.items) }
    ensures all { IfOk result (λ latches. HasGated network.now loads.now (length network.now.drives.items) latches.items) }
{
    let mut latches = Vec::new(alloc);
    for point in 0..network.drives.len() {
        add_latch(network, loads, given, demand, &mut latches, point)?;
    }
    Ok(latches)
}

// One more point, which may be such a latch.
fn add_latch(
    network: &Network,
    loads: &[bool],
    given: &[Tern],
    demand: &mut Demand,
    latches: &mut Vec<GatedLatch>,
    point: usize,
) -> Result<(), Memory>
    requires fit { AreFit network.now.trees.items network.now.drives.items }
    requires points { length network.now.drives.items ≡ length demand.old.leads }
    requires loads { length loads.now ≡ length demand.old.leads }
    requires given { length given.now ≡ length demand.old.leads }
    requires asked { IsAsked network.now Loader (kept_tern given.now) demand.old }
    requires within { point < length demand.old.leads }
    requires latches { AreGated network.now demand.old loads.now latches.old.items }
    requires all { HasGated network.now loads.now point latches.old.items }
    ensures asked { OnOk result (IsAsked network.now Loader (kept_tern given.now) demand.new) }
    ensures more { OnOk result (AsksMore demand.old demand.new) }
    ensures latches { OnOk result (AreGated network.now demand.new loads.now latches.new.items) }
    ensures all { OnOk result (HasGated network.now loads.now (point + 1) latches.new.items) }
{
    sources_stay_asked();
    if let Some(gated) = latch_at(network, loads, point) {
        demand.ask_source(network, Clock::Loader, given, gated.gate);
        demand.ask_source(network, Clock::Loader, given, gated.latch.latched);
        latches.push(gated)?;
    }
    Ok(())
}

// The latch that is a point, if loading sets it.
fn latch_at(network: &Network, loads: &[bool], point: usize) -> Option<GatedLatch>
    requires loads { length loads.now ≡ length network.now.drives.items }
    requires within { point < length network.now.drives.items }
    requires few { length network.now.drives.items ≤ 2 ^ 32 }
    ensures { IsGatedAt network.now loads.now point result }
{
    if !loads[point] {
        return None;
    }
    match network.drives[point] {
        Drive::Hold(gate, latched) => {
            let latch = Latch {
                point: point as u32,
                latched,
            };
            Some(GatedLatch { gate, latch })
        }
        Drive::Given | Drive::Flop(_, _) | Drive::Same(_) | Drive::Value(_) => None,
    }
}

// ---- runs

// Puts latches next to each other whose gates lead to one point, so that a word asks for each such point once, whatever latches it opens.
fn bring_together(
    network: &Network,
    demand: &Demand,
    latches: &mut Vec<GatedLatch>,
) -> Result<(), Memory>
    ensures { IsPermutation latches.old.items latches.new.items }
{
    let view = demand.view();
    latches.sort_by_cached_key(|gated| gate_point(network, &view, gated.gate))?;
    Ok(())
}

// The point to which a gate leads that is a point itself, and one number for all other gates. It says which latches may stand together; whether they
// open together is asked of the gates.
fn gate_point(network: &Network, view: &View, gate: Source) -> u32 {
    let Some(Tree::Bits(place, _)) = network.trees.get(gate.tree as usize) else {
        return u32::MAX;
    };
    let first = (gate.first as usize).saturating_add(*place as usize);
    view.leads
        .get(first.saturating_add(gate.bit as usize))
        .copied()
        .unwrap_or(u32::MAX)
}

// The latches in runs of neighbours that open together.
fn runs_of(
    alloc: Global,
    network: &Network,
    demand: &Demand,
    latches: &[GatedLatch],
) -> Result<Vec<Run>, Memory>
    requires fit { AreFit network.now.trees.items network.now.drives.items }
    requires points { length network.now.drives.items ≡ length demand.now.leads }
    requires latches { (loads : List Bool) × AreGated network.now demand.now loads latches.now }
    ensures runs { IfOk result (λ runs. (loads : List Bool) → AreGated network.now demand.now loads latches.now → AreRuns network.now demand.now loads runs.items) }
    ensures all { IfOk result (λ runs. AreInRuns runs.items latches.now) }
{
    let mut runs = Vec::new(alloc);
    let mut rest = latches;
    'runs: while let Some(first) = rest.first() {
        let count = together(network, demand, first.gate, rest);
        let (front, after) = rest.split_at(count);
        runs.push(run_of(alloc, first.gate, front)?)?;
        rest = after;
    }
    Ok(runs)
}

// How many latches at the front open together with a gate.
fn together(network: &Network, demand: &Demand, gate: Source, latches: &[GatedLatch]) -> usize
    requires fit { AreFit network.now.trees.items network.now.drives.items }
    requires points { length network.now.drives.items ≡ length demand.now.leads }
    requires gate { IsReady network.now demand.now gate }
    requires latches { (loads : List Bool) × AreGated network.now demand.now loads latches.now }
    ensures { IsTogetherUpTo network.now demand.now gate latches.now result }
{
    for (place, gated) in latches.iter().enumerate() {
        if !open_together(network, demand, gated.gate, gate) {
            return place;
        }
    }
    latches.len()
}

// Whether two gates lead to one point, or are one. Others may open together as well.
fn open_together(network: &Network, demand: &Demand, one: Source, other: Source) -> bool
    requires fit { AreFit network.now.trees.items network.now.drives.items }
    requires points { length network.now.drives.items ≡ length demand.now.leads }
    requires one { IsReady network.now demand.now one }
    requires other { IsReady network.now demand.now other }
    ensures together { IsTrue result → GoTogether network.now demand.now one other }
    ensures same { one ≡ other → IsTrue result }
{
    if one == other {
        return true;
    }
    let view = demand.view();
    let marks = demand.marks();
    match (
        lead_of_source(&network.trees, one, &view, marks),
        lead_of_source(&network.trees, other, &view, marks),
    ) {
        (Lead::Point(point), Lead::Point(same)) => point == same,
        _ => false,
    }
}

// The run of latches that open together with a gate.
fn run_of(alloc: Global, gate: Source, latches: &[GatedLatch]) -> Result<Run, Memory>
    ensures { IfOk result (λ run. (run.gate ≡ gate) × (run.latches.items ≡ map (λ (gated : GatedLatch). gated.latch) latches.now)) }
{
    let latches = latches.iter().map(|gated| gated.latch).collect(alloc)?;
    Ok(Run { gate, latches })
}
