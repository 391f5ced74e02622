//! Words are loaded where only that is looked at again which reads what has changed.

ghost use Rattle.std.specs.Prelude.{◌≡◌, ◌+◌, ◌<◌, ◌≤◌, ℕ, Bool, List, length, map, IfOk, IfSome};
ghost use Rattle.fab_network.specs.Network.{AreFit};
ghost use Rattle.fab_network.specs.Passes.{kept_tern};
ghost use Rattle.fab_demand.specs.Asked.{Asked};
ghost use Rattle.fab_changes.specs.Changes.{AreChangesOf, HasGiven, WaitsAt};
ghost use Rattle.fab_changes.specs.Fanout.{ArePlaces};
ghost use Rattle.fab_phases.specs.Lists.{Each};
ghost use Rattle.fab_phases.specs.Loading.{IsInRuns, IsSolvable};
ghost use Rattle.fab_phases.specs.Words.{IsLoadingAt};
ghost use Rattle.fab_phases.specs.inner.Enables.{AreEnables, AreEnablesOf, AreHolding, AreNewlyWatched, EnableGroups, EnableRuns, IsFitEnable, IsWatching, LeavesGroups};
ghost use Rattle.fab_phases.specs.inner.Ticks.{AreFitRuns, IsLoadTick, LeavesRuns, WritesOnly};

use crate::enables::{Enable, next_enabled, watch};
use crate::flop_groups::{FlopGroup, groups_of};
use crate::loading::{LoadedFlop, Loading, Run};
use crate::ticks::{take_flops, take_run};
use fab_base::Memory;
use fab_changes::{Changes, Fanout, Places};
use fab_demand::Demand;
use fab_network::{Network, Shared};
use fab_ternary::Tern;
use std::alloc::Global;

/// How many points of expressions may be watched for each point that stands for itself.
const MOST_READ: usize = 16;

/// What is looked at again after a word: the points that stand for themselves, and the enables of the flip-flops and latches that loading sets.
#[derive(Drop)]
pub struct Watching {
    pub groups: Vec<FlopGroup>,
    /// Those of the groups, and behind them those of the runs of latches.
    pub enables: Vec<Enable>,
    pub changes: Changes,
    /// The readers are the enables.
    pub watches: Fanout,
}

// ---- what is watched

/// What is to be watched while words are loaded. `None` where it does not pay, or there is no memory.
pub fn watching_of(
    alloc: Global,
    network: &Network,
    loading: &Loading,
    demand: &Demand,
) -> Option<Watching>
    requires fit { AreFit network.now.trees.items network.now.drives.items }
    requires points { length network.now.drives.items ≡ length demand.now.leads }
    requires loading { (loads : List Bool) × (first : ℕ) × (width : ℕ) × (given : List Tern) ×
        IsLoadingAt network.now loading.now loads first width demand.now given }
    ensures { IfSome result (λ watching. (given : List Tern) → IsWatching network.now loading.now demand.now given watching) }
{
    let groups = groups_of(alloc, network, demand, &loading.flops).ok()?;
    let enables = enables_of(alloc, &groups, &loading.runs).ok()?;
    let places = Places::new(alloc, demand)?;
    let changes = Changes::new(alloc, network, &places)?;
    let watches = watches_of(alloc, network, &places, &enables)?;
    Some(Watching {
        groups,
        enables,
        changes,
        watches,
    })
}

// The enables of groups, and behind them those of runs.
fn enables_of(alloc: Global, groups: &[FlopGroup], runs: &[Run]) -> Result<Vec<Enable>, Memory>
    ensures { IfOk result (λ enables. AreEnablesOf groups.now runs.now enables.items) }
{
    let mut enables = group_enables(alloc, groups)?;
    for run in runs {
        enables.push(Enable::Gate(run.gate))?;
    }
    Ok(enables)
}

// The enables of groups.
fn group_enables(alloc: Global, groups: &[FlopGroup]) -> Result<Vec<Enable>, Memory>
    ensures { IfOk result (λ enables. enables.items ≡ map (λ (group : FlopGroup). group.enable) groups.now) }
{
    let enables = groups.iter().map(|group| group.enable).collect(alloc)?;
    Ok(enables)
}

// Watches all points that enables read. They are stale at first.
fn watches_of(
    alloc: Global,
    network: &Network,
    places: &Places,
    enables: &[Enable],
) -> Option<Fanout>
    requires places { ArePlaces places.now }
    requires points { length network.now.drives.items ≡ length places.now.leads.now }
    requires fit { Each enables.now (IsFitEnable network.now) }
    ensures { IfSome result (λ watches. AreNewlyWatched network.now places.now.own.now places.now.leads.now enables.now watches) }
{
    if enables.len() > u32::MAX as usize {
        return None;
    }
    let points = places.own.len();
    let room = points.saturating_mul(MOST_READ);
    let mut watches = Fanout::new(alloc, points, enables.len(), room)?;
    for (number, enable) in enables.iter().enumerate() {
        watch(network, places, *enable, number as u32, &mut watches)?;
    }
    Some(watches)
}

// ---- a tick

/// A tick of the loader's clock, while a piece is offered. Of `shared` only its room is used.
pub fn tick_watched(
    network: &Network,
    loading: &Loading,
    watching: &mut Watching,
    shared: &mut Shared,
    demand: &mut Demand,
    given: &mut [Tern],
)
    requires fit { AreFit network.now.trees.items network.now.drives.items }
    requires solvable { IsSolvable network.now }
    requires points { length network.now.drives.items ≡ length demand.old.leads }
    requires given { length given.old ≡ length demand.old.leads }
    requires loading { (loads : List Bool) × (first : ℕ) × (width : ℕ) × IsLoadingAt network.now loading.now loads first width demand.old given.old }
    requires watching { IsWatching network.now loading.now demand.old given.old watching.old }
    ensures points { length demand.new.leads ≡ length demand.old.leads }
    ensures loading { (loads : List Bool) (first width : ℕ) → IsLoadingAt network.now loading.now loads first width demand.old given.old →
        IsLoadingAt network.now loading.now loads first width demand.new given.new }
    ensures ticks { (loads : List Bool) (first width : ℕ) → IsLoadingAt network.now loading.now loads first width demand.old given.old →
        IsLoadTick network.now loads (kept_tern given.old) (kept_tern given.new) }
    ensures watching { IsWatching network.now loading.now demand.new given.new watching.new }
{
    let watches = &mut watching.watches;
    let changes = &mut watching.changes;
    let enables = &watching.enables;
    changes.settle(network, given, demand, watches);
    take_groups(
        network,
        &watching.groups,
        enables,
        demand,
        watches,
        changes,
        shared,
        given,
    );
    take_enabled(
        network,
        &loading.runs,
        enables,
        demand,
        watches,
        shared,
        given,
    );
}

// Flip-flops take their next values, group by group. Groups whose enables are 0 are passed over.
fn take_groups(
    network: &Network,
    groups: &[FlopGroup],
    enables: &[Enable],
    demand: &Demand,
    watches: &mut Fanout,
    changes: &mut Changes,
    shared: &mut Shared,
    given: &mut [Tern],
)
    requires points { length network.now.drives.items ≡ length demand.now.leads }
    requires given { length given.old ≡ length demand.now.leads }
    requires groups { AreHolding network.now demand.now groups.now }
    requires of { EnableGroups groups.now enables.now }
    requires enables { AreEnables network.now demand.now enables.now watches.old }
    requires noted { HasGiven demand.now.terns given.old changes.old }
    ensures leaves { LeavesGroups network.now groups.now demand.now given.old given.new }
    ensures enables { AreEnables network.now demand.now enables.now watches.new }
    ensures noted { HasGiven demand.now.terns given.new changes.new }
    ensures changes { AreChangesOf network.now demand.now changes.old → AreChangesOf network.now demand.now changes.new }
{
    let mut from = 0;
    'groups: while let Some((number, _)) = next_enabled(
        network,
        enables,
        from,
        groups.len(),
        demand,
        watches,
    ) {
        let flops = &groups[number].flops;
        note_flops(flops, changes);
        take_flops(network, flops, demand, shared, given);
        from = number + 1;
    }
}

// Other values are given to flip-flops.
fn note_flops(flops: &[LoadedFlop], changes: &mut Changes)
    ensures changes { (network : Network) (asked : Asked) → AreChangesOf network asked changes.old → AreChangesOf network asked changes.new }
    ensures waits { Each flops.now (λ flop. WaitsAt changes.new flop.point) }
    ensures more { (point : ℕ) → WaitsAt changes.old point → WaitsAt changes.new point }
{
    for flop in flops {
        changes.note_given(flop.point as usize);
    }
}

// Latches take what their points have, run by run. Runs whose gates are 0 are passed over.
fn take_enabled(
    network: &Network,
    runs: &[Run],
    enables: &[Enable],
    demand: &Demand,
    watches: &mut Fanout,
    shared: &mut Shared,
    given: &mut [Tern],
)
    requires points { length network.now.drives.items ≡ length demand.now.leads }
    requires given { length given.old ≡ length demand.now.leads }
    requires runs { AreFitRuns network.now runs.now }
    requires of { EnableRuns runs.now enables.now }
    requires enables { AreEnables network.now demand.now enables.now watches.old }
    ensures leaves { LeavesRuns network.now runs.now demand.now given.old given.new }
    ensures writes { WritesOnly (IsInRuns runs.now) given.old given.new }
    ensures enables { AreEnables network.now demand.now enables.now watches.new }
{
    let before = enables.len() - runs.len();
    let mut from = before;
    'runs: while let Some((number, gate)) = next_enabled(
        network,
        enables,
        from,
        enables.len(),
        demand,
        watches,
    ) {
        let run = &runs[number - before];
        take_run(network, gate, run, demand, shared, given);
        from = number + 1;
    }
}
