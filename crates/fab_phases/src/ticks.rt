//! A tick of the loader's clock: flip-flops and latches take what comes to them.

ghost use Rattle.std.specs.Prelude.{◌≡◌, ℕ, Bool, List, length};
ghost use Rattle.fab_ternary.specs.Terns.{plain_tern};
ghost use Rattle.fab_compiled.specs.Terns.{seen};
ghost use Rattle.fab_network.specs.Network.{source_tern, AreFit};
ghost use Rattle.fab_network.specs.Passes.{kept_tern};
ghost use Rattle.fab_phases.specs.Loading.{IsSolvable};
ghost use Rattle.fab_phases.specs.Words.{IsLoadingAt};
ghost use Rattle.fab_phases.specs.inner.Ticks.{AreFitFlops, AreFitLatches, AreFitRuns, IsFitRun, IsLoadTick, LeavesFlops, LeavesLatches, LeavesRun, LeavesRuns, WritesFlops, WritesLatches};

use crate::loading::{Latch, LoadedFlop, Loading, Run};
use fab_compiled::through;
use fab_demand::Demand;
use fab_network::{Network, Shared, evaluate};
use fab_ternary::Tern;

/// A tick of the loader's clock, while a piece is offered. Of `shared` only its room is used.
pub fn tick(
    network: &Network,
    loading: &Loading,
    shared: &mut Shared,
    demand: &mut Demand,
    given: &mut [Tern],
)
    requires fit { AreFit network.now.trees.items network.now.drives.items }
    requires solvable { IsSolvable network.now }
    requires points { length network.now.drives.items ≡ length demand.old.leads }
    requires given { length given.old ≡ length demand.old.leads }
    requires loading { (loads : List Bool) × (first : ℕ) × (width : ℕ) × IsLoadingAt network.now loading.now loads first width demand.old given.old }
    ensures points { length demand.new.leads ≡ length demand.old.leads }
    ensures loading { (loads : List Bool) (first width : ℕ) → IsLoadingAt network.now loading.now loads first width demand.old given.old →
        IsLoadingAt network.now loading.now loads first width demand.new given.new }
    ensures ticks { (loads : List Bool) (first width : ℕ) → IsLoadingAt network.now loading.now loads first width demand.old given.old →
        IsLoadTick network.now loads (kept_tern given.old) (kept_tern given.new) }
{
    demand.settle(network, given);
    take_flops(network, &loading.flops, demand, shared, given);
    take_runs(network, &loading.runs, demand, shared, given);
}

/// Flip-flops take their next values.
pub fn take_flops(
    network: &Network,
    flops: &[LoadedFlop],
    demand: &Demand,
    shared: &mut Shared,
    given: &mut [Tern],
)
    requires points { length network.now.drives.items ≡ length demand.now.leads }
    requires given { length given.old ≡ length demand.now.leads }
    requires flops { AreFitFlops network.now flops.now }
    ensures leaves { LeavesFlops network.now flops.now demand.now given.old given.new }
    ensures writes { WritesFlops flops.now given.old given.new }
{
    let view = demand.view();
    shared.forget();
    for flop in flops {
        given[flop.point as usize] = shared.value(&network.trees, flop.next, &view);
    }
}

// Latches take what their points have. Where a gate is 0, they hold what they held.
fn take_runs(
    network: &Network,
    runs: &[Run],
    demand: &Demand,
    shared: &mut Shared,
    given: &mut [Tern],
)
    requires points { length network.now.drives.items ≡ length demand.now.leads }
    requires given { length given.old ≡ length demand.now.leads }
    requires runs { AreFitRuns network.now runs.now }
    ensures { LeavesRuns network.now runs.now demand.now given.old given.new }
{
    for run in runs {
        let gate = evaluate(&network.trees, run.gate, &demand.view());
        take_run(network, gate, run, demand, shared, given);
    }
}

/// The latches of a run whose gate has this value.
pub fn take_run(
    network: &Network,
    gate: Tern,
    run: &Run,
    demand: &Demand,
    shared: &mut Shared,
    given: &mut [Tern],
)
    requires points { length network.now.drives.items ≡ length demand.now.leads }
    requires given { length given.old ≡ length demand.now.leads }
    requires run { IsFitRun network.now run.now }
    requires gate { plain_tern gate ≡ source_tern network.now.trees.items (seen demand.now.terns demand.now.leads) run.now.gate }
    ensures leaves { LeavesRun network.now run.now demand.now given.old given.new }
    ensures writes { WritesLatches run.now.latches.items given.old given.new }
{
    match gate {
        Tern::No => {}
        Tern::Yes | Tern::Open => take_latches(network, gate, &run.latches, demand, shared, given),
    }
}

// Latches with a gate of this value.
fn take_latches(
    network: &Network,
    gate: Tern,
    latches: &[Latch],
    demand: &Demand,
    shared: &mut Shared,
    given: &mut [Tern],
)
    requires points { length network.now.drives.items ≡ length demand.now.leads }
    requires given { length given.old ≡ length demand.now.leads }
    requires latches { AreFitLatches network.now latches.now }
    ensures leaves { LeavesLatches network.now (plain_tern gate) latches.now demand.now given.old given.new }
    ensures writes { WritesLatches latches.now given.old given.new }
{
    let view = demand.view();
    shared.forget();
    for latch in latches {
        let point = latch.point as usize;
        let latched = shared.value(&network.trees, latch.latched, &view);
        given[point] = through(gate, latched, given[point]);
    }
}
