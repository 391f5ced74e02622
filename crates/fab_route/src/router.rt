//! The router.

ghost use Rattle.std.specs.Prelude.{◌≡◌, ◌≤◌, ℕ, true, false, length, List, None, is_some, IfOk, IfErr, IfSome, IfNone};
ghost use Rattle.std.specs.List.{All};
ghost use Rattle.fab_astar.specs.Scene.{IsGraph, IsBound};
ghost use Rattle.fab_implementation.specs.Plain.{Pad};
ghost use Rattle.fab_legal.specs.Legal.{ArePlaced, IsLegal};
ghost use Rattle.fab_legal.specs.Lines.{ConstraintsHold};
ghost use Rattle.fab_legal.specs.WellMade.{IsWellMadePacked};
ghost use Rattle.fab_pathfinder.specs.Plain.{nets_of, IsInside, most_routed_nets};
ghost use Rattle.fab_pathfinder.specs.Rounds.{IsCutOff};
ghost use Rattle.fab_ways_laws.specs.Mapping.{AreRouted};
ghost use Rattle.fab_ways_laws.specs.Trees.{with_trees};
ghost use Rattle.fab_nodes_laws.specs.Nets.{AreNets, net_sinks};
ghost use Rattle.fab_route.specs.Answers.{IsLeftShared, IsTrueFault};
ghost use Rattle.fab_route.specs.Over.{IsOver};
ghost use Rattle.fab_route.specs.Plain.{graph_of, numbering_of};
ghost use Rattle.fab_route.specs.inner.Guided.{left_from};
ghost use Rattle.fab_route.specs.inner.Told.{IsNodeRun};
ghost use Rattle.fab_route.specs.inner.Wanted.{wire_groups};

use crate::bounds::Bounds;
use crate::delays::delays_of;
use crate::guide::Guide;
use crate::lines::input_lines;
use crate::nets::nets_of;
use crate::nodes::Nodes;
use crate::order::net_at;
use crate::shared::{least_shared, owners_of};
use crate::sinks::sinks_by_net;
use crate::trees::{net_names, round_trees, wire_trees};
use fab_base::Memory;
use fab_fabric::{Fabric, Wire};
use fab_implementation::{Implementation, Tree};
use fab_netlist::{NetId, Packed};
use fab_pathfinder::{CutOff, Net, Routed as Run, run_rounds, try_rounds};
use fab_progress::{Progress, Silent};
use std::alloc::Global;

/// The trees of a routed design.
#[derive(Drop)]
pub struct Routed {
    /// A tree for each net that has sinks, in the order of nets.
    pub trees: Vec<Tree>,
}

/// Why a design is not routed.
#[derive(Drop)]
pub enum RouteFault {
    /// The first net with a sink to which no walk comes from its roots, and its first such sink.
    NoPath(NetId, Wire),
    /// After all rounds, the least wire that two nets have, the first two such nets, and the trees of each round.
    Overused(Wire, NetId, NetId, Vec<Vec<Tree>>),
    /// An allocation was refused.
    Memory,
}

impl From<Memory> for RouteFault {
    ghost use Rattle.fab_route.specs.declared.router.RouteFault.TheVariants as faults;

    ghost from_gives = { λ memory fault. fault ≡ faults.Memory };

    fn from(_: Memory) -> RouteFault {
        RouteFault::Memory
    }
}

/// Routes a placed design by negotiated rounds, at most so many.
pub fn route(
    alloc: Global,
    fabric: &Fabric,
    packed: &Packed,
    placed: &Implementation,
    rounds: u32,
) -> Result<Routed, RouteFault>
    requires made { IsWellMadePacked packed.now }
    requires placed { ArePlaced fabric.now packed.now placed.now }
    requires some { 1 ≤ rounds }
    requires few { rounds ≤ 64 }
    ensures routed { IfOk result (λ routed. AreRouted fabric.now packed.now placed.now rounds routed.trees.items) }
    ensures legal { IfOk result (λ routed. (fixed : List Pad) → ConstraintsHold fixed placed.now → IsLegal fabric.now packed.now fixed (with_trees placed.now routed.trees.items)) }
    ensures fault { IfErr result (IsTrueFault fabric.now packed.now placed.now rounds) }
{
    route_with_progress(alloc, &mut Silent, fabric, packed, placed, rounds)
}

/// Routes a placed design as `route` does, and tells of each round when it is done.
pub fn route_with_progress<P: Progress>(
    alloc: Global,
    progress: &mut P,
    fabric: &Fabric,
    packed: &Packed,
    placed: &Implementation,
    rounds: u32,
) -> Result<Routed, RouteFault>
    requires made { IsWellMadePacked packed.now }
    requires placed { ArePlaced fabric.now packed.now placed.now }
    requires some { 1 ≤ rounds }
    requires few { rounds ≤ 64 }
    ensures routed { IfOk result (λ routed. AreRouted fabric.now packed.now placed.now rounds routed.trees.items) }
    ensures legal { IfOk result (λ routed. (fixed : List Pad) → ConstraintsHold fixed placed.now → IsLegal fabric.now packed.now fixed (with_trees placed.now routed.trees.items)) }
    ensures fault { IfErr result (IsTrueFault fabric.now packed.now placed.now rounds) }
{
    let found = route_by(alloc, progress, fabric, packed, placed, rounds, true)?;
    let Some(routed) = found else { unreachable!() };
    Ok(routed)
}

/// Routes a placed design as `route_with_progress` does, but only while that gets better: its rounds end as soon as the count of shared
/// wires does not get to its half within 8 of them, while it is above 32. It finds none where a wire is shared behind the last round.
pub fn try_route<P: Progress>(
    alloc: Global,
    progress: &mut P,
    fabric: &Fabric,
    packed: &Packed,
    placed: &Implementation,
    rounds: u32,
) -> Result<Option<Routed>, RouteFault>
    requires made { IsWellMadePacked packed.now }
    requires placed { ArePlaced fabric.now packed.now placed.now }
    requires some { 1 ≤ rounds }
    requires few { rounds ≤ 64 }
    ensures routed { IfOk result (λ found. IfSome found (λ routed. AreRouted fabric.now packed.now placed.now rounds routed.trees.items)) }
    ensures legal { IfOk result (λ found. IfSome found (λ routed. (fixed : List Pad) → ConstraintsHold fixed placed.now → IsLegal fabric.now packed.now fixed (with_trees placed.now routed.trees.items))) }
    ensures left { IfOk result (λ found. IfNone found (IsLeftShared fabric.now packed.now placed.now rounds)) }
    ensures fault { IfErr result (IsTrueFault fabric.now packed.now placed.now rounds) }
{
    route_by(alloc, progress, fabric, packed, placed, rounds, false)
}

// Routes a placed design, patiently or only while that gets better.
fn route_by<P: Progress>(
    alloc: Global,
    progress: &mut P,
    fabric: &Fabric,
    packed: &Packed,
    placed: &Implementation,
    rounds: u32,
    patient: bool,
) -> Result<Option<Routed>, RouteFault>
    requires made { IsWellMadePacked packed.now }
    requires placed { ArePlaced fabric.now packed.now placed.now }
    requires some { 1 ≤ rounds }
    requires few { rounds ≤ 64 }
    ensures routed { IfOk result (λ found. IfSome found (λ routed. AreRouted fabric.now packed.now placed.now rounds routed.trees.items)) }
    ensures legal { IfOk result (λ found. IfSome found (λ routed. (fixed : List Pad) → ConstraintsHold fixed placed.now → IsLegal fabric.now packed.now fixed (with_trees placed.now routed.trees.items))) }
    ensures left { IfOk result (λ found. IfNone found (IsLeftShared fabric.now packed.now placed.now rounds)) }
    ensures patient { patient ≡ true → IfOk result (λ found. is_some found ≡ true) }
    ensures fault { IfErr result (IsTrueFault fabric.now packed.now placed.now rounds) }
{
    let sinks = sinks_by_net(alloc, fabric, packed, placed)?;
    let nodes = Nodes::new(alloc, fabric)?;
    let nets = nets_of(alloc, fabric, &nodes, packed, placed, &sinks)?;
    let bounds = Bounds::new(alloc, fabric, &nodes, &nets, &sinks)?;
    let delays = delays_of(alloc, fabric, &nodes)?;
    let guide = Guide {
        nodes,
        bounds,
        delays,
    };
    match run_by(alloc, progress, &guide, &nets, rounds, patient)? {
        Err(cut) => Err(no_path(fabric, packed, placed, &guide.nodes, &nets, &sinks, cut)),
        Ok(run) => tell_found(
            alloc,
            fabric,
            packed,
            placed,
            &guide.nodes,
            &nets,
            &sinks,
            &run,
            rounds,
            patient,
        ),
    }
}

// Rounds over nets, up to the limit where they are patient, and else only while they get better.
fn run_by<P: Progress>(
    alloc: Global,
    progress: &mut P,
    guide: &Guide,
    nets: &[Net],
    allowed: u32,
    patient: bool,
) -> Result<Result<Run, CutOff>, Memory>
    requires graph { IsGraph (graph_of guide.now.nodes) }
    requires bound { IsBound (graph_of guide.now.nodes) (left_from guide.now.bounds) }
    requires nets { All (IsInside (graph_of guide.now.nodes).nodes) nets.now }
    requires few { length nets.now ≤ most_routed_nets }
    requires some { 1 ≤ allowed }
    requires limit { allowed ≤ 64 }
    ensures run { IfOk result (λ done. IfOk done (λ run. IsNodeRun (graph_of guide.now.nodes) (nets_of nets.now) (length run.rounds.items) run)) }
    ensures few { IfOk result (λ done. IfOk done (λ run. length run.rounds.items ≤ allowed)) }
    ensures all { patient ≡ true → IfOk result (λ done. IfOk done (λ run. IfSome run.shared (λ _. length run.rounds.items ≡ allowed))) }
    ensures cut_off { IfOk result (λ done. IfErr done (λ cut. IsCutOff (graph_of guide.now.nodes) (nets_of nets.now) cut.net cut.sink)) }
{
    let count = guide.nodes.count();
    if patient {
        return run_rounds(alloc, progress, guide, count, nets, allowed);
    }
    try_rounds(alloc, progress, guide, count, nets, allowed)
}

// The net and the sink of this net that are cut off.
fn no_path(
    fabric: &Fabric,
    packed: &Packed,
    _placed: &Implementation,
    _nodes: &Nodes,
    _nets: &[Net],
    sinks: &Vec<Vec<Wire>>,
    cut: CutOff,
) -> RouteFault
    requires made { IsWellMadePacked packed.now }
    requires placed { ArePlaced fabric.now packed.now _placed.now }
    requires nodes { IsOver fabric.now _nodes.now }
    requires nets { AreNets fabric.now packed.now _placed.now (graph_of _nodes.now) (numbering_of _nodes.now) (nets_of _nets.now) }
    requires sinks { wire_groups sinks.now.items ≡ net_sinks fabric.now packed.now _placed.now }
    requires cut { IsCutOff (graph_of _nodes.now) (nets_of _nets.now) cut.net cut.sink }
    ensures { (allowed : ℕ) → IsTrueFault fabric.now packed.now _placed.now allowed result }
{
    fabric.is_well_made();
    let wires = &sinks[cut.net];
    RouteFault::NoPath(net_at(packed, cut.net), wires[cut.sink])
}

// Whether a run comes to nothing: it leaves a node shared, and did not have to be patient.
fn is_given_up(run: &Run, patient: bool) -> bool
    ensures left { result ≡ true → is_some run.now.shared ≡ true }
    ensures patient { patient ≡ true → result ≡ false }
    ensures unshared { result ≡ false → patient ≡ false → run.now.shared ≡ None }
{
    !patient && run.shared.is_some()
}

// What `tell` tells of a run that does not come to nothing.
fn tell_found(
    alloc: Global,
    fabric: &Fabric,
    packed: &Packed,
    placed: &Implementation,
    nodes: &Nodes,
    _nets: &[Net],
    sinks: &Vec<Vec<Wire>>,
    run: &Run,
    allowed: u32,
    patient: bool,
) -> Result<Option<Routed>, RouteFault>
    requires made { IsWellMadePacked packed.now }
    requires placed { ArePlaced fabric.now packed.now placed.now }
    requires nodes { IsOver fabric.now nodes.now }
    requires nets { AreNets fabric.now packed.now placed.now (graph_of nodes.now) (numbering_of nodes.now) (nets_of _nets.now) }
    requires sinks { wire_groups sinks.now.items ≡ net_sinks fabric.now packed.now placed.now }
    requires run { IsNodeRun (graph_of nodes.now) (nets_of _nets.now) (length run.now.rounds.items) run.now }
    requires few { length run.now.rounds.items ≤ allowed }
    requires all { patient ≡ true → IfSome run.now.shared (λ _. length run.now.rounds.items ≡ allowed) }
    ensures routed { IfOk result (λ found. IfSome found (λ routed. AreRouted fabric.now packed.now placed.now allowed routed.trees.items)) }
    ensures left { IfOk result (λ found. IfNone found (IsLeftShared fabric.now packed.now placed.now allowed)) }
    ensures patient { patient ≡ true → IfOk result (λ found. is_some found ≡ true) }
    ensures fault { IfErr result (IsTrueFault fabric.now packed.now placed.now allowed) }
{
    fabric.is_well_made();
    if is_given_up(run, patient) {
        return Ok(None);
    }
    let routed = tell(
        alloc, fabric, packed, placed, nodes, _nets, sinks, run, allowed,
    )?;
    Ok(Some(routed))
}

// The trees of a run, or what is wrong with it.
fn tell(
    alloc: Global,
    fabric: &Fabric,
    packed: &Packed,
    placed: &Implementation,
    nodes: &Nodes,
    _nets: &[Net],
    sinks: &Vec<Vec<Wire>>,
    run: &Run,
    _allowed: u32,
) -> Result<Routed, RouteFault>
    requires made { IsWellMadePacked packed.now }
    requires placed { ArePlaced fabric.now packed.now placed.now }
    requires nodes { IsOver fabric.now nodes.now }
    requires nets { AreNets fabric.now packed.now placed.now (graph_of nodes.now) (numbering_of nodes.now) (nets_of _nets.now) }
    requires sinks { wire_groups sinks.now.items ≡ net_sinks fabric.now packed.now placed.now }
    requires run { IsNodeRun (graph_of nodes.now) (nets_of _nets.now) _allowed run.now }
    ensures routed { IfOk result (λ routed. AreRouted fabric.now packed.now placed.now _allowed routed.trees.items) }
    ensures fault { IfErr result (IsTrueFault fabric.now packed.now placed.now _allowed) }
{
    fabric.is_well_made();
    let lines = input_lines(alloc, fabric, packed, placed)?;
    let names = net_names(alloc, packed, placed, &lines)?;
    let last = &run.rounds[run.rounds.len() - 1];
    if run.shared.is_none() {
        let trees = wire_trees(alloc, nodes, &names, sinks, &last.trees)?;
        return Ok(Routed { trees });
    }
    let owners = owners_of(alloc, nodes.count(), &last.trees)?;
    let Some(shared) = least_shared(fabric, nodes, &owners) else {
        unreachable!()
    };
    let told = round_trees(alloc, nodes, &names, sinks, &run.rounds)?;
    Err(RouteFault::Overused(
        shared.wire,
        net_at(packed, shared.first),
        net_at(packed, shared.second),
        told,
    ))
}
