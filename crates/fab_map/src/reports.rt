//! What is told of a placed design that is not routed.

ghost use Rattle.std.specs.Prelude.{◌≤◌, IfOk, IsErr};
ghost use Rattle.fab_implementation.specs.OnFabric.{IsOnFabric};
ghost use Rattle.fab_legal.specs.WellMade.{IsWellMadePacked};
ghost use Rattle.fab_ways_laws.specs.Placing.{IsGoodPlacement};
ghost use Rattle.fab_route.specs.Answers.{IsCutOff, IsOverused, IsTrueFault, plain_rounds};
ghost use Rattle.fab_map.specs.Causes.{HasMapCause};

use crate::names::net_name;
use crate::trees::{last_trees, with_trees};
use fab_base::{Fault, Memory, Name};
use fab_fabric::{Fabric, Wire};
use fab_impl::print_impl;
use fab_implementation::{Fixed, Implementation, Tree};
use fab_legal::wire_text;
use fab_netlist::{NetId, Packed};
use fab_route::RouteFault;
use std::alloc::Global;

/// The fault of a placed design that was not routed.
pub(crate) fn fault_of(
    alloc: Global,
    fabric: &Fabric,
    packed: &Packed,
    _fixed: &Fixed,
    placed: Implementation,
    fault: RouteFault,
    _rounds: u32,
) -> Result<Fault, Memory>
    requires made { IsWellMadePacked packed.now }
    requires good { IsGoodPlacement fabric.now packed.now _fixed.now placed }
    requires on_fabric { IsOnFabric fabric.now placed }
    requires some { 1 ≤ _rounds }
    requires fault { IsTrueFault fabric.now packed.now placed _rounds fault }
    ensures { IfOk result (HasMapCause fabric.now packed.now _fixed.now _rounds) }
{
    match fault {
        RouteFault::NoPath(net, sink) => no_path(
            alloc, fabric, packed, _fixed, placed, net, sink, _rounds,
        ),
        RouteFault::Overused(wire, first, second, rounds) => overused(
            alloc, fabric, packed, _fixed, placed, wire, first, second, rounds, _rounds,
        ),
        RouteFault::Memory => refused(placed),
    }
}

/// The answer where memory was refused.
fn refused(_placed: Implementation) -> Result<Fault, Memory>
    ensures { IsErr result }
{
    Err(Memory)
}

/// The fault of a placed design with a net that is cut off from a sink.
fn no_path(
    alloc: Global,
    fabric: &Fabric,
    packed: &Packed,
    _fixed: &Fixed,
    placed: Implementation,
    net: NetId,
    sink: Wire,
    _rounds: u32,
) -> Result<Fault, Memory>
    requires made { IsWellMadePacked packed.now }
    requires good { IsGoodPlacement fabric.now packed.now _fixed.now placed }
    requires on_fabric { IsOnFabric fabric.now placed }
    requires cut_off { IsCutOff fabric.now packed.now placed net sink }
    ensures { IfOk result (HasMapCause fabric.now packed.now _fixed.now _rounds) }
{
    fabric.is_well_made();
    let text = print_impl(alloc, fabric, &placed)?;
    let net = net_name(alloc, packed, net)?;
    let sink = wire_text(alloc, fabric, sink)?;
    Ok(Fault::NoPath(net, sink, Name::from(text)))
}

/// The fault of a placed design with nets that share a wire after all rounds.
fn overused(
    alloc: Global,
    fabric: &Fabric,
    packed: &Packed,
    _fixed: &Fixed,
    placed: Implementation,
    wire: Wire,
    first: NetId,
    second: NetId,
    rounds: Vec<Vec<Tree>>,
    _rounds: u32,
) -> Result<Fault, Memory>
    requires made { IsWellMadePacked packed.now }
    requires good { IsGoodPlacement fabric.now packed.now _fixed.now placed }
    requires on_fabric { IsOnFabric fabric.now placed }
    requires some { 1 ≤ _rounds }
    requires overused { IsOverused fabric.now packed.now placed _rounds wire first second (plain_rounds rounds.items) }
    ensures { IfOk result (HasMapCause fabric.now packed.now _fixed.now _rounds) }
{
    fabric.is_well_made();
    let reached = with_trees(placed, last_trees(rounds));
    let text = print_impl(alloc, fabric, &reached)?;
    let wire = wire_text(alloc, fabric, wire)?;
    let first = net_name(alloc, packed, first)?;
    let second = net_name(alloc, packed, second)?;
    Ok(Fault::Overused(wire, first, second, Name::from(text)))
}
