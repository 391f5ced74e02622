//! The nets of a placed design over the nodes of a fabric.

ghost use Rattle.std.specs.Prelude.{◌≡◌, ◌≤◌, IfOk, All, length, map};
ghost use Rattle.fab_fabric.specs.declared.wire.Wire.{Wire};
ghost use Rattle.fab_legal.specs.Legal.{ArePlaced};
ghost use Rattle.fab_legal.specs.WellMade.{IsWellMadePacked, IsNetId};
ghost use Rattle.fab_pathfinder.specs.Plain.{goals_of, net_of, nets_of, IsInside, most_routed_nets};
ghost use Rattle.fab_pathfinder.specs.declared.net.Sink.{Sink};
ghost use Rattle.fab_ways_laws.specs.Routing.{sinks_of};
ghost use Rattle.fab_nodes_laws.specs.Nets.{AreGoals, AreNets, net_sinks};
ghost use Rattle.fab_route.specs.Over.{IsOver};
ghost use Rattle.fab_route.specs.Plain.{graph_of, numbering_of};
ghost use Rattle.fab_route.specs.inner.Wanted.{wire_groups, IsUnjoined, AreSources, IsNetFor};

use crate::goals::goals_of;
use crate::nodes::Nodes;
use crate::order::{net_at, net_count};
use crate::sources::Sources;
use fab_base::Memory;
use fab_fabric::{Fabric, Wire};
use fab_graph::Graph;
use fab_implementation::Implementation;
use fab_netlist::{NetId, Packed};
use fab_pathfinder::{Net, Sink};
use std::alloc::Global;

/// The nets in order, where these are the sinks of each.
pub(crate) fn nets_of(
    alloc: Global,
    fabric: &Fabric,
    nodes: &Nodes,
    packed: &Packed,
    placed: &Implementation,
    sinks: &Vec<Vec<Wire>>,
) -> Result<Vec<Net>, Memory>
    requires made { IsWellMadePacked packed.now }
    requires placed { ArePlaced fabric.now packed.now placed.now }
    requires nodes { IsOver fabric.now nodes.now }
    requires sinks { wire_groups sinks.now.items ≡ net_sinks fabric.now packed.now placed.now }
    ensures nets { IfOk result (λ nets. AreNets fabric.now packed.now placed.now (graph_of nodes.now) (numbering_of nodes.now) (nets_of nets.items)) }
    ensures inside { IfOk result (λ nets. All (IsInside (graph_of nodes.now).nodes) nets.items) }
    ensures few { IfOk result (λ nets. length nets.items ≤ most_routed_nets) }
{
    fabric.is_well_made();
    let graph = Graph::new(alloc, fabric)?;
    let sources = Sources::new(alloc, fabric, nodes, packed, placed)?;
    let mut nets = Vec::new(alloc);
    for place in 0..net_count(packed) {
        let net = net_at(packed, place);
        let roots = sources.roots(alloc, fabric, nodes, packed, placed, net)?;
        nets.push(net_to(alloc, &graph, nodes, roots, &sinks[place])?)?;
    }
    Ok(nets)
}

// The net with these roots and sinks.
fn net_to(
    alloc: Global,
    graph: &Graph,
    nodes: &Nodes,
    roots: Vec<u32>,
    wires: &[Wire],
) -> Result<Net, Memory>
    requires nodes { IsOver graph.now nodes.now }
    requires wires { All (IsUnjoined graph.now) wires.now }
    ensures roots { IfOk result (λ net. net.roots ≡ roots) }
    ensures goals { IfOk result (λ net. AreGoals graph.now (graph_of nodes.now) (numbering_of nodes.now) (map (λ (wire : Wire). wire.0) wires.now) (goals_of net.sinks.items)) }
{
    match sinks_to(alloc, graph, nodes, wires) {
        Ok(sinks) => Ok(Net { roots, sinks }),
        Err(memory) => lose(roots, memory),
    }
}

// Lets roots go.
fn lose(_roots: Vec<u32>, memory: Memory) -> Result<Net, Memory>
    ensures { result ≡ Err memory }
{
    Err(memory)
}

// Sinks with the nodes before them.
fn sinks_to(
    alloc: Global,
    graph: &Graph,
    nodes: &Nodes,
    wires: &[Wire],
) -> Result<Vec<Sink>, Memory>
    requires nodes { IsOver graph.now nodes.now }
    requires wires { All (IsUnjoined graph.now) wires.now }
    ensures { IfOk result (λ sinks. AreGoals graph.now (graph_of nodes.now) (numbering_of nodes.now) (map (λ (wire : Wire). wire.0) wires.now) (goals_of sinks.items)) }
{
    let mut sinks = Vec::with_capacity(alloc, wires.len())?;
    for wire in wires {
        let goals = goals_of(alloc, graph, nodes, *wire)?;
        sinks.push(Sink { goals, aim: wire.0 })?;
    }
    Ok(sinks)
}
