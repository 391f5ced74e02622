//! The trees of a run as trees of wires.

ghost use Rattle.std.specs.Prelude.{◌≡◌, ◌<◌, ◌++◌, IfOk, OnOk, All, map};
ghost use Rattle.fab_fabric.specs.declared.wire.Wire.{Wire};
ghost use Rattle.fab_legal.specs.WellMade.{IsWellMadePacked, IsNetId};
ghost use Rattle.fab_pathfinder.specs.Plain.{paths_of, trees_of, rounds_of};
ghost use Rattle.fab_ways_laws.specs.Trees.{by_line, edges_of, tree_with};
ghost use Rattle.fab_nodes_laws.specs.Nets.{wire_paths};
ghost use Rattle.fab_route.specs.Answers.{plain_rounds};
ghost use Rattle.fab_route.specs.Plain.{graph_of, numbering_of};
ghost use Rattle.fab_route.specs.inner.Told.{net_names, told_trees, AreLow, AreLowRounds};
ghost use Rattle.fab_route.specs.inner.Wanted.{wire_groups, input_lines};

use crate::nodes::Nodes;
use crate::order::{net_at, net_count};
use crate::walks::put_walk;
use fab_base::Memory;
use fab_fabric::Wire;
use fab_implementation::{Implementation, Tree};
use fab_netlist::{NetId, Packed};
use fab_pathfinder::{Round, Tree as Walks};
use std::alloc::Global;

/// The names of all nets in trees, where these are the lines that name input ports.
pub(crate) fn net_names(
    alloc: Global,
    packed: &Packed,
    _placed: &Implementation,
    lines: &[u32],
) -> Result<Vec<NetId>, Memory>
    requires made { IsWellMadePacked packed.now }
    requires lines { lines.now ≡ input_lines packed.now _placed.now }
    ensures { IfOk result (λ names. names.items ≡ net_names packed.now _placed.now) }
{
    let mut names = Vec::new(alloc);
    for place in 0..net_count(packed) {
        names.push(net_name(packed, _placed, lines, net_at(packed, place)))?;
    }
    Ok(names)
}

// The name of a net in trees.
fn net_name(packed: &Packed, _placed: &Implementation, lines: &[u32], net: NetId) -> NetId
    requires lines { lines.now ≡ input_lines packed.now _placed.now }
    requires known { IsNetId packed.now net }
    ensures { result ≡ by_line packed.now _placed.now net }
{
    match net {
        NetId::In(number) => NetId::In(lines[number as usize]),
        other => other,
    }
}

/// The trees of each round, where these are the names and sinks of nets.
pub(crate) fn round_trees(
    alloc: Global,
    nodes: &Nodes,
    names: &[NetId],
    sinks: &Vec<Vec<Wire>>,
    rounds: &[Round],
) -> Result<Vec<Vec<Tree>>, Memory>
    requires { AreLowRounds (graph_of nodes.now).nodes rounds.now }
    ensures { IfOk result (λ told. plain_rounds told.items ≡ map (told_trees (numbering_of nodes.now) names.now (wire_groups sinks.now.items)) (rounds_of rounds.now)) }
{
    let mut told = Vec::new(alloc);
    for round in rounds {
        told.push(wire_trees(alloc, nodes, names, sinks, &round.trees)?)?;
    }
    Ok(told)
}

/// The trees of a round.
pub(crate) fn wire_trees(
    alloc: Global,
    nodes: &Nodes,
    names: &[NetId],
    sinks: &Vec<Vec<Wire>>,
    trees: &[Walks],
) -> Result<Vec<Tree>, Memory>
    requires { AreLow (graph_of nodes.now).nodes trees.now }
    ensures { IfOk result (λ told. told.items ≡ told_trees (numbering_of nodes.now) names.now (wire_groups sinks.now.items) (trees_of trees.now)) }
{
    let count = names.len().min(sinks.len()).min(trees.len());
    let mut told = Vec::new(alloc);
    for place in 0..count {
        let edges = tree_edges(alloc, nodes, &sinks[place], &trees[place])?;
        put_tree(&mut told, names[place], edges)?;
    }
    Ok(told)
}

// A net without edges has no tree.
fn put_tree(trees: &mut Vec<Tree>, net: NetId, edges: Vec<(Wire, Wire)>) -> Result<(), Memory>
    ensures { OnOk result (trees.new.items ≡ trees.old.items ++ tree_with net edges.items) }
{
    if edges.len() > 0 {
        trees.push(Tree { net, edges })?;
    }
    Ok(())
}

// The edges of the walks to sinks.
fn tree_edges(
    alloc: Global,
    nodes: &Nodes,
    sinks: &[Wire],
    tree: &Walks,
) -> Result<Vec<(Wire, Wire)>, Memory>
    requires { All (λ node. node < (graph_of nodes.now).nodes) tree.now.nodes.items }
    ensures { IfOk result (λ edges. edges.items ≡ edges_of (wire_paths (numbering_of nodes.now) (map (λ (wire : Wire). wire.0) sinks.now) (paths_of tree.now))) }
{
    let count = sinks.len().min(tree.lengths.len());
    let mut edges = Vec::new(alloc);
    let mut from = 0;
    for number in 0..count {
        let to = from + tree.lengths[number];
        put_walk(&mut edges, nodes, &tree.nodes[from..to], sinks[number])?;
        from = to;
    }
    Ok(edges)
}
