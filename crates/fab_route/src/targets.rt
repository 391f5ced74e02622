//! Where the edges of nodes lead.

ghost use Rattle.std.specs.Prelude.{◌≡◌, ◌<◌, ◌++◌, [], ℕ, IfOk, OnOk, All, length, slice_index};
ghost use Rattle.fab_fabric.specs.Fabric.{wire_count};
ghost use Rattle.fab_fabric.specs.Wires.{numbered_wire};
ghost use Rattle.fab_ways_laws.specs.Edges.{ends};
ghost use Rattle.fab_route.specs.inner.Numbers.{Adds, AreFlat};

use fab_base::Memory;
use fab_fabric::{Fabric, Wire};
use fab_graph::Graph;
use std::alloc::Global;

/// For each node where its targets begin, and the targets of all nodes one behind the other. A last entry tells where they end.
pub(crate) fn targets(
    alloc: Global,
    fabric: &Fabric,
    wires: &[u32],
    nodes: &[u32],
) -> Result<(Vec<usize>, Vec<u32>), Memory>
    requires wires { (node : ℕ) → node < length wires.now → slice_index wires.now node < wire_count fabric.now }
    requires nodes { length nodes.now ≡ wire_count fabric.now }
    ensures { IfOk result (λ found. AreFlat fabric.now wires.now nodes.now (length wires.now) found.0.items found.1.items) }
{
    let graph = Graph::new(alloc, fabric)?;
    let mut starts = vec![in alloc; 0; 1]?;
    let mut targets = Vec::new(alloc);
    for wire in wires {
        add_targets(&graph, fabric, nodes, Wire(*wire), &mut targets)?;
        starts.push(targets.len())?;
    }
    Ok((starts, targets))
}

// The nodes to which the node of a wire leads: those joined to the outputs of its pairs.
fn add_targets(
    graph: &Graph,
    fabric: &Fabric,
    nodes: &[u32],
    wire: Wire,
    targets: &mut Vec<u32>,
) -> Result<(), Memory>
    requires same { graph.now ≡ fabric.now }
    requires nodes { length nodes.now ≡ wire_count fabric.now }
    requires wire { wire.0 < wire_count fabric.now }
    ensures { OnOk result (Adds fabric.now nodes.now (ends fabric.now wire.0) targets.old.items targets.new.items) }
{
    let ends = graph.ends(wire);
    for index in 0..ends.len() {
        if let Some(to) = fabric.join_to(ends.at(index)) {
            targets.push(nodes[to.0 as usize])?;
        }
    }
    Ok(())
}
