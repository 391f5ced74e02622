//! The nodes that stand before a sink.

ghost use Rattle.std.specs.Prelude.{◌≡◌, ◌<◌, ◌↔◌, ℕ, IfOk, Contains};
ghost use Rattle.fab_fabric.specs.Fabric.{wire_count};
ghost use Rattle.fab_fabric.specs.declared.wire.Wire.{Wire};
ghost use Rattle.fab_legal.specs.Steps.{IsJoined};
ghost use Rattle.fab_route.specs.Over.{IsOver, IsBefore};

use crate::nodes::Nodes;
use fab_base::Memory;
use fab_fabric::Wire;
use fab_graph::Graph;
use std::alloc::Global;

/// The nodes from which pairs lead to a wire to which nothing is joined, as an input pin is: the goals of a walk to it.
pub fn goals_of(alloc: Global, graph: &Graph, nodes: &Nodes, sink: Wire) -> Result<Vec<u32>, Memory>
    requires nodes { IsOver graph.now nodes.now }
    requires sink { sink.0 < wire_count graph.now }
    requires unjoined { (from : Wire) → IsJoined graph.now from sink → ⊥ }
    ensures { IfOk result (λ goals. (node : ℕ) → Contains goals.items node ↔ IsBefore graph.now nodes.now sink node) }
{
    graph.is_well_made();
    let origins = graph.origins(sink);
    let mut goals = Vec::new(alloc);
    for index in 0..origins.len() {
        goals.push(nodes.node(origins.at(index)))?;
    }
    Ok(goals)
}
