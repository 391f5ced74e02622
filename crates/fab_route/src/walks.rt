//! Walks of nodes as edges of wires.

ghost use Rattle.std.specs.Prelude.{◌≡◌, ◌<◌, ◌++◌, ◌∷◌, [], ℕ, OnOk, All};
ghost use Rattle.fab_fabric.specs.Wires.{numbered_wire};
ghost use Rattle.fab_ways_laws.specs.Trees.{edges_along};
ghost use Rattle.fab_nodes_laws.specs.Nets.{wires_along};
ghost use Rattle.fab_route.specs.Plain.{graph_of, numbering_of, hop_edges};

use crate::nodes::Nodes;
use fab_base::Memory;
use fab_fabric::Wire;

/// Puts the edges of a walk to a sink, from its first node on, which stands last.
pub fn put_walk(
    edges: &mut Vec<(Wire, Wire)>,
    nodes: &Nodes,
    path: &[u32],
    sink: Wire,
) -> Result<(), Memory>
    requires { All (λ node. node < (graph_of nodes.now).nodes) path.now }
    ensures { OnOk result (edges.new.items ≡ edges.old.items ++ edges_along (sink.0 ∷ wires_along (numbering_of nodes.now) path.now)) }
{
    for step in 1..path.len() {
        let place = path.len() - step - 1;
        put_hop(edges, nodes, path[place + 1], path[place])?;
    }
    if path.len() > 0 {
        edges.push((nodes.wire(path[0]), sink))?;
    }
    Ok(())
}

// The two edges from a node to the next: by a pair to an output, and by its join.
fn put_hop(edges: &mut Vec<(Wire, Wire)>, nodes: &Nodes, from: u32, to: u32) -> Result<(), Memory>
    requires from { from < (graph_of nodes.now).nodes }
    requires to { to < (graph_of nodes.now).nodes }
    ensures { OnOk result (edges.new.items ≡ edges.old.items ++ hop_edges (numbering_of nodes.now) from to) }
{
    let output = nodes.output(to);
    edges.push((nodes.wire(from), output))?;
    edges.push((output, nodes.wire(to)))?;
    Ok(())
}
