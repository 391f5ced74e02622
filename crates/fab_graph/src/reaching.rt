//! Which wires are reached from some wires.

ghost use Rattle.std.specs.Prelude.{◌≡◌, ◌↔◌, ◌<◌, ◌≤◌, ◌+◌, ℕ, true, false, [], All, IfOk, OnOk, ◌++◌, ◌∷◌, length, slice_set};
ghost use Rattle.fab_fabric.specs.Fabric.{AreTiles, wire_count};
ghost use Rattle.fab_fabric.specs.declared.wire.Wire.{Wire};
ghost use Rattle.fab_ways_laws.specs.Edges.{ends};
ghost use Rattle.fab_graph.specs.Reach.{IsReached, is_marked};
ghost use Rattle.fab_graph.specs.inner.Search.{IsSearch, waiting_with, left_of};

use crate::graph::Graph;
use fab_base::Memory;
use fab_fabric::{Fabric, Wire};
use std::alloc::Global;

/// Marks the wires of a fabric to which walks of pairs and joins lead from some wires, these among them: a mark for each
/// wire, by its number.
pub fn reach(alloc: Global, fabric: &Fabric, from: &[Wire]) -> Result<Vec<bool>, Memory>
    requires { All (λ wire. wire.0 < wire_count fabric.now) from.now }
    ensures len { IfOk result (λ marks. length marks.items ≡ wire_count fabric.now) }
    ensures marks { IfOk result (λ marks. (wire : Wire) → (is_marked marks.items wire ≡ true) ↔ IsReached fabric.now from.now wire) }
{
    let graph = Graph::new(alloc, fabric)?;
    reach_in(alloc, &graph, from)
}

/// The same in a graph that is there already.
pub fn reach_in(alloc: Global, graph: &Graph, from: &[Wire]) -> Result<Vec<bool>, Memory>
    requires { All (λ wire. wire.0 < wire_count graph.now) from.now }
    ensures len { IfOk result (λ marks. length marks.items ≡ wire_count graph.now) }
    ensures marks { IfOk result (λ marks. (wire : Wire) → (is_marked marks.items wire ≡ true) ↔ IsReached graph.now from.now wire) }
{
    let mut marks = vec![in alloc; false; graph.wires() as usize]?;
    let mut waiting = Vec::new(alloc);
    search(graph, from, &mut marks, &mut waiting)?;
    Ok(marks)
}

fn search(
    graph: &Graph,
    from: &[Wire],
    marks: &mut Vec<bool>,
    waiting: &mut Vec<Wire>,
) -> Result<(), Memory>
    requires from { All (λ wire. wire.0 < wire_count graph.now) from.now }
    requires search { IsSearch graph.now from.now marks.old.items waiting.old.items }
    ensures search { OnOk result (IsSearch graph.now from.now marks.new.items []) }
    ensures begun { OnOk result (All (λ wire. is_marked marks.new.items wire ≡ true) from.now) }
{
    mark_starts(graph, from, marks, waiting)?;
    'turns: while let Some(wire) = waiting.pop() {
        mark_ends(graph, from, marks, waiting, wire)?;
    }
    Ok(())
}

// Marks the wires from which walks begin.
fn mark_starts(
    graph: &Graph,
    from: &[Wire],
    marks: &mut Vec<bool>,
    waiting: &mut Vec<Wire>,
) -> Result<(), Memory>
    requires from { All (λ wire. wire.0 < wire_count graph.now) from.now }
    requires search { IsSearch graph.now from.now marks.old.items waiting.old.items }
    ensures search { OnOk result (IsSearch graph.now from.now marks.new.items waiting.new.items) }
    ensures begun { OnOk result (All (λ wire. is_marked marks.new.items wire ≡ true) from.now) }
{
    for wire in from {
        mark(marks, waiting, *wire)?;
    }
    Ok(())
}

// Marks the wires to which the edges of a wire lead, which then waits no more.
fn mark_ends(
    graph: &Graph,
    from: &[Wire],
    marks: &mut Vec<bool>,
    waiting: &mut Vec<Wire>,
    wire: Wire,
) -> Result<(), Memory>
    requires search { IsSearch graph.now from.now marks.old.items (waiting.old.items ++ wire ∷ []) }
    ensures search { OnOk result (IsSearch graph.now from.now marks.new.items waiting.new.items) }
    ensures kept { OnOk result ((other : Wire) → is_marked marks.old.items other ≡ true → is_marked marks.new.items other ≡ true) }
    ensures left { OnOk result (left_of marks.new.items waiting.new.items ≡ left_of marks.old.items waiting.old.items) }
{
    let ends = graph.ends(wire);
    for index in 0..ends.len() {
        mark(marks, waiting, ends.at(index))?;
    }
    Ok(())
}

// Marks a wire, which then waits if it was not marked.
fn mark(marks: &mut Vec<bool>, waiting: &mut Vec<Wire>, wire: Wire) -> Result<(), Memory>
    requires { wire.0 < length marks.old.items }
    ensures marks { OnOk result (marks.new.items ≡ slice_set marks.old.items wire.0 true) }
    ensures waiting { OnOk result (waiting.new.items ≡ waiting_with marks.old.items waiting.old.items wire) }
    ensures left { OnOk result (left_of marks.new.items waiting.new.items ≡ left_of marks.old.items waiting.old.items) }
{
    if marks[wire.0 as usize] {
        return Ok(());
    }
    waiting.push(wire)?;
    marks[wire.0 as usize] = true;
    Ok(())
}
