//! Where nodes stand, and their classes.

ghost use Rattle.std.specs.Prelude.{◌≡◌, ◌<◌, ◌≤◌, ℕ, IfOk, All, length};
ghost use Rattle.fab_route.specs.inner.Guided.{IsWithin};
ghost use Rattle.fab_route.specs.Over.{IsOver};
ghost use Rattle.fab_route.specs.Plain.{graph_of};

use crate::driven::driven;
use crate::nodes::Nodes;
use fab_base::Memory;
use fab_fabric::Fabric;
use std::alloc::Global;

/// Where a node stands, and its class: the same input of tiles of one type.
#[derive(Clone, Copy)]
pub struct Place {
    pub class: u32,
    pub column: u32,
    pub row: u32,
}

/// The places of all nodes.
pub(crate) fn places_of(alloc: Global, fabric: &Fabric, nodes: &Nodes) -> Result<Vec<Place>, Memory>
    requires { IsOver fabric.now nodes.now }
    ensures long { IfOk result (λ places. length places.items ≡ (graph_of nodes.now).nodes) }
    ensures columns { IfOk result (λ places. All (λ (place : Place). place.column < fabric.now.columns) places.items) }
    ensures rows { IfOk result (λ places. All (λ (place : Place). place.row < fabric.now.rows) places.items) }
{
    let bases = class_bases(alloc, fabric)?;
    let mut places = Vec::with_capacity(alloc, nodes.count() as usize)?;
    for node in 0..nodes.count() {
        places.push(place_of(fabric, nodes, &bases, node))?;
    }
    Ok(places)
}

// The place of a node. Its class counts the inputs before it in its tile, and those of tile types before its own.
fn place_of(fabric: &Fabric, nodes: &Nodes, bases: &[u32], node: u32) -> Place
    requires nodes { IsOver fabric.now nodes.now }
    requires node { node < (graph_of nodes.now).nodes }
    ensures column { result.column < fabric.now.columns }
    ensures row { result.row < fabric.now.rows }
{
    let (column, row, _) = fabric.spot(nodes.wire(node));
    let first = nodes.node(fabric.wire_at(column, row, 0));
    let base = base_at(bases, fabric.type_at(column, row));
    Place {
        class: base.saturating_add(node.saturating_sub(first)),
        column,
        row,
    }
}

fn base_at(bases: &[u32], place: Option<u32>) -> u32 {
    match place {
        Some(place) => bases.get(place as usize).copied().unwrap_or(0),
        None => 0,
    }
}

// For each tile type how many inputs those before it have.
fn class_bases(alloc: Global, fabric: &Fabric) -> Result<Vec<u32>, Memory> {
    let mut bases = Vec::new(alloc);
    let mut total = 0;
    for marks in &driven(alloc, fabric)? {
        bases.push(total)?;
        total = inputs_after(total, marks);
    }
    Ok(bases)
}

fn inputs_after(total: u32, marks: &[bool]) -> u32 {
    let mut total = total;
    for driven in marks {
        if !driven {
            total = total.saturating_add(1);
        }
    }
    total
}

/// One more than the greatest class.
pub(crate) fn class_count(places: &[Place]) -> usize
    ensures classes { All (λ (place : Place). place.class < result) places.now }
    ensures few { result ≤ 4294967296 }
{
    let mut count = 0;
    for place in places {
        count = past(count, place.class);
    }
    count
}

// The greater of a count and one more than a class.
fn past(count: usize, class: u32) -> usize
    requires { count ≤ 4294967296 }
    ensures kept { count ≤ result }
    ensures above { class < result }
    ensures few { result ≤ 4294967296 }
{
    if (class as usize) < count {
        count
    } else {
        class as usize + 1
    }
}
