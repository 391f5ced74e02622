//! The least wire that two trees of a round have.

ghost use Rattle.std.specs.Prelude.{◌≡◌, ◌⊎◌, ◌+◌, ◌<◌, ◌≤◌, ℕ, Some, IfOk, IfSome, length};
ghost use Rattle.std.specs.List.{All};
ghost use Rattle.fab_pathfinder.specs.Plain.{trees_of};
ghost use Rattle.fab_route.specs.Over.{IsOver};
ghost use Rattle.fab_route.specs.inner.Owners.{AreOwners, IsNoted, noted, IsWireOf, IsLeastShared};
ghost use Rattle.fab_route.specs.Plain.{graph_of};
ghost use Rattle.fab_route.specs.inner.Told.{AreLow};

use crate::nodes::Nodes;
use fab_base::Memory;
use fab_fabric::{Fabric, Wire};
use fab_pathfinder::Tree;
use std::alloc::Global;

/// The first two trees that have a node, by their places.
#[derive(Clone, Copy)]
pub struct Owners {
    pub first: Option<usize>,
    pub second: Option<usize>,
}

/// A wire that two trees have, and the first two that do.
#[derive(Clone, Copy)]
pub struct Shared {
    pub wire: Wire,
    pub first: usize,
    pub second: usize,
}

/// The first two trees that have each of so many nodes.
pub(crate) fn owners_of(alloc: Global, nodes: u32, trees: &[Tree]) -> Result<Vec<Owners>, Memory>
    requires { AreLow nodes trees.now }
    ensures long { IfOk result (λ owners. length owners.items ≡ nodes) }
    ensures owners { IfOk result (λ owners. AreOwners (trees_of trees.now) (length trees.now) owners.items) }
{
    let none = Owners {
        first: None,
        second: None,
    };
    let mut owners = vec![in alloc; none; nodes as usize]?;
    for place in 0..trees.len() {
        note_tree(&mut owners, place, &trees[place].nodes);
    }
    Ok(owners)
}

// Notes the tree at a place, behind those before it.
fn note_tree(owners: &mut Vec<Owners>, place: usize, nodes: &[u32])
    requires { All (λ node. node < length owners.old.items) nodes.now }
    ensures long { length owners.new.items ≡ length owners.old.items }
    ensures noted { IsNoted owners.old.items owners.new.items place nodes.now }
{
    for node in nodes {
        let here = owners[*node as usize];
        owners[*node as usize] = noted(here, place);
    }
}

// Notes a tree for a node, behind those before it or once more.
fn noted(owners: Owners, place: usize) -> Owners
    ensures { result ≡ noted place owners }
{
    let Some(first) = owners.first else {
        return Owners {
            first: Some(place),
            second: None,
        };
    };
    if owners.second.is_some() || first == place {
        return owners;
    }
    Owners {
        first: Some(first),
        second: Some(place),
    }
}

/// The least wire that two trees have, where these are the first two trees of each node.
pub(crate) fn least_shared(fabric: &Fabric, nodes: &Nodes, owners: &Vec<Owners>) -> Option<Shared>
    requires nodes { IsOver fabric.now nodes.now }
    requires long { length owners.now.items ≡ (graph_of nodes.now).nodes }
    ensures { IsLeastShared fabric.now nodes.now owners.now.items (graph_of nodes.now).nodes result }
{
    let mut least = None;
    for node in 0..nodes.count() {
        least = with_node(fabric, nodes, owners, node, least);
    }
    least
}

// The same with one node more.
fn with_node(
    fabric: &Fabric,
    nodes: &Nodes,
    owners: &Vec<Owners>,
    node: u32,
    least: Option<Shared>,
) -> Option<Shared>
    requires nodes { IsOver fabric.now nodes.now }
    requires long { length owners.now.items ≡ (graph_of nodes.now).nodes }
    requires node { node < (graph_of nodes.now).nodes }
    requires least { IsLeastShared fabric.now nodes.now owners.now.items node least }
    ensures { IsLeastShared fabric.now nodes.now owners.now.items (node + 1) result }
{
    let here = owners[node as usize];
    let Some(first) = here.first else {
        return least;
    };
    let Some(second) = here.second else {
        return least;
    };
    let wire = least_wire(fabric, nodes, node);
    Some(lesser(
        least,
        Shared {
            wire,
            first,
            second,
        },
    ))
}

// The lesser of the wire of a node and the output that is joined to it.
fn least_wire(fabric: &Fabric, nodes: &Nodes, node: u32) -> Wire
    requires nodes { IsOver fabric.now nodes.now }
    requires node { node < (graph_of nodes.now).nodes }
    ensures is { IsWireOf fabric.now nodes.now node result.0 }
    ensures least { (wire : ℕ) → IsWireOf fabric.now nodes.now node wire → result.0 ≤ wire }
{
    fabric.is_well_made();
    let wire = nodes.wire(node);
    match fabric.join_from(wire) {
        Some(output) => lesser_wire(wire, output),
        None => wire,
    }
}

// The lesser of two wires.
fn lesser_wire(wire: Wire, other: Wire) -> Wire
    ensures one { (result ≡ wire) ⊎ (result ≡ other) }
    ensures below { result.0 ≤ wire.0 }
    ensures low { result.0 ≤ other.0 }
{
    if other.0 < wire.0 { other } else { wire }
}

// The one with the lesser wire.
fn lesser(least: Option<Shared>, found: Shared) -> Shared
    ensures one { (result ≡ found) ⊎ (least ≡ Some result) }
    ensures low { result.wire.0 ≤ found.wire.0 }
    ensures below { IfSome least (λ least. result.wire.0 ≤ least.wire.0) }
{
    match least {
        Some(least) if least.wire.0 < found.wire.0 => least,
        _ => found,
    }
}
