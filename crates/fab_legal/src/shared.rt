//! The wires of the nets, and whether one stands in two of them.

ghost use Rattle.std.specs.Prelude.{◌≡◌, ℕ, [], All, IfErr, IfOk, OnOk, map, fold, nat_eq};
ghost use Rattle.std.specs.List.{flat_map};
ghost use Rattle.indexmap.specs.IndexSet.{insert_all};
ghost use Rattle.fab_implementation.specs.OnFabric.{HasWires};
ghost use Rattle.fab_legal.specs.inner.Answers.{Breaks};
ghost use Rattle.fab_legal.specs.Broken.{IsSharedItem};
ghost use Rattle.fab_legal.specs.Legal.{NetsAreApart, NetsBeginRight};
ghost use Rattle.fab_legal.specs.inner.Tables.{edge_numbers, key_lists, HaveWires, IsLeast, IsShared, lesser, keep_least};

use crate::broken::{CheckFault, broken_by};
use crate::reach::put_all;
use crate::texts::wire_text;
use fab_base::Memory;
use fab_implementation::fab_fabric::{Fabric, Wire};
use fab_implementation::fab_netlist::Packed;
use fab_implementation::{Implementation, Tree};
use indexmap::IndexSet;
use std::alloc::Global;
use std::mem;

// The wires of edges.
fn edge_wires(alloc: Global, edges: &[(Wire, Wire)]) -> Result<IndexSet<u32>, Memory>
    ensures { IfOk result (λ set. set.keys ≡ insert_all nat_eq [] (flat_map edge_numbers edges.now)) }
{
    let mut set = IndexSet::new(alloc);
    for edge in edges {
        set.insert(edge.0.0)?;
        set.insert(edge.1.0)?;
    }
    Ok(set)
}

/// The wires of each net.
pub fn wire_sets(alloc: Global, trees: &[Tree]) -> Result<Vec<IndexSet<u32>>, Memory>
    ensures { IfOk result (λ sets. HaveWires trees.now (key_lists sets.items)) }
{
    let mut sets = Vec::new(alloc);
    for tree in trees {
        sets.push(edge_wires(alloc, &tree.edges)?)?;
    }
    Ok(sets)
}

// The lesser of a number and another one, if there is one.
fn lesser(number: Option<u32>, other: u32) -> Option<u32>
    ensures { result ≡ lesser number other }
{
    match number {
        Some(number) => Some(number.min(other)),
        None => Some(other),
    }
}

// The least of the wires that are owned, and of another one.
fn least_owned(owned: &IndexSet<u32>, wires: &[u32], other: Option<u32>) -> Option<u32>
    ensures { result ≡ fold (keep_least owned.now.keys) other wires.now }
{
    let mut least = other;
    for wire in wires {
        if owned.contains(wire) {
            least = lesser(least, *wire);
        }
    }
    least
}

// The least wire that stands in two nets, if there is one.
fn shared(alloc: Global, sets: &[IndexSet<u32>]) -> Result<Option<u32>, Memory>
    ensures { IfOk result (λ least. IsLeast (IsShared (key_lists sets.now)) least) }
{
    let mut owned = IndexSet::new(alloc);
    let mut least = None;
    for set in sets {
        let wires = set.as_slice();
        least = least_owned(&owned, wires, least);
        put_all(&mut owned, wires)?;
    }
    Ok(least)
}

/// No wire stands in two nets, where these are the wires of each.
pub fn check_apart(
    alloc: Global,
    fabric: &Fabric,
    _packed: &Packed,
    _implementation: &Implementation,
    sets: Vec<IndexSet<u32>>,
) -> Result<(), CheckFault>
    requires wires { All (λ tree. All (HasWires fabric.now) tree.edges) _implementation.now.trees }
    requires nets { NetsBeginRight fabric.now _packed.now _implementation.now }
    requires sets { HaveWires _implementation.now.trees (key_lists sets.items) }
    ensures ok { OnOk result (NetsAreApart _implementation.now) }
    ensures err { IfErr result (Breaks 9 (IsSharedItem fabric.now _implementation.now)) }
{
    let least = shared(alloc, &sets);
    mem::drop(sets);
    match least? {
        None => Ok(()),
        Some(wire) => Err(broken_by(9, wire_text(alloc, fabric, Wire(wire))?)),
    }
}
