//! Which wires of a net are reached along its edges.

ghost use Rattle.std.specs.Prelude.{◌≡◌, ◌<◌, ◌≤◌, ℕ, [], IfOk, IfErr, OnOk, All, MatchOption, Contains, length, map, nat_eq};
ghost use Rattle.std.specs.List.{position_or_len};
ghost use Rattle.indexmap.specs.IndexSet.{insert_all};
ghost use Rattle.fab_implementation.specs.OnFabric.{HasWires};
ghost use Rattle.fab_legal.specs.Turns.{AreRight, IsFirstWrongAt};
ghost use Rattle.fab_legal.specs.Nets.{IsRightEntry};
ghost use Rattle.fab_legal.specs.inner.Tables.{left_number, entered_number, targets, IsRootSet, IsReachedSet};
ghost use Rattle.fab_bits.specs.Keys.{group_at};
ghost use Rattle.fab_legal.specs.Legal.{HasRightEntries};
ghost use Rattle.fab_legal.specs.Broken.{IsEdgeItem};
ghost use Rattle.fab_legal.specs.inner.Answers.{Breaks};

use crate::broken::{CheckFault, broken_by};
use crate::texts::wire_text;
use fab_base::Memory;
use fab_implementation::Tree;
use fab_implementation::fab_fabric::{Fabric, Wire};
use indexmap::IndexSet;
use std::alloc::Global;
use std::mem;

// The wires that edges enter.
pub fn entered(alloc: Global, edges: &[(Wire, Wire)]) -> Result<IndexSet<u32>, Memory>
    ensures { IfOk result (λ set. set.keys ≡ insert_all nat_eq [] (map entered_number edges.now)) }
{
    let mut set = IndexSet::new(alloc);
    for edge in edges {
        set.insert(edge.1.0)?;
    }
    Ok(set)
}

// The wires from which edges lead.
fn left(alloc: Global, edges: &[(Wire, Wire)]) -> Result<IndexSet<u32>, Memory>
    ensures { IfOk result (λ set. set.keys ≡ insert_all nat_eq [] (map left_number edges.now)) }
{
    let mut set = IndexSet::new(alloc);
    for edge in edges {
        set.insert(edge.0.0)?;
    }
    Ok(set)
}

// Adds the wires from which edges lead and that none enters.
fn put_roots(
    set: &mut IndexSet<u32>,
    lefts: &IndexSet<u32>,
    entered: &IndexSet<u32>,
) -> Result<(), Memory>
    requires { set.old.keys ≡ [] }
    ensures { OnOk result (IsRootSet lefts.now.keys entered.now.keys set.new.keys) }
{
    for wire in lefts.as_slice() {
        if entered.contains(wire) {
            continue;
        }
        set.insert(*wire)?;
    }
    Ok(())
}

// So many empty groups.
fn no_groups(alloc: Global, count: usize) -> Result<Vec<Vec<u32>>, Memory>
    ensures len { IfOk result (λ groups. length groups.items ≡ count) }
    ensures groups { IfOk result (λ groups. (place : ℕ) → group_at groups.items place ≡ []) }
{
    let mut groups = Vec::new(alloc);
    for _place in 0..count {
        groups.push(Vec::new(alloc))?;
    }
    Ok(groups)
}

// For each wire from which edges lead those that they enter.
fn groups(
    alloc: Global,
    lefts: &IndexSet<u32>,
    edges: &[(Wire, Wire)],
) -> Result<Vec<Vec<u32>>, Memory>
    requires { lefts.now.keys ≡ insert_all nat_eq [] (map left_number edges.now) }
    ensures len { IfOk result (λ groups. length groups.items ≡ length lefts.now.keys) }
    ensures groups { IfOk result (λ groups. (place : ℕ) → group_at groups.items place ≡ targets lefts.now.keys edges.now place) }
{
    let mut groups = no_groups(alloc, lefts.len())?;
    for edge in edges {
        match lefts.get_index_of(&edge.0.0) {
            Some(place) => groups[place].push(edge.1.0)?,
            None => unreachable!(),
        }
    }
    Ok(groups)
}

/// Adds wires to a set.
pub fn put_all(set: &mut IndexSet<u32>, wires: &[u32]) -> Result<(), Memory>
    ensures { OnOk result (set.new.keys ≡ insert_all nat_eq set.old.keys wires.now) }
{
    for wire in wires {
        set.insert(*wire)?;
    }
    Ok(())
}

// Adds the wires to which edges lead from a wire.
fn follow(
    set: &mut IndexSet<u32>,
    lefts: &IndexSet<u32>,
    groups: &[Vec<u32>],
    wire: u32,
) -> Result<(), Memory>
    requires { length groups.now ≡ length lefts.now.keys }
    ensures { OnOk result (set.new.keys ≡ insert_all nat_eq set.old.keys (group_at groups.now (position_or_len (nat_eq wire) lefts.now.keys))) }
{
    match lefts.get_index_of(&wire) {
        Some(place) => put_all(set, &groups[place]),
        None => Ok(()),
    }
}

// Adds the wires of a net that are reached along its edges.
fn put_reached(
    set: &mut IndexSet<u32>,
    _edges: &[(Wire, Wire)],
    entered: &IndexSet<u32>,
    lefts: &IndexSet<u32>,
    groups: &[Vec<u32>],
) -> Result<(), Memory>
    requires set { set.old.keys ≡ [] }
    requires entered { entered.now.keys ≡ insert_all nat_eq [] (map entered_number _edges.now) }
    requires lefts { lefts.now.keys ≡ insert_all nat_eq [] (map left_number _edges.now) }
    requires len { length groups.now ≡ length lefts.now.keys }
    requires groups { (place : ℕ) → group_at groups.now place ≡ targets lefts.now.keys _edges.now place }
    ensures { OnOk result (IsReachedSet _edges.now set.new.keys) }
{
    put_roots(set, lefts, entered)?;
    let mut next = 0;
    while next < set.len() {
        let wire = set.as_slice()[next];
        follow(set, lefts, groups, wire)?;
        next += 1;
    }
    Ok(())
}

// The wires of a net that are reached, where these are those that its edges leave and enter.
fn reached_among(
    alloc: Global,
    edges: &[(Wire, Wire)],
    entered: &IndexSet<u32>,
    lefts: &IndexSet<u32>,
) -> Result<IndexSet<u32>, Memory>
    requires entered { entered.now.keys ≡ insert_all nat_eq [] (map entered_number edges.now) }
    requires lefts { lefts.now.keys ≡ insert_all nat_eq [] (map left_number edges.now) }
    ensures { IfOk result (λ set. IsReachedSet edges.now set.keys) }
{
    let groups = groups(alloc, lefts, edges)?;
    let mut set = IndexSet::new(alloc);
    match put_reached(&mut set, edges, entered, lefts, &groups) {
        Ok(()) => Ok(set),
        Err(Memory) => {
            mem::drop(set);
            Err(Memory)
        }
    }
}

// The wires of a net that are reached, where these are those that its edges enter.
fn reached_past(
    alloc: Global,
    edges: &[(Wire, Wire)],
    entered: &IndexSet<u32>,
) -> Result<IndexSet<u32>, Memory>
    requires { entered.now.keys ≡ insert_all nat_eq [] (map entered_number edges.now) }
    ensures { IfOk result (λ set. IsReachedSet edges.now set.keys) }
{
    let lefts = left(alloc, edges)?;
    let found = reached_among(alloc, edges, entered, &lefts);
    mem::drop(lefts);
    found
}

// The wires of a net that are reached along its edges.
fn reached(alloc: Global, edges: &[(Wire, Wire)]) -> Result<IndexSet<u32>, Memory>
    ensures { IfOk result (λ set. IsReachedSet edges.now set.keys) }
{
    let entered = entered(alloc, edges)?;
    let found = reached_past(alloc, edges, &entered);
    mem::drop(entered);
    found
}

// The place of the first edge that enters a wire which an edge before it enters, or which is not among those that are reached.
fn first_wrong(
    seen: &mut IndexSet<u32>,
    edges: &[(Wire, Wire)],
    reached: &IndexSet<u32>,
) -> Result<Option<usize>, Memory>
    requires seen { seen.old.keys ≡ [] }
    requires reached { IsReachedSet edges.now reached.now.keys }
    ensures { IfOk result (λ found. MatchOption found (AreRight (IsRightEntry edges.now) edges.now) (IsFirstWrongAt (IsRightEntry edges.now) edges.now)) }
{
    for (place, edge) in edges.iter().enumerate() {
        let again = seen.contains(&edge.1.0);
        if again {
            return Ok(Some(place));
        }
        let is_reached = reached.contains(&edge.1.0);
        if !is_reached {
            return Ok(Some(place));
        }
        seen.insert(edge.1.0)?;
    }
    Ok(None)
}

// The place of the first edge that enters a wire which an edge before it enters, or which is not reached.
fn wrong_entry(alloc: Global, edges: &[(Wire, Wire)]) -> Result<Option<usize>, Memory>
    ensures { IfOk result (λ found. MatchOption found (AreRight (IsRightEntry edges.now) edges.now) (IsFirstWrongAt (IsRightEntry edges.now) edges.now)) }
{
    let reached = reached(alloc, edges)?;
    let mut seen = IndexSet::new(alloc);
    let found = first_wrong(&mut seen, edges, &reached);
    mem::drop((seen, reached));
    found
}

/// Each wire that an edge of a net enters is entered once and reached.
pub fn check_entries(alloc: Global, fabric: &Fabric, trees: &[Tree]) -> Result<(), CheckFault>
    requires { All (λ tree. All (HasWires fabric.now) tree.edges) trees.now }
    ensures ok { OnOk result (AreRight HasRightEntries trees.now) }
    ensures err { IfErr result (Breaks 6 (IsEdgeItem fabric.now HasRightEntries (λ tree. IsRightEntry tree.edges) trees.now)) }
{
    for tree in trees {
        if let Some(place) = wrong_entry(alloc, &tree.edges)? {
            return Err(broken_by(6, wire_text(alloc, fabric, tree.edges[place].1)?));
        }
    }
    Ok(())
}
