//! Which wire of a fabric may drive which.

ghost use Rattle.std.specs.Prelude.{◌≡◌, ◌<◌, ◌↔◌, IsTrue, IfOk, IfErr, OnOk, All, MatchOption};
ghost use Rattle.fab_implementation.specs.fab_fabric.specs.Fabric.{wires_at, wire_count};
ghost use Rattle.fab_implementation.specs.OnFabric.{HasWires};
ghost use Rattle.fab_legal.specs.Turns.{AreRight, IsFirstWrongAt};
ghost use Rattle.fab_legal.specs.Steps.{IsPaired, IsJoined, IsStep};
ghost use Rattle.fab_legal.specs.Nets.{IsRightStep};
ghost use Rattle.fab_legal.specs.inner.Tables.{pairs_of, HavePairs, HasPair};
ghost use Rattle.fab_legal.specs.Legal.{HasRightSteps};
ghost use Rattle.fab_legal.specs.Broken.{IsEdgeItem};
ghost use Rattle.fab_legal.specs.inner.Answers.{Breaks};

use crate::broken::{CheckFault, broken_by};
use crate::texts::wire_text;
use fab_base::Memory;
use fab_implementation::Tree;
use fab_implementation::fab_fabric::{Fabric, Wire};
use fab_implementation::fab_model::Pair;
use indexmap::IndexSet;
use std::alloc::Global;

/// The pairs of the switch matrices of a fabric, a set for each tile type. The output of a pair comes first.
#[derive(Debug, Drop)]
pub struct PairSets {
    pub sets: Vec<IndexSet<(u32, u32)>>,
}

fn pair_set(alloc: Global, pairs: &[Pair]) -> Result<IndexSet<(u32, u32)>, Memory>
    ensures { IfOk result (λ set. set.keys ≡ pairs_of pairs.now) }
{
    let mut set = IndexSet::new(alloc);
    for pair in pairs {
        set.insert((pair.output, pair.input))?;
    }
    Ok(set)
}

// The pairs of the types of a fabric.
fn pair_sets(alloc: Global, fabric: &Fabric) -> Result<PairSets, Memory>
    ensures { IfOk result (λ found. HavePairs fabric.now.types found.sets.items) }
{
    let mut sets = Vec::new(alloc);
    for tile in fabric.types() {
        sets.push(pair_set(alloc, tile.pairs())?)?;
    }
    Ok(PairSets { sets })
}

// Whether a pair of the tile at a place has these numbers.
fn has_pair(sets: &PairSets, fabric: &Fabric, x: u32, y: u32, output: u32, input: u32) -> bool
    requires sets { HavePairs fabric.now.types sets.now.sets.items }
    requires input { input < wires_at fabric.now x y }
    ensures { IsTrue result ↔ HasPair fabric.now x y output input }
{
    fabric.is_well_made();
    match fabric.type_at(x, y) {
        Some(number) => {
            let set = &sets.sets[number as usize];
            set.contains(&(output, input))
        }
        None => false,
    }
}

// Whether a pair of a switch matrix leads from a wire to another.
fn is_paired(sets: &PairSets, fabric: &Fabric, from: Wire, to: Wire) -> bool
    requires sets { HavePairs fabric.now.types sets.now.sets.items }
    requires from { from.0 < wire_count fabric.now }
    requires to { to.0 < wire_count fabric.now }
    ensures { IsTrue result ↔ IsPaired fabric.now from to }
{
    fabric.is_well_made();
    let (x, y, input) = fabric.spot(from);
    let (to_x, to_y, output) = fabric.spot(to);
    if x != to_x {
        return false;
    }
    if y != to_y {
        return false;
    }
    has_pair(sets, fabric, x, y, output, input)
}

// Whether a join leads from a wire to another.
fn is_joined(fabric: &Fabric, from: Wire, to: Wire) -> bool
    requires { from.0 < wire_count fabric.now }
    ensures { IsTrue result ↔ IsJoined fabric.now from to }
{
    match fabric.join_to(from) {
        Some(wire) => wire.0 == to.0,
        None => false,
    }
}

// Whether a pair or a join leads from a wire to another.
fn is_step(sets: &PairSets, fabric: &Fabric, from: Wire, to: Wire) -> bool
    requires sets { HavePairs fabric.now.types sets.now.sets.items }
    requires from { from.0 < wire_count fabric.now }
    requires to { to.0 < wire_count fabric.now }
    ensures { IsTrue result ↔ IsStep fabric.now from to }
{
    is_paired(sets, fabric, from, to) || is_joined(fabric, from, to)
}

// The place of the first edge that is no pair and no join.
fn wrong_step(sets: &PairSets, fabric: &Fabric, edges: &[(Wire, Wire)]) -> Option<usize>
    requires sets { HavePairs fabric.now.types sets.now.sets.items }
    requires wires { All (HasWires fabric.now) edges.now }
    ensures { MatchOption result (AreRight (IsRightStep fabric.now) edges.now) (IsFirstWrongAt (IsRightStep fabric.now) edges.now) }
{
    for (place, edge) in edges.iter().enumerate() {
        if !is_step(sets, fabric, edge.0, edge.1) {
            return Some(place);
        }
    }
    None
}

/// Each edge of the nets is a pair or a join.
pub fn check_steps(alloc: Global, fabric: &Fabric, trees: &[Tree]) -> Result<(), CheckFault>
    requires { All (λ tree. All (HasWires fabric.now) tree.edges) trees.now }
    ensures ok { OnOk result (AreRight (HasRightSteps fabric.now) trees.now) }
    ensures err { IfErr result (Breaks 5 (IsEdgeItem fabric.now (HasRightSteps fabric.now) (λ tree. IsRightStep fabric.now) trees.now)) }
{
    let sets = pair_sets(alloc, fabric)?;
    for tree in trees {
        if let Some(place) = wrong_step(&sets, fabric, &tree.edges) {
            return Err(broken_by(5, wire_text(alloc, fabric, tree.edges[place].1)?));
        }
    }
    Ok(())
}
