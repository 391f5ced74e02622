//! A lower bound on how many edges a walk takes, by the distance of tiles.

ghost use Rattle.std.specs.Prelude.{◌≡◌, ◌⊎◌, ◌<◌, ◌≤◌};
ghost use Rattle.fab_fabric.specs.Fabric.{wire_count};
ghost use Rattle.fab_fabric.specs.declared.wire.Wire.{Wire};
ghost use Rattle.fab_legal.specs.Steps.{IsJoined};
ghost use Rattle.fab_ways_laws.specs.Edges.{place_of};
ghost use Rattle.fab_ways_laws.specs.Bounds.{wire_distance, JoinGoes, IsSpan, least_edges};

use fab_fabric::{Fabric, Wire};
use std::marker::Model;

/// How far the joins of a fabric go at most. Contracts see that number of tiles.
#[derive(Debug, Drop)]
pub struct Bound {
    span: u32,
}

impl Model for Bound {
    ghost use Rattle.std.specs.Prelude.{ℕ, ◌<◌};

    ghost Value = { ℕ };

    ghost view = { λ bound. bound.span };

    ghost invariant = { λ bound. bound.span < 64 };
}

impl Bound {
    /// The bound of a fabric, by one pass over its joins.
    pub fn new(fabric: &Fabric) -> Bound
        ensures { IsSpan fabric.now result }
    {
        let mut most = 0;
        for number in 0..fabric.wires() {
            most = greater(most, join_distance(fabric, Wire(number)));
        }
        Bound {
            span: at_least_one(most),
        }
    }

    /// The greatest Manhattan distance of the tiles of two joined wires, or 1 where that is 0.
    pub fn span(&self) -> u32
        ensures { result ≡ self.now }
    {
        self.span
    }

    /// The Manhattan distance of the tiles of two wires by spans, rounded up: no walk between them takes fewer edges. The
    /// fabric is that of `new`.
    pub fn least(&self, fabric: &Fabric, from: Wire, to: Wire) -> u32
        requires span { IsSpan fabric.now self.now }
        requires from { from.0 < wire_count fabric.now }
        requires to { to.0 < wire_count fabric.now }
        ensures { result ≡ least_edges self.now fabric.now from.0 to.0 }
    {
        (distance(fabric, from, to) + (self.span - 1)) / self.span
    }
}

fn greater(first: u32, second: u32) -> u32
    ensures first { first ≤ result }
    ensures second { second ≤ result }
    ensures either { (result ≡ first) ⊎ (result ≡ second) }
{
    if first < second { second } else { first }
}

fn at_least_one(number: u32) -> u32
    requires { number < 64 }
    ensures one { number ≡ 0 → result ≡ 1 }
    ensures same { 1 ≤ number → result ≡ number }
{
    if number == 0 { 1 } else { number }
}

// How far the join of a wire goes; 0 where it is not joined to another.
fn join_distance(fabric: &Fabric, wire: Wire) -> u32
    requires { wire.0 < wire_count fabric.now }
    ensures most { (to : Wire) → IsJoined fabric.now wire to → wire_distance fabric.now wire.0 to.0 ≡ result }
    ensures goes { JoinGoes fabric.now result ⊎ (result ≡ 0) }
    ensures small { result < 64 }
{
    match fabric.join_to(wire) {
        Some(to) => distance(fabric, wire, to),
        None => 0,
    }
}

/// The Manhattan distance of the tiles of two wires.
pub fn distance(fabric: &Fabric, from: Wire, to: Wire) -> u32
    requires from { from.0 < wire_count fabric.now }
    requires to { to.0 < wire_count fabric.now }
    ensures distance { result ≡ wire_distance fabric.now from.0 to.0 }
    ensures small { result < 64 }
{
    let (x, y) = place(fabric, from);
    let (to_x, to_y) = place(fabric, to);
    x.abs_diff(to_x) + y.abs_diff(to_y)
}

// The column and the row of a wire.
fn place(fabric: &Fabric, wire: Wire) -> (u32, u32)
    requires { wire.0 < wire_count fabric.now }
    ensures x { (place_of fabric.now wire.0).0 ≡ result.0 }
    ensures y { (place_of fabric.now wire.0).1 ≡ result.1 }
    ensures few { result.0 < 32 }
    ensures low { result.1 < 31 }
{
    fabric.is_well_made();
    let (x, y, _) = fabric.spot(wire);
    (x, y)
}
