//! The edges of a wire by a scan of the pairs of its tile, which takes no memory.

ghost use Rattle.std.specs.Prelude.{◌≡◌, ◌<◌, ◌≤◌, ℕ, Some, length, slice_get, nat_eq, take, None};
ghost use Rattle.std.specs.List.{list_any};
ghost use Rattle.std.specs.Result.{MatchResult};
ghost use Rattle.fab_model.specs.Tiles.{PlainTile};
ghost use Rattle.fab_model.specs.Grid.{tile_at};
ghost use Rattle.fab_fabric.specs.Fabric.{wires_at, wire_count};
ghost use Rattle.fab_ways_laws.specs.Edges.{outputs_of, turned_pairs, ends, origins};
ghost use Rattle.fab_graph.specs.inner.Scans.{turned_pair, is_new};

use fab_fabric::{Fabric, Wire};
use fab_model::Pair;

/// The wire to which the edge of this index leads from a wire, pairs first, and none past the last.
pub fn successors(fabric: &Fabric, wire: Wire, index: u32) -> Option<Wire>
    requires { wire.0 < wire_count fabric.now }
    ensures { result ≡ slice_get (ends fabric.now wire.0) index }
{
    fabric.is_well_made();
    let (x, y, number) = fabric.spot(wire);
    let join = fabric.join_to(wire);
    match nth_end(pairs_at(fabric, x, y, number), false, number, index) {
        Ok(output) => Some(fabric.wire_at(x, y, output)),
        Err(count) => only_at(count, index, join),
    }
}

/// The wire from which the edge of this index leads to a wire, pairs first, and none past the last.
pub fn predecessors(fabric: &Fabric, wire: Wire, index: u32) -> Option<Wire>
    requires { wire.0 < wire_count fabric.now }
    ensures { result ≡ slice_get (origins fabric.now wire.0) index }
{
    fabric.is_well_made();
    let (x, y, number) = fabric.spot(wire);
    let join = fabric.join_from(wire);
    match nth_end(pairs_at(fabric, x, y, number), true, number, index) {
        Ok(input) => Some(fabric.wire_at(x, y, input)),
        Err(count) => only_at(count, index, join),
    }
}

// The join, where so many ends stand before it.
fn only_at(count: u32, index: u32, join: Option<Wire>) -> Option<Wire>
    ensures same { count ≡ index → result ≡ join }
    ensures other { (count ≡ index → ⊥) → result ≡ None }
{
    if count == index { join } else { None }
}

// The pairs of the tile at a place.
fn pairs_at(fabric: &Fabric, x: u32, y: u32, number: u32) -> &[Pair]
    requires { number < wires_at fabric.now x y }
    ensures { (tile : PlainTile) → tile_at fabric.now x y ≡ Some tile → result.now ≡ tile.pairs }
{
    let types = fabric.types();
    match fabric.type_at(x, y) {
        Some(place) => types[place as usize].pairs(),
        None => &[],
    }
}

// The end of this index of the pairs of a wire, or how many they are.
fn nth_end(pairs: &[Pair], turned: bool, number: u32, index: u32) -> Result<u32, u32>
    ensures { MatchResult result (λ end. slice_get (outputs_of (turned_pairs turned pairs.now) number) index ≡ Some end)
        (λ count. (count ≡ length (outputs_of (turned_pairs turned pairs.now) number)) × (count ≤ index)) }
{
    let mut count = 0;
    for place in 0..pairs.len() {
        if !is_new(pairs, place, turned, number) {
            continue;
        }
        if count == index {
            return Ok(far_end(&pairs[place], turned));
        }
        count += 1;
    }
    Err(count)
}

// Whether a pair is one of the wire, and none before it has its end.
fn is_new(pairs: &[Pair], place: usize, turned: bool, number: u32) -> bool
    requires { place < length pairs.now }
    ensures { result ≡ is_new turned pairs.now place number }
{
    let end = far_end(&pairs[place], turned);
    near_end(&pairs[place], turned) == number && !is_among(pairs, place, turned, number, end)
}

// Whether one of the first pairs of a wire has this end.
fn is_among(pairs: &[Pair], first: usize, turned: bool, number: u32, end: u32) -> bool
    requires { first ≤ length pairs.now }
    ensures { result ≡ list_any (nat_eq end) (outputs_of (turned_pairs turned (take first pairs.now)) number) }
{
    for place in 0..first {
        if near_end(&pairs[place], turned) == number && far_end(&pairs[place], turned) == end {
            return true;
        }
    }
    false
}

fn far_end(pair: &Pair, turned: bool) -> u32
    ensures { result ≡ (turned_pair turned pair.now).output }
{
    if turned { pair.input } else { pair.output }
}

fn near_end(pair: &Pair, turned: bool) -> u32
    ensures { result ≡ (turned_pair turned pair.now).input }
{
    if turned { pair.output } else { pair.input }
}
