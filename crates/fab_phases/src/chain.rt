//! Flip-flops that stand in a chain behind an input: how that is seen, and what they hold behind many ticks.

ghost use Rattle.std.specs.Prelude.{◌≡◌, ◌≢◌, ◌<◌, ◌≤◌, length, slice_get, IsTrue, Some};
ghost use Rattle.std.specs.Option.{ForSome};
ghost use Rattle.fab_ternary.specs.Terns.{plain_tern};
ghost use Rattle.fab_network.specs.declared.network.Drive.TheVariants.{Given};
ghost use Rattle.fab_network.specs.Network.{AreFit};
ghost use Rattle.fab_network.specs.Passes.{kept_tern};
ghost use Rattle.fab_phases.specs.Lists.{Each};
ghost use Rattle.fab_phases.specs.Loading.{before_at, IsChain, IsInChain, Rises, Takes};
ghost use Rattle.fab_phases.specs.inner.Chain.{comes_to, IsMoved};
ghost use Rattle.fab_phases.specs.inner.Ticks.{AreFitFlops, IsFit};

use crate::loading::{LoadedFlop, Run};
use fab_compiled::Lead;
use fab_demand::Demand;
use fab_network::{Drive, Network, Source, lead_of_source};
use fab_ternary::Tern;

// ---- whether there is one

/// The input from which a chain goes through all flip-flops as they stand. None where one of them takes something else, or a latch is set too.
pub fn chain_source(
    network: &Network,
    demand: &Demand,
    flops: &[LoadedFlop],
    runs: &[Run],
) -> Option<u32>
    requires fit { AreFit network.now.trees.items network.now.drives.items }
    requires points { length network.now.drives.items ≡ length demand.now.leads }
    requires flops { AreFitFlops network.now flops.now }
    ensures { ForSome result (λ source. IsChain network.now demand.now source flops.now runs.now) }
{
    let first = flops.first()?;
    let source = taken_from(network, demand, first.next)?;
    if runs.is_empty() && is_input(network, source) && is_chain(network, demand, source, flops) {
        return Some(source);
    }
    None
}

// Whether a point is an input.
fn is_input(network: &Network, point: u32) -> bool
    ensures { IsTrue result → slice_get network.now.drives.items point ≡ Some Given }
{
    matches!(network.drives.get(point as usize), Some(Drive::Given))
}

// Whether flip-flops stand in a chain behind a point, and their numbers rise.
fn is_chain(network: &Network, demand: &Demand, source: u32, flops: &[LoadedFlop]) -> bool
    requires fit { AreFit network.now.trees.items network.now.drives.items }
    requires points { length network.now.drives.items ≡ length demand.now.leads }
    requires flops { AreFitFlops network.now flops.now }
    ensures { IsTrue result → IsInChain network.now demand.now source flops.now }
{
    for (place, flop) in flops.iter().enumerate() {
        let before = before_of(source, flops, place);
        if !is_taken_from(network, demand, flop.next, before) {
            return false;
        }
        if !is_above(place, before, flop.point) {
            return false;
        }
    }
    true
}

// The point before a place: that of the flip-flop before it, and before the first one the input.
fn before_of(source: u32, flops: &[LoadedFlop], place: usize) -> u32
    requires { place ≤ length flops.now }
    ensures { result ≡ before_at source flops.now place }
{
    if place == 0 {
        return source;
    }
    flops[place - 1].point
}

// Whether a flip-flop behind the first place has a higher number than the one before it.
fn is_above(place: usize, before: u32, point: u32) -> bool
    ensures { IsTrue result → 0 < place → before < point }
{
    place == 0 || before < point
}

// The point that has what a flip-flop takes, if one has.
fn taken_from(network: &Network, demand: &Demand, next: Source) -> Option<u32>
    requires fit { AreFit network.now.trees.items network.now.drives.items }
    requires points { length network.now.drives.items ≡ length demand.now.leads }
    requires next { IsFit network.now next }
{
    let view = demand.view();
    match lead_of_source(&network.trees, next, &view, demand.marks()) {
        Lead::Point(point) => Some(point),
        Lead::Known(_) | Lead::Own | Lead::Unmarked(_) => None,
    }
}

// Whether what a flip-flop takes is what a point has.
fn is_taken_from(network: &Network, demand: &Demand, next: Source, before: u32) -> bool
    requires fit { AreFit network.now.trees.items network.now.drives.items }
    requires points { length network.now.drives.items ≡ length demand.now.leads }
    requires next { IsFit network.now next }
    ensures { IsTrue result → Takes network.now demand.now next before }
{
    let view = demand.view();
    match lead_of_source(&network.trees, next, &view, demand.marks()) {
        Lead::Point(point) => point == before,
        Lead::Known(_) | Lead::Own | Lead::Unmarked(_) => false,
    }
}

// ---- what it holds

/// Moves a chain behind an input on by all bits of words, the last bit of each word first.
pub fn move_chain(flops: &[LoadedFlop], source: u32, words: &[u32], given: &mut [Tern])
    requires source { source < length given.old }
    requires within { Each flops.now (λ flop. flop.point < length given.old) }
    requires apart { Each flops.now (λ flop. flop.point ≢ source) }
    requires rises { Rises flops.now }
    ensures { IsMoved flops.now source words.now (kept_tern given.old) (kept_tern given.new) }
{
    let Some(last) = words.last() else { return };
    for moved in 0..flops.len() {
        let place = flops.len() - 1 - moved;
        let left = comes_to(flops, words, given, place);
        given[flops[place].point as usize] = left;
    }
    given[source as usize] = Tern::known(last % 2 == 1);
}

// What comes to a place of a chain behind all bits of words.
fn comes_to(flops: &[LoadedFlop], words: &[u32], given: &[Tern], place: usize) -> Tern
    requires place { place < length flops.now }
    requires within { Each flops.now (λ flop. flop.point < length given.now) }
    ensures { plain_tern result ≡ comes_to flops.now words.now (kept_tern given.now) place }
{
    let word = place / 32;
    if word < words.len() {
        return Tern::known(words[words.len() - 1 - word] >> (place % 32) & 1 == 1);
    }
    given[flops[place - 32 * words.len()].point as usize]
}
