//! How words are loaded, whole or bit by bit.

ghost use Rattle.std.specs.Prelude.{◌≡◌, ◌+◌, ◌<◌, ◌≤◌, ℕ, [], ◌∷◌, Bool, List, length, map, IfSome, IsTrue, Some};
ghost use Rattle.std.specs.List.{flat_map};
ghost use Rattle.fab_meaning.specs.Loading.{single_bits};
ghost use Rattle.fab_network.specs.Network.{AreFit};
ghost use Rattle.fab_network.specs.Passes.{kept_tern};
ghost use Rattle.fab_phases.specs.Loading.{IsSolvable};
ghost use Rattle.fab_phases.specs.Words.{AreLoadSteps, IsLoadingAt, IsLoadStep, IsOffered, word_bits};
ghost use Rattle.fab_phases.specs.inner.Enables.{IsWatching};

use crate::chain::move_chain;
use crate::loading::Loading;
use crate::ticks::tick;
use crate::watched::{Watching, tick_watched, watching_of};
use fab_demand::Demand;
use fab_network::{Network, Shared};
use fab_ternary::Tern;

/// Loads words one by one, and looks after each only at what reads something that has changed. Inputs take the bits of a word, from the
/// first of their points on.
pub fn load_words(
    network: &Network,
    loading: &Loading,
    first: u32,
    words: &[u32],
    demand: &mut Demand,
    given: &mut [Tern],
)
    requires fit { AreFit network.now.trees.items network.now.drives.items }
    requires solvable { IsSolvable network.now }
    requires points { length network.now.drives.items ≡ length demand.old.leads }
    requires given { length given.old ≡ length demand.old.leads }
    requires loading { (loads : List Bool) × IsLoadingAt network.now loading.now loads first 32 demand.old given.old }
    ensures points { length demand.new.leads ≡ length demand.old.leads }
    ensures steps { (loads : List Bool) → IsLoadingAt network.now loading.now loads first 32 demand.old given.old →
        AreLoadSteps network.now loads first (map word_bits words.now) (kept_tern given.old) (kept_tern given.new) }
{
    let alloc = *network.trees.allocator();
    let mut watching = watching_of(alloc, network, loading, demand);
    let mut shared = Shared::new(alloc);
    for word in words {
        load_word(
            network,
            loading,
            first,
            *word,
            &mut watching,
            &mut shared,
            demand,
            given,
        );
    }
}

// Loads a word.
fn load_word(
    network: &Network,
    loading: &Loading,
    first: u32,
    word: u32,
    watching: &mut Option<Watching>,
    shared: &mut Shared,
    demand: &mut Demand,
    given: &mut [Tern],
)
    requires fit { AreFit network.now.trees.items network.now.drives.items }
    requires solvable { IsSolvable network.now }
    requires points { length network.now.drives.items ≡ length demand.old.leads }
    requires given { length given.old ≡ length demand.old.leads }
    requires loading { (loads : List Bool) × IsLoadingAt network.now loading.now loads first 32 demand.old given.old }
    requires watching { IfSome watching.old (IsWatching network.now loading.now demand.old given.old) }
    ensures points { length demand.new.leads ≡ length demand.old.leads }
    ensures loading { (loads : List Bool) → IsLoadingAt network.now loading.now loads first 32 demand.old given.old →
        IsLoadingAt network.now loading.now loads first 32 demand.new given.new }
    ensures step { (loads : List Bool) → IsLoadingAt network.now loading.now loads first 32 demand.old given.old →
        IsLoadStep network.now loads first (word_bits word) (kept_tern given.old) (kept_tern given.new) }
    ensures watching { IfSome watching.new (IsWatching network.now loading.now demand.new given.new) }
{
    offer(first, word, given);
    match watching {
        Some(watching) => {
            watching.changes.note_points(first as usize, 32);
            tick_watched(network, loading, watching, shared, demand, given);
        }
        None => tick(network, loading, shared, demand, given),
    }
}

/// Loads words bit by bit, each with its last bit first. An input of one point takes the bits. A chain behind it is moved by all bits at once,
/// since by a tick for each bit the time would grow with the square of its length.
pub fn load_bits(
    network: &Network,
    loading: &Loading,
    point: u32,
    words: &[u32],
    demand: &mut Demand,
    given: &mut [Tern],
)
    requires fit { AreFit network.now.trees.items network.now.drives.items }
    requires solvable { IsSolvable network.now }
    requires points { length network.now.drives.items ≡ length demand.old.leads }
    requires given { length given.old ≡ length demand.old.leads }
    requires loading { (loads : List Bool) × IsLoadingAt network.now loading.now loads point 1 demand.old given.old }
    ensures points { length demand.new.leads ≡ length demand.old.leads }
    ensures steps { (loads : List Bool) → IsLoadingAt network.now loading.now loads point 1 demand.old given.old →
        AreLoadSteps network.now loads point (flat_map single_bits (map word_bits words.now)) (kept_tern given.old) (kept_tern given.new) }
{
    if is_behind(loading.chain, point) {
        move_chain(&loading.flops, point, words, given);
        return;
    }
    let mut shared = Shared::new(*network.trees.allocator());
    for word in words {
        load_word_bits(network, loading, point, *word, &mut shared, demand, given);
    }
}

// Whether a chain stands behind this input.
fn is_behind(chain: Option<u32>, point: u32) -> bool
    ensures { IsTrue result → chain ≡ Some point }
{
    match chain {
        Some(source) => source == point,
        None => false,
    }
}

// Loads the bits of a word, the last one first.
fn load_word_bits(
    network: &Network,
    loading: &Loading,
    point: u32,
    word: u32,
    shared: &mut Shared,
    demand: &mut Demand,
    given: &mut [Tern],
)
    requires fit { AreFit network.now.trees.items network.now.drives.items }
    requires solvable { IsSolvable network.now }
    requires points { length network.now.drives.items ≡ length demand.old.leads }
    requires given { length given.old ≡ length demand.old.leads }
    requires loading { (loads : List Bool) × IsLoadingAt network.now loading.now loads point 1 demand.old given.old }
    ensures points { length demand.new.leads ≡ length demand.old.leads }
    ensures loading { (loads : List Bool) → IsLoadingAt network.now loading.now loads point 1 demand.old given.old →
        IsLoadingAt network.now loading.now loads point 1 demand.new given.new }
    ensures steps { (loads : List Bool) → IsLoadingAt network.now loading.now loads point 1 demand.old given.old →
        AreLoadSteps network.now loads point (single_bits (word_bits word)) (kept_tern given.old) (kept_tern given.new) }
{
    for place in 0..32_u32 {
        let bit = word >> (31 - place) & 1 == 1;
        load_bit(network, loading, point, bit, shared, demand, given);
    }
}

// Loads a bit.
fn load_bit(
    network: &Network,
    loading: &Loading,
    point: u32,
    bit: bool,
    shared: &mut Shared,
    demand: &mut Demand,
    given: &mut [Tern],
)
    requires fit { AreFit network.now.trees.items network.now.drives.items }
    requires solvable { IsSolvable network.now }
    requires points { length network.now.drives.items ≡ length demand.old.leads }
    requires given { length given.old ≡ length demand.old.leads }
    requires loading { (loads : List Bool) × IsLoadingAt network.now loading.now loads point 1 demand.old given.old }
    ensures points { length demand.new.leads ≡ length demand.old.leads }
    ensures loading { (loads : List Bool) → IsLoadingAt network.now loading.now loads point 1 demand.old given.old →
        IsLoadingAt network.now loading.now loads point 1 demand.new given.new }
    ensures step { (loads : List Bool) → IsLoadingAt network.now loading.now loads point 1 demand.old given.old →
        IsLoadStep network.now loads point (bit ∷ []) (kept_tern given.old) (kept_tern given.new) }
{
    offer_bit(point, bit, given);
    tick(network, loading, shared, demand, given);
}

// ---- what is offered

/// Gives the bits of a word to inputs, from the first of their points on.
pub fn offer(first: u32, word: u32, given: &mut [Tern])
    requires { first + 32 ≤ length given.old }
    ensures { IsOffered first (word_bits word) (kept_tern given.old) (kept_tern given.new) }
{
    let mut rest = word;
    for bit in 0..32 {
        given[first as usize + bit] = Tern::known(rest % 2 == 1);
        rest /= 2;
    }
}

/// Gives a bit to the input of a point.
pub fn offer_bit(point: u32, bit: bool, given: &mut [Tern])
    requires { point < length given.old }
    ensures { IsOffered point (bit ∷ []) (kept_tern given.old) (kept_tern given.new) }
{
    given[point as usize] = Tern::known(bit);
}
