//! What lets flip-flops and latches take new values, and when it is looked at again.

ghost use Rattle.std.specs.Prelude.{◌≡◌, ◌<◌, ◌≤◌, ◌^◌, length, slice_get, MatchOption, OnSome, Some};
ghost use Rattle.fab_ternary.specs.Terns.{plain_tern};
ghost use Rattle.fab_compiled.specs.Terns.{seen, IsView};
ghost use Rattle.fab_network.specs.Network.{IsFitSource};
ghost use Rattle.fab_changes.specs.Fanout.{ArePlaces, ReadsMore};
ghost use Rattle.fab_phases.specs.inner.Enables.{enable_tern, test_tern, AreClosed, AreEnables, IsEnabled, IsFitEnable, IsNextEnabled, Watches, WatchesTest};

use fab_changes::{Fanout, Places};
use fab_compiled::{Tree, View, eval};
use fab_demand::Demand;
use fab_network::{Network, Source, evaluate};
use fab_ternary::Tern;

/// What lets flip-flops or latches take new values. Where it is 0, they hold what they have.
#[derive(Clone, Copy, Debug)]
pub enum Enable {
    /// They take new values in any case.
    Always,
    /// The test of the expression of which this is a bit.
    Test(Source),
    /// The bit of an expression.
    Gate(Source),
}

/// The first enable that is not 0, from a number up to an end, with its value. One is looked at only where something has changed that it reads
/// since it was 0.
pub fn next_enabled(
    network: &Network,
    enables: &[Enable],
    from: usize,
    end: usize,
    demand: &Demand,
    watches: &mut Fanout,
) -> Option<(usize, Tern)>
    requires points { length network.now.drives.items ≡ length demand.now.leads }
    requires end { end ≤ length enables.now }
    requires enables { AreEnables network.now demand.now enables.now watches.old }
    ensures next { MatchOption result (AreClosed network.now demand.now enables.now from end)
        (λ found. IsNextEnabled network.now demand.now enables.now from end found.0 found.1) }
    ensures enables { AreEnables network.now demand.now enables.now watches.new }
{
    let mut begin = from;
    'enables: while let Some(number) = watches.next_stale(begin) {
        if number >= end {
            return None;
        }
        match look(network, enables, number, demand, watches) {
            Tern::No => begin = number + 1,
            value => return Some((number, value)),
        }
    }
    None
}

// The value of an enable, by its number. Where it is 0, it is passed over until something changes that it reads.
fn look(
    network: &Network,
    enables: &[Enable],
    number: usize,
    demand: &Demand,
    watches: &mut Fanout,
) -> Tern
    requires points { length network.now.drives.items ≡ length demand.now.leads }
    requires within { number < length enables.now }
    requires enables { AreEnables network.now demand.now enables.now watches.old }
    ensures value { IsEnabled network.now demand.now enables.now number result }
    ensures enables { AreEnables network.now demand.now enables.now watches.new }
{
    match value_of(network, enables[number], &demand.view()) {
        Tern::No => {
            watches.set_fresh(number);
            Tern::No
        }
        value => value,
    }
}

// The value of an enable.
fn value_of(network: &Network, enable: Enable, view: &View) -> Tern
    requires fit { IsFitEnable network.now enable }
    requires points { length network.now.drives.items ≡ length view.now.leads.now }
    requires view { IsView view.now.terns.now view.now.leads.now }
    requires few { length view.now.leads.now ≤ 2 ^ 32 }
    ensures { plain_tern result ≡ enable_tern network.now.trees.items (seen view.now.terns.now view.now.leads.now) enable }
{
    match enable {
        Enable::Always => Tern::Yes,
        Enable::Test(source) => test_value(&network.trees, source, view),
        Enable::Gate(source) => evaluate(&network.trees, source, view),
    }
}

// The value of the test of an expression. Nothing is known of it where the expression is no choice.
fn test_value(trees: &[Tree], source: Source, view: &View) -> Tern
    requires fit { IsFitSource trees.now (length view.now.leads.now) source }
    requires view { IsView view.now.terns.now view.now.leads.now }
    requires few { length view.now.leads.now ≤ 2 ^ 32 }
    ensures { plain_tern result ≡ test_tern (slice_get trees.now source.tree) (seen view.now.terns.now view.now.leads.now) source.first }
{
    match trees.get(source.tree as usize) {
        Some(Tree::Cond(test, _, _)) => eval(test, 0, source.first as usize, view),
        Some(_) | None => Tern::Open,
    }
}

/// Watches all points that an enable of this number reads. `None` where there is no room or no memory.
pub fn watch(
    network: &Network,
    places: &Places,
    enable: Enable,
    number: u32,
    watches: &mut Fanout,
) -> Option<()>
    requires places { ArePlaces places.now }
    requires points { length network.now.drives.items ≡ length places.now.leads.now }
    requires fit { IsFitEnable network.now enable }
    ensures watched { OnSome result (Watches network.now places.now.own.now places.now.leads.now watches.new.readers.items number enable) }
    ensures more { OnSome result (ReadsMore watches.old.readers.items watches.new.readers.items) }
    ensures stale { watches.new.stale ≡ watches.old.stale }
{
    match enable {
        Enable::Always => Some(()),
        Enable::Test(source) => watch_test(&network.trees, places, source, number, watches),
        Enable::Gate(source) => {
            let tree = &network.trees[source.tree as usize];
            watches.note_tree(places, tree, source.first as usize, number)
        }
    }
}

// Watches all points of the test of an expression, if it is a choice.
fn watch_test(
    trees: &[Tree],
    places: &Places,
    source: Source,
    number: u32,
    watches: &mut Fanout,
) -> Option<()>
    requires places { ArePlaces places.now }
    requires fit { IsFitSource trees.now (length places.now.leads.now) source }
    ensures watched { OnSome result
        (WatchesTest places.now.own.now places.now.leads.now watches.new.readers.items number source.first (slice_get trees.now source.tree)) }
    ensures more { OnSome result (ReadsMore watches.old.readers.items watches.new.readers.items) }
    ensures stale { watches.new.stale ≡ watches.old.stale }
{
    match trees.get(source.tree as usize) {
        Some(Tree::Cond(test, _, _)) => {
            watches.note_tree(places, test, source.first as usize, number)
        }
        Some(_) | None => Some(()),
    }
}
