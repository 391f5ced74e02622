//! A group is looked at, and its points take what is found.

ghost use Rattle.std.specs.Prelude.{◌≡◌, ◌+◌, ◌<◌, ◌≤◌, ◌^◌, ℕ, length, slice_get, slice_index};
ghost use Rattle.fab_ternary.specs.Terns.{plain_tern};
ghost use Rattle.fab_compiled.specs.Terns.{seen, IsView};
ghost use Rattle.fab_network.specs.Network.{AreFit};
ghost use Rattle.fab_network.specs.Passes.{AreOwn, IsListed};
ghost use Rattle.fab_network.specs.Sharing.{IsShared};
ghost use Rattle.fab_changes.specs.Fanout.{HasTouched, IsOnce};
ghost use Rattle.fab_changes.specs.inner.Looking.{AreFound, HasTaken, value_tern, HasTakenGroup, HaveTaken};

use crate::fanout::Fanout;
use crate::groups::Group;
use fab_compiled::View;
use fab_demand::Demand;
use fab_network::{Drive, Network, Shared};
use fab_ternary::Tern;

// Inputs and flip-flops, which stand at these places, take what is given to them.
pub(crate) fn take_given(
    taken: &[u32],
    given: &[Tern],
    demand: &mut Demand,
    fanout: &mut Fanout,
    watches: &mut Fanout,
)
    requires given { length given.now ≡ length demand.old.leads }
    requires own { AreOwn demand.old.own demand.old.leads }
    requires within { (place : ℕ) → IsListed taken.now place → place < length demand.old.own }
    ensures taken { HaveTaken taken.now (length taken.now) given.now demand.old demand.new }
    ensures fanout { HasTouched demand.old.own demand.old.terns demand.new.terns fanout.old fanout.new }
    ensures watches { HasTouched demand.old.own demand.old.terns demand.new.terns watches.old watches.new }
{
    for place in taken {
        let place = *place as usize;
        let point = demand.own()[place] as usize;
        take(place, given[point], demand, fanout, watches);
    }
}

// Finds the values of a group. What was kept of another expression, or before points have changed, is forgotten.
pub(crate) fn find_values(
    network: &Network,
    group: Group,
    demand: &Demand,
    shared: &mut Shared,
    found: &mut [Tern],
)
    requires fit { AreFit network.now.trees.items network.now.drives.items }
    requires points { length network.now.drives.items ≡ length demand.now.leads }
    requires ends { group.end ≤ length demand.now.own }
    requires room { group.end ≤ group.begin + length found.old }
    ensures long { length found.new ≡ length found.old }
    ensures found { AreFound network.now demand.now group group.end found.new }
{
    let view = demand.view();
    let own = demand.own();
    shared.forget();
    for place in group.begin..group.end {
        let point = own[place as usize] as usize;
        found[(place - group.begin) as usize] = value_at(network, point, shared, &view);
    }
}

// What the expression of a point has; nothing is known where there is none.
fn value_at(network: &Network, point: usize, shared: &mut Shared, view: &View) -> Tern
    requires fit { AreFit network.now.trees.items network.now.drives.items }
    requires points { length network.now.drives.items ≡ length view.now.leads.now }
    requires view { IsView view.now.terns.now view.now.leads.now }
    requires small { length view.now.leads.now ≤ 2 ^ 32 }
    requires shared { IsShared network.now.trees.items (length view.now.leads.now) (seen view.now.terns.now view.now.leads.now) shared.old }
    ensures shared { IsShared network.now.trees.items (length view.now.leads.now) (seen view.now.terns.now view.now.leads.now) shared.new }
    ensures value { plain_tern result ≡
        value_tern network.now.trees.items (seen view.now.terns.now view.now.leads.now) (slice_get network.now.drives.items point) }
{
    match network.drives.get(point) {
        Some(Drive::Value(source)) => shared.value(&network.trees, *source, view),
        Some(Drive::Given | Drive::Flop(_, _) | Drive::Same(_) | Drive::Hold(_, _)) | None => {
            Tern::Open
        }
    }
}

// The points of a group take what is found.
pub(crate) fn take_values(
    group: Group,
    found: &[Tern],
    demand: &mut Demand,
    fanout: &mut Fanout,
    watches: &mut Fanout,
)
    requires ends { group.end ≤ length demand.old.own }
    requires once { IsOnce demand.old.own }
    requires room { group.end ≤ group.begin + length found.now }
    ensures taken { HasTakenGroup group group.end found.now demand.old demand.new }
    ensures fanout { HasTouched demand.old.own demand.old.terns demand.new.terns fanout.old fanout.new }
    ensures watches { HasTouched demand.old.own demand.old.terns demand.new.terns watches.old watches.new }
{
    for place in group.begin..group.end {
        let tern = found[(place - group.begin) as usize];
        take(place as usize, tern, demand, fanout, watches);
    }
}

// The point at a place takes a value. Where it had another one, its readers are stale.
pub(crate) fn take(
    place: usize,
    tern: Tern,
    demand: &mut Demand,
    fanout: &mut Fanout,
    watches: &mut Fanout,
)
    requires within { place < length demand.old.own }
    ensures taken { HasTaken (slice_index demand.old.own place) (plain_tern tern) demand.old demand.new }
    ensures fanout { HasTouched demand.old.own demand.old.terns demand.new.terns fanout.old fanout.new }
    ensures watches { HasTouched demand.old.own demand.old.terns demand.new.terns watches.old watches.new }
{
    let point = demand.own()[place] as usize;
    if demand.view().terns[point] == tern {
        return;
    }
    demand.set_own(place, tern);
    fanout.touch(place);
    watches.touch(place);
}
