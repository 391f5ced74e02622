//! Passes over points that are not known yet, until nothing more comes to be known.

ghost use Rattle.std.specs.Prelude.{◌≡◌, ◌<◌, ◌≤◌, ◌^◌, ℕ, List, false, length, slice_index};
ghost use Rattle.fab_systems_laws.specs.Ternary.{IsBelow};
ghost use Rattle.fab_ternary.specs.Terns.{plain_tern};
ghost use Rattle.fab_compiled.specs.declared.tree.Tree.{Tree};
ghost use Rattle.fab_compiled.specs.Leading.{PointTerns};
ghost use Rattle.fab_compiled.specs.Terns.{seen, IsView};
ghost use Rattle.fab_network.specs.Forms.{HasForms};
ghost use Rattle.fab_network.specs.Network.{shown_tern, AreFit};
ghost use Rattle.fab_network.specs.Passes.{kept_tern, AreBacked, AreOwn, AreRising, AreSolved, IsListed, StaysBelow};
ghost use Rattle.fab_settling.specs.Visits.{changed_after, unsettled_after, IsFurther, IsPassed, IsVisit};
ghost use Rattle.fab_settling.specs.Scenes.{scene_of, AreFormsOf, AreSharedOver, IsReady, IsSpreadOver};
ghost use Rattle.fab_network.specs.Sharing.{AreShared};

use crate::scene::Scene;
use crate::spreading::Spread;
use fab_compiled::View;
use fab_network::{Form, KeptValues, Network, shown, shown_by_form, shown_meanwhile};
use fab_readers::Readers;
use fab_ternary::Tern;

/// What a look at a point finds.
#[derive(Clone, Copy, Debug)]
pub(crate) enum Visit {
    /// It was known before.
    Known,
    /// It is open, and what it shows is not known yet, or has not been looked at.
    Still,
    /// It has come to be known.
    Found,
}

/// What a pass finds.
#[derive(Clone, Copy, Debug)]
struct Pass {
    /// Whether a point has come to be known.
    changed: bool,
    /// Whether a point is still unknown.
    unsettled: bool,
}

impl Pass {
    // One more look in the pass.
    fn noting(self, visit: Visit) -> Pass
        ensures changed { result.changed ≡ changed_after self.changed visit }
        ensures unsettled { result.unsettled ≡ unsettled_after self.unsettled visit }
    {
        match visit {
            Visit::Known => self,
            Visit::Still => Pass {
                changed: self.changed,
                unsettled: true,
            },
            Visit::Found => Pass {
                changed: true,
                unsettled: self.unsettled,
            },
        }
    }
}

/// Gives points that stand for themselves what they show, as far as it is known: passes over them in their order, until one finds nothing. Where
/// each of them depends on those before it alone, and all that it depends on is known, one pass is enough. Behind each other pass the readers
/// of points that are known are looked at again, and the readers of those that come to be known by that, so that there are few passes.
pub fn settle(
    network: &Network,
    order: &[u32],
    held: &[Tern],
    leads: &[u32],
    readers: &mut Readers,
    terns: &mut [Tern],
)
    requires fit { AreFit network.now.trees.items network.now.drives.items }
    requires points { length network.now.drives.items ≡ length leads.now }
    requires terns { length terns.old ≡ length leads.now }
    requires held { length held.now ≡ length leads.now }
    requires view { IsView terns.old leads.now }
    requires small { length leads.now ≤ 2 ^ 32 }
    requires own { AreOwn order.now leads.now }
    requires backed { AreBacked network.now.trees.items network.now.drives.items held.now order.now (seen terns.old leads.now) }
    ensures rising { AreRising terns.old terns.new }
    ensures below { StaysBelow network.now.trees.items network.now.drives.items held.now order.now leads.now terns.old terns.new }
    ensures solved { AreSolved network.now.trees.items network.now.drives.items held.now order.now (seen terns.new leads.now) }
    ensures others { (point : ℕ) → (IsListed order.now point → ⊥) → kept_tern terns.new point ≡ kept_tern terns.old point }
{
    settle_by(network, order, held, leads, &[], readers, terns);
}

/// The same, where points have these forms.
pub fn settle_by(
    network: &Network,
    order: &[u32],
    held: &[Tern],
    leads: &[u32],
    forms: &[Form],
    readers: &mut Readers,
    terns: &mut [Tern],
)
    requires fit { AreFit network.now.trees.items network.now.drives.items }
    requires points { length network.now.drives.items ≡ length leads.now }
    requires terns { length terns.old ≡ length leads.now }
    requires held { length held.now ≡ length leads.now }
    requires view { IsView terns.old leads.now }
    requires small { length leads.now ≤ 2 ^ 32 }
    requires own { AreOwn order.now leads.now }
    requires backed { AreBacked network.now.trees.items network.now.drives.items held.now order.now (seen terns.old leads.now) }
    requires forms { HasForms network.now.trees.items network.now.drives.items order.now leads.now terns.old forms.now }
    ensures rising { AreRising terns.old terns.new }
    ensures below { StaysBelow network.now.trees.items network.now.drives.items held.now order.now leads.now terns.old terns.new }
    ensures solved { AreSolved network.now.trees.items network.now.drives.items held.now order.now (seen terns.new leads.now) }
    ensures others { (point : ℕ) → (IsListed order.now point → ⊥) → kept_tern terns.new point ≡ kept_tern terns.old point }
{
    let scene = Scene {
        network,
        order,
        held,
        leads,
        forms,
    };
    'passes: loop {
        let pass = pass_over(&scene, terns);
        if !pass.changed || !pass.unsettled {
            return;
        }
        look_again(&scene, readers, terns);
    }
}

// One look at each point. Behind the first that has come to be known looks may wait, for the next pass.
fn pass_over(scene: &Scene, terns: &mut [Tern]) -> Pass
    requires ready { IsReady (scene_of scene.now) terns.old }
    requires forms { AreFormsOf scene.now terns.old }
    ensures { IsPassed (scene_of scene.now) (length scene.now.order.now) terns.old terns.new result.changed result.unsettled }
{
    let mut pass = Pass {
        changed: false,
        unsettled: false,
    };
    let mut shared = KeptValues::new(*scene.network.trees.allocator());
    for place in 0..scene.order.len() {
        let found = look_at(scene, place, pass.changed, &mut shared, terns);
        pass = pass.noting(found);
    }
    pass
}

// One look at the point at a place of the order. Where another one follows, less may be found.
fn look_at(
    scene: &Scene,
    place: usize,
    waits: bool,
    shared: &mut KeptValues,
    terns: &mut [Tern],
) -> Visit
    requires ready { IsReady (scene_of scene.now) terns.old }
    requires within { place < length scene.now.order.now }
    requires forms { AreFormsOf scene.now terns.old }
    requires shared { AreSharedOver scene.now terns.old shared.old }
    ensures shared { AreSharedOver scene.now terns.new shared.new }
    ensures visit { IsVisit (scene_of scene.now) waits (slice_index scene.now.order.now place) terns.old terns.new result }
{
    let point = scene.order[place] as usize;
    if !terns[point].is_open() {
        return Visit::Known;
    }
    let view = View {
        terns,
        leads: scene.leads,
    };
    let found = look_for(
        scene.network,
        scene.order,
        scene.held[point],
        scene.forms,
        place,
        waits,
        shared,
        &view,
    );
    if found.is_open() {
        return Visit::Still;
    }
    terns[point] = found;
    shared.note_change();
    Visit::Found
}

// What the point at a place of the order shows, where a latch holds this value. Where another look follows, those that take long wait, and less may be told.
fn look_for(
    network: &Network,
    order: &[u32],
    held: Tern,
    forms: &[Form],
    place: usize,
    waits: bool,
    shared: &mut KeptValues,
    view: &View,
) -> Tern
    requires fit { AreFit network.now.trees.items network.now.drives.items }
    requires points { length network.now.drives.items ≡ length view.now.leads.now }
    requires view { IsView view.now.terns.now view.now.leads.now }
    requires terns { length view.now.terns.now ≡ length view.now.leads.now }
    requires small { length view.now.leads.now ≤ 2 ^ 32 }
    requires own { AreOwn order.now view.now.leads.now }
    requires within { place < length order.now }
    requires forms { HasForms network.now.trees.items network.now.drives.items order.now view.now.leads.now view.now.terns.now forms.now }
    requires shared { AreShared network.now.trees.items (length view.now.leads.now) (seen view.now.terns.now view.now.leads.now) shared.old }
    ensures shared { AreShared network.now.trees.items (length view.now.leads.now) (seen view.now.terns.now view.now.leads.now) shared.new }
    ensures below { IsBelow (plain_tern result) (shown_tern network.now.trees.items network.now.drives.items (plain_tern held)
        (seen view.now.terns.now view.now.leads.now) (slice_index order.now place)) }
    ensures value { waits ≡ false → plain_tern result ≡ shown_tern network.now.trees.items network.now.drives.items (plain_tern held)
        (seen view.now.terns.now view.now.leads.now) (slice_index order.now place) }
{
    if !waits || has_table(forms, place) {
        return shown_at(network, order, held, forms, place, shared, view);
    }
    shown_meanwhile(network, order[place] as usize, held, shared, view)
}

// Whether a table tells what the point at a place of the order shows, which takes no time.
fn has_table(forms: &[Form], place: usize) -> bool {
    matches!(forms.get(place), Some(Form::Shows(_)))
}

// What the point at a place of the order shows, where a latch holds this value.
fn shown_at(
    network: &Network,
    order: &[u32],
    held: Tern,
    forms: &[Form],
    place: usize,
    shared: &mut KeptValues,
    view: &View,
) -> Tern
    requires fit { AreFit network.now.trees.items network.now.drives.items }
    requires points { length network.now.drives.items ≡ length view.now.leads.now }
    requires view { IsView view.now.terns.now view.now.leads.now }
    requires terns { length view.now.terns.now ≡ length view.now.leads.now }
    requires small { length view.now.leads.now ≤ 2 ^ 32 }
    requires own { AreOwn order.now view.now.leads.now }
    requires within { place < length order.now }
    requires forms { HasForms network.now.trees.items network.now.drives.items order.now view.now.leads.now view.now.terns.now forms.now }
    requires shared { AreShared network.now.trees.items (length view.now.leads.now) (seen view.now.terns.now view.now.leads.now) shared.old }
    ensures shared { AreShared network.now.trees.items (length view.now.leads.now) (seen view.now.terns.now view.now.leads.now) shared.new }
    ensures value { plain_tern result ≡ shown_tern network.now.trees.items network.now.drives.items (plain_tern held) (seen view.now.terns.now view.now.leads.now)
        (slice_index order.now place) }
{
    let point = order[place] as usize;
    match forms.get(place) {
        Some(form) => shown_by_form(network, point, held, form, shared, view),
        None => shown(network, point, held, shared, view),
    }
}

// Looks again at the readers of points that are known, where the pass came to the reader first, and at those of points that come to be known.
fn look_again(scene: &Scene, readers: &mut Readers, terns: &mut [Tern])
    requires ready { IsReady (scene_of scene.now) terns.old }
    requires forms { AreFormsOf scene.now terns.old }
    ensures { IsFurther (scene_of scene.now) terns.old terns.new }
{
    readers.note(scene.network, scene.order, scene.leads);
    readers.begin(scene.order, terns);
    let alloc = *scene.network.trees.allocator();
    let mut spread = Spread::new(alloc);
    spread.begin(scene, &readers.runs, terns);
    let mut shared = KeptValues::new(alloc);
    look_at_waiting(scene, readers, &mut shared, &mut spread, terns);
}

// Looks at readers that wait, until none does. Each waits for something that has come to be known, so this ends long before the count does.
fn look_at_waiting(
    scene: &Scene,
    readers: &mut Readers,
    shared: &mut KeptValues,
    spread: &mut Spread,
    terns: &mut [Tern],
)
    requires ready { IsReady (scene_of scene.now) terns.old }
    requires forms { AreFormsOf scene.now terns.old }
    requires shared { AreSharedOver scene.now terns.old shared.old }
    requires spread { IsSpreadOver scene.now terns.old spread.old }
    ensures shared { AreSharedOver scene.now terns.new shared.new }
    ensures spread { IsSpreadOver scene.now terns.new spread.new }
    ensures further { IsFurther (scene_of scene.now) terns.old terns.new }
{
    for _step in 0..usize::MAX {
        if !look_on(scene, readers, shared, spread, terns) {
            return;
        }
    }
}

// What reads a point that has come to be known is looked at next: all that the runs show by it, while other readers wait. Where there is no such point
// a reader that waits is looked at. Told is whether there was something to look at.
fn look_on(
    scene: &Scene,
    readers: &mut Readers,
    shared: &mut KeptValues,
    spread: &mut Spread,
    terns: &mut [Tern],
) -> bool
    requires ready { IsReady (scene_of scene.now) terns.old }
    requires forms { AreFormsOf scene.now terns.old }
    requires shared { AreSharedOver scene.now terns.old shared.old }
    requires spread { IsSpreadOver scene.now terns.old spread.old }
    ensures shared { AreSharedOver scene.now terns.new shared.new }
    ensures spread { IsSpreadOver scene.now terns.new spread.new }
    ensures further { IsFurther (scene_of scene.now) terns.old terns.new }
{
    if let Some(point) = spread.next_found() {
        readers.find(point);
        spread.spread(scene, &readers.runs, point, terns);
        shared.note_change();
        return true;
    }
    let Some(place) = readers.next_waiting() else {
        return false;
    };
    look_at_reader(scene, place as usize, shared, spread, terns);
    true
}

// Looks at the point at a place of the order.
fn look_at_reader(
    scene: &Scene,
    place: usize,
    shared: &mut KeptValues,
    spread: &mut Spread,
    terns: &mut [Tern],
)
    requires ready { IsReady (scene_of scene.now) terns.old }
    requires forms { AreFormsOf scene.now terns.old }
    requires shared { AreSharedOver scene.now terns.old shared.old }
    requires spread { IsSpreadOver scene.now terns.old spread.old }
    ensures shared { AreSharedOver scene.now terns.new shared.new }
    ensures spread { IsSpreadOver scene.now terns.new spread.new }
    ensures further { IsFurther (scene_of scene.now) terns.old terns.new }
{
    if place >= scene.order.len() {
        return;
    }
    let found = look_at(scene, place, false, shared, terns);
    spread.note_found(scene.order[place], found);
}
