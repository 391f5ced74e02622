//! Cycles of points that stand for themselves.

ghost use Rattle.std.specs.Prelude.{◌≡◌, ◌<◌, ◌≤◌, ◌^◌, ℕ, length, slice_get, slice_index};
ghost use Rattle.fab_ternary.specs.Terns.{plain_tern};
ghost use Rattle.fab_compiled.specs.Terns.{IsView};
ghost use Rattle.fab_network.specs.Forms.{HasForms};
ghost use Rattle.fab_network.specs.Network.{AreFit};
ghost use Rattle.fab_network.specs.Passes.{kept_tern, AreOwn, EachListed, IsListed};
ghost use Rattle.fab_demand.specs.inner.Cycles.{start_tern, AreStarts, IsSettled, IsStart, IsStartAt};

use fab_network::{Drive, Form, Network};
use fab_readers::Readers;
use fab_settling::settle_by;
use fab_ternary::Tern;

/// A cycle: these points start with what is given to them, and are settled by their forms.
pub(crate) fn settle_anew(
    network: &Network,
    own: &[u32],
    given: &[Tern],
    leads: &[u32],
    forms: &[Form],
    readers: &mut Readers,
    terns: &mut [Tern],
)
    requires fit { AreFit network.now.trees.items network.now.drives.items }
    requires points { length network.now.drives.items ≡ length leads.now }
    requires given { length given.now ≡ length leads.now }
    requires terns { length terns.old ≡ length leads.now }
    requires view { IsView terns.old leads.now }
    requires few { length leads.now ≤ 2 ^ 32 }
    requires own { AreOwn own.now leads.now }
    requires forms { HasForms network.now.trees.items network.now.drives.items own.now leads.now terns.old forms.now }
    ensures { IsSettled network.now given.now own.now leads.now terns.old terns.new }
{
    start(network, own, given, forms, terns);
    settle_by(network, own, given, leads, forms, readers, terns);
}

// Gives inputs and flip-flops among these points what is given to them. Nothing is known of the others.
fn start(network: &Network, order: &[u32], given: &[Tern], forms: &[Form], terns: &mut [Tern])
    requires given { length given.now ≡ length terns.old }
    requires within { EachListed (length order.now) order.now (λ point. point < length terns.old) }
    requires forms { AreStarts network.now order.now forms.now }
    ensures started { EachListed (length order.now) order.now
        (λ point. kept_tern terns.new point ≡ start_tern (kept_tern given.now point) (slice_get network.now.drives.items point)) }
    ensures others { (point : ℕ) → (IsListed order.now point → ⊥) → kept_tern terns.new point ≡ kept_tern terns.old point }
{
    for place in 0..order.len() {
        let point = order[place] as usize;
        terns[point] = start_at(network, forms, place, point, given[point]);
    }
}

// What the point at a place of the order starts with.
fn start_at(network: &Network, forms: &[Form], place: usize, point: usize, given: Tern) -> Tern
    requires form { IsStartAt network.now forms.now place point }
    ensures { plain_tern result ≡ start_tern (plain_tern given) (slice_get network.now.drives.items point) }
{
    match forms.get(place) {
        Some(form) => start_by(network, form, point, given),
        None => start_of(network, point, given),
    }
}

// What a point starts with by its form.
fn start_by(network: &Network, form: &Form, point: usize, given: Tern) -> Tern
    requires form { IsStart form.now (slice_get network.now.drives.items point) }
    ensures { plain_tern result ≡ start_tern (plain_tern given) (slice_get network.now.drives.items point) }
{
    match form {
        Form::Shows(_) => Tern::Open,
        Form::Takes(_) => given,
        Form::Driven => start_of(network, point, given),
    }
}

// What a point starts with by its drive.
fn start_of(network: &Network, point: usize, given: Tern) -> Tern
    ensures { plain_tern result ≡ start_tern (plain_tern given) (slice_get network.now.drives.items point) }
{
    match network.drives.get(point) {
        Some(Drive::Given | Drive::Flop(_, _)) => given,
        Some(Drive::Same(_) | Drive::Value(_) | Drive::Hold(_, _)) | None => Tern::Open,
    }
}
