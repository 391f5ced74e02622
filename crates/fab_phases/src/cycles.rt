//! How the design runs, cycle by cycle.

ghost use Rattle.std.specs.Prelude.{◌≡◌, ◌<◌, ◌≤◌, ◌^◌, ℕ, List, length, map, slice_get, Some};
ghost use Rattle.fab_systems_laws.specs.Ternary.{unknown};
ghost use Rattle.fab_ternary.specs.Terns.{plain_tern};
ghost use Rattle.fab_compiled.specs.Leading.{PointTerns};
ghost use Rattle.fab_compiled.specs.Terns.{seen, IsView};
ghost use Rattle.fab_network.specs.declared.network.Drive.TheVariants.{Flop, Given};
ghost use Rattle.fab_network.specs.Forms.{HasForm};
ghost use Rattle.fab_network.specs.Network.{AreFit, IsFitSource};
ghost use Rattle.fab_network.specs.Passes.{kept_tern};
ghost use Rattle.fab_network.specs.Sharing.{IsShared};
ghost use Rattle.fab_network.specs.Solved.{IsLeast};
ghost use Rattle.fab_demand.specs.Demand.{AreFormsOf};
ghost use Rattle.fab_phases.specs.Lists.{Each};
ghost use Rattle.fab_phases.specs.Cycles.{AreOnce, IsFed, IsIn, IsRunningAt, IsTicked};
ghost use Rattle.fab_phases.specs.Running.{AreNumbers, HasFormAt, IsTickedOwn, written_by};

use fab_compiled::View;
use fab_demand::Demand;
use fab_demand::laws::kept_again;
use fab_network::{Clock, Drive, Form, Network, Shared, Source};
use fab_ternary::Tern;

/// Asks for all that these outputs need in a run, where this is given: inputs that vary are open. What was asked for before is forgotten.
pub fn ask_for_run(network: &Network, outs: &[u32], given: &[Tern], demand: &mut Demand)
    requires fit { AreFit network.now.trees.items network.now.drives.items }
    requires points { length network.now.drives.items ≡ length demand.old.leads }
    requires given { length given.now ≡ length demand.old.leads }
    requires outs { AreNumbers (length network.now.drives.items) outs.now }
    ensures points { length demand.new.leads ≡ length demand.old.leads }
    ensures running { (ins : List ℕ) → Each ins (λ point. (slice_get network.now.drives.items point ≡ Some Given) × (kept_tern given.now point ≡ unknown)) →
        IsRunningAt network.now ins outs.now demand.new given.now (kept_tern given.now) }
{
    demand.clear();
    for out in outs {
        demand.ask(network, Clock::User, given, *out);
    }
    demand.ask_registers(network, Clock::User, given);
}

/// A cycle: inputs are fed, outputs are shown, and flip-flops and latches take what the tick leaves them.
pub fn cycle(
    network: &Network,
    ins: &[u32],
    outs: &[u32],
    inputs: &[bool],
    demand: &mut Demand,
    given: &mut [Tern],
    outputs: &mut [Tern],
)
    requires fit { AreFit network.now.trees.items network.now.drives.items }
    requires points { length network.now.drives.items ≡ length demand.old.leads }
    requires given { length given.old ≡ length demand.old.leads }
    requires ins { AreNumbers (length network.now.drives.items) ins.now }
    requires once { AreOnce ins.now }
    requires outs { AreNumbers (length network.now.drives.items) outs.now }
    requires inputs { length inputs.now ≡ length ins.now }
    requires outputs { length outputs.old ≡ length outs.now }
    ensures points { length demand.new.leads ≡ length demand.old.leads }
    ensures shows { (held later t : PointTerns) → IsRunningAt network.now ins.now outs.now demand.old given.old held → IsFed ins.now inputs.now held later →
        IsLeast network.now.trees.items network.now.drives.items later t → map plain_tern outputs.new ≡ map t outs.now }
    ensures ticks { (held later t next : PointTerns) → IsRunningAt network.now ins.now outs.now demand.old given.old held → IsFed ins.now inputs.now held later →
        IsLeast network.now.trees.items network.now.drives.items later t → IsTicked network.now ins.now later t next →
        IsRunningAt network.now ins.now outs.now demand.new given.new next }
{
    cycle_by(network, ins, outs, inputs, &[], demand, given, outputs);
}

/// The same, where points that stand for themselves have these forms.
pub fn cycle_by(
    network: &Network,
    ins: &[u32],
    outs: &[u32],
    inputs: &[bool],
    forms: &[Form],
    demand: &mut Demand,
    given: &mut [Tern],
    outputs: &mut [Tern],
)
    requires fit { AreFit network.now.trees.items network.now.drives.items }
    requires points { length network.now.drives.items ≡ length demand.old.leads }
    requires given { length given.old ≡ length demand.old.leads }
    requires ins { AreNumbers (length network.now.drives.items) ins.now }
    requires once { AreOnce ins.now }
    requires outs { AreNumbers (length network.now.drives.items) outs.now }
    requires inputs { length inputs.now ≡ length ins.now }
    requires forms { AreFormsOf network.now demand.old forms.now }
    requires outputs { length outputs.old ≡ length outs.now }
    ensures points { length demand.new.leads ≡ length demand.old.leads }
    ensures shows { (held later t : PointTerns) → IsRunningAt network.now ins.now outs.now demand.old given.old held → IsFed ins.now inputs.now held later →
        IsLeast network.now.trees.items network.now.drives.items later t → map plain_tern outputs.new ≡ map t outs.now }
    ensures ticks { (held later t next : PointTerns) → IsRunningAt network.now ins.now outs.now demand.old given.old held → IsFed ins.now inputs.now held later →
        IsLeast network.now.trees.items network.now.drives.items later t → IsTicked network.now ins.now later t next →
        IsRunningAt network.now ins.now outs.now demand.new given.new next }
    ensures forms { AreFormsOf network.now demand.new forms.now }
{
    kept_again();
    feed(ins, inputs, given);
    demand.settle_by(network, forms, given);
    show(outs, demand, outputs);
    tick(network, forms, demand, given);
}

/// Gives values to points, each the one in its place.
pub fn feed(ins: &[u32], inputs: &[bool], given: &mut [Tern])
    requires ins { AreNumbers (length given.old) ins.now }
    requires once { AreOnce ins.now }
    requires inputs { length inputs.now ≡ length ins.now }
    ensures { IsFed ins.now inputs.now (kept_tern given.old) (kept_tern given.new) }
{
    for (place, point) in ins.iter().enumerate() {
        given[*point as usize] = Tern::known(inputs[place]);
    }
}

/// Opens points: nothing is known of what is given to them.
pub fn open(ins: &[u32], given: &mut [Tern])
    requires { AreNumbers (length given.old) ins.now }
    ensures opened { Each ins.now (λ point. kept_tern given.new point ≡ unknown) }
    ensures others { (point : ℕ) → (IsIn ins.now point → ⊥) → kept_tern given.new point ≡ kept_tern given.old point }
{
    for point in ins {
        given[*point as usize] = Tern::Open;
    }
}

// Shows outputs.
fn show(outs: &[u32], demand: &Demand, outputs: &mut [Tern])
    requires outs { AreNumbers (length demand.now.leads) outs.now }
    requires outputs { length outputs.old ≡ length outs.now }
    ensures { map plain_tern outputs.new ≡ map (seen demand.now.terns demand.now.leads) outs.now }
{
    for (place, point) in outs.iter().enumerate() {
        outputs[place] = demand.at(*point as usize);
    }
}

// A tick of UserCLK.
fn tick(network: &Network, forms: &[Form], demand: &Demand, given: &mut [Tern])
    requires fit { AreFit network.now.trees.items network.now.drives.items }
    requires points { length network.now.drives.items ≡ length demand.now.leads }
    requires forms { AreFormsOf network.now demand.now forms.now }
    requires given { length given.old ≡ length demand.now.leads }
    ensures { IsTickedOwn network.now demand.now given.old given.new }
{
    let view = demand.view();
    let own = demand.own();
    let mut shared = Shared::new(*network.trees.allocator());
    for place in 0..own.len() {
        let point = own[place] as usize;
        given[point] = left_at(
            network,
            &view,
            forms,
            place,
            point,
            given[point],
            &mut shared,
        );
    }
}

// What a tick of UserCLK leaves with a point that holds this, by the form at a place.
fn left_at(
    network: &Network,
    view: &View,
    forms: &[Form],
    place: usize,
    point: usize,
    held: Tern,
    shared: &mut Shared,
) -> Tern
    requires fit { AreFit network.now.trees.items network.now.drives.items }
    requires points { length network.now.drives.items ≡ length view.now.leads.now }
    requires view { IsView view.now.terns.now view.now.leads.now }
    requires terns { length view.now.terns.now ≡ length view.now.leads.now }
    requires few { length view.now.leads.now ≤ 2 ^ 32 }
    requires within { point < length view.now.leads.now }
    requires form { HasFormAt network.now view.now.leads.now view.now.terns.now forms.now place point }
    requires shared { IsShared network.now.trees.items (length view.now.leads.now) (seen view.now.terns.now view.now.leads.now) shared.old }
    ensures left { plain_tern result ≡ written_by network.now.trees.items (plain_tern held) (seen view.now.terns.now view.now.leads.now) point
        (slice_get network.now.drives.items point) }
    ensures shared { IsShared network.now.trees.items (length view.now.leads.now) (seen view.now.terns.now view.now.leads.now) shared.new }
{
    match forms.get(place) {
        Some(form) => left_by_form(network, view, form, point, held, shared),
        None => left_by(network, view, point, held, shared),
    }
}

// What it leaves with a point that has this form.
fn left_by_form(
    network: &Network,
    view: &View,
    form: &Form,
    point: usize,
    held: Tern,
    shared: &mut Shared,
) -> Tern
    requires fit { AreFit network.now.trees.items network.now.drives.items }
    requires points { length network.now.drives.items ≡ length view.now.leads.now }
    requires view { IsView view.now.terns.now view.now.leads.now }
    requires terns { length view.now.terns.now ≡ length view.now.leads.now }
    requires few { length view.now.leads.now ≤ 2 ^ 32 }
    requires within { point < length view.now.leads.now }
    requires form { HasForm network.now.trees.items network.now.drives.items view.now.leads.now view.now.terns.now point form.now }
    requires shared { IsShared network.now.trees.items (length view.now.leads.now) (seen view.now.terns.now view.now.leads.now) shared.old }
    ensures left { plain_tern result ≡ written_by network.now.trees.items (plain_tern held) (seen view.now.terns.now view.now.leads.now) point
        (slice_get network.now.drives.items point) }
    ensures shared { IsShared network.now.trees.items (length view.now.leads.now) (seen view.now.terns.now view.now.leads.now) shared.new }
{
    match form {
        Form::Shows(_) => held,
        Form::Takes(table) => table.value(view.terns),
        Form::Driven => left_by(network, view, point, held, shared),
    }
}

// What it leaves with a point by its drive.
fn left_by(network: &Network, view: &View, point: usize, held: Tern, shared: &mut Shared) -> Tern
    requires fit { AreFit network.now.trees.items network.now.drives.items }
    requires points { length network.now.drives.items ≡ length view.now.leads.now }
    requires view { IsView view.now.terns.now view.now.leads.now }
    requires few { length view.now.leads.now ≤ 2 ^ 32 }
    requires within { point < length view.now.leads.now }
    requires shared { IsShared network.now.trees.items (length view.now.leads.now) (seen view.now.terns.now view.now.leads.now) shared.old }
    ensures left { plain_tern result ≡ written_by network.now.trees.items (plain_tern held) (seen view.now.terns.now view.now.leads.now) point
        (slice_get network.now.drives.items point) }
    ensures shared { IsShared network.now.trees.items (length view.now.leads.now) (seen view.now.terns.now view.now.leads.now) shared.new }
{
    match network.drives[point] {
        Drive::Flop(clock, next) => left_by_flop(network, view, clock, next, held, shared),
        Drive::Hold(_, _) => view.at(point),
        Drive::Given | Drive::Same(_) | Drive::Value(_) => held,
    }
}

// What it leaves with a flip-flop.
fn left_by_flop(
    network: &Network,
    view: &View,
    clock: Clock,
    next: Source,
    held: Tern,
    shared: &mut Shared,
) -> Tern
    requires next { IsFitSource network.now.trees.items (length view.now.leads.now) next }
    requires view { IsView view.now.terns.now view.now.leads.now }
    requires few { length view.now.leads.now ≤ 2 ^ 32 }
    requires shared { IsShared network.now.trees.items (length view.now.leads.now) (seen view.now.terns.now view.now.leads.now) shared.old }
    ensures left { (point : ℕ) → plain_tern result ≡ written_by network.now.trees.items (plain_tern held) (seen view.now.terns.now view.now.leads.now) point (Some (Flop clock next)) }
    ensures shared { IsShared network.now.trees.items (length view.now.leads.now) (seen view.now.terns.now view.now.leads.now) shared.new }
{
    match clock {
        Clock::User => shared.value(&network.trees, next, view),
        Clock::Loader | Clock::Other => held,
    }
}
