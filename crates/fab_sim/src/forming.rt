//! When a run finds forms.

ghost use Rattle.std.specs.Prelude.{◌≡◌, ℕ, [], length, map};
ghost use Rattle.fab_ternary.specs.Terns.{plain_tern};
ghost use Rattle.fab_compiled.specs.Leading.{IsMarked, PointTerns};
ghost use Rattle.fab_network.specs.Network.{AreFit};
ghost use Rattle.fab_network.specs.Passes.{IsListed};
ghost use Rattle.fab_network.specs.Solved.{IsLeast};
ghost use Rattle.fab_demand.specs.Asked.{Asked, DiffersInOwn};
ghost use Rattle.fab_demand.specs.Demand.{AreFormsOf};
ghost use Rattle.fab_phases.specs.Cycles.{AreOnce, IsFed, IsRunningAt, IsTicked};
ghost use Rattle.fab_phases.specs.Running.{AreNumbers};

use fab_demand::Demand;
use fab_network::{Form, Network};
use fab_phases::{cycle, cycle_by};
use fab_ternary::Tern;

/// How many cycles of a run go without forms. To find forms takes as long as they save in 70 to 130 cycles (designs of 113 to 2,444 cells). A shorter
/// run does not pay for them, and a longer one loses by the wait about as much as they cost.
pub const PLAIN_CYCLES: u32 = 100;

/// A run begins, without forms.
pub fn begin_run(plain_left: &mut Option<u32>, forms: &mut Vec<Form>)
    ensures { forms.new.items ≡ [] }
{
    forms.clear();
    *plain_left = Some(PLAIN_CYCLES);
}

/// A cycle begins. Where none is left that goes without forms, they are found.
pub fn begin_cycle(
    network: &Network,
    plain_left: &mut Option<u32>,
    demand: &mut Demand,
    forms: &mut Vec<Form>,
)
    requires fit { AreFit network.now.trees.items network.now.drives.items }
    requires points { length network.now.drives.items ≡ length demand.old.leads }
    requires marked { (point : ℕ) → IsListed demand.old.own point → IsMarked demand.old.marks point }
    requires forms { AreFormsOf network.now demand.old forms.old.items }
    ensures points { length demand.new.leads ≡ length demand.old.leads }
    ensures stays { (asked : Asked) → DiffersInOwn asked demand.old → DiffersInOwn asked demand.new }
    ensures forms { AreFormsOf network.now demand.new forms.new.items }
{
    let Some(left) = *plain_left else {
        return;
    };
    if left > 0 {
        *plain_left = Some(left - 1);
        return;
    }
    *plain_left = None;
    find_forms(network, demand, forms);
}

/// A cycle of a run, by its forms where it has some.
pub fn cycle_in_run(
    network: &Network,
    ins: &[u32],
    outs: &[u32],
    inputs: &[bool],
    forms: &[Form],
    demand: &mut Demand,
    given: &mut [Tern],
    outputs: &mut [Tern],
)
    requires fit { AreFit network.now.trees.items network.now.drives.items }
    requires points { length network.now.drives.items ≡ length demand.old.leads }
    requires given { length given.old ≡ length demand.old.leads }
    requires ins { AreNumbers (length network.now.drives.items) ins.now }
    requires once { AreOnce ins.now }
    requires outs { AreNumbers (length network.now.drives.items) outs.now }
    requires inputs { length inputs.now ≡ length ins.now }
    requires forms { AreFormsOf network.now demand.old forms.now }
    requires outputs { length outputs.old ≡ length outs.now }
    ensures points { length demand.new.leads ≡ length demand.old.leads }
    ensures shows { (held later t : PointTerns) → IsRunningAt network.now ins.now outs.now demand.old given.old held → IsFed ins.now inputs.now held later →
        IsLeast network.now.trees.items network.now.drives.items later t → map plain_tern outputs.new ≡ map t outs.now }
    ensures ticks { (held later t next : PointTerns) → IsRunningAt network.now ins.now outs.now demand.old given.old held → IsFed ins.now inputs.now held later →
        IsLeast network.now.trees.items network.now.drives.items later t → IsTicked network.now ins.now later t next →
        IsRunningAt network.now ins.now outs.now demand.new given.new next }
    ensures forms { AreFormsOf network.now demand.new forms.now }
{
    if forms.len() == 0 {
        cycle(network, ins, outs, inputs, demand, given, outputs);
    } else {
        cycle_by(network, ins, outs, inputs, forms, demand, given, outputs);
    }
}

// Finds the forms of the points that stand for themselves. What the last cycle found of them is forgotten: forms are right whatever these points have.
fn find_forms(network: &Network, demand: &mut Demand, forms: &mut Vec<Form>)
    requires fit { AreFit network.now.trees.items network.now.drives.items }
    requires points { length network.now.drives.items ≡ length demand.old.leads }
    requires marked { (point : ℕ) → IsListed demand.old.own point → IsMarked demand.old.marks point }
    ensures points { length demand.new.leads ≡ length demand.old.leads }
    ensures stays { (asked : Asked) → DiffersInOwn asked demand.old → DiffersInOwn asked demand.new }
    ensures forms { AreFormsOf network.now demand.new forms.new.items }
{
    let count = demand.own().len();
    for place in 0..count {
        demand.set_own(place, Tern::Open);
    }
    demand.find_forms(network, forms);
}
