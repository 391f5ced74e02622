//! What a point needs, or where it leads, by its drive.

ghost use Rattle.std.specs.Prelude.{◌≡◌, ◌≢◌, ◌<◌, ◌≤◌, ◌^◌, length, slice_get};
ghost use Rattle.fab_ternary.specs.Terns.{plain_tern};
ghost use Rattle.fab_compiled.specs.Leading.{PointLeads};
ghost use Rattle.fab_compiled.specs.Terns.{IsView};
ghost use Rattle.fab_compiled.specs.declared.leads.Lead.TheVariants.{Own};
ghost use Rattle.fab_network.specs.declared.network.Drive.TheVariants.{Flop, Hold};
ghost use Rattle.fab_network.specs.Network.{AreFit, IsFitDrive, IsFitSource};
ghost use Rattle.fab_network.specs.Passes.{kept_tern};
ghost use Rattle.fab_demand.specs.Gates.{AreGates};
ghost use Rattle.fab_demand.specs.inner.Looking.{lead_given, own_or_unmarked, Finds};

use crate::gates::{Gate, Gates};
use fab_compiled::{Lead, Tree, View};
use fab_network::{Clock, Drive, Network, Source, lead_of_source};
use fab_ternary::Tern;

/// Where a point leads, by its drive and what is given to it; or a point that it needs and that has not been asked for.
pub(crate) fn look(
    network: &Network,
    clock: Clock,
    given: &[Tern],
    point: usize,
    view: &View,
    marks: &[bool],
    gates: &mut Gates,
) -> Lead
    requires fit { AreFit network.now.trees.items network.now.drives.items }
    requires points { length network.now.drives.items ≡ length view.now.leads.now }
    requires given { length given.now ≡ length view.now.leads.now }
    requires view { IsView view.now.terns.now view.now.leads.now }
    requires few { length view.now.leads.now ≤ 2 ^ 32 }
    requires marks { length marks.now ≡ length view.now.leads.now }
    requires within { point < length view.now.leads.now }
    requires gates { AreGates network.now.trees.items view.now.terns.now view.now.leads.now marks.now gates.old.kept.items }
    ensures finds { Finds network.now.trees.items clock (kept_tern given.now point) view.now.terns.now view.now.leads.now marks.now
        (slice_get network.now.drives.items point) result }
    ensures registers { (next : Source) → slice_get network.now.drives.items point ≡ Some (Flop clock next) → result ≡ Own }
    ensures gates { AreGates network.now.trees.items view.now.terns.now view.now.leads.now marks.now gates.new.kept.items }
{
    match network.drives.get(point) {
        Some(drive) => look_by(
            &network.trees,
            *drive,
            clock,
            given[point],
            view,
            marks,
            gates,
        ),
        None => Lead::Own,
    }
}

// Where a point leads by this drive.
fn look_by(
    trees: &[Tree],
    drive: Drive,
    clock: Clock,
    given: Tern,
    view: &View,
    marks: &[bool],
    gates: &mut Gates,
) -> Lead
    requires fit { IsFitDrive trees.now (length view.now.leads.now) drive }
    requires view { IsView view.now.terns.now view.now.leads.now }
    requires few { length view.now.leads.now ≤ 2 ^ 32 }
    requires marks { length marks.now ≡ length view.now.leads.now }
    requires gates { AreGates trees.now view.now.terns.now view.now.leads.now marks.now gates.old.kept.items }
    ensures finds { Finds trees.now clock (plain_tern given) view.now.terns.now view.now.leads.now marks.now (Some drive) result }
    ensures registers { (next : Source) → drive ≡ Flop clock next → result ≡ Own }
    ensures gates { AreGates trees.now view.now.terns.now view.now.leads.now marks.now gates.new.kept.items }
{
    match drive {
        Drive::Given => given_lead(given),
        Drive::Flop(own, _) => flop_lead(own, clock, given),
        Drive::Same(other) => same_lead(other, view, marks),
        Drive::Value(source) => lead_of_source(trees, source, view, marks),
        Drive::Hold(gate, latched) => {
            latch_lead(trees, gate, latched, given, view, marks, gates)
        }
    }
}

// A value that is given for good.
fn given_lead(given: Tern) -> Lead
    ensures { result ≡ lead_given (plain_tern given) }
{
    match given {
        Tern::No => Lead::Known(false),
        Tern::Yes => Lead::Known(true),
        Tern::Open => Lead::Own,
    }
}

// A flip-flop holds what is given, as long as its clock does not tick.
fn flop_lead(own: Clock, clock: Clock, given: Tern) -> Lead
    ensures ticks { own ≡ clock → result ≡ Own }
    ensures stays { own ≢ clock → result ≡ lead_given (plain_tern given) }
{
    if own == clock {
        Lead::Own
    } else {
        given_lead(given)
    }
}

// What another point has.
fn same_lead(other: u32, view: &View, marks: &[bool]) -> Lead
    requires marks { length marks.now ≡ length view.now.leads.now }
    requires within { other < length marks.now }
    ensures { PointLeads view.now.leads.now marks.now other result }
{
    if marks[other as usize] {
        Lead::Point(view.leads[other as usize])
    } else {
        Lead::Unmarked(other)
    }
}

// A latch: its data where its gate is 1, and what is given where the gate is 0.
fn latch_lead(
    trees: &[Tree],
    gate: Source,
    latched: Source,
    given: Tern,
    view: &View,
    marks: &[bool],
    gates: &mut Gates,
) -> Lead
    requires gate { IsFitSource trees.now (length view.now.leads.now) gate }
    requires latched { IsFitSource trees.now (length view.now.leads.now) latched }
    requires view { IsView view.now.terns.now view.now.leads.now }
    requires few { length view.now.leads.now ≤ 2 ^ 32 }
    requires marks { length marks.now ≡ length view.now.leads.now }
    requires gates { AreGates trees.now view.now.terns.now view.now.leads.now marks.now gates.old.kept.items }
    ensures finds { (clock : Clock) →
        Finds trees.now clock (plain_tern given) view.now.terns.now view.now.leads.now marks.now (Some (Hold gate latched)) result }
    ensures gates { AreGates trees.now view.now.terns.now view.now.leads.now marks.now gates.new.kept.items }
{
    match gates.tell(trees, gate, view, marks) {
        Ok(Gate::Known(true)) => lead_of_source(trees, latched, view, marks),
        Ok(Gate::Known(false)) => given_lead(given),
        Ok(Gate::Depends) => own_unless_unmarked(lead_of_source(trees, latched, view, marks)),
        Err(needed) => Lead::Unmarked(needed),
    }
}

// What stands for itself as soon as all that it needs is marked.
fn own_unless_unmarked(lead: Lead) -> Lead
    ensures { result ≡ own_or_unmarked lead }
{
    match lead {
        Lead::Unmarked(point) => Lead::Unmarked(point),
        Lead::Known(_) | Lead::Point(_) | Lead::Own => Lead::Own,
    }
}
