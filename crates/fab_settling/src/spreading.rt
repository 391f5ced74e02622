//! How what comes to be known spreads: the values of the nodes of wide expressions are kept, and each point that comes to be known changes few of them.

ghost use Rattle.std.specs.Prelude.{◌≡◌, ◌<◌, ◌≤◌, ◌^◌, ℕ, List, true, length, slice_index, IfSome};
ghost use Rattle.fab_compiled.specs.declared.tree.Tree.{Tree};
ghost use Rattle.fab_compiled.specs.Leading.{PointTerns};
ghost use Rattle.fab_compiled.specs.Terns.{seen, IsView};
ghost use Rattle.fab_network.specs.Network.{IsFitDrive, IsFitSource};
ghost use Rattle.fab_settling.specs.Visits.{IsFurther, IsVisit};
ghost use Rattle.fab_settling.specs.Scenes.{scene_of, IsKeptOver, IsReady, IsSpreadOver};
ghost use Rattle.fab_settling.specs.Spreading.{IsKeptOfRun, IsKeptWithin, IsSpread};

use crate::passes::Visit;
use crate::run_values::RunValues;
use crate::scene::Scene;
use crate::within::Within;
use fab_compiled::{Tree, View};
use fab_network::{Drive, Network, Source};
use fab_readers::{Run, Runs};
use fab_ternary::Tern;
use std::alloc::Global;

/// How many values of nodes are kept at once, a byte each.
const MOST_VALUES: usize = 1 << 28;

/// What is kept while points come to be known one by one. Whatever is missing here the next pass finds.
#[derive(Drop)]
pub struct Spread {
    /// By the number of the run.
    pub values: Vec<RunValues>,
    /// Points that have come to be known, and what reads them has not been looked at again.
    pub found: Vec<u32>,
    /// How many more values may be kept.
    pub room: usize,
}

impl Spread {
    /// Nothing is kept.
    pub(crate) fn new(alloc: Global) -> Spread
        ensures { (trees : List Tree) (count : ℕ) (t : PointTerns) → IsSpread trees count t result }
    {
        Spread {
            values: Vec::new(alloc),
            found: Vec::new(alloc),
            room: MOST_VALUES,
        }
    }

    /// Finds the values of each run that has an open point, and looks at the points of these runs.
    pub(crate) fn begin(&mut self, scene: &Scene, runs: &Runs, terns: &mut [Tern])
        requires ready { IsReady (scene_of scene.now) terns.old }
        requires spread { IsSpreadOver scene.now terns.old self.old }
        ensures spread { IsSpreadOver scene.now terns.new self.new }
        ensures further { IsFurther (scene_of scene.now) terns.old terns.new }
    {
        for number in 0..usize::MAX {
            let Some(run) = runs.run(number) else {
                return;
            };
            if !self.add_run(scene, runs, run, terns) {
                return;
            }
            self.look_at_all(scene, runs, number, terns);
        }
    }

    // Finds the values of the next run. Told is whether there was memory to keep it.
    fn add_run(&mut self, scene: &Scene, runs: &Runs, run: Run, terns: &[Tern]) -> bool
        requires ready { IsReady (scene_of scene.now) terns.now }
        requires spread { IsSpreadOver scene.now terns.now self.old }
        ensures { IsSpreadOver scene.now terns.now self.new }
    {
        let values = self.values_of_run(scene, runs, run, terns);
        self.values.push(values).is_ok()
    }

    // The values of a run, as far as memory and room allow. There is nothing to keep where all its points are known.
    fn values_of_run(&mut self, scene: &Scene, runs: &Runs, run: Run, terns: &[Tern]) -> RunValues
        requires ready { IsReady (scene_of scene.now) terns.now }
        ensures values { self.new.values.items ≡ self.old.values.items }
        ensures kept { IsKeptOver scene.now terns.now result }
    {
        if !has_open_point(runs, run, terns) {
            return RunValues::none();
        }
        let view = View {
            terns,
            leads: scene.leads,
        };
        match scene.network.drives.get(run.first as usize) {
            Some(drive) => self.values_of(&scene.network.trees, *drive, &view),
            None => RunValues::none(),
        }
    }

    // The values of the expressions of a drive.
    fn values_of(&mut self, trees: &[Tree], drive: Drive, view: &View) -> RunValues
        requires fit { IsFitDrive trees.now (length view.now.leads.now) drive }
        requires view { IsView view.now.terns.now view.now.leads.now }
        requires small { length view.now.leads.now ≤ 2 ^ 32 }
        ensures values { self.new.values.items ≡ self.old.values.items }
        ensures kept { IsKeptOfRun trees.now (length view.now.leads.now) (seen view.now.terns.now view.now.leads.now) result }
    {
        match drive {
            Drive::Given | Drive::Flop(_, _) | Drive::Same(_) => RunValues::none(),
            Drive::Value(source) => RunValues {
                gate: None,
                bits: self.values_within(trees, source, view),
            },
            Drive::Hold(gate, latched) => RunValues {
                gate: self.values_within(trees, gate, view),
                bits: self.values_within(trees, latched, view),
            },
        }
    }

    // The values of the expression of a source, for which there is less room from then on.
    fn values_within(&mut self, trees: &[Tree], source: Source, view: &View) -> Option<Within>
        requires fit { IsFitSource trees.now (length view.now.leads.now) source }
        requires view { IsView view.now.terns.now view.now.leads.now }
        requires small { length view.now.leads.now ≤ 2 ^ 32 }
        ensures values { self.new.values.items ≡ self.old.values.items }
        ensures kept { IfSome result (IsKeptWithin trees.now (length view.now.leads.now) (seen view.now.terns.now view.now.leads.now)) }
    {
        let alloc = *self.found.allocator();
        let within = Within::of(alloc, trees, source, view, self.room)?;
        self.room = self.room.saturating_sub(within.count());
        Some(within)
    }

    /// A point that has come to be known, and what reads it has not been looked at again.
    pub(crate) fn next_found(&mut self) -> Option<u32>
        ensures { self.new.values.items ≡ self.old.values.items }
    {
        self.found.pop()
    }

    /// What reads a point has to be looked at again where the point has come to be known. Where memory is refused the next pass does that.
    pub(crate) fn note_found(&mut self, point: u32, visit: Visit)
        ensures { self.new.values.items ≡ self.old.values.items }
    {
        match visit {
            Visit::Found => {
                let _ = self.found.push(point);
            }
            Visit::Known | Visit::Still => {}
        }
    }

    /// A point has come to be known: what the runs show by that is found. What is read is the point itself, or one that is led to it.
    pub(crate) fn spread(&mut self, scene: &Scene, runs: &Runs, point: u32, terns: &mut [Tern])
        requires ready { IsReady (scene_of scene.now) terns.old }
        requires spread { IsSpreadOver scene.now terns.old self.old }
        ensures spread { IsSpreadOver scene.now terns.new self.new }
        ensures further { IsFurther (scene_of scene.now) terns.old terns.new }
    {
        let mut next = runs.first_copy(point);
        for _copy in 0..usize::MAX {
            let Some(copy) = next else {
                return;
            };
            next = runs.next_copy(copy);
            self.spread_from(scene, runs, copy, terns);
        }
    }

    // The same of the runs that may read a point under its own number.
    fn spread_from(&mut self, scene: &Scene, runs: &Runs, point: u32, terns: &mut [Tern])
        requires ready { IsReady (scene_of scene.now) terns.old }
        requires spread { IsSpreadOver scene.now terns.old self.old }
        ensures spread { IsSpreadOver scene.now terns.new self.new }
        ensures further { IsFurther (scene_of scene.now) terns.old terns.new }
    {
        let mut next = runs.first_note(point);
        for _note in 0..usize::MAX {
            let Some((number, behind)) = run_of(runs, next) else {
                return;
            };
            next = behind;
            self.spread_by(scene, runs, number, point, terns);
        }
    }

    // The same of one of these runs.
    fn spread_by(
        &mut self,
        scene: &Scene,
        runs: &Runs,
        number: usize,
        point: u32,
        terns: &mut [Tern],
    )
        requires ready { IsReady (scene_of scene.now) terns.old }
        requires spread { IsSpreadOver scene.now terns.old self.old }
        ensures spread { IsSpreadOver scene.now terns.new self.new }
        ensures further { IsFurther (scene_of scene.now) terns.old terns.new }
    {
        if number >= self.values.len() {
            return;
        }
        self.renew_run(scene, number, point, terns);
        if self.has_new_gate(scene, runs, number) {
            self.look_at_all(scene, runs, number, terns);
        } else {
            self.look_at_new(scene, runs, number, terns);
        }
    }

    // What is known of the expressions of a run by one more point is found.
    fn renew_run(&mut self, scene: &Scene, number: usize, point: u32, terns: &[Tern])
        requires ready { IsReady (scene_of scene.now) terns.now }
        requires within { number < length self.old.values.items }
        requires spread { IsSpreadOver scene.now terns.now self.old }
        ensures { IsSpreadOver scene.now terns.now self.new }
    {
        let view = View {
            terns,
            leads: scene.leads,
        };
        self.values[number].renew(&scene.network.trees, &view, point);
    }

    // Whether the gate of a run may have come to be known when its values were renewed.
    fn has_new_gate(&self, scene: &Scene, runs: &Runs, number: usize) -> bool {
        let (Some(run), Some(values)) = (runs.run(number), self.values.get(number)) else {
            return false;
        };
        match scene.network.drives.get(run.first as usize) {
            Some(drive) => values.has_new_gate(*drive),
            None => false,
        }
    }

    // Looks at all points of a run.
    fn look_at_all(&mut self, scene: &Scene, runs: &Runs, number: usize, terns: &mut [Tern])
        requires ready { IsReady (scene_of scene.now) terns.old }
        requires spread { IsSpreadOver scene.now terns.old self.old }
        ensures spread { IsSpreadOver scene.now terns.new self.new }
        ensures further { IsFurther (scene_of scene.now) terns.old terns.new }
    {
        let Some(run) = runs.run(number) else {
            return;
        };
        for nth in 0..run.count {
            self.look(scene, runs, number, run.first.saturating_add(nth), terns);
        }
    }

    // Looks at the points of a run that show the bits that may have come to be known when its values were renewed.
    fn look_at_new(&mut self, scene: &Scene, runs: &Runs, number: usize, terns: &mut [Tern])
        requires ready { IsReady (scene_of scene.now) terns.old }
        requires spread { IsSpreadOver scene.now terns.old self.old }
        ensures spread { IsSpreadOver scene.now terns.new self.new }
        ensures further { IsFurther (scene_of scene.now) terns.old terns.new }
    {
        for nth in 0..usize::MAX {
            let Some(bit) = self.renewed_bit(number, nth) else {
                return;
            };
            self.look_at_bit(scene, runs, number, bit, terns);
        }
    }

    // One of those bits, by its number among them.
    fn renewed_bit(&self, number: usize, nth: usize) -> Option<u32> {
        self.values.get(number)?.renewed_bit(nth)
    }

    // Looks at the point of a run that shows this bit, if one does.
    fn look_at_bit(
        &mut self,
        scene: &Scene,
        runs: &Runs,
        number: usize,
        bit: u32,
        terns: &mut [Tern],
    )
        requires ready { IsReady (scene_of scene.now) terns.old }
        requires spread { IsSpreadOver scene.now terns.old self.old }
        ensures spread { IsSpreadOver scene.now terns.new self.new }
        ensures further { IsFurther (scene_of scene.now) terns.old terns.new }
    {
        let Some(run) = runs.run(number) else {
            return;
        };
        if let Some(point) = point_of_bit(scene.network, run, bit) {
            self.look(scene, runs, number, point, terns);
        }
    }

    // Looks at a point of a run by what is kept of its expressions.
    fn look(&mut self, scene: &Scene, runs: &Runs, number: usize, point: u32, terns: &mut [Tern])
        requires ready { IsReady (scene_of scene.now) terns.old }
        requires spread { IsSpreadOver scene.now terns.old self.old }
        ensures spread { IsSpreadOver scene.now terns.new self.new }
        ensures further { IsFurther (scene_of scene.now) terns.old terns.new }
    {
        let Some(place) = runs.place_of(point) else {
            return;
        };
        if number >= self.values.len() || scene.order.get(place).copied() != Some(point) {
            return;
        }
        let visit = look_within(scene, &self.values[number], place, terns);
        self.note_found(point, visit);
    }
}

// The run of a note, and the next note, if there is one.
fn run_of(runs: &Runs, note: Option<u32>) -> Option<(usize, Option<u32>)> {
    runs.noted(note?)
}

// Whether a point of a run that stands for itself is open.
fn has_open_point(runs: &Runs, run: Run, terns: &[Tern]) -> bool {
    for nth in 0..run.count {
        let point = run.first.saturating_add(nth);
        if let (Some(Tern::Open), Some(_)) = (terns.get(point as usize), runs.place_of(point)) {
            return true;
        }
    }
    false
}

// The point of a run that shows a bit of its expression.
fn point_of_bit(network: &Network, run: Run, bit: u32) -> Option<u32> {
    let first_bit = match network.drives.get(run.first as usize)? {
        Drive::Given | Drive::Flop(_, _) | Drive::Same(_) => return None,
        Drive::Value(source) | Drive::Hold(_, source) => source.bit,
    };
    let nth = bit.checked_sub(first_bit)?;
    if nth >= run.count {
        return None;
    }
    run.first.checked_add(nth)
}

// One look at the point at a place of the order, by what is kept of the expressions of its run.
fn look_within(scene: &Scene, values: &RunValues, place: usize, terns: &mut [Tern]) -> Visit
    requires ready { IsReady (scene_of scene.now) terns.old }
    requires within { place < length scene.now.order.now }
    requires kept { IsKeptOver scene.now terns.old values.now }
    ensures { IsVisit (scene_of scene.now) true (slice_index scene.now.order.now place) terns.old terns.new result }
{
    let point = scene.order[place] as usize;
    if !terns[point].is_open() {
        return Visit::Known;
    }
    let view = View {
        terns,
        leads: scene.leads,
    };
    let found = values.shown(scene.network, point, scene.held[point], &view);
    if found.is_open() {
        return Visit::Still;
    }
    terns[point] = found;
    Visit::Found
}
