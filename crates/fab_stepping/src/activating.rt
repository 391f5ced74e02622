//! Activations of points.

ghost use Rattle.std.specs.Prelude.{◌≡◌, ◌↔◌, ◌<◌, ◌≤◌, ◌^◌, ◌||◌, ◌&&◌, false, true, Some, length, slice_set, All, IsTrue};
ghost use Rattle.fab_ternary.specs.Terns.{is_known, plain_tern};
ghost use Rattle.fab_compiled.specs.Terns.{seen, IsView};
ghost use Rattle.fab_network.specs.Network.{source_tern, AreFit, IsFitDrive, IsFitSource};
ghost use Rattle.fab_network.specs.Passes.{kept_tern};
ghost use Rattle.fab_network.specs.Solved.{asked_by};
ghost use Rattle.fab_wiring.specs.Given.{given_at};
ghost use Rattle.fab_stepping.specs.Boards.{IsBoardOf, LeadToThemselves};
ghost use Rattle.fab_stepping.specs.Activating.{AreActivated, AreApart, HasChanged, IsActivated, IsHeldAt};
ghost use Rattle.fab_stepping.specs.inner.Known.{AreAllKnown};

use crate::board::Board;
use crate::known_bits::{are_known, known_bit};
use fab_compiled::{Tree, View, through};
use fab_network::{Drive, Network, Source, evaluate};
use fab_ternary::Tern;

impl Board {
    /// Activates points in an order, and tells whether one changed that a solution knows.
    pub fn activate_all(&mut self, network: &Network, order: &[u32], solution: &[Tern]) -> bool
        requires fit { AreFit network.now.trees.items network.now.drives.items }
        requires board { IsBoardOf network.now self.old }
        requires order { All (λ point. point < length network.now.drives.items) order.now }
        requires apart { AreApart order.now }
        requires solution { length solution.now ≡ length network.now.drives.items }
        ensures board { IsBoardOf network.now self.new }
        ensures activated { AreActivated network.now order.now self.old self.new }
        ensures changed { IsTrue result ↔ HasChanged solution.now self.old self.new }
    {
        let mut changed = false;
        let mut known = are_known(&self.terns);
        for point in order {
            let point = *point as usize;
            let moved = self.activate(network, point, known);
            known = known && !self.terns[point].is_open();
            changed = noted(changed, moved, solution[point]);
        }
        changed
    }

    // Activates a point, and tells whether it changed. It is told where all points are known.
    fn activate(&mut self, network: &Network, point: usize, known: bool) -> bool
        requires fit { AreFit network.now.trees.items network.now.drives.items }
        requires board { IsBoardOf network.now self.old }
        requires known { known ≡ true → AreAllKnown self.old.terns.items }
        requires within { point < length network.now.drives.items }
        ensures board { IsBoardOf network.now self.new }
        ensures activated { IsActivated network.now point self.old self.new }
        ensures moved { (result ≡ false) ↔ (kept_tern self.new.terns.items point ≡ kept_tern self.old.terns.items point) }
    {
        let drive = network.drives[point];
        let held = self.held[point];
        let found = asked(&network.trees, drive, point, held, known, &self.view());
        self.hold(drive, point, found);
        self.show(point, found)
    }

    // What a latch holds where its point has this; nothing else changes.
    fn hold(&mut self, drive: Drive, point: usize, found: Tern)
        requires { point < length self.old.held.items }
        ensures terns { self.new.terns ≡ self.old.terns }
        ensures leads { self.new.leads ≡ self.old.leads }
        ensures held { IsHeldAt (Some drive) point found self.old.held.items self.new.held.items }
    {
        if let Drive::Hold(_, _) = drive {
            self.held[point] = found;
        }
    }

    // Gives a point a value, and tells whether it had another one.
    fn show(&mut self, point: usize, found: Tern) -> bool
        requires { point < length self.old.terns.items }
        ensures terns { self.new.terns.items ≡ slice_set self.old.terns.items point found }
        ensures held { self.new.held ≡ self.old.held }
        ensures leads { self.new.leads ≡ self.old.leads }
        ensures moved { (result ≡ false) ↔ (plain_tern found ≡ kept_tern self.old.terns.items point) }
    {
        let moved = self.terns[point] != found;
        self.terns[point] = found;
        moved
    }
}

// Whether a known point has changed, where one did before, or this one moved.
fn noted(changed: bool, moved: bool, known: Tern) -> bool
    ensures { result ≡ (changed || (moved && is_known (plain_tern known))) }
{
    changed || (moved && !known.is_open())
}

// What the drive of a point asks of it, where this is held for it.
fn asked(trees: &[Tree], drive: Drive, point: usize, held: Tern, known: bool, view: &View) -> Tern
    requires fit { IsFitDrive trees.now (length view.now.leads.now) drive }
    requires view { IsView view.now.terns.now view.now.leads.now }
    requires own { LeadToThemselves (length view.now.terns.now) view.now.leads.now }
    requires known { known ≡ true → AreAllKnown view.now.terns.now }
    requires few { length view.now.leads.now ≤ 2 ^ 32 }
    requires within { point < length view.now.leads.now }
    ensures { plain_tern result ≡ asked_by trees.now (given_at (Some drive) (seen view.now.terns.now view.now.leads.now point) (plain_tern held))
        (seen view.now.terns.now view.now.leads.now) (Some drive) }
{
    match drive {
        Drive::Given => view.at(point),
        Drive::Flop(_, _) => held,
        Drive::Same(other) => view.at(other as usize),
        Drive::Value(source) => source_value(trees, source, known, view),
        Drive::Hold(gate, latched) => {
            let gate = source_value(trees, gate, known, view);
            through(gate, source_value(trees, latched, known, view), held)
        }
    }
}

// What a source has. It is found faster where all points are known.
fn source_value(trees: &[Tree], source: Source, known: bool, view: &View) -> Tern
    requires fit { IsFitSource trees.now (length view.now.leads.now) source }
    requires view { IsView view.now.terns.now view.now.leads.now }
    requires few { length view.now.leads.now ≤ 2 ^ 32 }
    requires own { LeadToThemselves (length view.now.terns.now) view.now.leads.now }
    requires known { known ≡ true → AreAllKnown view.now.terns.now }
    ensures { plain_tern result ≡ source_tern trees.now (seen view.now.terns.now view.now.leads.now) source }
{
    if !known {
        return evaluate(trees, source, view);
    }
    let tree = &trees[source.tree as usize];
    let bit = known_bit(tree, u64::from(source.bit), source.first as usize, view);
    Tern::known(bit)
}
