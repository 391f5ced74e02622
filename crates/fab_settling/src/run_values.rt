//! What is kept of the expressions of a run.

ghost use Rattle.std.specs.Prelude.{◌≡◌, ◌≤◌, ◌^◌, ℕ, List, Some, length, IfSome};
ghost use Rattle.fab_systems_laws.specs.Ternary.{IsBelow};
ghost use Rattle.fab_ternary.specs.Terns.{plain_tern};
ghost use Rattle.fab_compiled.specs.declared.tree.Tree.{Tree};
ghost use Rattle.fab_compiled.specs.Leading.{PointTerns};
ghost use Rattle.fab_compiled.specs.Terns.{seen, IsView};
ghost use Rattle.fab_network.specs.Network.{drive_tern, shown_tern, source_tern, AreFit, IsFitDrive, IsFitSource};
ghost use Rattle.fab_settling.specs.Spreading.{IsKeptOfRun, IsKeptWithin};

use crate::within::Within;
use fab_compiled::{Tree, View, through};
use fab_network::{Drive, Network, Source};
use fab_ternary::Tern;

/// What is kept of the expressions of a run.
#[derive(Drop)]
pub struct RunValues {
    /// Of the gate of its latches. There is nothing where its points are no latches, where none of them was open at first, or where memory was refused.
    pub gate: Option<Within>,
    /// Of what its points show, or its latches take. There may be nothing for the same reasons.
    pub bits: Option<Within>,
}

impl RunValues {
    /// Nothing is kept.
    pub(crate) fn none() -> RunValues
        ensures { (trees : List Tree) (count : ℕ) (t : PointTerns) → IsKeptOfRun trees count t result }
    {
        RunValues {
            gate: None,
            bits: None,
        }
    }

    /// What a point shows by what is kept, where a latch holds this value, or less.
    pub(crate) fn shown(&self, network: &Network, point: usize, held: Tern, view: &View) -> Tern
        requires fit { AreFit network.now.trees.items network.now.drives.items }
        requires points { length network.now.drives.items ≡ length view.now.leads.now }
        requires view { IsView view.now.terns.now view.now.leads.now }
        requires small { length view.now.leads.now ≤ 2 ^ 32 }
        requires kept { IsKeptOfRun network.now.trees.items (length view.now.leads.now) (seen view.now.terns.now view.now.leads.now) self.now }
        ensures { IsBelow (plain_tern result)
            (shown_tern network.now.trees.items network.now.drives.items (plain_tern held) (seen view.now.terns.now view.now.leads.now) point) }
    {
        match network.drives.get(point) {
            Some(drive) => self.shown_by(&network.trees, *drive, point, held, view),
            None => Tern::Open,
        }
    }

    // What a point of this drive shows by what is kept, or less.
    fn shown_by(&self, trees: &[Tree], drive: Drive, point: usize, held: Tern, view: &View) -> Tern
        requires fit { IsFitDrive trees.now (length view.now.leads.now) drive }
        requires view { IsView view.now.terns.now view.now.leads.now }
        requires small { length view.now.leads.now ≤ 2 ^ 32 }
        requires kept { IsKeptOfRun trees.now (length view.now.leads.now) (seen view.now.terns.now view.now.leads.now) self.now }
        ensures { IsBelow (plain_tern result) (drive_tern trees.now (plain_tern held) (seen view.now.terns.now view.now.leads.now) point (Some drive)) }
    {
        match drive {
            Drive::Given | Drive::Flop(_, _) | Drive::Same(_) => Tern::Open,
            Drive::Value(source) => bit_of(&self.bits, trees, source, view),
            Drive::Hold(gate, latched) => {
                let gate = bit_of(&self.gate, trees, gate, view);
                let data = bit_of(&self.bits, trees, latched, view);
                through(gate, data, held)
            }
        }
    }

    /// A point has come to be known: what is known of the expressions by that is found.
    pub(crate) fn renew(&mut self, trees: &[Tree], view: &View, point: u32)
        requires view { IsView view.now.terns.now view.now.leads.now }
        requires small { length view.now.leads.now ≤ 2 ^ 32 }
        requires kept { IsKeptOfRun trees.now (length view.now.leads.now) (seen view.now.terns.now view.now.leads.now) self.old }
        ensures { IsKeptOfRun trees.now (length view.now.leads.now) (seen view.now.terns.now view.now.leads.now) self.new }
    {
        renew_part(&mut self.gate, trees, view, point);
        renew_part(&mut self.bits, trees, view, point);
    }

    /// Whether the bit of the gate may have come to be known at the last `renew`.
    pub(crate) fn has_new_gate(&self, drive: Drive) -> bool {
        match (&self.gate, drive) {
            (Some(within), Drive::Hold(gate, _)) => within.is_renewed(gate.bit),
            _ => false,
        }
    }

    /// One of the other bits that may have come to be known then, by its number among them.
    pub(crate) fn renewed_bit(&self, number: usize) -> Option<u32> {
        match &self.bits {
            Some(within) => within.renewed_bit(number),
            None => None,
        }
    }
}

// A bit by what is kept.
fn bit_of(part: &Option<Within>, trees: &[Tree], source: Source, view: &View) -> Tern
    requires fit { IsFitSource trees.now (length view.now.leads.now) source }
    requires view { IsView view.now.terns.now view.now.leads.now }
    requires small { length view.now.leads.now ≤ 2 ^ 32 }
    requires kept { IfSome part.now (IsKeptWithin trees.now (length view.now.leads.now) (seen view.now.terns.now view.now.leads.now)) }
    ensures { IsBelow (plain_tern result) (source_tern trees.now (seen view.now.terns.now view.now.leads.now) source) }
{
    match part {
        Some(within) => within.bit(trees, source, view),
        None => Tern::Open,
    }
}

// What is known by one more point is found.
fn renew_part(part: &mut Option<Within>, trees: &[Tree], view: &View, point: u32)
    requires view { IsView view.now.terns.now view.now.leads.now }
    requires small { length view.now.leads.now ≤ 2 ^ 32 }
    requires kept { IfSome part.old (IsKeptWithin trees.now (length view.now.leads.now) (seen view.now.terns.now view.now.leads.now)) }
    ensures { IfSome part.new (IsKeptWithin trees.now (length view.now.leads.now) (seen view.now.terns.now view.now.leads.now)) }
{
    match part {
        Some(within) => within.renew(trees, view, point),
        None => {}
    }
}
