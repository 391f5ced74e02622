//! The value of one expression, for bits of it that are looked at one after another.

ghost use Rattle.std.specs.Prelude.{◌≡◌, ◌<◌, ◌≤◌, ◌^◌, ℕ, List, false, true, length, slice_get, IfSome, Some};
ghost use Rattle.fab_systems_laws.specs.Ternary.{IsBelow};
ghost use Rattle.fab_ternary.specs.Terns.{is_known, plain_tern};
ghost use Rattle.fab_compiled.specs.declared.tree.Tree.{Tree};
ghost use Rattle.fab_compiled.specs.Leading.{PointTerns};
ghost use Rattle.fab_compiled.specs.Terns.{seen, IsView};
ghost use Rattle.fab_network.specs.Network.{source_tern, IsFitSource};
ghost use Rattle.fab_network.specs.Sharing.{AreShared, IsShared};

use crate::network::{Source, evaluate};
use fab_base::Memory;
use fab_compiled::{Tree, View, whole_into};
use fab_plans::Plan;
use fab_ternary::Tern;
use std::alloc::Global;

/// The expression that was looked at last, and all bits of its value as soon as more are asked for: so the operands of `-` are gone through once for all
/// bits of a difference that follow one another, and those of a wide expression in one walk. Where there is no memory, each bit is evaluated alone.
#[derive(Drop)]
pub struct Shared {
    /// The number of its tree.
    pub tree: u32,
    /// The first point of its instance.
    pub first: u32,
    /// Whether nothing has come to be known of points since the bits were found. What was known then is right in any case.
    pub exact: bool,
    /// When its bits are found together.
    pub plan: Plan,
    /// Its bits, or none.
    pub bits: Vec<Tern>,
    /// How many looks there were at bits that are not kept: before any was found, or open when they were found, behind something that has come to be
    /// known since.
    pub open_looks: u32,
}

impl Shared {
    /// Nothing has been looked at.
    pub fn new(alloc: Global) -> Shared
        ensures { (trees : List Tree) (count : ℕ) (t : PointTerns) → IsShared trees count t result }
    {
        Shared {
            tree: u32::MAX,
            first: 0,
            exact: false,
            plan: Plan::Undecided,
            bits: Vec::new(alloc),
            open_looks: 0,
        }
    }

    /// What a source has.
    pub fn value(&mut self, trees: &[Tree], source: Source, view: &View) -> Tern
        requires fit { IsFitSource trees.now (length view.now.leads.now) source }
        requires view { IsView view.now.terns.now view.now.leads.now }
        requires small { length view.now.leads.now ≤ 2 ^ 32 }
        requires shared { IsShared trees.now (length view.now.leads.now) (seen view.now.terns.now view.now.leads.now) self.old }
        ensures value { plain_tern result ≡ source_tern trees.now (seen view.now.terns.now view.now.leads.now) source }
        ensures shared { IsShared trees.now (length view.now.leads.now) (seen view.now.terns.now view.now.leads.now) self.new }
    {
        if self.tree != source.tree || self.first != source.first {
            self.turn_to(source.tree, source.first);
            return evaluate(trees, source, view);
        }
        if let Some(bit) = self.kept(source.bit) {
            return bit;
        }
        if !self.is_due(trees) {
            return evaluate(trees, source, view);
        }
        self.find(trees, source, view);
        match self.kept(source.bit) {
            Some(bit) => bit,
            None => evaluate(trees, source, view),
        }
    }

    /// More may be known of points from now on.
    pub fn note_change(&mut self)
        ensures { (trees : List Tree) (count : ℕ) (t u : PointTerns) → ((point : ℕ) → point < count → IsBelow (t point) (u point)) →
            IsShared trees count t self.old → IsShared trees count u self.new }
    {
        self.exact = false;
    }

    /// Nothing has been looked at, as after `new`. The room of the list stays, for the expressions that are looked at from now on.
    pub fn forget(&mut self)
        ensures { (trees : List Tree) (count : ℕ) (t : PointTerns) → IsShared trees count t self.new }
    {
        self.turn_to(u32::MAX, 0);
    }

    // Another expression is looked at.
    fn turn_to(&mut self, tree: u32, first: u32)
        ensures { (trees : List Tree) (count : ℕ) (t : PointTerns) → IsShared trees count t self.new }
    {
        self.tree = tree;
        self.first = first;
        self.plan = Plan::Undecided;
        self.bits.clear();
        self.open_looks = 0;
    }

    // Whether all bits are found now: after as many looks as the plan says, twice as many and so on. In a loop through a difference something may come to
    // be known between any two looks, and each time all open bits have to be found anew.
    fn is_due(&mut self, trees: &[Tree]) -> bool
        ensures tree { self.new.tree ≡ self.old.tree }
        ensures first { self.new.first ≡ self.old.first }
        ensures shared { (trees : List Tree) (count : ℕ) (t : PointTerns) → IsShared trees count t self.old → IsShared trees count t self.new }
    {
        self.plan = self.plan.decided(trees.get(self.tree as usize));
        let Some(looks) = self.plan.looks() else {
            return false;
        };
        self.open_looks = self.open_looks.saturating_add(1);
        if self.open_looks < looks {
            return false;
        }
        self.plan = self.plan.doubled();
        true
    }

    /// What a source has, where another look follows. A bit that was open when all bits were found counts as open.
    pub(crate) fn value_meanwhile(&mut self, trees: &[Tree], source: Source, view: &View) -> Tern
        requires fit { IsFitSource trees.now (length view.now.leads.now) source }
        requires view { IsView view.now.terns.now view.now.leads.now }
        requires small { length view.now.leads.now ≤ 2 ^ 32 }
        requires shared { IsShared trees.now (length view.now.leads.now) (seen view.now.terns.now view.now.leads.now) self.old }
        ensures below { IsBelow (plain_tern result) (source_tern trees.now (seen view.now.terns.now view.now.leads.now) source) }
        ensures shared { IsShared trees.now (length view.now.leads.now) (seen view.now.terns.now view.now.leads.now) self.new }
    {
        if self.may_wait(source) {
            Tern::Open
        } else {
            self.value(trees, source, view)
        }
    }

    // Whether a bit was open when all bits of its expression were found.
    fn may_wait(&self, source: Source) -> bool {
        let has_bits = self.is_of(source) && self.bits.len() > 0;
        has_bits && self.kept(source.bit).is_none()
    }

    // Whether the expression is that of a source.
    fn is_of(&self, source: Source) -> bool {
        self.tree == source.tree && self.first == source.first
    }

    // Finds all bits of the expression.
    fn find(&mut self, trees: &[Tree], source: Source, view: &View)
        requires fit { IsFitSource trees.now (length view.now.leads.now) source }
        requires view { IsView view.now.terns.now view.now.leads.now }
        requires small { length view.now.leads.now ≤ 2 ^ 32 }
        requires tree { self.old.tree ≡ source.tree }
        requires first { self.old.first ≡ source.first }
        requires shared { IsShared trees.now (length view.now.leads.now) (seen view.now.terns.now view.now.leads.now) self.old }
        ensures tree { self.new.tree ≡ source.tree }
        ensures first { self.new.first ≡ source.first }
        ensures shared { IsShared trees.now (length view.now.leads.now) (seen view.now.terns.now view.now.leads.now) self.new }
    {
        let tree = &trees[source.tree as usize];
        match whole_into(tree, source.first as usize, view, &mut self.bits) {
            Ok(()) => self.exact = true,
            Err(Memory) => self.give_up(),
        }
    }

    // There is no memory for all bits: each is evaluated alone from now on.
    fn give_up(&mut self)
        ensures tree { self.new.tree ≡ self.old.tree }
        ensures first { self.new.first ≡ self.old.first }
        ensures shared { (trees : List Tree) (count : ℕ) (t : PointTerns) → IsShared trees count t self.new }
    {
        self.bits.clear();
        self.plan = Plan::Never;
    }

    // A bit that is kept, if it is right.
    fn kept(&self, bit: u32) -> Option<Tern>
        ensures is { IfSome result (λ kept. slice_get self.now.bits.items bit ≡ Some kept) }
        ensures right { IfSome result (λ kept. self.now.exact ≡ false → is_known (plain_tern kept) ≡ true) }
    {
        let kept = *self.bits.get(bit as usize)?;
        if self.exact || !kept.is_open() {
            Some(kept)
        } else {
            None
        }
    }
}

/// What a pass keeps of expressions: of those of points, and of gates, since latches that follow one another may have one gate.
#[derive(Drop)]
pub struct KeptValues {
    pub points: Shared,
    pub gates: Shared,
}

impl KeptValues {
    /// Nothing has been looked at.
    pub fn new(alloc: Global) -> KeptValues
        ensures { (trees : List Tree) (count : ℕ) (t : PointTerns) → AreShared trees count t result }
    {
        KeptValues {
            points: Shared::new(alloc),
            gates: Shared::new(alloc),
        }
    }

    /// More may be known of points from now on.
    pub fn note_change(&mut self)
        ensures { (trees : List Tree) (count : ℕ) (t u : PointTerns) → ((point : ℕ) → point < count → IsBelow (t point) (u point)) →
            AreShared trees count t self.old → AreShared trees count u self.new }
    {
        self.points.note_change();
        self.gates.note_change();
    }
}
