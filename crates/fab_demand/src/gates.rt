//! What gates are found to be, so that one that takes long is not evaluated anew for each bit behind it.

ghost use Rattle.std.specs.Prelude.{◌≡◌, ◌⊎◌, ◌≤◌, ◌^◌, ℕ, [], Bool, List, false, length, slice_get, IfErr, IfOk, IfSome, Some};
ghost use Rattle.fab_ternary.specs.declared.Tern.{Tern};
ghost use Rattle.fab_compiled.specs.declared.tree.Tree.{Tree};
ghost use Rattle.fab_compiled.specs.Terns.{IsView};
ghost use Rattle.fab_network.specs.Network.{IsFitSource};
ghost use Rattle.fab_demand.specs.declared.gates.KeptGate.{KeptGate};
ghost use Rattle.fab_demand.specs.Gates.{AreGates, IsGate};

use fab_base::Memory;
use fab_compiled::{Lead, Tree, View};
use fab_network::{Source, lead_of_source};
use fab_plans::are_found_together;
use std::alloc::Global;

/// Of how many gates it is kept at a time what they are.
const PLACES: usize = 64;

/// What a gate is, as long as nothing known is denied.
#[derive(Clone, Copy, Debug)]
pub enum Gate {
    /// It is 1 or 0.
    Known(bool),
    /// It depends on points alone that have been asked for.
    Depends,
}

/// A gate, and what it is.
#[derive(Clone, Copy, Debug)]
pub struct KeptGate {
    pub source: Source,
    pub gate: Gate,
}

/// What gates are that take long, by places that each has for itself as long as no other needs it. That stays right while a search goes on, since more comes to
/// be known of points, and more of them are asked for.
#[derive(Drop)]
pub struct Gates {
    /// Nothing, or a gate at each place: at first the same at all of them.
    pub kept: Vec<KeptGate>,
}

impl Gates {
    /// Nothing is kept. All memory that is needed is taken here.
    pub(crate) fn new(alloc: Global) -> Result<Gates, Memory> {
        Ok(Gates {
            kept: Vec::with_capacity(alloc, PLACES)?,
        })
    }

    /// Nothing is kept any more, since gates of another network may be asked for.
    pub(crate) fn forget(&mut self)
        ensures { self.new.kept.items ≡ [] }
    {
        self.kept.clear();
    }

    /// What a gate is, or a point that it needs and that has not been asked for.
    pub(crate) fn tell(
        &mut self,
        trees: &[Tree],
        source: Source,
        view: &View,
        marks: &[bool],
    ) -> Result<Gate, u32>
        requires fit { IsFitSource trees.now (length view.now.leads.now) source }
        requires view { IsView view.now.terns.now view.now.leads.now }
        requires few { length view.now.leads.now ≤ 2 ^ 32 }
        requires marks { length marks.now ≡ length view.now.leads.now }
        requires gates { AreGates trees.now view.now.terns.now view.now.leads.now marks.now self.old.kept.items }
        ensures gate { IfOk result (IsGate trees.now view.now.terns.now view.now.leads.now marks.now source) }
        ensures needs { IfErr result (λ point. slice_get marks.now point ≡ Some false) }
        ensures gates { AreGates trees.now view.now.terns.now view.now.leads.now marks.now self.new.kept.items }
    {
        match self.at(source) {
            Some(gate) => Ok(gate),
            None => self.find(trees, source, view, marks),
        }
    }

    // What is kept of a gate, if anything is.
    fn at(&self, source: Source) -> Option<Gate>
        ensures { IfSome result (λ gate. (place : ℕ) × (slice_get self.now.kept.items place ≡ Some (record { source = source; gate = gate }))) }
    {
        let kept = self.kept.get(place_of(source))?;
        if kept.source == source {
            Some(kept.gate)
        } else {
            None
        }
    }

    // What a gate is of which nothing is kept.
    fn find(
        &mut self,
        trees: &[Tree],
        source: Source,
        view: &View,
        marks: &[bool],
    ) -> Result<Gate, u32>
        requires fit { IsFitSource trees.now (length view.now.leads.now) source }
        requires view { IsView view.now.terns.now view.now.leads.now }
        requires few { length view.now.leads.now ≤ 2 ^ 32 }
        requires marks { length marks.now ≡ length view.now.leads.now }
        requires gates { AreGates trees.now view.now.terns.now view.now.leads.now marks.now self.old.kept.items }
        ensures gate { IfOk result (IsGate trees.now view.now.terns.now view.now.leads.now marks.now source) }
        ensures needs { IfErr result (λ point. slice_get marks.now point ≡ Some false) }
        ensures gates { AreGates trees.now view.now.terns.now view.now.leads.now marks.now self.new.kept.items }
    {
        match lead_of_source(trees, source, view, marks) {
            Lead::Known(bit) => Ok(self.keep(trees, source, Gate::Known(bit))),
            Lead::Point(_) | Lead::Own => Ok(self.keep(trees, source, Gate::Depends)),
            Lead::Unmarked(needed) => Err(needed),
        }
    }

    // Keeps what a gate is, if it takes long, and gives it back.
    fn keep(&mut self, trees: &[Tree], source: Source, gate: Gate) -> Gate
        ensures gate { result ≡ gate }
        ensures gates { (trees : List Tree) (terns : List Tern) (leads : List ℕ) (marks : List Bool) → IsGate trees terns leads marks source gate →
            AreGates trees terns leads marks self.old.kept.items → AreGates trees terns leads marks self.new.kept.items }
    {
        if !takes_long(trees, source) {
            return gate;
        }
        self.put(KeptGate { source, gate });
        gate
    }

    // Keeps one more gate, in place of another.
    fn put(&mut self, gate: KeptGate)
        ensures { (place : ℕ) (kept : KeptGate) → slice_get self.new.kept.items place ≡ Some kept →
            (kept ≡ gate) ⊎ ((before : ℕ) × (slice_get self.old.kept.items before ≡ Some kept)) }
    {
        let place = place_of(gate.source);
        if place < self.kept.len() {
            self.kept[place] = gate;
        } else {
            // The first one: it stands at all places.
            let _ = self.kept.resize(PLACES, gate);
        }
    }
}

// The place of a gate.
fn place_of(source: Source) -> usize {
    let sum = source
        .tree
        .wrapping_add(source.first)
        .wrapping_add(source.bit);
    sum as usize % PLACES
}

// Whether a gate takes long.
fn takes_long(trees: &[Tree], source: Source) -> bool {
    match trees.get(source.tree as usize) {
        Some(tree) => are_found_together(tree),
        None => false,
    }
}
