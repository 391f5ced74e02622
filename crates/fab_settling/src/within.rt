//! What is kept of an expression bits of which come to be known one by one.

ghost use Rattle.std.specs.Prelude.{◌≡◌, ◌≤◌, ◌^◌, length, IfSome};
ghost use Rattle.fab_systems_laws.specs.Ternary.{IsBelow};
ghost use Rattle.fab_ternary.specs.Terns.{plain_tern};
ghost use Rattle.fab_compiled.specs.Terns.{seen, IsView};
ghost use Rattle.fab_network.specs.Network.{source_tern, IsFitSource};
ghost use Rattle.fab_settling.specs.Spreading.{IsKeptWithin};

use fab_base::Memory;
use fab_compiled::{Tree, View};
use fab_network::Source;
use fab_nodes::NodeValues;
use fab_ternary::Tern;
use std::alloc::Global;

/// The values of the nodes of an expression over the points of an instance, as far as they have been found.
#[derive(Drop)]
pub struct Within {
    /// The number of its tree.
    pub tree: u32,
    /// The first point of its instance.
    pub first: u32,
    pub values: NodeValues,
}

impl Within {
    /// What is kept of the expression of a source, where there is memory, and there are no more values than these.
    pub(crate) fn of(
        alloc: Global,
        trees: &[Tree],
        source: Source,
        view: &View,
        most: usize,
    ) -> Option<Within>
        requires fit { IsFitSource trees.now (length view.now.leads.now) source }
        requires view { IsView view.now.terns.now view.now.leads.now }
        requires small { length view.now.leads.now ≤ 2 ^ 32 }
        ensures { IfSome result (IsKeptWithin trees.now (length view.now.leads.now) (seen view.now.terns.now view.now.leads.now)) }
    {
        let tree = &trees[source.tree as usize];
        match NodeValues::of(alloc, tree, source.first as usize, view, most) {
            Ok(values) => Some(Within {
                tree: source.tree,
                first: source.first,
                values,
            }),
            Err(Memory) => None,
        }
    }

    /// How many values are kept.
    pub(crate) fn count(&self) -> usize {
        self.values.count()
    }

    /// A bit of a source by what is kept, or open where that is of another expression.
    pub(crate) fn bit(&self, trees: &[Tree], source: Source, view: &View) -> Tern
        requires fit { IsFitSource trees.now (length view.now.leads.now) source }
        requires view { IsView view.now.terns.now view.now.leads.now }
        requires small { length view.now.leads.now ≤ 2 ^ 32 }
        requires kept { IsKeptWithin trees.now (length view.now.leads.now) (seen view.now.terns.now view.now.leads.now) self.now }
        ensures { IsBelow (plain_tern result) (source_tern trees.now (seen view.now.terns.now view.now.leads.now) source) }
    {
        if self.first != source.first || self.tree != source.tree {
            return Tern::Open;
        }
        let tree = &trees[self.tree as usize];
        let first = self.first as usize;
        self.values.bit(tree, u64::from(source.bit), first, view)
    }

    /// A point has come to be known: what is known of the expression by that is found.
    pub(crate) fn renew(&mut self, trees: &[Tree], view: &View, point: u32)
        requires view { IsView view.now.terns.now view.now.leads.now }
        requires small { length view.now.leads.now ≤ 2 ^ 32 }
        requires kept { IsKeptWithin trees.now (length view.now.leads.now) (seen view.now.terns.now view.now.leads.now) self.old }
        ensures { IsKeptWithin trees.now (length view.now.leads.now) (seen view.now.terns.now view.now.leads.now) self.new }
    {
        let tree = &trees[self.tree as usize];
        let first = self.first as usize;
        self.values.renew(tree, first, view, point as usize);
    }

    /// One of the bits that may have come to be known at the last `renew`, by its number among them.
    pub(crate) fn renewed_bit(&self, number: usize) -> Option<u32> {
        self.values.renewed_bit(number)
    }

    /// Whether a bit is one of them.
    pub(crate) fn is_renewed(&self, bit: u32) -> bool {
        for number in 0..usize::MAX {
            match self.renewed_bit(number) {
                Some(next) if next == bit => return true,
                Some(_) => {}
                None => return false,
            }
        }
        false
    }
}
