//! What is kept of an expression.

ghost use Rattle.std.specs.Prelude.{◌≡◌, ◌+◌, ◌^◌, ◌<◌, ◌≤◌, length, IfOk};
ghost use Rattle.fab_systems_laws.specs.Ternary.{IsBelow};
ghost use Rattle.fab_solutions_laws.specs.fab_ternary_laws_Operators.{tern_at};
ghost use Rattle.fab_ternary.specs.Terns.{plain_tern};
ghost use Rattle.fab_compiled.specs.Terns.{seen, IsView};
ghost use Rattle.fab_compiled.specs.Trees.{tree_width, IsMade};
ghost use Rattle.fab_compiled.specs.Evaluation.{value_seen, IsWithin};
ghost use Rattle.fab_nodes.specs.Nodes.{AreKept};

use crate::filling::{Spare, fill};
use crate::layout::{Layout, layout_of};
use crate::operands::operand_bit;
use crate::renewing::{News, Renewed, renew};
use fab_base::Memory;
use fab_compiled::{Tree, View};
use fab_ternary::Tern;
use std::alloc::Global;

/// The values of all nodes of an expression over the points of an instance, as far as they have been found. What is known of them stays right as more points
/// come to be known. A point that comes to be known changes few of them: those are found anew without a walk through the others.
#[derive(Drop)]
pub struct NodeValues {
    pub layout: Box<Layout>,
    /// The bits of all nodes, as the layout says.
    pub bits: Vec<Tern>,
    pub news: News,
    pub spare: Spare,
}

impl NodeValues {
    /// The values of the nodes of an expression over the points of an instance, of which the first is given. The error is want of memory, also where there would
    /// be more values than these, a byte each.
    pub fn of(
        alloc: Global,
        tree: &Tree,
        first: usize,
        view: &View,
        most: usize,
    ) -> Result<NodeValues, Memory>
        requires made { IsMade tree.now }
        requires view { IsView view.now.terns.now view.now.leads.now }
        requires few { length view.now.leads.now ≤ 2 ^ 32 }
        requires begins { first ≤ length view.now.leads.now }
        requires inside { IsWithin tree.now first (length view.now.leads.now) }
        ensures { IfOk result (AreKept (λ place. seen view.now.terns.now view.now.leads.now (first + place)) tree.now) }
    {
        let layout = layout_of(alloc, tree)?;
        let node = layout.node();
        if node.room > most {
            return Err(Memory);
        }
        let mut bits = vec![in alloc; Tern::Open; node.room]?;
        let mut spare = Spare::new(alloc);
        let mut news = News::new(alloc, node.nodes)?;
        fill(tree, &layout, first, view, &mut spare, &mut bits)?;
        news.paths.find(tree, &layout, first, view, &bits);
        Ok(NodeValues {
            layout,
            bits,
            news,
            spare,
        })
    }

    /// How many values are kept.
    pub fn count(&self) -> usize {
        self.bits.len()
    }

    /// A point has come to be known: what is known by that is found.
    pub fn renew(&mut self, tree: &Tree, first: usize, view: &View, point: usize)
        requires made { IsMade tree.now }
        requires view { IsView view.now.terns.now view.now.leads.now }
        requires few { length view.now.leads.now ≤ 2 ^ 32 }
        requires begins { first ≤ length view.now.leads.now }
        requires inside { IsWithin tree.now first (length view.now.leads.now) }
        requires kept { AreKept (λ place. seen view.now.terns.now view.now.leads.now (first + place)) tree.now self.old }
        ensures kept { AreKept (λ place. seen view.now.terns.now view.now.leads.now (first + place)) tree.now self.new }
    {
        self.news.bits.clear();
        if let Some(place) = point.checked_sub(first) {
            self.news.paths.begin(place as u64);
            let point = Renewed {
                place,
                first,
                view: *view,
            };
            renew(
                tree,
                &self.layout,
                &point,
                &mut self.spare,
                &mut self.news,
                &mut self.bits,
            );
        }
    }

    /// One of the bits of the expression that may have come to be known at the last `renew`, by its number among them. There may be others, where memory was
    /// refused.
    pub fn renewed_bit(&self, number: usize) -> Option<u32> {
        self.news.bits.get(number).copied()
    }

    /// A bit of the expression, as far as it is kept.
    pub fn bit(&self, tree: &Tree, bit: u64, first: usize, view: &View) -> Tern
        requires made { IsMade tree.now }
        requires view { IsView view.now.terns.now view.now.leads.now }
        requires few { length view.now.leads.now ≤ 2 ^ 32 }
        requires begins { first ≤ length view.now.leads.now }
        requires inside { IsWithin tree.now first (length view.now.leads.now) }
        requires within { bit < tree_width tree.now }
        requires kept { AreKept (λ place. seen view.now.terns.now view.now.leads.now (first + place)) tree.now self.now }
        ensures { IsBelow (plain_tern result) (tern_at (value_seen view.now.terns.now view.now.leads.now first tree.now) bit) }
    {
        operand_bit(tree, &self.bits, bit, first, view)
    }
}
