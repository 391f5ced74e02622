//! Bits of an expression that are copies of points, beside one that a look has found.

ghost use Rattle.std.specs.Prelude.{◌≡◌, ◌+◌, ◌<◌, ◌≤◌, ◌^◌, length, IfSome};
ghost use Rattle.fab_compiled.specs.Evaluation.{IsWithin};
ghost use Rattle.fab_compiled.specs.Leading.{bit_under, PointTerns};
ghost use Rattle.fab_compiled.specs.Terns.{IsView};
ghost use Rattle.fab_compiled.specs.Trees.{tree_width, IsMade};
ghost use Rattle.fab_network.specs.declared.network.Clock.{Clock};
ghost use Rattle.fab_network.specs.Leading.{bits_of_source};
ghost use Rattle.fab_network.specs.Network.{IsFitSource};
ghost use Rattle.fab_demand.specs.Asked.{AsksMore, IsWhole};
ghost use Rattle.fab_demand.specs.Search.{asked_of, left_of, IsSearching};
ghost use Rattle.fab_demand.specs.inner.Beside.{KnowsMore};
ghost use Rattle.fab_demand.specs.inner.Copies.{CopiesPoints, IsCopy, IsCopyOf, TellsCopies};

use crate::others::{Bits, MANY, bit_of, points_beside};
use crate::search::Search;
use fab_ahead::is_unmarked;
use fab_compiled::{Tree, View, eval};
use fab_network::{Network, Source};
use fab_ternary::Tern;

/// Bits of an expression that follow one another and have what points have that follow one another.
#[derive(Clone, Copy, Debug)]
pub struct Copied {
    /// The first of these bits.
    pub low: u64,
    /// How many they are.
    pub count: u64,
    /// The point of which the first bit is a copy.
    pub point: usize,
}

/// Bits that are copies of points.
#[derive(Clone, Copy, Debug)]
pub struct Copies {
    pub bits: Bits,
    /// Whether points have what their bits have, as of `Together`.
    pub passes: bool,
    pub copied: Copied,
}

impl Search {
    /// The bits beside that of a source that are copies of points, where it is one itself.
    pub(crate) fn copied_at(&self, network: &Network, source: Source) -> Option<Copied>
        requires fit { IsFitSource network.now.trees.items (length self.now.leads.items) source }
        requires whole { IsWhole (asked_of self.now) }
        ensures { IfSome result (CopiesPoints self.now.terns.items self.now.leads.items (bits_of_source network.now.trees.items source)) }
    {
        let view = View {
            terns: &self.terns,
            leads: &self.leads,
        };
        copied_by_source(&network.trees, source, &view)
    }

    /// Closes the copies behind a point that is one, up to the first one that has to be looked at: that of which it is a copy has not been asked for. Nothing is
    /// done where many of them have been asked for, so that they are not gone over again and again.
    pub(crate) fn close_copies(&mut self, network: &Network, copies: Copies, point: u32)
        requires points { length network.now.drives.items ≡ length self.old.leads.items }
        requires tells { TellsCopies network.now.trees.items (asked_of self.old) copies }
        requires searching { (clock : Clock) × (given : PointTerns) × IsSearching network.now clock given self.old }
        ensures searching { (clock : Clock) (given : PointTerns) → IsSearching network.now clock given self.old → IsSearching network.now clock given self.new }
        ensures more { AsksMore (asked_of self.old) (asked_of self.new) }
        ensures left { left_of self.new ≤ left_of self.old }
    {
        if is_unmarked(point.saturating_add(MANY / 2), &self.marks) {
            let copied = copies.copied;
            let (_, end) = points_beside(copies.bits, point, copied.low, copied.count);
            self.close_copies_between(network, copies, point, end);
        }
    }

    // The same between these points.
    fn close_copies_between(&mut self, network: &Network, copies: Copies, start: u32, end: u32)
        requires points { length network.now.drives.items ≡ length self.old.leads.items }
        requires tells { TellsCopies network.now.trees.items (asked_of self.old) copies }
        requires searching { (clock : Clock) × (given : PointTerns) × IsSearching network.now clock given self.old }
        ensures searching { (clock : Clock) (given : PointTerns) → IsSearching network.now clock given self.old → IsSearching network.now clock given self.new }
        ensures more { AsksMore (asked_of self.old) (asked_of self.new) }
        ensures left { left_of self.new ≤ left_of self.old }
    {
        for other in start..end {
            self.close_copy(network, copies, other);
            if is_unmarked(other, &self.marks) {
                return;
            }
        }
    }

    // Closes a copy. It has what the other point has, unless a gate is open.
    fn close_copy(&mut self, network: &Network, copies: Copies, other: u32)
        requires points { length network.now.drives.items ≡ length self.old.leads.items }
        requires tells { TellsCopies network.now.trees.items (asked_of self.old) copies }
        requires searching { (clock : Clock) × (given : PointTerns) × IsSearching network.now clock given self.old }
        ensures searching { (clock : Clock) (given : PointTerns) → IsSearching network.now clock given self.old → IsSearching network.now clock given self.new }
        ensures more { AsksMore (asked_of self.old) (asked_of self.new) }
        ensures left { left_of self.new ≤ left_of self.old }
        ensures above { KnowsMore (asked_of self.old) (asked_of self.new) }
    {
        let Some(from) = self.copied_from(network, copies, other) else {
            return;
        };
        let lead = self.leads[from];
        self.wait(other);
        if copies.passes {
            self.follow(other, lead);
        } else {
            self.keep(other);
        }
    }

    // The point of which another is a copy that has not been asked for, if the first one has been.
    fn copied_from(&self, network: &Network, copies: Copies, other: u32) -> Option<usize>
        ensures { IfSome result (IsCopy network.now copies self.now.marks.items other) }
    {
        if !is_unmarked(other, &self.marks) {
            return None;
        }
        let bit = bit_of(network, copies.bits, other)?;
        let from = point_of(copies.copied, bit)?;
        if *self.marks.get(from)? {
            Some(from)
        } else {
            None
        }
    }
}

// The point of which this bit is a copy.
fn point_of(copied: Copied, bit: u32) -> Option<usize>
    ensures { IfSome result (IsCopyOf copied bit) }
{
    let place = u64::from(bit).checked_sub(copied.low)?;
    if place < copied.count {
        copied.point.checked_add(place as usize)
    } else {
        None
    }
}

// The bits beside that of a source that are copies of points, where it is one itself: its name in a concatenation, or in the branch that a known test
// picks.
fn copied_by_source(trees: &[Tree], source: Source, view: &View) -> Option<Copied>
    requires fit { IsFitSource trees.now (length view.now.leads.now) source }
    requires view { IsView view.now.terns.now view.now.leads.now }
    requires small { length view.now.leads.now ≤ 2 ^ 32 }
    ensures { IfSome result (CopiesPoints view.now.terns.now view.now.leads.now (bits_of_source trees.now source)) }
{
    let tree = &trees[source.tree as usize];
    copied_by(tree, u64::from(source.bit), source.first as usize, view)
}

// The same of a bit of an expression over the points of an instance, of which the first is given.
fn copied_by(tree: &Tree, bit: u64, first: usize, view: &View) -> Option<Copied>
    requires made { IsMade tree.now }
    requires view { IsView view.now.terns.now view.now.leads.now }
    requires small { length view.now.leads.now ≤ 2 ^ 32 }
    requires begins { first ≤ length view.now.leads.now }
    requires inside { IsWithin tree.now first (length view.now.leads.now) }
    requires within { bit < tree_width tree.now }
    ensures low { IfSome result (λ copied. copied.low ≤ bit) }
    ensures within { IfSome result (λ copied. copied.low + copied.count ≤ tree_width tree.now) }
    ensures copies { IfSome result (CopiesPoints view.now.terns.now view.now.leads.now (λ t place. bit_under t first tree.now place)) }
{
    match tree {
        Tree::Bits(place, count) => Some(Copied {
            low: 0,
            count: u64::from(*count),
            point: first + *place as usize,
        }),
        Tree::Cat(low, width, high) => {
            if bit < *width {
                copied_by(low, bit, first, view)
            } else {
                let copied = copied_by(high, bit - *width, first, view)?;
                Some(behind(copied, *width))
            }
        }
        Tree::Cond(test, yes, no) => match eval(test, 0, first, view) {
            Tern::Yes => copied_by(yes, bit, first, view),
            Tern::No => copied_by(no, bit, first, view),
            Tern::Open => None,
        },
        Tree::Const(_) | Tree::Pick(_, _, _) | Tree::Not(_) | Tree::And(_, _) => None,
        Tree::Or(_, _) | Tree::Xor(_, _) | Tree::Equal(_, _, _) | Tree::Minus(_, _, _) => None,
    }
}

// Copies in the more significant operand of a concatenation, whose other operand has so many bits.
fn behind(copied: Copied, width: u64) -> Copied
    requires { copied.low + width < 2 ^ 64 }
    ensures low { result.low ≡ copied.low + width }
    ensures count { result.count ≡ copied.count }
    ensures point { result.point ≡ copied.point }
{
    Copied {
        low: copied.low + width,
        count: copied.count,
        point: copied.point,
    }
}
