//! Where a walk through the nodes of an expression has to go for a point: along the paths to the names that have its place and are not known yet. What is known
//! does not change, and a walk goes past it.

ghost use Rattle.std.specs.Prelude.{◌≡◌, ◌+◌, ◌^◌, ◌≤◌, length};
ghost use Rattle.fab_compiled.specs.Terns.{IsView};
ghost use Rattle.fab_compiled.specs.Trees.{tree_width, IsMade};
ghost use Rattle.fab_compiled.specs.Evaluation.{IsWithin};
ghost use Rattle.fab_nodes.specs.Nodes.{room, IsLaidOut};

use crate::layout::Layout;
use crate::operands::{Operands, is_leaf, operands_of};
use fab_base::Memory;
use fab_compiled::{Tree, View, eval};
use fab_ternary::Tern;
use std::alloc::Global;

/// Stands for the node above the whole expression.
const NO_NODE: u32 = u32::MAX;

/// How many names stand in a block: a walk passes over all of them at once where none has its place.
const BLOCK: usize = 64;

/// A node.
#[derive(Clone, Copy, Debug)]
struct Step {
    /// The number of the node whose operand it is, or `NO_NODE`.
    above: u32,
    /// The last walk that has to go to it.
    walk: u32,
}

/// Places that a node reads.
#[derive(Clone, Copy, Debug)]
struct Reading {
    places: Places,
    /// The number of the node.
    node: u32,
}

/// Places that follow one another: from the first one on, to before the end.
#[derive(Clone, Copy, Debug)]
struct Places {
    low: u64,
    end: u64,
}

impl Places {
    // So many places from one on.
    fn from(place: u32, count: u64) -> Places {
        let low = u64::from(place);
        Places {
            low,
            end: low.saturating_add(count),
        }
    }

    // The places of both, and those between them.
    fn and(self, other: Places) -> Places {
        Places {
            low: self.low.min(other.low),
            end: self.end.max(other.end),
        }
    }

    // Whether a place is one of them.
    fn has(self, place: u64) -> bool {
        self.low <= place && place < self.end
    }
}

/// The names of an expression that are not known yet, and the paths to them. They are a help for speed: where memory is refused, walks find less.
#[derive(Drop)]
pub struct Paths {
    /// By the number of a node.
    steps: Vec<Step>,
    /// Sorted by their first places, if there are several blocks of them.
    readings: Vec<Reading>,
    /// By the number of a block of readings: all places of theirs, and those between them.
    blocks: Vec<Places>,
    /// The number of the walk.
    walk: u32,
}

impl Paths {
    /// No paths, of so many nodes.
    pub(crate) fn new(alloc: Global, nodes: usize) -> Result<Paths, Memory> {
        let apart = Step {
            above: NO_NODE,
            walk: 0,
        };
        Ok(Paths {
            steps: vec![in alloc; apart; nodes]?,
            readings: Vec::new(alloc),
            blocks: Vec::new(alloc),
            walk: 0,
        })
    }

    /// Finds the paths of an expression by the values of its nodes.
    pub(crate) fn find(
        &mut self,
        tree: &Tree,
        layout: &Layout,
        first: usize,
        view: &View,
        bits: &[Tern],
    )
        requires made { IsMade tree.now }
        requires view { IsView view.now.terns.now view.now.leads.now }
        requires few { length view.now.leads.now ≤ 2 ^ 32 }
        requires begins { first ≤ length view.now.leads.now }
        requires inside { IsWithin tree.now first (length view.now.leads.now) }
        requires layout { IsLaidOut tree.now layout.now }
        requires long { length bits.now ≡ room tree.now }
    {
        find_paths(tree, layout, first, view, bits, NO_NODE, self);
        if self.readings.len() > BLOCK {
            let _ = self.readings.sort_by_key(|reading| reading.places.low);
        }
        for number in 0..self.readings.len() {
            if let Some(reading) = self.readings.get(number).copied() {
                self.add_to_block(number / BLOCK, reading.places);
            }
        }
    }

    // One more reading stands in the block of this number, the last one or the next.
    fn add_to_block(&mut self, number: usize, places: Places) {
        match self.blocks.get_mut(number) {
            Some(block) => *block = block.and(places),
            None => {
                let _ = self.blocks.push(places);
            }
        }
    }

    // The node above another one.
    fn set_above(&mut self, node: usize, above: u32) {
        if let Some(step) = self.steps.get_mut(node) {
            step.above = above;
        }
    }

    // A node reads so many places from one on.
    fn add_reading(&mut self, place: u32, count: u64, node: usize) {
        let places = Places::from(place, count);
        let node = u32::try_from(node).unwrap_or(NO_NODE);
        let _ = self.readings.push(Reading { places, node });
    }

    /// A walk begins for the point at a place.
    pub(crate) fn begin(&mut self, place: u64) {
        self.walk = self.walk.wrapping_add(1);
        for number in 0..self.blocks.len() {
            if self.is_in_block(number, place) {
                self.begin_in_block(number, place);
            }
        }
    }

    // Whether a place is one of those of a block, or stands between them.
    fn is_in_block(&self, number: usize, place: u64) -> bool {
        match self.blocks.get(number) {
            Some(block) => block.has(place),
            None => false,
        }
    }

    // The walk has to go to the nodes of a block that read a place.
    fn begin_in_block(&mut self, number: usize, place: u64) {
        let first = number.saturating_mul(BLOCK);
        for next in first..first.saturating_add(BLOCK) {
            let Some(reading) = self.readings.get(next).copied() else {
                return;
            };
            if reading.places.has(place) {
                self.go_to(reading.node);
            }
        }
    }

    // The walk has to go to a node, and so to all nodes above it.
    fn go_to(&mut self, node: u32) {
        let walk = self.walk;
        let mut next = node;
        for _step in 0..self.steps.len() {
            match self.steps.get_mut(next as usize) {
                Some(step) if step.walk != walk => {
                    step.walk = walk;
                    next = step.above;
                }
                _ => return,
            }
        }
    }

    /// Whether the walk has to go to the node of a number.
    pub(crate) fn has(&self, node: usize) -> bool {
        match self.steps.get(node) {
            Some(step) => step.walk == self.walk,
            None => false,
        }
    }
}

// Finds the paths to the names below a node that stands below another one.
#[cycle(finding)]
fn find_paths(
    tree: &Tree,
    layout: &Layout,
    first: usize,
    view: &View,
    bits: &[Tern],
    above: u32,
    paths: &mut Paths,
)
    requires made { IsMade tree.now }
    requires view { IsView view.now.terns.now view.now.leads.now }
    requires few { length view.now.leads.now ≤ 2 ^ 32 }
    requires begins { first ≤ length view.now.leads.now }
    requires inside { IsWithin tree.now first (length view.now.leads.now) }
    requires layout { IsLaidOut tree.now layout.now }
    requires long { length bits.now ≡ room tree.now }
{
    let node = layout.node();
    paths.set_above(node.number, above);
    if is_leaf(tree) {
        if has_open_bit(tree, first, view) {
            add_places(tree, node.number, paths);
        }
        return;
    }
    let (own, operands) = bits.split_at(node.width);
    if has_open(own) {
        add_places(tree, node.number, paths);
        find_below(tree, layout, first, view, operands, paths);
    }
}

// The same of the operands of an operator.
#[cycle(finding)]
fn find_below(
    tree: &Tree,
    layout: &Layout,
    first: usize,
    view: &View,
    bits: &[Tern],
    paths: &mut Paths,
)
    requires made { IsMade tree.now }
    requires view { IsView view.now.terns.now view.now.leads.now }
    requires few { length view.now.leads.now ≤ 2 ^ 32 }
    requires begins { first ≤ length view.now.leads.now }
    requires inside { IsWithin tree.now first (length view.now.leads.now) }
    requires layout { IsLaidOut tree.now layout.now }
    requires long { tree_width tree.now + length bits.now ≡ room tree.now }
{
    let above = u32::try_from(layout.node().number).unwrap_or(NO_NODE);
    match operands_of(tree) {
        Operands::None => {}
        Operands::One(_, inner) => {
            if let Layout::One(_, of_inner) = layout {
                find_paths(inner, of_inner, first, view, bits, above, paths);
            }
        }
        Operands::Two(_, left, right) => {
            let Layout::Two(_, of_left, of_right) = layout else {
                return;
            };
            let (left_bits, right_bits) = bits.split_at(of_left.node().room);
            find_paths(left, of_left, first, view, left_bits, above, paths);
            find_paths(right, of_right, first, view, right_bits, above, paths);
        }
        Operands::Three(test, yes, no) => {
            let Layout::Three(_, of_test, of_yes, of_no) = layout else {
                return;
            };
            let (test_bits, branches) = bits.split_at(of_test.node().room);
            let (yes_bits, no_bits) = branches.split_at(of_yes.node().room);
            find_paths(test, of_test, first, view, test_bits, above, paths);
            find_paths(yes, of_yes, first, view, yes_bits, above, paths);
            find_paths(no, of_no, first, view, no_bits, above, paths);
        }
    }
}

// The places of a name, and those of the table of a pick.
fn add_places(tree: &Tree, node: usize, paths: &mut Paths) {
    match tree {
        Tree::Bits(place, count) => paths.add_reading(*place, u64::from(*count), node),
        Tree::Pick(place, width, _) => {
            let count = 1_u64.checked_shl(*width).unwrap_or(u64::MAX);
            paths.add_reading(*place, count, node);
        }
        Tree::Const(_) | Tree::Cat(_, _, _) | Tree::Not(_) | Tree::Cond(_, _, _) => {}
        Tree::And(_, _) | Tree::Or(_, _) | Tree::Xor(_, _) => {}
        Tree::Equal(_, _, _) | Tree::Minus(_, _, _) => {}
    }
}

// Whether one of the bits of a name is open.
fn has_open_bit(tree: &Tree, first: usize, view: &View) -> bool
    requires made { IsMade tree.now }
    requires view { IsView view.now.terns.now view.now.leads.now }
    requires few { length view.now.leads.now ≤ 2 ^ 32 }
    requires begins { first ≤ length view.now.leads.now }
    requires inside { IsWithin tree.now first (length view.now.leads.now) }
{
    let Tree::Bits(_, count) = tree else {
        return false;
    };
    for bit in 0..u64::from(*count) {
        if eval(tree, bit, first, view).is_open() {
            return true;
        }
    }
    false
}

// Whether one of the bits is open.
fn has_open(bits: &[Tern]) -> bool {
    for bit in bits {
        if bit.is_open() {
            return true;
        }
    }
    false
}
