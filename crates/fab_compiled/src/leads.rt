//! Where a bit of an expression leads, as far as the values that are known decide it.

ghost use Rattle.std.specs.Prelude.{◌≡◌, ◌+◌, ◌^◌, ◌<◌, ◌≤◌, length};
ghost use Rattle.fab_compiled.specs.Trees.{tree_width, IsMade};
ghost use Rattle.fab_compiled.specs.Terns.{IsView};
ghost use Rattle.fab_compiled.specs.Evaluation.{IsWithin};
ghost use Rattle.fab_compiled.specs.Leading.{TellsBit, OwnLeads, PointLeads};
ghost use Rattle.fab_compiled.specs.inner.Picks.{PickLeads};

use crate::evaluation::eval;
use crate::indices::known_index;
use crate::marking::{is_marked, unmarked, unmarked_of};
use crate::picks::{Table, unmarked_index};
use crate::tree::Tree;
use crate::view::View;
use fab_ternary::Tern;

/// Where a bit of an expression leads.
#[derive(Clone, Copy, Debug, PartialEq, Eq)]
pub enum Lead {
    /// It is known.
    Known(bool),
    /// It is what a point has.
    Point(u32),
    /// It depends on points that are all marked.
    Own,
    /// It may depend on this point, which is not marked.
    Unmarked(u32),
}

/// Where a bit of an expression leads, over the points of an instance, of which the first is given.
pub fn follow(tree: &Tree, bit: u64, first: usize, view: &View, marks: &[bool]) -> Lead
    requires made { IsMade tree.now }
    requires view { IsView view.now.terns.now view.now.leads.now }
    requires few { length view.now.leads.now ≤ 2 ^ 32 }
    requires begins { first ≤ length view.now.leads.now }
    requires inside { IsWithin tree.now first (length view.now.leads.now) }
    requires within { bit < tree_width tree.now }
    requires marks { length marks.now ≡ length view.now.leads.now }
    ensures { TellsBit view.now.terns.now view.now.leads.now marks.now first tree.now bit result }
{
    match eval(tree, bit, first, view) {
        Tern::Yes => Lead::Known(true),
        Tern::No => Lead::Known(false),
        Tern::Open => lead_of(tree, bit, first, view, marks),
    }
}

// Where a bit that is not known leads.
fn lead_of(tree: &Tree, bit: u64, first: usize, view: &View, marks: &[bool]) -> Lead
    requires made { IsMade tree.now }
    requires view { IsView view.now.terns.now view.now.leads.now }
    requires few { length view.now.leads.now ≤ 2 ^ 32 }
    requires begins { first ≤ length view.now.leads.now }
    requires inside { IsWithin tree.now first (length view.now.leads.now) }
    requires within { bit < tree_width tree.now }
    requires marks { length marks.now ≡ length view.now.leads.now }
    ensures { TellsBit view.now.terns.now view.now.leads.now marks.now first tree.now bit result }
{
    match tree {
        Tree::Bits(place, _) => lead_of_point(first + *place as usize + bit as usize, view, marks),
        Tree::Cat(low, width, high) => {
            if bit < *width {
                lead_of(low, bit, first, view, marks)
            } else {
                lead_of(high, bit - *width, first, view, marks)
            }
        }
        Tree::Cond(test, yes, no) => match eval(test, 0, first, view) {
            Tern::Yes => lead_of(yes, bit, first, view, marks),
            Tern::No => lead_of(no, bit, first, view, marks),
            Tern::Open => own_lead(tree, first, marks),
        },
        Tree::Pick(place, width, index) => pick_lead(*place, *width, index, first, view, marks),
        Tree::Const(_) | Tree::Not(_) => own_lead(tree, first, marks),
        Tree::And(_, _) | Tree::Or(_, _) | Tree::Xor(_, _) => own_lead(tree, first, marks),
        Tree::Equal(_, _, _) | Tree::Minus(_, _, _) => own_lead(tree, first, marks),
    }
}

// Where an entry leads that an index picks. Where the index is known, that is where the entry leads. Else it stands for itself as soon as the table is
// marked, and all of the index on which it depends as far as the entries are known: an input that the loaded table does not look at is not asked for.
// The entries are looked at only where some of the index is not marked.
fn pick_lead(
    place: u32,
    width: u32,
    index: &Tree,
    first: usize,
    view: &View,
    marks: &[bool],
) -> Lead
    requires made { IsMade index.now }
    requires view { IsView view.now.terns.now view.now.leads.now }
    requires few { length view.now.leads.now ≤ 2 ^ 32 }
    requires begins { first ≤ length view.now.leads.now }
    requires inside { IsWithin index.now first (length view.now.leads.now) }
    requires width { tree_width index.now ≡ width }
    requires table { first + place + 2 ^ width ≤ length view.now.leads.now }
    requires marks { length marks.now ≡ length view.now.leads.now }
    ensures { PickLeads view.now.terns.now view.now.leads.now marks.now first place width index.now result }
{
    if let Some(number) = known_index(index, 0, first, view) {
        return lead_of_point(first + place as usize + number as usize, view, marks);
    }
    if let Some(point) = unmarked_of(first, place as usize, 2usize.pow(width), marks) {
        return Lead::Unmarked(point);
    }
    if is_marked(index, first, marks) {
        return Lead::Own;
    }
    let table = Table {
        first: first + place as usize,
        stride: 1,
        size: width,
    };
    match unmarked_index(table, index, 0, first, view, marks) {
        Some(point) => Lead::Unmarked(point),
        None => Lead::Own,
    }
}

// Where a point leads.
fn lead_of_point(point: usize, view: &View, marks: &[bool]) -> Lead
    requires within { point < length marks.now }
    requires marks { length marks.now ≡ length view.now.leads.now }
    requires small { length marks.now ≤ 2 ^ 32 }
    ensures { PointLeads view.now.leads.now marks.now point result }
{
    if marks[point] {
        Lead::Point(view.leads[point])
    } else {
        Lead::Unmarked(point as u32)
    }
}

// An expression that stands for itself as soon as all its points are marked.
fn own_lead(tree: &Tree, first: usize, marks: &[bool]) -> Lead
    requires made { IsMade tree.now }
    requires begins { first ≤ length marks.now }
    requires inside { IsWithin tree.now first (length marks.now) }
    requires small { length marks.now ≤ 2 ^ 32 }
    ensures { OwnLeads marks.now first tree.now result }
{
    match unmarked(tree, first, marks) {
        Some(point) => Lead::Unmarked(point),
        None => Lead::Own,
    }
}
