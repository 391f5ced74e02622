//! Bits of expressions where all points are known. What the lower bits of a difference borrow is told by the highest place below at which its operands
//! differ, so that a bit of a wide one mostly takes a few steps.

ghost use Rattle.std.specs.Prelude.{◌≡◌, ◌<◌, ◌≤◌, ◌^◌, ℕ, true, length};
ghost use Rattle.fab_syntax.specs.declared.tree.Op.TheVariants as ops;
ghost use Rattle.fab_meaning.specs.Value.{bit_at};
ghost use Rattle.fab_systems_laws.specs.Ternary.{known as known_tern};
ghost use Rattle.fab_ternary_laws.specs.Operators.{same_terns, tern_at, tern_operated};
ghost use Rattle.fab_compiled.specs.Terns.{IsView};
ghost use Rattle.fab_compiled.specs.Trees.{tree_width, IsMade};
ghost use Rattle.fab_compiled.specs.Evaluation.{value_seen, IsWithin};
ghost use Rattle.fab_stepping.specs.Boards.{LeadToThemselves};
ghost use Rattle.fab_stepping.specs.inner.Known.{bits_seen, AreAllKnown, IsLastApart};

use fab_compiled::{Tree, View, eval};
use fab_ternary::Tern;

/// How many operators may stand one below the other in an operand that is gone through bit by bit.
const DEEPEST: u32 = 3;

/// A bit of an expression over the points of an instance, of which the first is given, where all points are known and lead to themselves.
pub(crate) fn known_bit(tree: &Tree, bit: u64, first: usize, view: &View) -> bool
    requires made { IsMade tree.now }
    requires view { IsView view.now.terns.now view.now.leads.now }
    requires few { length view.now.leads.now ≤ 2 ^ 32 }
    requires own { LeadToThemselves (length view.now.terns.now) view.now.leads.now }
    requires known { AreAllKnown view.now.terns.now }
    requires begins { first ≤ length view.now.leads.now }
    requires inside { IsWithin tree.now first (length view.now.leads.now) }
    requires within { bit < tree_width tree.now }
    ensures { known_tern result ≡ tern_at (value_seen view.now.terns.now view.now.leads.now first tree.now) bit }
{
    match tree {
        Tree::Const(_) | Tree::Bits(_, _) | Tree::Pick(_, _, _) => is_one(tree, bit, first, view),
        Tree::Cat(low, width, high) => {
            if bit < *width {
                known_bit(low, bit, first, view)
            } else {
                known_bit(high, bit - *width, first, view)
            }
        }
        Tree::Not(inner) => !known_bit(inner, bit, first, view),
        Tree::And(left, right) => {
            known_bit(left, bit, first, view) & known_bit(right, bit, first, view)
        }
        Tree::Or(left, right) => {
            known_bit(left, bit, first, view) | known_bit(right, bit, first, view)
        }
        Tree::Xor(left, right) => {
            known_bit(left, bit, first, view) ^ known_bit(right, bit, first, view)
        }
        Tree::Equal(_, _, _) | Tree::Minus(_, _, _) => compared_bit(tree, bit, first, view),
        Tree::Cond(test, yes, no) => {
            if known_bit(test, 0, first, view) {
                known_bit(yes, bit, first, view)
            } else {
                known_bit(no, bit, first, view)
            }
        }
    }
}

// A bit of an equality or a difference, or of another expression.
fn compared_bit(tree: &Tree, bit: u64, first: usize, view: &View) -> bool
    requires made { IsMade tree.now }
    requires view { IsView view.now.terns.now view.now.leads.now }
    requires few { length view.now.leads.now ≤ 2 ^ 32 }
    requires own { LeadToThemselves (length view.now.terns.now) view.now.leads.now }
    requires known { AreAllKnown view.now.terns.now }
    requires begins { first ≤ length view.now.leads.now }
    requires inside { IsWithin tree.now first (length view.now.leads.now) }
    requires within { bit < tree_width tree.now }
    ensures { known_tern result ≡ tern_at (value_seen view.now.terns.now view.now.leads.now first tree.now) bit }
{
    match tree {
        Tree::Equal(width, left, right) if are_light(left, right) => {
            is_same(left, right, *width, first, view)
        }
        Tree::Minus(width, left, right) if are_light(left, right) => {
            difference_bit(left, right, *width, bit, first, view)
        }
        _ => is_one(tree, bit, first, view),
    }
}

// Whether a bit of either operand takes a few points, so that it need not be found as a whole.
fn are_light(left: &Tree, right: &Tree) -> bool {
    is_light(left, DEEPEST) && is_light(right, DEEPEST)
}

// Whether a bit takes a few points, with at most so many operators one below the other.
fn is_light(tree: &Tree, deepest: u32) -> bool {
    let Some(deepest) = deepest.checked_sub(1) else {
        return matches!(tree, Tree::Const(_) | Tree::Bits(_, _));
    };
    match tree {
        Tree::Const(_) | Tree::Bits(_, _) => true,
        Tree::Pick(_, _, _) | Tree::Equal(_, _, _) | Tree::Minus(_, _, _) => false,
        Tree::Not(inner) => is_light(inner, deepest),
        Tree::Cat(left, _, right)
        | Tree::And(left, right)
        | Tree::Or(left, right)
        | Tree::Xor(left, right) => is_light(left, deepest) && is_light(right, deepest),
        Tree::Cond(test, yes, no) => {
            is_light(test, deepest) && is_light(yes, deepest) && is_light(no, deepest)
        }
    }
}

// Whether the operands of `==` are the same.
fn is_same(left: &Tree, right: &Tree, width: u64, first: usize, view: &View) -> bool
    requires left_made { IsMade left.now }
    requires right_made { IsMade right.now }
    requires left_wide { tree_width left.now ≡ width }
    requires right_wide { tree_width right.now ≡ width }
    requires view { IsView view.now.terns.now view.now.leads.now }
    requires few { length view.now.leads.now ≤ 2 ^ 32 }
    requires own { LeadToThemselves (length view.now.terns.now) view.now.leads.now }
    requires known { AreAllKnown view.now.terns.now }
    requires begins { first ≤ length view.now.leads.now }
    requires left_inside { IsWithin left.now first (length view.now.leads.now) }
    requires right_inside { IsWithin right.now first (length view.now.leads.now) }
    ensures { known_tern result ≡ same_terns (value_seen view.now.terns.now view.now.leads.now first left.now) (value_seen view.now.terns.now view.now.leads.now first right.now) }
{
    last_apart(left, right, width, first, view).is_none()
}

// A bit of the difference of the operands of `-`.
fn difference_bit(
    left: &Tree,
    right: &Tree,
    width: u64,
    bit: u64,
    first: usize,
    view: &View,
) -> bool
    requires left_made { IsMade left.now }
    requires right_made { IsMade right.now }
    requires left_wide { tree_width left.now ≡ width }
    requires right_wide { tree_width right.now ≡ width }
    requires view { IsView view.now.terns.now view.now.leads.now }
    requires few { length view.now.leads.now ≤ 2 ^ 32 }
    requires own { LeadToThemselves (length view.now.terns.now) view.now.leads.now }
    requires known { AreAllKnown view.now.terns.now }
    requires begins { first ≤ length view.now.leads.now }
    requires left_inside { IsWithin left.now first (length view.now.leads.now) }
    requires right_inside { IsWithin right.now first (length view.now.leads.now) }
    requires within { bit < width }
    ensures { known_tern result ≡ tern_at (tern_operated ops.Minus (value_seen view.now.terns.now view.now.leads.now first left.now) (value_seen view.now.terns.now view.now.leads.now first right.now)) bit }
{
    let borrow = match last_apart(left, right, bit, first, view) {
        Some(place) => is_one(right, place, first, view),
        None => false,
    };
    is_one(left, bit, first, view) ^ is_one(right, bit, first, view) ^ borrow
}

// The highest place below an end at which two expressions differ.
fn last_apart(left: &Tree, right: &Tree, end: u64, first: usize, view: &View) -> Option<u64>
    requires left_made { IsMade left.now }
    requires right_made { IsMade right.now }
    requires left_long { end ≤ tree_width left.now }
    requires right_long { end ≤ tree_width right.now }
    requires view { IsView view.now.terns.now view.now.leads.now }
    requires few { length view.now.leads.now ≤ 2 ^ 32 }
    requires own { LeadToThemselves (length view.now.terns.now) view.now.leads.now }
    requires begins { first ≤ length view.now.leads.now }
    requires left_inside { IsWithin left.now first (length view.now.leads.now) }
    requires right_inside { IsWithin right.now first (length view.now.leads.now) }
    ensures { IsLastApart (bits_seen view.now.terns.now view.now.leads.now first left.now) (bits_seen view.now.terns.now view.now.leads.now first right.now) end result }
{
    let mut place = end;
    while place > 0 {
        place -= 1;
        if is_one(left, place, first, view) != is_one(right, place, first, view) {
            return Some(place);
        }
    }
    None
}

// Whether a bit of an expression is 1. Points lead to themselves.
fn is_one(tree: &Tree, bit: u64, first: usize, view: &View) -> bool
    requires made { IsMade tree.now }
    requires view { IsView view.now.terns.now view.now.leads.now }
    requires few { length view.now.leads.now ≤ 2 ^ 32 }
    requires own { LeadToThemselves (length view.now.terns.now) view.now.leads.now }
    requires begins { first ≤ length view.now.leads.now }
    requires inside { IsWithin tree.now first (length view.now.leads.now) }
    requires within { bit < tree_width tree.now }
    ensures { result ≡ bit_at (bits_seen view.now.terns.now view.now.leads.now first tree.now) bit }
{
    if let Tree::Bits(place, _) = tree {
        return view.terns[first + *place as usize + bit as usize].is_yes();
    }
    eval(tree, bit, first, view).is_yes()
}

/// Whether all points are known.
pub(crate) fn are_known(terns: &[Tern]) -> bool
    ensures { result ≡ true → AreAllKnown terns.now }
{
    for tern in terns {
        if tern.is_open() {
            return false;
        }
    }
    true
}
