//! Points that are not marked.

ghost use Rattle.std.specs.Prelude.{◌≡◌, ◌+◌, ◌^◌, ◌<◌, ◌≤◌, false, true, length, slice_get, MatchOption, Some};
ghost use Rattle.fab_compiled.specs.Trees.{tree_width, IsMade};
ghost use Rattle.fab_compiled.specs.Evaluation.{IsWithin};
ghost use Rattle.fab_compiled.specs.Leading.{AreMarked, RangeIsMarked};
ghost use Rattle.fab_compiled.specs.inner.Picks.{IsAlike};

use crate::tree::Tree;

/// A point of an expression that is not marked, if there is one.
pub(crate) fn unmarked(tree: &Tree, first: usize, marks: &[bool]) -> Option<u32>
    requires made { IsMade tree.now }
    requires begins { first ≤ length marks.now }
    requires inside { IsWithin tree.now first (length marks.now) }
    requires small { length marks.now ≤ 2 ^ 32 }
    ensures { MatchOption result (AreMarked marks.now first tree.now) (λ point. slice_get marks.now point ≡ Some false) }
{
    match tree {
        Tree::Const(_) => None,
        Tree::Bits(place, count) => { unmarked_of(first, *place as usize, *count as usize, marks) }
        Tree::Pick(place, width, index) => {
            match unmarked_of(first, *place as usize, 2usize.pow(*width), marks) {
                Some(point) => Some(point),
                None => unmarked(index, first, marks),
            }
        }
        Tree::Not(inner) => unmarked(inner, first, marks),
        Tree::Cat(left, _, right)
        | Tree::And(left, right)
        | Tree::Or(left, right)
        | Tree::Xor(left, right)
        | Tree::Equal(_, left, right)
        | Tree::Minus(_, left, right) => match unmarked(left, first, marks) {
            Some(point) => Some(point),
            None => unmarked(right, first, marks),
        },
        Tree::Cond(test, yes, no) => match unmarked(test, first, marks) {
            Some(point) => Some(point),
            None => match unmarked(yes, first, marks) {
                Some(point) => Some(point),
                None => unmarked(no, first, marks),
            },
        },
    }
}

/// Whether all points of an expression are marked.
pub(crate) fn is_marked(tree: &Tree, first: usize, marks: &[bool]) -> bool
    requires made { IsMade tree.now }
    requires begins { first ≤ length marks.now }
    requires inside { IsWithin tree.now first (length marks.now) }
    requires small { length marks.now ≤ 2 ^ 32 }
    ensures { result ≡ true → AreMarked marks.now first tree.now }
{
    match unmarked(tree, first, marks) {
        Some(_) => false,
        None => true,
    }
}

/// The first of some points that follow one another that is not marked, if there is one.
pub(crate) fn unmarked_of(first: usize, place: usize, count: usize, marks: &[bool]) -> Option<u32>
    requires within { first + (place + count) ≤ length marks.now }
    requires small { length marks.now ≤ 2 ^ 32 }
    ensures { MatchOption result (RangeIsMarked marks.now first place count) (λ point. slice_get marks.now point ≡ Some false) }
{
    for next in 0..count {
        let point = first + (place + next);
        if !marks[point] {
            return Some(point as u32);
        }
    }
    None
}

/// A point that is not marked and on which a bit of an expression may depend, if there is one.
pub(crate) fn unmarked_bit(tree: &Tree, bit: u64, first: usize, marks: &[bool]) -> Option<u32>
    requires made { IsMade tree.now }
    requires begins { first ≤ length marks.now }
    requires inside { IsWithin tree.now first (length marks.now) }
    requires few { length marks.now ≤ 2 ^ 32 }
    requires within { bit < tree_width tree.now }
    ensures { MatchOption result (IsAlike marks.now first tree.now bit) (λ point. slice_get marks.now point ≡ Some false) }
{
    match tree {
        Tree::Bits(place, _) => unmarked_of(first, *place as usize + bit as usize, 1, marks),
        Tree::Cat(low, width, high) => {
            if bit < *width {
                unmarked_bit(low, bit, first, marks)
            } else {
                unmarked_bit(high, bit - *width, first, marks)
            }
        }
        Tree::Const(_) | Tree::Pick(_, _, _) | Tree::Not(_) => unmarked(tree, first, marks),
        Tree::And(_, _) | Tree::Or(_, _) | Tree::Xor(_, _) => unmarked(tree, first, marks),
        Tree::Equal(_, _, _) | Tree::Minus(_, _, _) => unmarked(tree, first, marks),
        Tree::Cond(_, _, _) => unmarked(tree, first, marks),
    }
}
