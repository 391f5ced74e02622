//! Which points that vary an expression reads.

ghost use Rattle.std.specs.Prelude.{◌≡◌, ◌⊎◌, ◌+◌, ◌<◌, ◌≤◌, ◌^◌, ℕ, true, length, IfSome, MatchOption};
ghost use Rattle.fab_compiled.specs.Terns.{IsView};
ghost use Rattle.fab_compiled.specs.Trees.{IsMade};
ghost use Rattle.fab_compiled.specs.Evaluation.{IsWithin};
ghost use Rattle.fab_network.specs.Tables.{AreInputs, IsFixed, IsInput, IsRead, ReadsAll};

use crate::tables::Inputs;
use fab_compiled::{Tree, View};
use fab_ternary::Tern;

/// How many points and bits of constants an expression may have of which a table is made, since it is evaluated for each entry.
const MOST_PLACES: u64 = 64;

/// How many places more a bit of an operand of `==` or `-` takes: each evaluation goes through both operands, and takes memory for them.
const OPERAND_PLACES: u64 = 4;

/// No point is an input.
const NONE: Inputs = Inputs {
    first: u32::MAX,
    second: u32::MAX,
    third: u32::MAX,
    fourth: u32::MAX,
};

/// The points that vary to which those of an expression are led, if it is small and they are one to four.
pub(crate) fn inputs_of(tree: &Tree, first: usize, view: &View, marks: &[bool]) -> Option<Inputs>
    requires made { IsMade tree.now }
    requires view { IsView view.now.terns.now view.now.leads.now }
    requires terns { length view.now.terns.now ≡ length view.now.leads.now }
    requires marks { length marks.now ≡ length view.now.leads.now }
    requires small { length view.now.leads.now ≤ 2 ^ 32 }
    requires begins { first ≤ length view.now.leads.now }
    requires inside { IsWithin tree.now first (length view.now.leads.now) }
    ensures { IfSome result (AreInputs marks.now view.now.terns.now view.now.leads.now first tree.now) }
{
    room_behind(tree, MOST_PLACES)?;
    let next = unread(tree, first, NONE, view, marks)?;
    let one = Inputs {
        first: next,
        second: next,
        third: next,
        fourth: next,
    };
    let Some(next) = unread(tree, first, one, view, marks) else {
        return Some(one);
    };
    let two = Inputs {
        first: one.first,
        second: next,
        third: next,
        fourth: next,
    };
    let Some(next) = unread(tree, first, two, view, marks) else {
        return Some(two);
    };
    let three = Inputs {
        first: two.first,
        second: two.second,
        third: next,
        fourth: next,
    };
    let Some(next) = unread(tree, first, three, view, marks) else {
        return Some(three);
    };
    let four = Inputs {
        first: three.first,
        second: three.second,
        third: three.third,
        fourth: next,
    };
    match unread(tree, first, four, view, marks) {
        Some(_) => None,
        None => Some(four),
    }
}

// What is left of the room for points and bits of constants behind those of an expression, if there is room for them.
fn room_behind(tree: &Tree, room: u64) -> Option<u64> {
    match tree {
        Tree::Const(bits) => room.checked_sub(bits.len() as u64),
        Tree::Bits(_, count) => room.checked_sub(u64::from(*count)),
        Tree::Pick(_, width, index) => {
            let entries = 1_u64.checked_shl(*width)?;
            room_behind(index, room.checked_sub(entries)?)
        }
        Tree::Not(inner) => room_behind(inner, room),
        Tree::Cat(left, _, right)
        | Tree::And(left, right)
        | Tree::Or(left, right)
        | Tree::Xor(left, right) => room_behind(right, room_behind(left, room)?),
        Tree::Equal(width, left, right) | Tree::Minus(width, left, right) => {
            let behind = room.checked_sub(width.checked_mul(OPERAND_PLACES)?)?;
            room_behind(right, room_behind(left, behind)?)
        }
        Tree::Cond(test, yes, no) => {
            let behind = room_behind(yes, room_behind(test, room)?)?;
            room_behind(no, behind)
        }
    }
}

// A point that varies and is none of these inputs, to which a point of an expression is led, if there is one.
fn unread(tree: &Tree, first: usize, inputs: Inputs, view: &View, marks: &[bool]) -> Option<u32>
    requires made { IsMade tree.now }
    requires view { IsView view.now.terns.now view.now.leads.now }
    requires terns { length view.now.terns.now ≡ length view.now.leads.now }
    requires marks { length marks.now ≡ length view.now.leads.now }
    requires small { length view.now.leads.now ≤ 2 ^ 32 }
    requires begins { first ≤ length view.now.leads.now }
    requires inside { IsWithin tree.now first (length view.now.leads.now) }
    ensures { MatchOption result (ReadsAll marks.now view.now.terns.now view.now.leads.now inputs first tree.now) (λ point. point < length view.now.leads.now) }
{
    match tree {
        Tree::Const(_) => None,
        Tree::Bits(place, count) => {
            unread_of(first, *place as usize, *count as usize, inputs, view, marks)
        }
        Tree::Pick(place, width, index) => {
            let count = 2usize.pow(*width);
            match unread_of(first, *place as usize, count, inputs, view, marks) {
                Some(point) => Some(point),
                None => unread(index, first, inputs, view, marks),
            }
        }
        Tree::Not(inner) => unread(inner, first, inputs, view, marks),
        Tree::Cat(left, _, right)
        | Tree::And(left, right)
        | Tree::Or(left, right)
        | Tree::Xor(left, right)
        | Tree::Equal(_, left, right)
        | Tree::Minus(_, left, right) => match unread(left, first, inputs, view, marks) {
            Some(point) => Some(point),
            None => unread(right, first, inputs, view, marks),
        },
        Tree::Cond(test, yes, no) => match unread(test, first, inputs, view, marks) {
            Some(point) => Some(point),
            None => match unread(yes, first, inputs, view, marks) {
                Some(point) => Some(point),
                None => unread(no, first, inputs, view, marks),
            },
        },
    }
}

// The same of points that follow one another.
fn unread_of(
    first: usize,
    place: usize,
    count: usize,
    inputs: Inputs,
    view: &View,
    marks: &[bool],
) -> Option<u32>
    requires within { first + (place + count) ≤ length view.now.leads.now }
    requires view { IsView view.now.terns.now view.now.leads.now }
    requires terns { length view.now.terns.now ≡ length view.now.leads.now }
    requires marks { length marks.now ≡ length view.now.leads.now }
    requires small { length view.now.leads.now ≤ 2 ^ 32 }
    ensures { MatchOption result ((k : ℕ) → k < count → IsRead marks.now view.now.terns.now view.now.leads.now inputs (first + (place + k)))
        (λ point. point < length view.now.leads.now) }
{
    for next in 0..count {
        let lead = view.leads[first + (place + next)];
        if !is_read(lead, inputs, view.terns, marks) {
            return Some(lead);
        }
    }
    None
}

// Whether a point does not vary or is one of these inputs.
fn is_read(lead: u32, inputs: Inputs, terns: &[Tern], marks: &[bool]) -> bool
    requires within { lead < length terns.now }
    requires marks { length marks.now ≡ length terns.now }
    ensures { result ≡ true → IsFixed marks.now terns.now lead ⊎ IsInput inputs lead }
{
    if !terns[lead as usize].is_open() {
        return true;
    }
    if !marks[lead as usize] {
        return true;
    }
    is_input(lead, inputs)
}

// Whether a point is one of these inputs.
fn is_input(point: u32, inputs: Inputs) -> bool
    ensures { result ≡ true → IsInput inputs point }
{
    if point == inputs.first || point == inputs.second {
        return true;
    }
    point == inputs.third || point == inputs.fourth
}
