//! The value of a compiled expression as a whole: each bit of its operands is found once, and what is borrowed is carried from bit to bit.

ghost use Rattle.std.specs.Prelude.{◌-◌, ◌≡◌, ◌+◌, ◌*◌, ◌^◌, ◌<◌, ◌≤◌, ◌∷◌, ◌++◌, ◌&&◌, List, [], false, true, drop, length, map, take, IfOk, IfSome, OnOk};
ghost use Rattle.fab_syntax.specs.declared.tree.Op.TheVariants as ops;
ghost use Rattle.fab_systems_laws.specs.Ternary.{known as known_tern};
ghost use Rattle.fab_systems_laws.specs.Ternary.{Tern as PlainTern};
ghost use Rattle.fab_solutions_laws.specs.fab_ternary_laws_Operators.{each_tern, same_terns, tern_at, tern_operated, inverse as inverse_of};
ghost use Rattle.fab_solutions_laws.specs.fab_ternary_laws_Shown.{first_terns};
ghost use Rattle.fab_ternary.specs.Terns.{plain_tern};
ghost use Rattle.fab_compiled.specs.Terns.{seen, IsView};
ghost use Rattle.fab_compiled.specs.Trees.{tree_width, IsMade};
ghost use Rattle.fab_compiled.specs.Evaluation.{all_known, value_seen, IsWithin};
ghost use Rattle.fab_compiled.specs.Pairs.{by};
ghost use Rattle.fab_compiled.specs.inner.Looked.{AreLookedUp};
ghost use Rattle.fab_compiled.specs.inner.Pairs.{AreLast};

use crate::evaluation::entry;
use crate::operators::{agreed, both, differs, either, inverse};
use crate::reading::{LookedUp, add_constant, add_points};
use crate::tree::Tree;
use crate::view::View;
use fab_base::Memory;
use fab_ternary::Tern;
use std::alloc::Global;

/// How two bits make one.
#[derive(Clone, Copy, Debug)]
pub enum Pairing {
    Both,
    Either,
    Differs,
    Agreed,
}

/// A bit of an equality or a difference by its value as a whole. `None` where both operands are names, parts of names or constants, or a difference ends
/// at its first bit, so that it takes no longer bit by bit; and where there is no memory.
pub(crate) fn deep_bit(
    tree: &Tree,
    operands: (&Box<Tree>, &Box<Tree>),
    bit: u64,
    first: usize,
    view: &View,
) -> Option<Tern>
    requires made { IsMade tree.now }
    requires view { IsView view.now.terns.now view.now.leads.now }
    requires few { length view.now.leads.now ≤ 2 ^ 32 }
    requires begins { first ≤ length view.now.leads.now }
    requires inside { IsWithin tree.now first (length view.now.leads.now) }
    ensures { IfSome result (λ found. plain_tern found ≡ tern_at (value_seen view.now.terns.now view.now.leads.now first tree.now) bit) }
{
    let (left, right) = operands;
    if is_flat(left) && is_flat(right) {
        return None;
    }
    if ends_at_once(tree, first, view) {
        return None;
    }
    match whole(*Box::allocator(left), tree, first, view) {
        Ok(bits) => Some(bit_of(&bits, bit as usize)),
        Err(Memory) => None,
    }
}

// Whether a bit of an expression takes no longer to find than a point.
fn is_flat(tree: &Tree) -> bool {
    match tree {
        Tree::Const(_) | Tree::Bits(_, _) => true,
        Tree::Pick(_, _, _) | Tree::Cat(_, _, _) | Tree::Not(_) | Tree::Cond(_, _, _) => false,
        Tree::And(_, _) | Tree::Or(_, _) | Tree::Xor(_, _) => false,
        Tree::Equal(_, _, _) | Tree::Minus(_, _, _) => false,
    }
}

// Whether an expression is a difference that a look at the first bit of its minuend ends, bit by bit too. An equality goes on behind an open bit, since two
// bits that differ may follow: with equalities in its operands, each bit of each would go through all of them again.
fn ends_at_once(tree: &Tree, first: usize, view: &View) -> bool {
    match tree {
        Tree::Minus(_, left, _) => starts_open(left, first, view),
        Tree::Const(_) | Tree::Bits(_, _) | Tree::Pick(_, _, _) | Tree::Cat(_, _, _) => false,
        Tree::Not(_) | Tree::And(_, _) | Tree::Or(_, _) | Tree::Xor(_, _) => false,
        Tree::Equal(_, _, _) | Tree::Cond(_, _, _) => false,
    }
}

// Whether the first bit of an expression is open because a point is.
fn starts_open(tree: &Tree, first: usize, view: &View) -> bool {
    match tree {
        Tree::Bits(place, _) => is_open_point(first.saturating_add(*place as usize), view),
        Tree::Not(left) | Tree::Xor(left, _) | Tree::Minus(_, left, _) => starts_open(
            left, first, view,
        ),
        Tree::Const(_) | Tree::Pick(_, _, _) | Tree::Cat(_, _, _) | Tree::Cond(_, _, _) => false,
        Tree::And(_, _) | Tree::Or(_, _) | Tree::Equal(_, _, _) => false,
    }
}

// Whether nothing is known of a point.
fn is_open_point(point: usize, view: &View) -> bool {
    let Some(lead) = view.leads.get(point) else {
        return false;
    };
    matches!(view.terns.get(*lead as usize), Some(Tern::Open))
}

/// All bits of the value of an expression, the least significant one first, over the points of an instance, of which the first is given. They take the place
/// of what the list has, so that one list serves for many. Where memory is refused, nothing is said of the list.
pub fn whole_into(
    tree: &Tree,
    first: usize,
    view: &View,
    bits: &mut Vec<Tern>,
) -> Result<(), Memory>
    requires made { IsMade tree.now }
    requires view { IsView view.now.terns.now view.now.leads.now }
    requires few { length view.now.leads.now ≤ 2 ^ 32 }
    requires begins { first ≤ length view.now.leads.now }
    requires inside { IsWithin tree.now first (length view.now.leads.now) }
    ensures { OnOk result (map plain_tern bits.new.items ≡ value_seen view.now.terns.now view.now.leads.now first tree.now) }
{
    bits.clear();
    let mut looked = LookedUp::new(*bits.allocator());
    add_whole(tree, first, view, &mut looked, bits)
}

/// The same in a list of its own.
pub(crate) fn whole(
    alloc: Global,
    tree: &Tree,
    first: usize,
    view: &View,
) -> Result<Vec<Tern>, Memory>
    requires made { IsMade tree.now }
    requires view { IsView view.now.terns.now view.now.leads.now }
    requires few { length view.now.leads.now ≤ 2 ^ 32 }
    requires begins { first ≤ length view.now.leads.now }
    requires inside { IsWithin tree.now first (length view.now.leads.now) }
    ensures { IfOk result (λ bits. map plain_tern bits.items ≡ value_seen view.now.terns.now view.now.leads.now first tree.now) }
{
    let mut bits = Vec::new(alloc);
    let mut looked = LookedUp::new(alloc);
    add_whole(tree, first, view, &mut looked, &mut bits)?;
    Ok(bits)
}

// The same behind the bits of a list. Bits of operands wait there one behind the other, so that one list serves for all of them. Points that were looked up
// once serve wherever they stand again.
#[cycle(adding)]
fn add_whole(
    tree: &Tree,
    first: usize,
    view: &View,
    looked: &mut LookedUp,
    bits: &mut Vec<Tern>,
) -> Result<(), Memory>
    requires made { IsMade tree.now }
    requires view { IsView view.now.terns.now view.now.leads.now }
    requires few { length view.now.leads.now ≤ 2 ^ 32 }
    requires begins { first ≤ length view.now.leads.now }
    requires inside { IsWithin tree.now first (length view.now.leads.now) }
    requires looked { AreLookedUp view.now.terns.now view.now.leads.now first looked.old }
    ensures bits { OnOk result (map plain_tern bits.new.items ≡ map plain_tern bits.old.items ++
        value_seen view.now.terns.now view.now.leads.now first tree.now) }
    ensures looked { AreLookedUp view.now.terns.now view.now.leads.now first looked.new }
{
    let low = bits.len();
    match tree {
        Tree::Const(constant) => add_constant(constant, bits),
        Tree::Bits(place, count) => {
            add_points(first, *place as usize, *count as usize, view, looked, bits)
        }
        Tree::Pick(place, _, index) => {
            add_whole(index, first, view, looked, bits)?;
            let found = entry(&bits[low..], first + *place as usize, 1, view);
            end_in(low, found, bits)
        }
        Tree::Cat(left, _, right) => {
            add_both(left, right, first, view, looked, bits)?;
            Ok(())
        }
        Tree::Not(inner) => {
            add_whole(inner, first, view, looked, bits)?;
            invert(&mut bits[low..]);
            Ok(())
        }
        Tree::And(left, right) => {
            let middle = add_both(left, right, first, view, looked, bits)?;
            pair_last(Pairing::Both, low, middle, bits);
            Ok(())
        }
        Tree::Or(left, right) => {
            let middle = add_both(left, right, first, view, looked, bits)?;
            pair_last(Pairing::Either, low, middle, bits);
            Ok(())
        }
        Tree::Xor(left, right) => {
            let middle = add_both(left, right, first, view, looked, bits)?;
            pair_last(Pairing::Differs, low, middle, bits);
            Ok(())
        }
        Tree::Equal(_, left, right) => {
            let middle = add_both(left, right, first, view, looked, bits)?;
            compare_last(low, middle, bits)
        }
        Tree::Minus(_, left, right) => {
            let middle = add_both(left, right, first, view, looked, bits)?;
            subtract_last(low, middle, bits);
            Ok(())
        }
        Tree::Cond(test, yes, no) => {
            add_whole(test, first, view, looked, bits)?;
            let test = bit_of(bits, low);
            bits.truncate(low);
            match test {
                Tern::Yes => add_whole(yes, first, view, looked, bits),
                Tern::No => add_whole(no, first, view, looked, bits),
                Tern::Open => {
                    let middle = add_both(yes, no, first, view, looked, bits)?;
                    pair_last(Pairing::Agreed, low, middle, bits);
                    Ok(())
                }
            }
        }
    }
}

// The same of two expressions, and where the bits of the second begin.
#[cycle(adding)]
fn add_both(
    left: &Tree,
    right: &Tree,
    first: usize,
    view: &View,
    looked: &mut LookedUp,
    bits: &mut Vec<Tern>,
) -> Result<usize, Memory>
    requires left { IsMade left.now }
    requires right { IsMade right.now }
    requires view { IsView view.now.terns.now view.now.leads.now }
    requires few { length view.now.leads.now ≤ 2 ^ 32 }
    requires begins { first ≤ length view.now.leads.now }
    requires left_inside { IsWithin left.now first (length view.now.leads.now) }
    requires right_inside { IsWithin right.now first (length view.now.leads.now) }
    requires looked { AreLookedUp view.now.terns.now view.now.leads.now first looked.old }
    ensures bits { IfOk result (λ middle. map plain_tern bits.new.items ≡ map plain_tern bits.old.items ++
        (value_seen view.now.terns.now view.now.leads.now first left.now ++ value_seen view.now.terns.now view.now.leads.now first right.now)) }
    ensures middle { IfOk result (λ middle. middle ≡ length bits.old.items + tree_width left.now) }
    ensures looked { AreLookedUp view.now.terns.now view.now.leads.now first looked.new }
{
    add_whole(left, first, view, looked, bits)?;
    let middle = bits.len();
    add_whole(right, first, view, looked, bits)?;
    Ok(middle)
}

// Two lists at the end of another in one, bit by bit: the first stands from a place on, and the second from the middle on.
fn pair_last(pairing: Pairing, low: usize, middle: usize, bits: &mut Vec<Tern>)
    requires low { low ≤ middle }
    requires middle { middle + (middle - low) ≡ length bits.old.items }
    ensures { (before left right : List PlainTern) → AreLast low middle before left right (map plain_tern bits.old.items) →
        map plain_tern bits.new.items ≡ before ++ each_tern (by pairing) left right }
{
    pair_halves(pairing, middle - low, &mut bits[low..]);
    bits.truncate(middle);
}

// Two lists of so many bits that stand one behind the other in one, in the place of the first.
fn pair_halves(pairing: Pairing, width: usize, halves: &mut [Tern])
    requires { width + width ≡ length halves.old }
    ensures { map plain_tern (take width halves.new) ≡ each_tern (by pairing) (map plain_tern (take width halves.old)) (map plain_tern (drop width halves.old)) }
{
    let (left, right) = halves.split_at_mut(width);
    pair_up(pairing, left, right);
}

// The difference of two such lists.
fn subtract_last(low: usize, middle: usize, bits: &mut Vec<Tern>)
    requires low { low ≤ middle }
    requires middle { middle + (middle - low) ≡ length bits.old.items }
    ensures { (before left right : List PlainTern) → AreLast low middle before left right (map plain_tern bits.old.items) →
        map plain_tern bits.new.items ≡ before ++ tern_operated ops.Minus left right }
{
    subtract_halves(middle - low, &mut bits[low..]);
    bits.truncate(middle);
}

// The same of lists that stand alone.
fn subtract_halves(width: usize, halves: &mut [Tern])
    requires { width + width ≡ length halves.old }
    ensures { map plain_tern (take width halves.new) ≡ tern_operated ops.Minus (map plain_tern (take width halves.old)) (map plain_tern (drop width halves.old)) }
{
    let (left, right) = halves.split_at_mut(width);
    subtract(left, right);
}

// Whether two such lists are the same.
fn compare_last(low: usize, middle: usize, bits: &mut Vec<Tern>) -> Result<(), Memory>
    requires low { low ≤ middle }
    requires middle { middle + (middle - low) ≡ length bits.old.items }
    ensures { OnOk result ((before left right : List PlainTern) → AreLast low middle before left right (map plain_tern bits.old.items) →
        map plain_tern bits.new.items ≡ before ++ same_terns left right ∷ []) }
{
    let same = same_bits(&bits[low..middle], &bits[middle..]);
    end_in(low, same, bits)
}

// One bit in the place of all from a place on.
fn end_in(low: usize, bit: Tern, bits: &mut Vec<Tern>) -> Result<(), Memory>
    ensures { OnOk result (bits.new.items ≡ take low bits.old.items ++ bit ∷ []) }
{
    bits.truncate(low);
    bits.push(bit)?;
    Ok(())
}

// A bit of a list; there are none past the end.
fn bit_of(bits: &[Tern], place: usize) -> Tern
    ensures { plain_tern result ≡ tern_at (map plain_tern bits.now) place }
{
    match bits.get(place) {
        Some(bit) => *bit,
        None => Tern::No,
    }
}

/// 1 for 0 and 0 for 1, in each place.
pub fn invert(bits: &mut [Tern])
    ensures { map plain_tern bits.new ≡ map inverse_of (map plain_tern bits.old) }
{
    for place in 0..bits.len() {
        bits[place] = inverse(bits[place]);
    }
}

/// Two bits in one.
pub fn pair(pairing: Pairing, left: Tern, right: Tern) -> Tern
    ensures { plain_tern result ≡ by pairing (plain_tern left) (plain_tern right) }
{
    match pairing {
        Pairing::Both => both(left, right),
        Pairing::Either => either(left, right),
        Pairing::Differs => differs(left, right),
        Pairing::Agreed => agreed(left, right),
    }
}

/// Two lists in one, place by place, where the first was.
//
// Each pairing is named here, so that there is a loop for each, which asks for none.
pub fn pair_up(pairing: Pairing, left: &mut [Tern], right: &[Tern])
    requires { length left.old ≡ length right.now }
    ensures { map plain_tern left.new ≡ each_tern (by pairing) (map plain_tern left.old) (map plain_tern right.now) }
{
    match pairing {
        Pairing::Both => pair_each(Pairing::Both, left, right),
        Pairing::Either => pair_each(Pairing::Either, left, right),
        Pairing::Differs => pair_each(Pairing::Differs, left, right),
        Pairing::Agreed => pair_each(Pairing::Agreed, left, right),
    }
}

// The same by one pairing.
#[inline(always)]
fn pair_each(pairing: Pairing, left: &mut [Tern], right: &[Tern])
    requires { length left.old ≡ length right.now }
    ensures { map plain_tern left.new ≡ each_tern (by pairing) (map plain_tern left.old) (map plain_tern right.now) }
{
    for place in 0..left.len() {
        left[place] = pair(pairing, left[place], right[place]);
    }
}

/// Whether two lists are the same: 0 where two known bits differ, and 1 where all are known and agree.
pub fn same_bits(left: &[Tern], right: &[Tern]) -> Tern
    requires { length left.now ≡ length right.now }
    ensures { plain_tern result ≡ same_terns (map plain_tern left.now) (map plain_tern right.now) }
{
    let mut all = Tern::Yes;
    let mut place = left.len();
    while place > 0 {
        place -= 1;
        let apart = differs(left[place], right[place]);
        all = both(inverse(apart), all);
    }
    all
}

/// A difference, in the place of the minuend. Nothing is known of it where a bit of either side is not known.
pub fn subtract(left: &mut [Tern], right: &[Tern])
    requires { length left.old ≡ length right.now }
    ensures { map plain_tern left.new ≡ tern_operated ops.Minus (map plain_tern left.old) (map plain_tern right.now) }
{
    if both_known(left, right) {
        borrow_along(left, right);
    } else {
        forget(left, right);
    }
}

// Whether all bits of two lists are known.
fn both_known(left: &[Tern], right: &[Tern]) -> bool
    ensures { result ≡ (all_known (map plain_tern left.now) && all_known (map plain_tern right.now)) }
{
    are_known(left) && are_known(right)
}

// Whether all bits are known.
fn are_known(bits: &[Tern]) -> bool
    ensures { result ≡ all_known (map plain_tern bits.now) }
{
    for bit in bits {
        if bit.is_open() {
            return false;
        }
    }
    true
}

// A difference of known bits. What a place borrows is carried to the next one.
fn borrow_along(left: &mut [Tern], right: &[Tern])
    requires same { length left.old ≡ length right.now }
    requires known { (all_known (map plain_tern left.old) && all_known (map plain_tern right.now)) ≡ true }
    ensures { map plain_tern left.new ≡ tern_operated ops.Minus (map plain_tern left.old) (map plain_tern right.now) }
{
    let mut borrow = false;
    for place in 0..left.len() {
        let minuend = left[place].is_yes();
        let subtrahend = right[place].is_yes();
        left[place] = Tern::known(minuend ^ subtrahend ^ borrow);
        if minuend != subtrahend {
            borrow = subtrahend;
        }
    }
}

// A difference of which nothing is known.
fn forget(left: &mut [Tern], right: &[Tern])
    requires { (all_known (map plain_tern left.old) && all_known (map plain_tern right.now)) ≡ false }
    ensures { map plain_tern left.new ≡ tern_operated ops.Minus (map plain_tern left.old) (map plain_tern right.now) }
{
    for place in 0..left.len() {
        left[place] = Tern::Open;
    }
}
