//! The value of a compiled expression, bit by bit.

ghost use Rattle.std.specs.Prelude.{◌≡◌, ◌+◌, ◌*◌, ◌^◌, ◌<◌, ◌≤◌, length, map, take};
ghost use Rattle.fab_systems_laws.specs.Ternary.{known as known_tern};
ghost use Rattle.fab_solutions_laws.specs.fab_meaning_Value.{bit_at};
ghost use Rattle.fab_solutions_laws.specs.fab_ternary_laws_Operators.{tern_at, entry as entry_of};
ghost use Rattle.fab_solutions_laws.specs.fab_ternary_laws_Shown.{first_terns};
ghost use Rattle.fab_ternary.specs.Terns.{plain_tern};
ghost use Rattle.fab_compiled.specs.Terns.{seen, IsView};
ghost use Rattle.fab_compiled.specs.Trees.{tree_width, IsMade};
ghost use Rattle.fab_compiled.specs.Evaluation.{all_known, known_bits, value_seen, operands_same, operands_difference, operands_width, IsWithin};

use crate::indices::known_index;
use crate::operators::{agreed, both, differs, either, inverse};
use crate::tree::Tree;
use crate::view::View;
use crate::whole_values::deep_bit;
use fab_ternary::Tern;

/// The most bits that an index may have.
pub(crate) const MOST_INDEX_BITS: usize = 32;

/// A bit of the value of an expression over the points of an instance, of which the first is given. Each bit of its operands is found at most
/// once: of `==` and `-` by their values as a whole, for which memory is taken where an operand is more than a name, a part of one or a constant.
/// Where there is no memory, their bits are found anew for each bit.
#[cycle(value)]
pub fn eval(tree: &Tree, bit: u64, first: usize, view: &View) -> Tern
    requires made { IsMade tree.now }
    requires view { IsView view.now.terns.now view.now.leads.now }
    requires few { length view.now.leads.now ≤ 2 ^ 32 }
    requires begins { first ≤ length view.now.leads.now }
    requires inside { IsWithin tree.now first (length view.now.leads.now) }
    requires within { bit < tree_width tree.now }
    ensures { plain_tern result ≡ tern_at (value_seen view.now.terns.now view.now.leads.now first tree.now) bit }
{
    match tree {
        Tree::Const(bits) => constant_bit(bits, bit),
        Tree::Bits(place, _) => view.at(first + *place as usize + bit as usize),
        Tree::Pick(place, width, index) => {
            picked(index, *width, first + *place as usize, first, view)
        }
        Tree::Cat(low, width, high) => {
            if bit < *width {
                eval(low, bit, first, view)
            } else {
                eval(high, bit - *width, first, view)
            }
        }
        Tree::Not(inner) => inverse(eval(inner, bit, first, view)),
        Tree::And(left, right) => both(eval(left, bit, first, view), eval(right, bit, first, view)),
        Tree::Or(left, right) => either(
            eval(left, bit, first, view),
            eval(right, bit, first, view),
        ),
        Tree::Xor(left, right) => differs(
            eval(left, bit, first, view),
            eval(right, bit, first, view),
        ),
        Tree::Equal(_, left, right) => match deep_bit(tree, (left, right), bit, first, view) {
            Some(found) => found,
            None => same(tree, first, view),
        },
        Tree::Minus(_, left, right) => match deep_bit(tree, (left, right), bit, first, view) {
            Some(found) => found,
            None => difference_bit(tree, bit, first, view),
        },
        Tree::Cond(test, yes, no) => match eval(test, 0, first, view) {
            Tern::Yes => eval(yes, bit, first, view),
            Tern::No => eval(no, bit, first, view),
            Tern::Open => agreed(eval(yes, bit, first, view), eval(no, bit, first, view)),
        },
    }
}

// A bit of a constant.
fn constant_bit(bits: &[bool], bit: u64) -> Tern
    ensures { plain_tern result ≡ tern_at (map known_tern bits.now) bit }
{
    match bits.get(bit as usize) {
        Some(value) => Tern::known(*value),
        None => Tern::No,
    }
}

// The entry that an index picks of a table whose entries are points that follow one another, of which the first is given.
#[cycle(value)]
fn picked(index: &Tree, width: u32, table: usize, first: usize, view: &View) -> Tern
    requires made { IsMade index.now }
    requires view { IsView view.now.terns.now view.now.leads.now }
    requires few { length view.now.leads.now ≤ 2 ^ 32 }
    requires begins { first ≤ length view.now.leads.now }
    requires inside { IsWithin index.now first (length view.now.leads.now) }
    requires width { tree_width index.now ≡ width }
    requires small { width ≤ 32 }
    requires table { table + 2 ^ width ≤ length view.now.leads.now }
    ensures { plain_tern result ≡ entry_of (first_terns (2 ^ width) (λ k. seen view.now.terns.now view.now.leads.now (table + k)))
        (value_seen view.now.terns.now view.now.leads.now first index.now) }
{
    match known_index(index, 0, first, view) {
        Some(number) => view.at(table + number as usize),
        None => {
            let bits = index_bits(index, width, first, view);
            entry(&bits[..width as usize], table, 1, view)
        }
    }
}

// The bits of an index, the least significant first, and zeros behind them.
#[cycle(value)]
fn index_bits(index: &Tree, width: u32, first: usize, view: &View) -> [Tern; MOST_INDEX_BITS]
    requires made { IsMade index.now }
    requires view { IsView view.now.terns.now view.now.leads.now }
    requires few { length view.now.leads.now ≤ 2 ^ 32 }
    requires begins { first ≤ length view.now.leads.now }
    requires inside { IsWithin index.now first (length view.now.leads.now) }
    requires width { tree_width index.now ≡ width }
    requires small { width ≤ 32 }
    ensures { map plain_tern (take width result) ≡ value_seen view.now.terns.now view.now.leads.now first index.now }
{
    let mut bits = [Tern::No; MOST_INDEX_BITS];
    for place in 0..width {
        bits[place as usize] = eval(index, u64::from(place), first, view);
    }
    bits
}

/// The entry at an index of a table whose entries are points, of which the first is given, and how far each is behind the one before it. Where nothing is
/// known of one entry that an open bit may pick, the others do not matter.
pub fn entry(index: &[Tern], first: usize, stride: usize, view: &View) -> Tern
    requires leads { IsView view.now.terns.now view.now.leads.now }
    requires small { length view.now.leads.now ≤ 2 ^ 32 }
    requires within { first + stride * 2 ^ length index.now < length view.now.leads.now + stride }
    ensures { plain_tern result ≡ entry_of (first_terns (2 ^ length index.now) (λ k. seen view.now.terns.now view.now.leads.now (first + stride * k))) (map plain_tern index.now) }
{
    let Some((bit, rest)) = index.split_first() else {
        return view.at(first);
    };
    match bit {
        Tern::No => entry(rest, first, 2 * stride, view),
        Tern::Yes => entry(rest, first + stride, 2 * stride, view),
        Tern::Open => {
            let even = entry(rest, first, 2 * stride, view);
            if even.is_open() {
                return Tern::Open;
            }
            agreed(even, entry(rest, first + stride, 2 * stride, view))
        }
    }
}

// Whether the operands of `==` are the same.
#[cycle(value)]
fn same(tree: &Tree, first: usize, view: &View) -> Tern
    requires made { IsMade tree.now }
    requires view { IsView view.now.terns.now view.now.leads.now }
    requires few { length view.now.leads.now ≤ 2 ^ 32 }
    requires begins { first ≤ length view.now.leads.now }
    requires inside { IsWithin tree.now first (length view.now.leads.now) }
    ensures { plain_tern result ≡ operands_same view.now.terns.now view.now.leads.now first tree.now }
{
    match tree {
        Tree::Equal(width, left, right) => {
            let left: &Tree = left;
            let right: &Tree = right;
            let mut all = Tern::Yes;
            let mut place = *width;
            while place > 0 {
                place -= 1;
                let apart = differs(
                    eval(left, place, first, view),
                    eval(right, place, first, view),
                );
                all = both(inverse(apart), all);
            }
            all
        }
        Tree::Const(_) | Tree::Bits(_, _) | Tree::Pick(_, _, _) | Tree::Cat(_, _, _) => Tern::No,
        Tree::Not(_) | Tree::And(_, _) | Tree::Or(_, _) | Tree::Xor(_, _) => Tern::No,
        Tree::Minus(_, _, _) | Tree::Cond(_, _, _) => Tern::No,
    }
}

// A bit of the difference of the operands of `-`, which takes what the lower bits borrow. It is not known where some bit of an operand is not.
#[cycle(value)]
fn difference_bit(tree: &Tree, bit: u64, first: usize, view: &View) -> Tern
    requires made { IsMade tree.now }
    requires view { IsView view.now.terns.now view.now.leads.now }
    requires few { length view.now.leads.now ≤ 2 ^ 32 }
    requires begins { first ≤ length view.now.leads.now }
    requires inside { IsWithin tree.now first (length view.now.leads.now) }
    requires within { bit < operands_width tree.now }
    ensures { plain_tern result ≡ tern_at (operands_difference view.now.terns.now view.now.leads.now first tree.now) bit }
{
    match tree {
        Tree::Minus(width, left, right) => {
            let left: &Tree = left;
            let right: &Tree = right;
            if !knows(left, *width, first, view) || !knows(right, *width, first, view) {
                return Tern::Open;
            }
            let mut borrow = false;
            for place in 0..bit {
                let minuend = is_one(left, place, first, view);
                let subtrahend = is_one(right, place, first, view);
                if minuend != subtrahend {
                    borrow = subtrahend;
                }
            }
            Tern::known(is_one(left, bit, first, view) ^ is_one(right, bit, first, view) ^ borrow)
        }
        Tree::Const(_) | Tree::Bits(_, _) | Tree::Pick(_, _, _) | Tree::Cat(_, _, _) => Tern::No,
        Tree::Not(_) | Tree::And(_, _) | Tree::Or(_, _) | Tree::Xor(_, _) => Tern::No,
        Tree::Equal(_, _, _) | Tree::Cond(_, _, _) => Tern::No,
    }
}

// Whether all bits of an expression are known.
#[cycle(value)]
fn knows(tree: &Tree, width: u64, first: usize, view: &View) -> bool
    requires made { IsMade tree.now }
    requires view { IsView view.now.terns.now view.now.leads.now }
    requires few { length view.now.leads.now ≤ 2 ^ 32 }
    requires begins { first ≤ length view.now.leads.now }
    requires inside { IsWithin tree.now first (length view.now.leads.now) }
    requires width { tree_width tree.now ≡ width }
    ensures { result ≡ all_known (value_seen view.now.terns.now view.now.leads.now first tree.now) }
{
    for place in 0..width {
        if eval(tree, place, first, view).is_open() {
            return false;
        }
    }
    true
}

// Whether a bit of an expression is known to be 1.
#[cycle(value)]
fn is_one(tree: &Tree, bit: u64, first: usize, view: &View) -> bool
    requires made { IsMade tree.now }
    requires view { IsView view.now.terns.now view.now.leads.now }
    requires few { length view.now.leads.now ≤ 2 ^ 32 }
    requires begins { first ≤ length view.now.leads.now }
    requires inside { IsWithin tree.now first (length view.now.leads.now) }
    requires within { bit < tree_width tree.now }
    ensures { result ≡ bit_at (known_bits (value_seen view.now.terns.now view.now.leads.now first tree.now)) bit }
{
    eval(tree, bit, first, view).is_yes()
}
