//! Operators that are found as a whole: when they are found anew.

ghost use Rattle.std.specs.Prelude.{◌≡◌, ◌+◌, ◌≤◌, length, map};
ghost use Rattle.fab_solutions_laws.specs.Laws.{AreUnder};
ghost use Rattle.fab_ternary.specs.Terns.{plain_tern};
ghost use Rattle.fab_compiled.specs.Terns.{seen};
ghost use Rattle.fab_compiled.specs.Trees.{tree_width};
ghost use Rattle.fab_compiled.specs.Evaluation.{value_seen};
ghost use Rattle.fab_nodes.specs.Nodes.{room, AreNodes, AreOperands, IsLaidOut};
ghost use Rattle.fab_nodes.specs.inner.Renewing.{AreBoth, IsRead};

use crate::filling::{Spare, fill_own};
use crate::layout::Layout;
use crate::operands::{Binary, Operands, operand_bit, operands_of};
use crate::pointwise::{Operand, bits_of_both};
use crate::renewing::{News, Renewed, push_numbers};
use fab_base::Memory;
use fab_compiled::{Tree, differs};
use fab_ternary::Tern;

/// Whether an operator is found as a whole: all its bits are known together.
pub(crate) fn is_whole(tree: &Tree) -> bool {
    match tree {
        Tree::Pick(_, _, _) | Tree::Equal(_, _, _) | Tree::Minus(_, _, _) => true,
        Tree::Const(_) | Tree::Bits(_, _) | Tree::Cat(_, _, _) | Tree::Not(_) => false,
        Tree::And(_, _) | Tree::Or(_, _) | Tree::Xor(_, _) | Tree::Cond(_, _, _) => false,
    }
}

/// Whether the first bit of a list is known.
pub(crate) fn is_found(own: &[Tern]) -> bool {
    match own.first() {
        Some(bit) => !bit.is_open(),
        None => false,
    }
}

/// Finds all bits of an operator anew. Where they come to be known, their numbers are new.
pub(crate) fn find_whole(
    tree: &Tree,
    layout: &Layout,
    point: &Renewed,
    spare: &mut Spare,
    news: &mut News,
    operands: &[Tern],
    own: &mut [Tern],
)
    requires read { IsRead point.now.view.terns.now point.now.view.leads.now point.now.first tree.now layout.now }
    requires width { length own.old ≡ tree_width tree.now }
    requires long { tree_width tree.now + length operands.now ≡ room tree.now }
    requires operands { AreOperands (λ place. seen point.now.view.terns.now point.now.view.leads.now (point.now.first + place)) tree.now (map plain_tern operands.now) }
    requires own { AreUnder (map plain_tern own.old) (value_seen point.now.view.terns.now point.now.view.leads.now point.now.first tree.now) }
    ensures { AreUnder (map plain_tern own.new) (value_seen point.now.view.terns.now point.now.view.leads.now point.now.first tree.now) }
{
    match fill_own(tree, layout, point.first, &point.view, operands, spare, own) {
        Ok(()) => {
            if is_found(own) {
                push_numbers(own.len(), &mut news.bits);
            }
        }
        Err(Memory) => {}
    }
}

/// Whether an operator is to be found anew as a whole: where its operands may tell more of it, and so seldom that all finds together take little more than one.
pub(crate) fn is_due(
    tree: &Tree,
    layout: &Layout,
    point: &Renewed,
    news: &mut News,
    mark: usize,
    operands: &[Tern],
) -> bool
    requires read { IsRead point.now.view.terns.now point.now.view.leads.now point.now.first tree.now layout.now }
    requires long { tree_width tree.now + length operands.now ≡ room tree.now }
    requires operands { AreOperands (λ place. seen point.now.view.terns.now point.now.view.leads.now (point.now.first + place)) tree.now (map plain_tern operands.now) }
{
    let Some(known) = news.known.get_mut(layout.node().number) else {
        return true;
    };
    match operands_of(tree) {
        Operands::Two(operator, left, right) => {
            let Layout::Two(_, of_left, of_right) = layout else {
                return true;
            };
            let left = Operand::of(left, of_left);
            let right = Operand::of(right, of_right);
            if matches!(operator, Binary::Equal)
                && are_apart(left, right, point, &news.bits, mark, operands)
            {
                return true;
            }
            *known = known_from(left, right, point, *known, operands);
            *known >= common_width(left, right)
        }
        Operands::One(_, inner) => {
            let Layout::One(_, of_inner) = layout else {
                return true;
            };
            *known = known.saturating_add(1);
            known.is_power_of_two() || is_all_known(Operand::of(inner, of_inner), point, operands)
        }
        Operands::None | Operands::Three(_, _, _) => true,
    }
}

// How many bits both operands have.
fn common_width(left: Operand, right: Operand) -> u64
    requires left { IsLaidOut left.tree.now left.layout.now }
    requires right { IsLaidOut right.tree.now right.layout.now }
    ensures left { result ≤ tree_width left.entry.tree.now }
    ensures right { result ≤ tree_width right.entry.tree.now }
{
    let width = left.layout.node().width;
    width.min(right.layout.node().width) as u64
}

// How many bits of both operands are known from the first on, where so many are known already.
fn known_from(left: Operand, right: Operand, point: &Renewed, from: u64, operands: &[Tern]) -> u64
    requires left { IsRead point.now.view.terns.now point.now.view.leads.now point.now.first left.tree.now left.layout.now }
    requires right { IsRead point.now.view.terns.now point.now.view.leads.now point.now.first right.tree.now right.layout.now }
    requires long { length operands.now ≡ room left.tree.now + room right.tree.now }
    requires nodes { AreBoth (λ place. seen point.now.view.terns.now point.now.view.leads.now (point.now.first + place)) left.tree.now right.tree.now (map plain_tern operands.now) }
{
    let width = common_width(left, right);
    for bit in from..width {
        let (one, other) = bits_of_both(left, right, point, bit, operands);
        if one.is_open() || other.is_open() {
            return bit;
        }
    }
    width
}

// Whether two operands are known to differ in one of the new bits, which stand from the mark on.
fn are_apart(
    left: Operand,
    right: Operand,
    point: &Renewed,
    bits: &[u32],
    mark: usize,
    operands: &[Tern],
) -> bool
    requires left { IsRead point.now.view.terns.now point.now.view.leads.now point.now.first left.tree.now left.layout.now }
    requires right { IsRead point.now.view.terns.now point.now.view.leads.now point.now.first right.tree.now right.layout.now }
    requires long { length operands.now ≡ room left.tree.now + room right.tree.now }
    requires nodes { AreBoth (λ place. seen point.now.view.terns.now point.now.view.leads.now (point.now.first + place)) left.tree.now right.tree.now (map plain_tern operands.now) }
{
    let width = common_width(left, right);
    for next in mark..bits.len() {
        let bit = u64::from(bits[next]);
        if bit < width {
            let (one, other) = bits_of_both(left, right, point, bit, operands);
            if differs(one, other).is_yes() {
                return true;
            }
        }
    }
    false
}

// Whether all bits of an operand are known.
fn is_all_known(operand: Operand, point: &Renewed, bits: &[Tern]) -> bool
    requires read { IsRead point.now.view.terns.now point.now.view.leads.now point.now.first operand.tree.now operand.layout.now }
    requires long { length bits.now ≡ room operand.tree.now }
    requires nodes { AreNodes (λ place. seen point.now.view.terns.now point.now.view.leads.now (point.now.first + place)) operand.tree.now (map plain_tern bits.now) }
{
    for bit in 0..operand.layout.node().width as u64 {
        if operand_bit(operand.tree, bits, bit, point.first, &point.view).is_open() {
            return false;
        }
    }
    true
}
