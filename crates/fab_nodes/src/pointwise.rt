//! Bits of an operator by those of its operands.

ghost use Rattle.std.specs.Prelude.{◌≡◌, ◌+◌, ◌<◌, ◌++◌, length, map};
ghost use Rattle.fab_systems_laws.specs.Ternary.{IsBelow};
ghost use Rattle.fab_solutions_laws.specs.Laws.{AreUnder};
ghost use Rattle.fab_solutions_laws.specs.fab_ternary_laws_Operators.{tern_at};
ghost use Rattle.fab_ternary.specs.Terns.{plain_tern};
ghost use Rattle.fab_compiled.specs.Terns.{seen};
ghost use Rattle.fab_compiled.specs.Trees.{tree_width};
ghost use Rattle.fab_compiled.specs.Evaluation.{value_seen};
ghost use Rattle.fab_nodes.specs.Nodes.{room, AreOperands};
ghost use Rattle.fab_nodes.specs.inner.Renewing.{AreBoth, IsRead};

use crate::layout::Layout;
use crate::operands::{Binary, Operands, Unary, operand_bit, operands_of};
use crate::renewing::{News, Renewed};
use fab_compiled::{Tree, inverse, pair, through};
use fab_ternary::Tern;

/// An operand, and where its values stand.
#[derive(Clone, Copy)]
pub(crate) struct Operand<'t> {
    pub tree: &'t Tree,
    pub layout: &'t Layout,
}

impl<'t> Operand<'t> {
    pub(crate) fn of(tree: &'t Tree, layout: &'t Layout) -> Operand<'t>
        ensures tree { result.tree.now ≡ tree.now }
        ensures layout { result.layout.now ≡ layout.now }
    {
        Operand { tree, layout }
    }
}

/// Looks at the new bits of an operator, from the mark on. Those that come to be known are written, and stay in the list.
pub(crate) fn settle(
    tree: &Tree,
    layout: &Layout,
    point: &Renewed,
    news: &mut News,
    mark: usize,
    operands: &[Tern],
    own: &mut [Tern],
)
    requires read { IsRead point.now.view.terns.now point.now.view.leads.now point.now.first tree.now layout.now }
    requires long { tree_width tree.now + length operands.now ≡ room tree.now }
    requires operands { AreOperands (λ place. seen point.now.view.terns.now point.now.view.leads.now (point.now.first + place)) tree.now (map plain_tern operands.now) }
    requires own { AreUnder (map plain_tern own.old) (value_seen point.now.view.terns.now point.now.view.leads.now point.now.first tree.now) }
    ensures { AreUnder (map plain_tern own.new) (value_seen point.now.view.terns.now point.now.view.leads.now point.now.first tree.now) }
{
    let mut end = mark;
    for next in mark..news.bits.len() {
        let number = news.bits.get(next).copied().unwrap_or(u32::MAX);
        if settle_bit(tree, layout, point, number, operands, own) {
            if let Some(place) = news.bits.get_mut(end) {
                *place = number;
            }
            end = end.saturating_add(1);
        }
    }
    news.bits.truncate(end);
}

// Whether a bit has come to be known. It is written then.
fn settle_bit(
    tree: &Tree,
    layout: &Layout,
    point: &Renewed,
    number: u32,
    operands: &[Tern],
    own: &mut [Tern],
) -> bool
    requires read { IsRead point.now.view.terns.now point.now.view.leads.now point.now.first tree.now layout.now }
    requires long { tree_width tree.now + length operands.now ≡ room tree.now }
    requires operands { AreOperands (λ place. seen point.now.view.terns.now point.now.view.leads.now (point.now.first + place)) tree.now (map plain_tern operands.now) }
    requires own { AreUnder (map plain_tern own.old) (value_seen point.now.view.terns.now point.now.view.leads.now point.now.first tree.now) }
    ensures { AreUnder (map plain_tern own.new) (value_seen point.now.view.terns.now point.now.view.leads.now point.now.first tree.now) }
{
    let place = number as usize;
    if place >= own.len() || !own[place].is_open() {
        return false;
    }
    let found = own_bit(tree, layout, point, place as u64, operands);
    if found.is_open() {
        return false;
    }
    own[place] = found;
    true
}

// A bit of an operator by its operands. Of an operator that is found as a whole, nothing is told.
fn own_bit(tree: &Tree, layout: &Layout, point: &Renewed, bit: u64, operands: &[Tern]) -> Tern
    requires read { IsRead point.now.view.terns.now point.now.view.leads.now point.now.first tree.now layout.now }
    requires long { tree_width tree.now + length operands.now ≡ room tree.now }
    requires operands { AreOperands (λ place. seen point.now.view.terns.now point.now.view.leads.now (point.now.first + place)) tree.now (map plain_tern operands.now) }
    requires within { bit < tree_width tree.now }
    ensures { IsBelow (plain_tern result) (tern_at (value_seen point.now.view.terns.now point.now.view.leads.now point.now.first tree.now) bit) }
{
    match operands_of(tree) {
        Operands::None | Operands::One(Unary::Pick(_, _), _) => Tern::Open,
        Operands::One(Unary::Inverse, inner) => {
            inverse(operand_bit(inner, operands, bit, point.first, &point.view))
        }
        Operands::Two(operator, left, right) => {
            let Layout::Two(_, of_left, of_right) = layout else {
                return Tern::Open;
            };
            let left = Operand::of(left, of_left);
            let right = Operand::of(right, of_right);
            match operator {
                Binary::Cat => bit_of_parts(left, right, point, bit, operands),
                Binary::Pair(pairing) => {
                    let (one, other) = bits_of_both(left, right, point, bit, operands);
                    pair(pairing, one, other)
                }
                Binary::Equal | Binary::Minus => Tern::Open,
            }
        }
        Operands::Three(test, yes, no) => {
            let Layout::Three(_, of_test, of_yes, of_no) = layout else {
                return Tern::Open;
            };
            let yes = Operand::of(yes, of_yes);
            let no = Operand::of(no, of_no);
            let (of_test, branches) = operands.split_at(of_test.node().room);
            let test = operand_bit(test, of_test, 0, point.first, &point.view);
            let (one, other) = bits_of_both(yes, no, point, bit, branches);
            through(test, one, other)
        }
    }
}

// A bit of two parts, of which the second stands behind the first.
fn bit_of_parts(left: Operand, right: Operand, point: &Renewed, bit: u64, operands: &[Tern]) -> Tern
    requires left { IsRead point.now.view.terns.now point.now.view.leads.now point.now.first left.tree.now left.layout.now }
    requires right { IsRead point.now.view.terns.now point.now.view.leads.now point.now.first right.tree.now right.layout.now }
    requires long { length operands.now ≡ room left.tree.now + room right.tree.now }
    requires nodes { AreBoth (λ place. seen point.now.view.terns.now point.now.view.leads.now (point.now.first + place)) left.tree.now right.tree.now (map plain_tern operands.now) }
    requires within { bit < tree_width left.tree.now + tree_width right.tree.now }
    ensures { IsBelow (plain_tern result) (tern_at (value_seen point.now.view.terns.now point.now.view.leads.now point.now.first left.entry.tree.now ++ value_seen point.now.view.terns.now point.now.view.leads.now point.now.first right.entry.tree.now) bit) }
{
    let width = left.layout.node().width as u64;
    let (of_left, of_right) = operands.split_at(left.layout.node().room);
    if bit < width {
        operand_bit(left.tree, of_left, bit, point.first, &point.view)
    } else {
        operand_bit(right.tree, of_right, bit - width, point.first, &point.view)
    }
}

/// The bits of two operands with the same number.
pub(crate) fn bits_of_both(
    left: Operand,
    right: Operand,
    point: &Renewed,
    bit: u64,
    operands: &[Tern],
) -> (Tern, Tern)
    requires left { IsRead point.now.view.terns.now point.now.view.leads.now point.now.first left.tree.now left.layout.now }
    requires right { IsRead point.now.view.terns.now point.now.view.leads.now point.now.first right.tree.now right.layout.now }
    requires long { length operands.now ≡ room left.tree.now + room right.tree.now }
    requires nodes { AreBoth (λ place. seen point.now.view.terns.now point.now.view.leads.now (point.now.first + place)) left.tree.now right.tree.now (map plain_tern operands.now) }
    requires left_within { bit < tree_width left.tree.now }
    requires right_within { bit < tree_width right.tree.now }
    ensures left { IsBelow (plain_tern result.0) (tern_at (value_seen point.now.view.terns.now point.now.view.leads.now point.now.first left.entry.tree.now) bit) }
    ensures right { IsBelow (plain_tern result.1) (tern_at (value_seen point.now.view.terns.now point.now.view.leads.now point.now.first right.entry.tree.now) bit) }
{
    let (of_left, of_right) = operands.split_at(left.layout.node().room);
    let one = operand_bit(left.tree, of_left, bit, point.first, &point.view);
    let other = operand_bit(right.tree, of_right, bit, point.first, &point.view);
    (one, other)
}
