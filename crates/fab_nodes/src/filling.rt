//! All values of the nodes of an expression at once.

ghost use Rattle.std.specs.Prelude.{◌≡◌, ◌+◌, ◌-◌, ◌^◌, ◌≤◌, length, map, OnErr, OnOk};
ghost use Rattle.fab_solutions_laws.specs.Laws.{AreUnder};
ghost use Rattle.fab_ternary.specs.Terns.{plain_tern};
ghost use Rattle.fab_compiled.specs.Terns.{seen, IsView};
ghost use Rattle.fab_compiled.specs.Trees.{tree_width, IsMade};
ghost use Rattle.fab_compiled.specs.Evaluation.{value_seen, IsWithin};
ghost use Rattle.fab_nodes.specs.Nodes.{room, AreNodes, AreOperands, IsLaidOut};
ghost use Rattle.fab_nodes.specs.inner.Operands.{joined, joined_width, made_of, made_width, AreWide, IsTableWithin, IsWide};

use crate::layout::Layout;
use crate::operands::{Binary, Operands, Unary, is_leaf, operand_bit, operand_into, operands_of};
use fab_base::Memory;
use fab_compiled::{Pairing, Tree, View, entry, invert, pair_up, same_bits, subtract};
use fab_ternary::Tern;
use std::alloc::Global;

/// Lists for the operands of one operator.
#[derive(Drop)]
pub struct Spare {
    pub left: Vec<Tern>,
    pub right: Vec<Tern>,
}

impl Spare {
    pub(crate) fn new(alloc: Global) -> Spare {
        Spare {
            left: Vec::new(alloc),
            right: Vec::new(alloc),
        }
    }
}

/// Finds the values of all nodes of an expression, each once. Where memory is refused, nothing is said of them.
#[cycle(filling)]
pub(crate) fn fill(
    tree: &Tree,
    layout: &Layout,
    first: usize,
    view: &View,
    spare: &mut Spare,
    bits: &mut [Tern],
) -> Result<(), Memory>
    requires made { IsMade tree.now }
    requires view { IsView view.now.terns.now view.now.leads.now }
    requires few { length view.now.leads.now ≤ 2 ^ 32 }
    requires begins { first ≤ length view.now.leads.now }
    requires inside { IsWithin tree.now first (length view.now.leads.now) }
    requires layout { IsLaidOut tree.now layout.now }
    requires long { length bits.old ≡ room tree.now }
    ensures { OnOk result (AreNodes (λ place. seen view.now.terns.now view.now.leads.now (first + place)) tree.now (map plain_tern bits.new)) }
{
    if is_leaf(tree) {
        return Ok(());
    }
    let (own, operands) = bits.split_at_mut(layout.node().width);
    fill_operands(tree, layout, first, view, spare, operands)?;
    fill_own(tree, layout, first, view, operands, spare, own)
}

// The same of the operands of a node, one behind the other.
#[cycle(filling)]
fn fill_operands(
    tree: &Tree,
    layout: &Layout,
    first: usize,
    view: &View,
    spare: &mut Spare,
    bits: &mut [Tern],
) -> Result<(), Memory>
    requires made { IsMade tree.now }
    requires view { IsView view.now.terns.now view.now.leads.now }
    requires few { length view.now.leads.now ≤ 2 ^ 32 }
    requires begins { first ≤ length view.now.leads.now }
    requires inside { IsWithin tree.now first (length view.now.leads.now) }
    requires layout { IsLaidOut tree.now layout.now }
    requires long { tree_width tree.now + length bits.old ≡ room tree.now }
    ensures { OnOk result (AreOperands (λ place. seen view.now.terns.now view.now.leads.now (first + place)) tree.now (map plain_tern bits.new)) }
{
    match operands_of(tree) {
        Operands::None => Ok(()),
        Operands::One(_, operand) => {
            let Layout::One(_, of_operand) = layout else {
                return Err(Memory);
            };
            fill(operand, of_operand, first, view, spare, bits)
        }
        Operands::Two(_, left, right) => {
            let Layout::Two(_, of_left, of_right) = layout else {
                return Err(Memory);
            };
            let (left_bits, right_bits) = bits.split_at_mut(of_left.node().room);
            fill(left, of_left, first, view, spare, left_bits)?;
            fill(right, of_right, first, view, spare, right_bits)
        }
        Operands::Three(test, yes, no) => {
            let Layout::Three(_, of_test, of_yes, of_no) = layout else {
                return Err(Memory);
            };
            let (test_bits, branches) = bits.split_at_mut(of_test.node().room);
            let (yes_bits, no_bits) = branches.split_at_mut(of_yes.node().room);
            fill(test, of_test, first, view, spare, test_bits)?;
            fill(yes, of_yes, first, view, spare, yes_bits)?;
            fill(no, of_no, first, view, spare, no_bits)
        }
    }
}

/// Finds the values of a node by those of its operands. Where memory is refused, the values stay what they were.
pub(crate) fn fill_own(
    tree: &Tree,
    layout: &Layout,
    first: usize,
    view: &View,
    operands: &[Tern],
    spare: &mut Spare,
    own: &mut [Tern],
) -> Result<(), Memory>
    requires made { IsMade tree.now }
    requires view { IsView view.now.terns.now view.now.leads.now }
    requires few { length view.now.leads.now ≤ 2 ^ 32 }
    requires begins { first ≤ length view.now.leads.now }
    requires inside { IsWithin tree.now first (length view.now.leads.now) }
    requires layout { IsLaidOut tree.now layout.now }
    requires long { length own.old + length operands.now ≡ room tree.now }
    requires width { length own.old ≡ tree_width tree.now }
    requires operands { AreOperands (λ place. seen view.now.terns.now view.now.leads.now (first + place)) tree.now (map plain_tern operands.now) }
    ensures found { OnOk result (AreUnder (map plain_tern own.new) (value_seen view.now.terns.now view.now.leads.now first tree.now)) }
    ensures stays { OnErr result (own.new ≡ own.old) }
{
    match operands_of(tree) {
        Operands::None => Ok(()),
        Operands::One(operator, operand) => {
            let Layout::One(_, of_operand) = layout else {
                return Err(Memory);
            };
            let width = of_operand.node().width;
            operand_into(operand, width, operands, first, view, &mut spare.left)?;
            make(operator, &spare.left, first, view, own);
            Ok(())
        }
        Operands::Two(operator, left, right) => {
            let Layout::Two(_, of_left, of_right) = layout else {
                return Err(Memory);
            };
            let (of_left, of_right) = (of_left.node(), of_right.node());
            let (left_bits, right_bits) = operands.split_at(of_left.room);
            operand_into(left, of_left.width, left_bits, first, view, &mut spare.left)?;
            operand_into(
                right,
                of_right.width,
                right_bits,
                first,
                view,
                &mut spare.right,
            )?;
            join(operator, &spare.left, &spare.right, own);
            Ok(())
        }
        Operands::Three(_, _, _) => fill_branches(tree, layout, first, view, operands, spare, own),
    }
}

// The same of `?:`. A branch that is not taken is not looked at.
fn fill_branches(
    tree: &Tree,
    layout: &Layout,
    first: usize,
    view: &View,
    operands: &[Tern],
    spare: &mut Spare,
    own: &mut [Tern],
) -> Result<(), Memory>
    requires made { IsMade tree.now }
    requires view { IsView view.now.terns.now view.now.leads.now }
    requires few { length view.now.leads.now ≤ 2 ^ 32 }
    requires begins { first ≤ length view.now.leads.now }
    requires inside { IsWithin tree.now first (length view.now.leads.now) }
    requires layout { IsLaidOut tree.now layout.now }
    requires long { length own.old + length operands.now ≡ room tree.now }
    requires width { length own.old ≡ tree_width tree.now }
    requires operands { AreOperands (λ place. seen view.now.terns.now view.now.leads.now (first + place)) tree.now (map plain_tern operands.now) }
    ensures found { OnOk result (AreUnder (map plain_tern own.new) (value_seen view.now.terns.now view.now.leads.now first tree.now)) }
    ensures stays { OnErr result (own.new ≡ own.old) }
{
    let Operands::Three(test, yes, no) = operands_of(tree) else {
        return Err(Memory);
    };
    let Layout::Three(_, of_test, of_yes, of_no) = layout else {
        return Err(Memory);
    };
    let (of_yes, of_no) = (of_yes.node(), of_no.node());
    let (test_bits, branches) = operands.split_at(of_test.node().room);
    let (yes_bits, no_bits) = branches.split_at(of_yes.room);
    match operand_bit(test, test_bits, 0, first, view) {
        Tern::Yes => {
            operand_into(yes, of_yes.width, yes_bits, first, view, &mut spare.left)?;
            own.copy_from_slice(&spare.left);
        }
        Tern::No => {
            operand_into(no, of_no.width, no_bits, first, view, &mut spare.left)?;
            own.copy_from_slice(&spare.left);
        }
        Tern::Open => {
            operand_into(yes, of_yes.width, yes_bits, first, view, &mut spare.left)?;
            operand_into(no, of_no.width, no_bits, first, view, &mut spare.right)?;
            own.copy_from_slice(&spare.left);
            pair_up(Pairing::Agreed, own, &spare.right);
        }
    }
    Ok(())
}

// Writes what an operator makes of the bits of its operand, over the points of an instance, of which the first is given.
fn make(operator: Unary, bits: &[Tern], first: usize, view: &View, own: &mut [Tern])
    requires view { IsView view.now.terns.now view.now.leads.now }
    requires few { length view.now.leads.now ≤ 2 ^ 32 }
    requires begins { first ≤ length view.now.leads.now }
    requires table { IsTableWithin (length view.now.leads.now - first) operator }
    requires wide { IsWide operator (length bits.now) }
    requires width { length own.old ≡ made_width operator (length bits.now) }
    ensures { map plain_tern own.new ≡ made_of (λ place. seen view.now.terns.now view.now.leads.now (first + place)) operator (map plain_tern bits.now) }
{
    match operator {
        Unary::Inverse => {
            own.copy_from_slice(bits);
            invert(own);
        }
        Unary::Pick(place, _) => {
            own[0] = entry(bits, first + place as usize, 1, view);
        }
    }
}

// Writes what an operator makes of the bits of its operands.
fn join(operator: Binary, left: &[Tern], right: &[Tern], own: &mut [Tern])
    requires wide { AreWide operator (length left.now) (length right.now) }
    requires width { length own.old ≡ joined_width operator (length left.now) (length right.now) }
    ensures { map plain_tern own.new ≡ joined operator (map plain_tern left.now) (map plain_tern right.now) }
{
    match operator {
        Binary::Cat => {
            let (low, high) = own.split_at_mut(left.len());
            low.copy_from_slice(left);
            high.copy_from_slice(right);
        }
        Binary::Pair(pairing) => {
            own.copy_from_slice(left);
            pair_up(pairing, own, right);
        }
        Binary::Equal => {
            own[0] = same_bits(left, right);
        }
        Binary::Minus => {
            own.copy_from_slice(left);
            subtract(own, right);
        }
    }
}
