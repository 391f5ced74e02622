//! The operands of an expression, and their bits by what is kept of them.

ghost use Rattle.std.specs.Prelude.{◌≡◌, ◌+◌, ◌^◌, ◌<◌, ◌≤◌, length, map, OnOk};
ghost use Rattle.fab_systems_laws.specs.Ternary.{IsBelow};
ghost use Rattle.fab_solutions_laws.specs.Laws.{AreUnder};
ghost use Rattle.fab_solutions_laws.specs.fab_ternary_laws_Operators.{tern_at};
ghost use Rattle.fab_ternary.specs.Terns.{plain_tern};
ghost use Rattle.fab_compiled.specs.Terns.{seen, IsView};
ghost use Rattle.fab_compiled.specs.Trees.{tree_width, IsMade};
ghost use Rattle.fab_compiled.specs.Evaluation.{value_seen, IsWithin};
ghost use Rattle.fab_nodes.specs.Nodes.{room, AreNodes};
ghost use Rattle.fab_nodes.specs.inner.Operands.{handed, is_plain, parts};

use fab_base::Memory;
use fab_compiled::{Pairing, Tree, View, eval, whole_into};
use fab_ternary::Tern;

/// A bit of an expression by what is kept of its nodes, in a list that begins with its own values. A bit of a name or a constant is found at once.
pub(crate) fn operand_bit(tree: &Tree, bits: &[Tern], bit: u64, first: usize, view: &View) -> Tern
    requires made { IsMade tree.now }
    requires view { IsView view.now.terns.now view.now.leads.now }
    requires few { length view.now.leads.now ≤ 2 ^ 32 }
    requires begins { first ≤ length view.now.leads.now }
    requires inside { IsWithin tree.now first (length view.now.leads.now) }
    requires within { bit < tree_width tree.now }
    requires long { length bits.now ≡ room tree.now }
    requires nodes { AreNodes (λ place. seen view.now.terns.now view.now.leads.now (first + place)) tree.now (map plain_tern bits.now) }
    ensures { IsBelow (plain_tern result) (tern_at (value_seen view.now.terns.now view.now.leads.now first tree.now) bit) }
{
    if is_leaf(tree) {
        return eval(tree, bit, first, view);
    }
    match bits.get(bit as usize) {
        Some(found) => *found,
        None => Tern::Open,
    }
}

/// All bits of an expression by what is kept of its nodes, in the place of what a list has. `width` is how many it has. Where memory is refused, nothing is said
/// of the list.
pub(crate) fn operand_into(
    tree: &Tree,
    width: usize,
    bits: &[Tern],
    first: usize,
    view: &View,
    list: &mut Vec<Tern>,
) -> Result<(), Memory>
    requires made { IsMade tree.now }
    requires view { IsView view.now.terns.now view.now.leads.now }
    requires few { length view.now.leads.now ≤ 2 ^ 32 }
    requires begins { first ≤ length view.now.leads.now }
    requires inside { IsWithin tree.now first (length view.now.leads.now) }
    requires width { width ≡ tree_width tree.now }
    requires long { length bits.now ≡ room tree.now }
    requires nodes { AreNodes (λ place. seen view.now.terns.now view.now.leads.now (first + place)) tree.now (map plain_tern bits.now) }
    ensures { OnOk result (AreUnder (map plain_tern list.new.items) (value_seen view.now.terns.now view.now.leads.now first tree.now)) }
{
    if is_leaf(tree) {
        return whole_into(tree, first, view, list);
    }
    list.clear();
    list.extend_from_slice(&bits[..width])?;
    Ok(())
}

/// Whether nothing is kept of an expression itself.
pub(crate) fn is_leaf(tree: &Tree) -> bool
    ensures { result ≡ is_plain tree.now }
{
    match tree {
        Tree::Const(_) | Tree::Bits(_, _) => true,
        Tree::Pick(_, _, _) | Tree::Cat(_, _, _) | Tree::Not(_) | Tree::Cond(_, _, _) => false,
        Tree::And(_, _) | Tree::Or(_, _) | Tree::Xor(_, _) => false,
        Tree::Equal(_, _, _) | Tree::Minus(_, _, _) => false,
    }
}

/// An operator with one operand.
#[derive(Clone, Copy, Debug)]
pub(crate) enum Unary {
    /// `~`, bit by bit.
    Inverse,
    /// The point that the operand picks: the place of the first, and how many bits the operand has.
    Pick(u32, u32),
}

/// An operator with two operands.
#[derive(Clone, Copy, Debug)]
pub(crate) enum Binary {
    /// The second behind the first, which is the less significant part.
    Cat,
    /// `&`, `|` or `^`, bit by bit.
    Pair(Pairing),
    /// `==`.
    Equal,
    /// `-`.
    Minus,
}

/// The operands of an expression, and its operator.
#[derive(Clone, Copy)]
pub(crate) enum Operands<'t> {
    /// A name, a part of one or a constant has none.
    None,
    One(Unary, &'t Tree),
    Two(Binary, &'t Tree, &'t Tree),
    /// `?:`, with its test and its branches.
    Three(&'t Tree, &'t Tree, &'t Tree),
}

/// The operands of an expression.
pub(crate) fn operands_of(tree: &Tree) -> Operands<'_>
    ensures { parts tree.now ≡ handed result }
{
    match tree {
        Tree::Const(_) | Tree::Bits(_, _) => Operands::None,
        Tree::Pick(place, width, index) => Operands::One(Unary::Pick(*place, *width), index),
        Tree::Not(operand) => Operands::One(Unary::Inverse, operand),
        Tree::Cat(low, _, high) => Operands::Two(Binary::Cat, low, high),
        Tree::And(left, right) => Operands::Two(Binary::Pair(Pairing::Both), left, right),
        Tree::Or(left, right) => Operands::Two(Binary::Pair(Pairing::Either), left, right),
        Tree::Xor(left, right) => Operands::Two(Binary::Pair(Pairing::Differs), left, right),
        Tree::Equal(_, left, right) => Operands::Two(Binary::Equal, left, right),
        Tree::Minus(_, left, right) => Operands::Two(Binary::Minus, left, right),
        Tree::Cond(test, yes, no) => Operands::Three(test, yes, no),
    }
}
