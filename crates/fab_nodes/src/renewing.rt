//! What is known of the nodes of an expression by one more point. The walk goes down to the names that have the place of the point, and up again as long as
//! bits come to be known.

ghost use Rattle.std.specs.Prelude.{◌≡◌, ◌+◌, ◌^◌, ◌≤◌, false, length, map, take, drop};
ghost use Rattle.fab_solutions_laws.specs.Laws.{AreUnder};
ghost use Rattle.fab_ternary.specs.Terns.{plain_tern};
ghost use Rattle.fab_compiled.specs.Terns.{seen, IsView};
ghost use Rattle.fab_compiled.specs.Trees.{tree_width, IsMade};
ghost use Rattle.fab_compiled.specs.Evaluation.{value_seen, IsWithin};
ghost use Rattle.fab_nodes.specs.Nodes.{room, AreNodes, AreOperands, IsLaidOut};
ghost use Rattle.fab_nodes.specs.inner.Operands.{is_plain};
ghost use Rattle.fab_nodes.specs.inner.Renewing.{AreBoth, IsRead};

use crate::dueness::{find_whole, is_due, is_found, is_whole};
use crate::filling::Spare;
use crate::layout::Layout;
use crate::operands::{Binary, Operands, is_leaf, operands_of};
use crate::paths::Paths;
use crate::pointwise::{Operand, settle};
use fab_base::Memory;
use fab_compiled::{Tree, View};
use fab_ternary::Tern;
use std::alloc::Global;

/// What is new of an expression, and what helps to tell when an operator has to be found anew as a whole. Nothing that is found rests on it.
#[derive(Drop)]
pub struct News {
    /// Bits that may have come to be known: those of a node, while its operator is looked at, behind those of the nodes before it.
    pub bits: Vec<u32>,
    /// By the number of an equality or a difference: how many bits of its operands are known, from the first on. By that of a pick: how often it was looked at.
    pub known: Vec<u64>,
    /// Where a walk has to go.
    pub paths: Paths,
}

impl News {
    pub(crate) fn new(alloc: Global, nodes: usize) -> Result<News, Memory> {
        Ok(News {
            bits: Vec::new(alloc),
            known: vec![in alloc; 0; nodes]?,
            paths: Paths::new(alloc, nodes)?,
        })
    }
}

/// The point that has come to be known, by its place, and the points of the instance.
#[derive(Clone, Copy)]
pub struct Renewed<'v> {
    pub place: usize,
    /// The first point of the instance.
    pub first: usize,
    pub view: View<'v>,
}

/// Finds what is known by one more point. Where memory is refused, less is found.
#[cycle(renewing)]
pub(crate) fn renew(
    tree: &Tree,
    layout: &Layout,
    point: &Renewed,
    spare: &mut Spare,
    news: &mut News,
    bits: &mut [Tern],
)
    requires made { IsMade tree.now }
    requires view { IsView point.now.view.terns.now point.now.view.leads.now }
    requires few { length point.now.view.leads.now ≤ 2 ^ 32 }
    requires begins { point.now.first ≤ length point.now.view.leads.now }
    requires inside { IsWithin tree.now point.now.first (length point.now.view.leads.now) }
    requires layout { IsLaidOut tree.now layout.now }
    requires long { length bits.old ≡ room tree.now }
    requires nodes { AreNodes (λ place. seen point.now.view.terns.now point.now.view.leads.now (point.now.first + place)) tree.now (map plain_tern bits.old) }
    ensures { AreNodes (λ place. seen point.now.view.terns.now point.now.view.leads.now (point.now.first + place)) tree.now (map plain_tern bits.new) }
{
    let node = layout.node();
    if !news.paths.has(node.number) {
        return;
    }
    if is_leaf(tree) {
        push_place(tree, point.place as u64, &mut news.bits);
        return;
    }
    let (own, operands) = bits.split_at_mut(node.width);
    renew_operator(tree, layout, point, spare, news, operands, own);
}

// The bit of a name that stands at the place.
fn push_place(tree: &Tree, place: u64, bits: &mut Vec<u32>) {
    let Tree::Bits(name, count) = tree else {
        return;
    };
    let Some(bit) = place.checked_sub(u64::from(*name)) else {
        return;
    };
    if bit < u64::from(*count) {
        let _ = bits.push(bit as u32);
    }
}

// The same of an operator, whose own values stand apart from those of its operands. Where one that is found as a whole is known, its operands do not matter.
#[cycle(renewing)]
fn renew_operator(
    tree: &Tree,
    layout: &Layout,
    point: &Renewed,
    spare: &mut Spare,
    news: &mut News,
    operands: &mut [Tern],
    own: &mut [Tern],
)
    requires operator { is_plain tree.now ≡ false }
    requires read { IsRead point.now.view.terns.now point.now.view.leads.now point.now.first tree.now layout.now }
    requires width { length own.old ≡ tree_width tree.now }
    requires long { tree_width tree.now + length operands.old ≡ room tree.now }
    requires operands { AreOperands (λ place. seen point.now.view.terns.now point.now.view.leads.now (point.now.first + place)) tree.now (map plain_tern operands.old) }
    requires own { AreUnder (map plain_tern own.old) (value_seen point.now.view.terns.now point.now.view.leads.now point.now.first tree.now) }
    ensures operands { AreOperands (λ place. seen point.now.view.terns.now point.now.view.leads.now (point.now.first + place)) tree.now (map plain_tern operands.new) }
    ensures own { AreUnder (map plain_tern own.new) (value_seen point.now.view.terns.now point.now.view.leads.now point.now.first tree.now) }
{
    let whole = is_whole(tree);
    if whole && is_found(own) {
        return;
    }
    let mark = news.bits.len();
    renew_operands(tree, layout, point, spare, news, operands);
    if !whole {
        settle(tree, layout, point, news, mark, operands, own);
        return;
    }
    let due = is_due(tree, layout, point, news, mark, operands);
    news.bits.truncate(mark);
    if due {
        find_whole(tree, layout, point, spare, news, operands, own);
    }
}

// The same of the operands of an operator. Their bits get the numbers of those that are found by them.
#[cycle(renewing)]
fn renew_operands(
    tree: &Tree,
    layout: &Layout,
    point: &Renewed,
    spare: &mut Spare,
    news: &mut News,
    operands: &mut [Tern],
)
    requires read { IsRead point.now.view.terns.now point.now.view.leads.now point.now.first tree.now layout.now }
    requires long { tree_width tree.now + length operands.old ≡ room tree.now }
    requires operands { AreOperands (λ place. seen point.now.view.terns.now point.now.view.leads.now (point.now.first + place)) tree.now (map plain_tern operands.old) }
    ensures { AreOperands (λ place. seen point.now.view.terns.now point.now.view.leads.now (point.now.first + place)) tree.now (map plain_tern operands.new) }
{
    match operands_of(tree) {
        Operands::None => {}
        Operands::One(_, inner) => {
            let Layout::One(_, of_inner) = layout else {
                return;
            };
            renew(inner, of_inner, point, spare, news, operands);
        }
        Operands::Two(operator, left, right) => {
            let Layout::Two(_, of_left, of_right) = layout else {
                return;
            };
            let left = Operand::of(left, of_left);
            let right = Operand::of(right, of_right);
            let middle = renew_two(left, right, point, spare, news, operands);
            if matches!(operator, Binary::Cat) {
                number_behind(left.layout.node().width, middle, &mut news.bits);
            }
        }
        Operands::Three(test, yes, no) => {
            let Layout::Three(_, of_test, of_yes, of_no) = layout else {
                return;
            };
            let test = Operand::of(test, of_test);
            let yes = Operand::of(yes, of_yes);
            let no = Operand::of(no, of_no);
            renew_cond(test, yes, no, point, spare, news, operands);
        }
    }
}

// The same of two operands whose values follow one another. It answers where the new bits of the second one begin.
#[cycle(renewing)]
fn renew_two(
    left: Operand,
    right: Operand,
    point: &Renewed,
    spare: &mut Spare,
    news: &mut News,
    bits: &mut [Tern],
) -> usize
    requires left { IsRead point.now.view.terns.now point.now.view.leads.now point.now.first left.tree.now left.layout.now }
    requires right { IsRead point.now.view.terns.now point.now.view.leads.now point.now.first right.tree.now right.layout.now }
    requires long { length bits.old ≡ room left.tree.now + room right.tree.now }
    requires nodes { AreBoth (λ place. seen point.now.view.terns.now point.now.view.leads.now (point.now.first + place)) left.tree.now right.tree.now (map plain_tern bits.old) }
    ensures { AreBoth (λ place. seen point.now.view.terns.now point.now.view.leads.now (point.now.first + place)) left.entry.tree.now right.entry.tree.now (map plain_tern bits.new) }
{
    let (of_left, of_right) = bits.split_at_mut(left.layout.node().room);
    renew(left.tree, left.layout, point, spare, news, of_left);
    let middle = news.bits.len();
    renew(right.tree, right.layout, point, spare, news, of_right);
    middle
}

// The same of the test and the branches of `?:`. Where the test is new, all bits are.
#[cycle(renewing)]
fn renew_cond(
    test: Operand,
    yes: Operand,
    no: Operand,
    point: &Renewed,
    spare: &mut Spare,
    news: &mut News,
    bits: &mut [Tern],
)
    requires test { IsRead point.now.view.terns.now point.now.view.leads.now point.now.first test.tree.now test.layout.now }
    requires yes { IsRead point.now.view.terns.now point.now.view.leads.now point.now.first yes.tree.now yes.layout.now }
    requires no { IsRead point.now.view.terns.now point.now.view.leads.now point.now.first no.tree.now no.layout.now }
    requires long { length bits.old ≡ room test.tree.now + (room yes.tree.now + room no.tree.now) }
    requires of_test { AreNodes (λ place. seen point.now.view.terns.now point.now.view.leads.now (point.now.first + place)) test.tree.now (take (room test.tree.now) (map plain_tern bits.old)) }
    requires branches { AreBoth (λ place. seen point.now.view.terns.now point.now.view.leads.now (point.now.first + place)) yes.tree.now no.tree.now (drop (room test.tree.now) (map plain_tern bits.old)) }
    ensures of_test { AreNodes (λ place. seen point.now.view.terns.now point.now.view.leads.now (point.now.first + place)) test.entry.tree.now (take (room test.entry.tree.now) (map plain_tern bits.new)) }
    ensures branches { AreBoth (λ place. seen point.now.view.terns.now point.now.view.leads.now (point.now.first + place)) yes.entry.tree.now no.entry.tree.now (drop (room test.entry.tree.now) (map plain_tern bits.new)) }
{
    let (of_test, branches) = bits.split_at_mut(test.layout.node().room);
    let mark = news.bits.len();
    renew(test.tree, test.layout, point, spare, news, of_test);
    let tested = news.bits.len() > mark;
    news.bits.truncate(mark);
    let _middle = renew_two(yes, no, point, spare, news, branches);
    if tested {
        news.bits.truncate(mark);
        push_numbers(yes.layout.node().width, &mut news.bits);
    }
}

/// Puts numbers from 0 on behind a list. Where memory is refused, there are fewer.
pub(crate) fn push_numbers(count: usize, bits: &mut Vec<u32>) {
    for bit in 0..u32::try_from(count).unwrap_or(u32::MAX) {
        if bits.push(bit).is_err() {
            return;
        }
    }
}

// The bits of a more significant part, from the middle on, stand behind those of the less significant one, which has so many.
fn number_behind(width: usize, middle: usize, bits: &mut Vec<u32>) {
    let width = u32::try_from(width).unwrap_or(u32::MAX);
    for next in middle..bits.len() {
        if let Some(bit) = bits.get_mut(next) {
            *bit = bit.saturating_add(width);
        }
    }
}
