//! Parts of an expression: bits that follow one another and rest on the same points.

ghost use Rattle.std.specs.Prelude.{◌≡◌, ◌+◌, ◌^◌, ◌<◌, ◌≤◌, [], length, map, IfOk};
ghost use Rattle.fab_ternary.specs.Terns.{plain_tern};
ghost use Rattle.fab_compiled.specs.Terns.{IsView};
ghost use Rattle.fab_compiled.specs.Trees.{tree_width, IsMade};
ghost use Rattle.fab_compiled.specs.Evaluation.{IsWithin};
ghost use Rattle.fab_compiled.specs.Leading.{bit_under};
ghost use Rattle.fab_compiled.specs.Parts.{TellsBits};

use crate::evaluation::eval;
use crate::marking::is_marked;
use crate::tree::Tree;
use crate::view::View;
use crate::whole_values::whole;
use fab_base::Memory;
use fab_ternary::Tern;
use std::alloc::Global;

/// Bits of an expression that follow one another.
#[derive(Drop)]
pub struct Part {
    /// The first of them.
    pub low: u64,
    /// What is known of them.
    pub bits: Vec<Tern>,
    /// Whether all points are marked on which they depend.
    pub marked: bool,
}

/// The part of an expression in which a bit stands, over the points of an instance, of which the first is given: an operand of a concatenation, and the
/// branch that a known test picks. Its bits are found at once, since a look at each of them would go through all that they rest on. It has none where a look
/// at a bit takes no longer than one at a point or goes through what no other bit rests on.
pub fn part_of(
    alloc: Global,
    tree: &Tree,
    bit: u64,
    first: usize,
    view: &View,
    marks: &[bool],
) -> Result<Part, Memory>
    requires made { IsMade tree.now }
    requires view { IsView view.now.terns.now view.now.leads.now }
    requires few { length view.now.leads.now ≤ 2 ^ 32 }
    requires begins { first ≤ length view.now.leads.now }
    requires inside { IsWithin tree.now first (length view.now.leads.now) }
    requires within { bit < tree_width tree.now }
    requires marks { length marks.now ≡ length view.now.leads.now }
    ensures low { IfOk result (λ part. part.low ≤ bit) }
    ensures within { IfOk result (λ part. part.low + length part.bits.items ≤ tree_width tree.now) }
    ensures tells { IfOk result (λ part. TellsBits view.now.terns.now view.now.leads.now marks.now (λ t place. bit_under t first tree.now place) part) }
{
    match tree {
        Tree::Cat(low, width, high) => {
            if bit < *width {
                part_of(alloc, low, bit, first, view, marks)
            } else {
                let part = part_of(alloc, high, bit - *width, first, view, marks)?;
                Ok(behind(part, *width))
            }
        }
        Tree::Cond(test, yes, no) => match eval(test, 0, first, view) {
            Tern::Yes => part_of(alloc, yes, bit, first, view, marks),
            Tern::No => part_of(alloc, no, bit, first, view, marks),
            Tern::Open => all_bits(alloc, tree, first, view, marks),
        },
        Tree::Not(_) | Tree::Minus(_, _, _) => all_bits(alloc, tree, first, view, marks),
        Tree::And(_, _) | Tree::Or(_, _) | Tree::Xor(_, _) => {
            all_bits(alloc, tree, first, view, marks)
        }
        Tree::Const(_) | Tree::Bits(_, _) | Tree::Pick(_, _, _) | Tree::Equal(_, _, _) => {
            Ok(no_bits(alloc))
        }
    }
}

// A part of the more significant operand of a concatenation, whose other operand has so many bits.
fn behind(part: Part, width: u64) -> Part
    requires { part.low + width < 2 ^ 64 }
    ensures low { result.low ≡ part.low + width }
    ensures bits { result.bits ≡ part.bits }
    ensures marked { result.marked ≡ part.marked }
{
    Part {
        low: part.low + width,
        bits: part.bits,
        marked: part.marked,
    }
}

// All bits of an expression.
fn all_bits(
    alloc: Global,
    tree: &Tree,
    first: usize,
    view: &View,
    marks: &[bool],
) -> Result<Part, Memory>
    requires made { IsMade tree.now }
    requires view { IsView view.now.terns.now view.now.leads.now }
    requires few { length view.now.leads.now ≤ 2 ^ 32 }
    requires begins { first ≤ length view.now.leads.now }
    requires inside { IsWithin tree.now first (length view.now.leads.now) }
    requires marks { length marks.now ≡ length view.now.leads.now }
    ensures low { IfOk result (λ part. part.low ≡ 0) }
    ensures within { IfOk result (λ part. length part.bits.items ≡ tree_width tree.now) }
    ensures tells { IfOk result (λ part. TellsBits view.now.terns.now view.now.leads.now marks.now (λ t place. bit_under t first tree.now place) part) }
{
    let bits = whole(alloc, tree, first, view)?;
    let marked = is_marked(tree, first, marks);
    Ok(Part {
        low: 0,
        bits,
        marked,
    })
}

// A part without bits.
fn no_bits(alloc: Global) -> Part
    ensures low { result.low ≡ 0 }
    ensures bits { result.bits.items ≡ [] }
{
    Part {
        low: 0,
        bits: Vec::new(alloc),
        marked: false,
    }
}
