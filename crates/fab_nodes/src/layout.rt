//! Where the values of the nodes of an expression stand.

ghost use Rattle.std.specs.Prelude.{◌≡◌, ◌+◌, IfOk};
ghost use Rattle.fab_compiled.specs.declared.tree.Tree.{Tree};
ghost use Rattle.fab_compiled.specs.Trees.{IsMade};
ghost use Rattle.fab_nodes.specs.Nodes.{IsLaidOut, IsNodeOf};
ghost use Rattle.fab_nodes.specs.inner.Operands.{joined_width, made_width, none, one, parts, three, two};

use crate::operands::{Binary, Operands, Unary, operands_of};
use fab_base::Memory;
use fab_compiled::Tree;
use std::alloc::Global;

/// What is told of a node of an expression.
#[derive(Clone, Copy, Debug)]
pub struct Node {
    /// How many bits it has.
    pub width: usize,
    /// How many values are kept of it and of all nodes below it: first its own, then those of its operands, one behind the other. None are kept of a leaf.
    pub room: usize,
    /// Its number among the nodes of the expression.
    pub number: usize,
    /// How many nodes it is with those below it.
    pub nodes: usize,
}

impl Node {
    // A node before its operands are told of.
    fn new(width: usize, room: usize, number: usize) -> Node
        ensures width { result.width ≡ width }
        ensures room { result.room ≡ room }
    {
        Node {
            width,
            room,
            number,
            nodes: 1,
        }
    }

    // The same node over one more operand, whose values stand behind those that it has.
    fn over(self, operand: Node) -> Result<Node, Memory>
        ensures { IfOk result (λ node. (node.width ≡ self.width) × (node.room ≡ self.room + operand.room)) }
    {
        let Some(room) = self.room.checked_add(operand.room) else {
            return Err(Memory);
        };
        let nodes = self.nodes.saturating_add(operand.nodes);
        Ok(Node {
            room,
            nodes,
            ..self
        })
    }

    // The number of the node behind it and those below it.
    fn next(&self) -> usize {
        self.number.saturating_add(self.nodes)
    }
}

/// The nodes of an expression, in the form of the expression.
#[derive(Drop)]
pub enum Layout {
    /// A name, a part of one or a constant.
    Leaf(Node),
    /// `~`, or a pick with its index.
    One(Node, Box<Layout>),
    /// An operator with two operands.
    Two(Node, Box<Layout>, Box<Layout>),
    /// `?:`, with its test and its branches.
    Three(Node, Box<Layout>, Box<Layout>, Box<Layout>),
}

impl Layout {
    /// What is told of the whole expression.
    pub(crate) fn node(&self) -> Node
        ensures { (tree : Tree) → IsLaidOut tree self.now → IsNodeOf tree result }
    {
        match self {
            Layout::Leaf(node) => *node,
            Layout::One(node, _) => *node,
            Layout::Two(node, _, _) => *node,
            Layout::Three(node, _, _, _) => *node,
        }
    }
}

/// The layout of an expression. The error is want of memory, also where there are more bits than memory can have.
pub(crate) fn layout_of(alloc: Global, tree: &Tree) -> Result<Box<Layout>, Memory>
    requires made { IsMade tree.now }
    ensures { IfOk result (λ layout. IsLaidOut tree.now layout.value) }
{
    numbered_from(0, alloc, tree)
}

// The same of a part of an expression, whose nodes are numbered from one on.
fn numbered_from(number: usize, alloc: Global, tree: &Tree) -> Result<Box<Layout>, Memory>
    requires made { IsMade tree.now }
    ensures { IfOk result (λ layout. IsLaidOut tree.now layout.value) }
{
    let next = number.saturating_add(1);
    match operands_of(tree) {
        Operands::None => Ok(Box::new(alloc, Layout::Leaf(leaf_node(tree, number)))?),
        Operands::One(operator, operand) => {
            let operand = numbered_from(next, alloc, operand)?;
            over_one(alloc, operator, number, operand)
        }
        Operands::Two(operator, left, right) => {
            let left = numbered_from(next, alloc, left)?;
            let right = numbered_from(left.node().next(), alloc, right)?;
            over_two(alloc, operator, number, left, right)
        }
        Operands::Three(test, yes, no) => {
            let test = numbered_from(next, alloc, test)?;
            let yes = numbered_from(test.node().next(), alloc, yes)?;
            let no = numbered_from(yes.node().next(), alloc, no)?;
            over_three(alloc, number, test, yes, no)
        }
    }
}

// A name, a part of one or a constant.
fn leaf_node(tree: &Tree, number: usize) -> Node
    ensures { parts tree.now ≡ none → IsNodeOf tree.now result }
{
    match tree {
        Tree::Const(bits) => Node::new(bits.len(), 0, number),
        Tree::Bits(_, count) => Node::new(*count as usize, 0, number),
        Tree::Pick(_, _, _) | Tree::Cat(_, _, _) | Tree::Not(_) | Tree::Cond(_, _, _) => {
            Node::new(0, 0, number)
        }
        Tree::And(_, _) | Tree::Or(_, _) | Tree::Xor(_, _) => Node::new(0, 0, number),
        Tree::Equal(_, _, _) | Tree::Minus(_, _, _) => Node::new(0, 0, number),
    }
}

// An operator over its operand.
fn over_one(
    alloc: Global,
    operator: Unary,
    number: usize,
    operand: Box<Layout>,
) -> Result<Box<Layout>, Memory>
    ensures { (tree a : Tree) → parts tree ≡ one operator a → IsLaidOut a operand.value → IfOk result (λ layout. IsLaidOut tree layout.value) }
{
    let node = unary_node(operator, number, operand.node())?;
    Ok(Box::new(alloc, Layout::One(node, operand))?)
}

// The same with two operands.
fn over_two(
    alloc: Global,
    operator: Binary,
    number: usize,
    left: Box<Layout>,
    right: Box<Layout>,
) -> Result<Box<Layout>, Memory>
    ensures { (tree a b : Tree) → parts tree ≡ two operator a b → IsMade tree → IsLaidOut a left.value → IsLaidOut b right.value →
        IfOk result (λ layout. IsLaidOut tree layout.value) }
{
    let node = binary_node(operator, number, left.node(), right.node())?;
    Ok(Box::new(alloc, Layout::Two(node, left, right))?)
}

// The same with a test and its branches.
fn over_three(
    alloc: Global,
    number: usize,
    test: Box<Layout>,
    yes: Box<Layout>,
    no: Box<Layout>,
) -> Result<Box<Layout>, Memory>
    ensures { (tree c a b : Tree) → parts tree ≡ three c a b → IsLaidOut c test.value → IsLaidOut a yes.value → IsLaidOut b no.value →
        IfOk result (λ layout. IsLaidOut tree layout.value) }
{
    let node = branches_node(number, test.node(), yes.node(), no.node())?;
    Ok(Box::new(alloc, Layout::Three(node, test, yes, no))?)
}

// The node of an operator over that of its operand.
fn unary_node(operator: Unary, number: usize, operand: Node) -> Result<Node, Memory>
    ensures { IfOk result (λ node. (node.width ≡ made_width operator operand.width) × (node.room ≡ made_width operator operand.width + operand.room)) }
{
    let width = match operator {
        Unary::Inverse => operand.width,
        Unary::Pick(_, _) => 1,
    };
    Node::new(width, width, number).over(operand)
}

// The same with two operands.
fn binary_node(operator: Binary, number: usize, left: Node, right: Node) -> Result<Node, Memory>
    ensures { IfOk result (λ node. (node.width ≡ joined_width operator left.width right.width)
        × (node.room ≡ joined_width operator left.width right.width + (left.room + right.room))) }
{
    let width = match operator {
        Binary::Cat => match left.width.checked_add(right.width) {
            Some(width) => width,
            None => return Err(Memory),
        },
        Binary::Pair(_) | Binary::Minus => left.width,
        Binary::Equal => 1,
    };
    Node::new(width, width, number).over(left)?.over(right)
}

// The same with a test and its branches.
fn branches_node(number: usize, test: Node, yes: Node, no: Node) -> Result<Node, Memory>
    ensures { IfOk result (λ node. (node.width ≡ yes.width) × (node.room ≡ yes.width + (test.room + (yes.room + no.room)))) }
{
    Node::new(yes.width, yes.width, number)
        .over(test)?
        .over(yes)?
        .over(no)
}
