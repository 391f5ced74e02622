//! The tree of a Verilog text in fab's profile: modules with ports and items, and expressions over the names of a module.

use crate::word::Word;
use fab_base::Name;

/// How many bits a port, a wire or a register has.
#[derive(Clone, Copy, Debug, PartialEq, Eq)]
pub enum Shape {
    /// One bit, declared without a range; it takes no select.
    Scalar,
    /// This many bits, declared with the range `[width-1:0]`.
    Vector(u32),
}

/// An operator of two operands.
#[derive(Clone, Copy, Debug, PartialEq, Eq)]
pub enum Op {
    /// `&`, bit by bit.
    And,
    /// `|`, bit by bit.
    Or,
    /// `^`, bit by bit.
    Xor,
    /// `==`, one bit wide.
    Equal,
    /// `-`, which wraps at the width of the operands.
    Minus,
}

/// An expression over the names of a module.
#[derive(Debug, Drop)]
pub enum Expr {
    /// A constant, `4'b0101`.
    Const(Word),
    /// All bits of a name.
    Var(Name),
    /// The bit of a name at an index that is an expression, `init[{b, a}]`.
    Pick(Name, Box<Expr>),
    /// The bits of a name from the second number up to the first, `bits[7:4]`; one bit, `bits[4]`, where they are equal.
    Part(Name, u32, u32),
    /// A concatenation, the most significant part first, `{b, a}`.
    Cat(Vec<Expr>),
    /// `~`, bit by bit.
    Not(Box<Expr>),
    /// An operator of two operands.
    Two(Op, Box<Expr>, Box<Expr>),
    /// The second expression where the first, one bit wide, is 1, else the third, `c ? a : b`.
    Cond(Box<Expr>, Box<Expr>, Box<Expr>),
}

/// A port of a module.
#[derive(Debug, Drop)]
pub struct Port {
    pub input: bool,
    pub shape: Shape,
    pub name: Name,
}

/// A port of an instance, and what is joined to it, if anything is.
#[derive(Debug, Drop)]
pub struct Join {
    pub port: Name,
    pub to: Option<Expr>,
}

/// An item of a module.
#[derive(Debug, Drop)]
pub enum Item {
    /// The declaration of a wire.
    Wire(Shape, Name),
    /// The declaration of a register.
    Reg(Shape, Name),
    /// A continuous assignment: target and value.
    Assign(Name, Expr),
    /// A latch, `always @* if (gate) target = data;`: target, gate and data.
    Latch(Name, Expr, Expr),
    /// A flip-flop, `always @(posedge clock) target <= data;`: clock, target and data.
    Clocked(Name, Name, Expr),
    /// An instance: the name of its module, its own name, and the joins of its ports.
    Instance(Name, Name, Vec<Join>),
}

/// A module.
#[derive(Debug, Drop)]
pub struct Module {
    pub name: Name,
    pub ports: Vec<Port>,
    pub items: Vec<Item>,
}

/// A Verilog text. Its last module is the top.
#[derive(Debug, Drop)]
pub struct Text {
    pub modules: Vec<Module>,
}
