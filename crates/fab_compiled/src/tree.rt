//! Expressions over places.

/// An expression over the points of an instance, which follow one another. A place counts them from 0.
#[derive(Drop)]
pub enum Tree {
    /// The bits of a constant.
    Const(Vec<bool>),
    /// Points that follow one another: the place of the first, and how many they are.
    Bits(u32, u32),
    /// The point that an index picks: the place of the first, how many bits the index has, and the index.
    Pick(u32, u32, Box<Tree>),
    /// The less significant part with its width, and the more significant part.
    Cat(Box<Tree>, u64, Box<Tree>),
    /// `~`, bit by bit.
    Not(Box<Tree>),
    /// `&`, bit by bit.
    And(Box<Tree>, Box<Tree>),
    /// `|`, bit by bit.
    Or(Box<Tree>, Box<Tree>),
    /// `^`, bit by bit.
    Xor(Box<Tree>, Box<Tree>),
    /// `==`, and how many bits its operands have.
    Equal(u64, Box<Tree>, Box<Tree>),
    /// `-`, and how many bits its operands have.
    Minus(u64, Box<Tree>, Box<Tree>),
    /// The second where the first is 1, else the third.
    Cond(Box<Tree>, Box<Tree>, Box<Tree>),
}
