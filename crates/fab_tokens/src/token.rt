//! What the parts of a text are.

use fab_base::Name;
use fab_syntax::{Op, Word};

/// A word with a meaning of its own, which is no name.
#[derive(Clone, Copy, Debug, PartialEq, Eq)]
pub enum Keyword {
    Module,
    Endmodule,
    Input,
    Output,
    Wire,
    Reg,
    Assign,
    Always,
    If,
    Posedge,
}

/// A token.
#[derive(Debug, Drop)]
pub enum Token {
    /// A name.
    Identifier(Name),
    Keyword(Keyword),
    /// A decimal number, as in ranges and selects.
    Number(u32),
    /// A constant with its width, `4'b0101`.
    Constant(Word),
    /// `&`, `|`, `^`, `==` or `-`.
    Operator(Op),
    /// `<=`.
    Arrow,
    /// One of the bytes `(`, `)`, `[`, `]`, `{`, `}`, `,`, `;`, `:`, `?`, `.`, `@`, `*`, `~`, `=`.
    Mark(u8),
    /// Bytes that are no token.
    Unknown,
}
