//! Bytes are cut into tokens, one byte after the other.

ghost use Rattle.std.specs.Prelude.{◌≡◌, ◌++◌, ◌∷◌, [], IfOk};
ghost use Rattle.fab_tokens.specs.Literals.{is_word_byte};
ghost use Rattle.fab_tokens.specs.Tokens.{is_mark};
ghost use Rattle.fab_tokens.specs.Scanning.{word_token, constant_token, begun, begun_sign, begun_other, operator_of, after_word, after_foreign, after_literal, after_equals, after_less, after_slash, after_return, after_star, after_byte, at_end};

use crate::token::Token;
use crate::word::{begins_with_digit, constant_token, is_word_byte, word_token};
use fab_base::{Memory, Name};
use fab_syntax::Op;
use std::alloc::Global;

/// What the bytes since the last token are.
#[derive(Debug, Drop)]
pub enum Scan {
    /// Nothing, or blanks and whole comments.
    Between,
    /// Letters, digits and `_`.
    Word(Name),
    /// A word that holds a `$`.
    ForeignWord,
    /// Such a word that begins with a digit, an apostrophe, and what stands behind it.
    Literal(Name, Name),
    /// `=`, behind which another may stand.
    Equals,
    /// `<`.
    Less,
    /// `/`.
    Slash,
    /// A carriage return.
    Return,
    /// A comment that ends with its line.
    LineComment,
    /// A comment that ends with `*/`.
    BlockComment,
    /// Such a comment, in which the last byte is `*`.
    BlockStar,
}

/// What a byte does: the tokens that it completes, and what the bytes since then are.
#[derive(Debug, Drop)]
pub struct Step {
    pub first: Option<Token>,
    pub second: Option<Token>,
    pub scan: Scan,
}

#[tactic(auto, unfolding(crate::specs::Tokens::is_mark))]
fn is_mark(byte: u8) -> bool
    ensures { result ≡ is_mark byte }
{
    byte == b'('
        || byte == b')'
        || byte == b'['
        || byte == b']'
        || byte == b'{'
        || byte == b'}'
        || byte == b','
        || byte == b';'
        || byte == b':'
        || byte == b'?'
        || byte == b'.'
        || byte == b'@'
        || byte == b'*'
        || byte == b'~'
}

fn going(scan: Scan) -> Step
    ensures { result ≡ record { first = None; second = None; scan = scan } }
{
    Step {
        first: None,
        second: None,
        scan,
    }
}

fn one_byte(alloc: Global, byte: u8) -> Result<Name, Memory>
    ensures { IfOk result (λ name. name ≡ byte ∷ []) }
{
    Name::of(alloc, &[byte])
}

fn with_byte(name: Name, byte: u8) -> Result<Name, Memory>
    ensures { IfOk result (λ longer. longer ≡ name ++ byte ∷ []) }
{
    let mut bytes = name.into_vec();
    bytes.push(byte)?;
    Ok(Name::from(bytes))
}

fn operator(byte: u8) -> Option<Op>
    ensures { result ≡ operator_of byte }
{
    match byte {
        b'&' => Some(Op::And),
        b'|' => Some(Op::Or),
        b'^' => Some(Op::Xor),
        b'-' => Some(Op::Minus),
        _ => None,
    }
}

/// A byte that begins no token, or one of several bytes.
fn begin_other(first: Option<Token>, byte: u8) -> Step
    ensures { result ≡ begun_other first byte }
{
    match byte {
        b' ' | b'\n' | b'\t' => Step {
            first,
            second: None,
            scan: Scan::Between,
        },
        b'=' => Step {
            first,
            second: None,
            scan: Scan::Equals,
        },
        b'<' => Step {
            first,
            second: None,
            scan: Scan::Less,
        },
        b'/' => Step {
            first,
            second: None,
            scan: Scan::Slash,
        },
        b'\r' => Step {
            first,
            second: None,
            scan: Scan::Return,
        },
        _ => Step {
            first,
            second: Some(Token::Unknown),
            scan: Scan::Between,
        },
    }
}

/// A byte that is no part of a word.
fn begin_sign(first: Option<Token>, byte: u8) -> Step
    ensures { result ≡ begun_sign first byte }
{
    if is_mark(byte) {
        return Step {
            first,
            second: Some(Token::Mark(byte)),
            scan: Scan::Between,
        };
    }
    match operator(byte) {
        Some(op) => Step {
            first,
            second: Some(Token::Operator(op)),
            scan: Scan::Between,
        },
        None => begin_other(first, byte),
    }
}

/// The start of something new, after the token that was completed before it.
fn begin(alloc: Global, first: Option<Token>, byte: u8) -> Result<Step, Memory>
    ensures { IfOk result (λ step. step ≡ begun first byte) }
{
    if is_word_byte(byte) {
        let scan = Scan::Word(one_byte(alloc, byte)?);
        return Ok(Step {
            first,
            second: None,
            scan,
        });
    }
    Ok(begin_sign(first, byte))
}

fn after_word(alloc: Global, word: Name, byte: u8) -> Result<Step, Memory>
    ensures { IfOk result (λ step. step ≡ after_word word byte) }
{
    if is_word_byte(byte) {
        return Ok(going(Scan::Word(with_byte(word, byte)?)));
    }
    if byte == b'$' {
        return Ok(going(Scan::ForeignWord));
    }
    if byte == b'\'' && begins_with_digit(word.bytes()) {
        return Ok(going(Scan::Literal(word, Name::from(Vec::new(alloc)))));
    }
    begin(alloc, Some(word_token(word)), byte)
}

fn after_foreign(alloc: Global, byte: u8) -> Result<Step, Memory>
    ensures { IfOk result (λ step. step ≡ after_foreign byte) }
{
    if is_word_byte(byte) || byte == b'$' {
        return Ok(going(Scan::ForeignWord));
    }
    begin(alloc, Some(Token::Unknown), byte)
}

fn after_literal(alloc: Global, width: Name, rest: Name, byte: u8) -> Result<Step, Memory>
    ensures { IfOk result (λ step. step ≡ after_literal width rest byte) }
{
    if is_word_byte(byte) || (byte == b'$' || byte == b'\'') {
        return Ok(going(Scan::Literal(width, with_byte(rest, byte)?)));
    }
    let token = constant_token(alloc, &width, &rest)?;
    begin(alloc, Some(token), byte)
}

fn after_equals(alloc: Global, byte: u8) -> Result<Step, Memory>
    ensures { IfOk result (λ step. step ≡ after_equals byte) }
{
    if byte == b'=' {
        let first = Some(Token::Operator(Op::Equal));
        return Ok(Step {
            first,
            second: None,
            scan: Scan::Between,
        });
    }
    begin(alloc, Some(Token::Mark(b'=')), byte)
}

fn after_less(alloc: Global, byte: u8) -> Result<Step, Memory>
    ensures { IfOk result (λ step. step ≡ after_less byte) }
{
    if byte == b'=' {
        return Ok(Step {
            first: Some(Token::Arrow),
            second: None,
            scan: Scan::Between,
        });
    }
    begin(alloc, Some(Token::Unknown), byte)
}

fn after_slash(alloc: Global, byte: u8) -> Result<Step, Memory>
    ensures { IfOk result (λ step. step ≡ after_slash byte) }
{
    match byte {
        b'/' => Ok(going(Scan::LineComment)),
        b'*' => Ok(going(Scan::BlockComment)),
        _ => begin(alloc, Some(Token::Unknown), byte),
    }
}

fn after_return(alloc: Global, byte: u8) -> Result<Step, Memory>
    ensures { IfOk result (λ step. step ≡ after_return byte) }
{
    if byte == b'\n' {
        return Ok(going(Scan::Between));
    }
    begin(alloc, Some(Token::Unknown), byte)
}

fn after_star(byte: u8) -> Step
    ensures { result ≡ after_star byte }
{
    match byte {
        b'/' => going(Scan::Between),
        b'*' => going(Scan::BlockStar),
        _ => going(Scan::BlockComment),
    }
}

/// Takes the next byte of a text. The error comes where memory is refused.
#[tactic(auto, unfolding(crate::specs::Scanning::after_byte))]
pub fn take_byte(alloc: Global, scan: Scan, byte: u8) -> Result<Step, Memory>
    ensures { IfOk result (λ step. step ≡ after_byte scan byte) }
{
    match scan {
        Scan::Between => begin(alloc, None, byte),
        Scan::Word(word) => after_word(alloc, word, byte),
        Scan::ForeignWord => after_foreign(alloc, byte),
        Scan::Literal(width, rest) => after_literal(alloc, width, rest, byte),
        Scan::Equals => after_equals(alloc, byte),
        Scan::Less => after_less(alloc, byte),
        Scan::Slash => after_slash(alloc, byte),
        Scan::Return => after_return(alloc, byte),
        Scan::LineComment if byte == b'\n' => Ok(going(Scan::Between)),
        Scan::LineComment => Ok(going(Scan::LineComment)),
        Scan::BlockComment if byte == b'*' => Ok(going(Scan::BlockStar)),
        Scan::BlockComment => Ok(going(Scan::BlockComment)),
        Scan::BlockStar => Ok(after_star(byte)),
    }
}

/// The token that the end of the text completes, if any: where a comment is not closed, `Unknown`. The error comes where
/// memory is refused.
pub fn finish(alloc: Global, scan: Scan) -> Result<Option<Token>, Memory>
    ensures { IfOk result (λ token. token ≡ at_end scan) }
{
    match scan {
        Scan::Between | Scan::LineComment => Ok(None),
        Scan::Word(word) => Ok(Some(word_token(word))),
        Scan::Literal(width, rest) => Ok(Some(constant_token(alloc, &width, &rest)?)),
        Scan::Equals => Ok(Some(Token::Mark(b'='))),
        Scan::ForeignWord
        | Scan::Less
        | Scan::Slash
        | Scan::Return
        | Scan::BlockComment
        | Scan::BlockStar => Ok(Some(Token::Unknown)),
    }
}
