//! The tokens of words: names, keywords, numbers and constants.

ghost use Rattle.std.specs.Prelude.{◌≡◌, IfOk};
ghost use Rattle.fab_tokens.specs.Literals.{is_letter, is_word_byte, number_of, constant_of};
ghost use Rattle.fab_tokens.specs.Tokens.{keyword_of, begins_with_digit};
ghost use Rattle.fab_tokens.specs.Scanning.{word_token, constant_token, number_token, name_token};

use crate::literal::{constant_of, is_digit, number_of};
use crate::token::{Keyword, Token};
use fab_base::{Memory, Name};
use std::alloc::Global;

fn is_letter(byte: u8) -> bool
    ensures { result ≡ is_letter byte }
{
    (b'A' <= byte && byte <= b'Z') || (b'a' <= byte && byte <= b'z')
}

/// Whether a byte is a letter, a digit or `_`.
pub(crate) fn is_word_byte(byte: u8) -> bool
    ensures { result ≡ is_word_byte byte }
{
    is_letter(byte) || is_digit(byte) || byte == b'_'
}

/// Whether a word begins with a digit, as a number and the width of a constant do.
pub(crate) fn begins_with_digit(word: &[u8]) -> bool
    ensures { result ≡ begins_with_digit word.now }
{
    match word {
        [] => false,
        [first, ..] => is_digit(*first),
    }
}

#[tactic(auto, unfolding(crate::specs::Tokens::keyword_of))]
fn keyword_of(word: &[u8]) -> Option<Keyword>
    ensures { result ≡ keyword_of word.now }
{
    if word == b"module".as_slice() {
        Some(Keyword::Module)
    } else if word == b"endmodule".as_slice() {
        Some(Keyword::Endmodule)
    } else if word == b"input".as_slice() {
        Some(Keyword::Input)
    } else if word == b"output".as_slice() {
        Some(Keyword::Output)
    } else if word == b"wire".as_slice() {
        Some(Keyword::Wire)
    } else if word == b"reg".as_slice() {
        Some(Keyword::Reg)
    } else if word == b"assign".as_slice() {
        Some(Keyword::Assign)
    } else if word == b"always".as_slice() {
        Some(Keyword::Always)
    } else if word == b"if".as_slice() {
        Some(Keyword::If)
    } else if word == b"posedge".as_slice() {
        Some(Keyword::Posedge)
    } else {
        None
    }
}

fn number_token(word: &[u8]) -> Token
    ensures { result ≡ number_token (number_of word.now) }
{
    match number_of(word) {
        Some(number) => Token::Number(number as u32),
        None => Token::Unknown,
    }
}

/// The token of letters, digits and `_`.
pub(crate) fn word_token(word: Name) -> Token
    ensures { result ≡ word_token word }
{
    if begins_with_digit(word.bytes()) {
        return number_token(word.bytes());
    }
    match keyword_of(word.bytes()) {
        Some(keyword) => Token::Keyword(keyword),
        None => Token::Identifier(word),
    }
}

/// The token of a word with an apostrophe: what stands before and behind it. The error comes where memory is refused.
pub(crate) fn constant_token(alloc: Global, width: &Name, rest: &Name) -> Result<Token, Memory>
    ensures { IfOk result (λ token. token ≡ constant_token (constant_of width.now rest.now)) }
{
    match constant_of(alloc, width.bytes(), rest.bytes())? {
        Some(bits) => Ok(Token::Constant(bits)),
        None => Ok(Token::Unknown),
    }
}
