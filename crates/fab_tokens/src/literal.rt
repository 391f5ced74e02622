//! Decimal numbers and constants.

ghost use Rattle.std.specs.Prelude.{◌≡◌, ◌≤◌, map, reverse, IfOk, IfSome};
ghost use Rattle.std.specs.List.{list_all};
ghost use Rattle.fab_tokens.specs.Literals.{is_digit, is_binary, is_one, with_digit, number_from, number_of, is_number, is_written, constant_of};

use fab_base::Memory;
use fab_syntax::Word;
use std::alloc::{AllocError, Global};

/// The greatest number of a range or a select, and the greatest width of a constant.
const MAX_NUMBER: u64 = 4_294_967_294;

pub(crate) fn is_digit(byte: u8) -> bool
    ensures { result ≡ is_digit byte }
{
    b'0' <= byte && byte <= b'9'
}

fn is_binary(byte: u8) -> bool
    ensures { result ≡ is_binary byte }
{
    byte == b'0' || byte == b'1'
}

fn are_binary(digits: &[u8]) -> bool
    ensures { result ≡ list_all is_binary digits.now }
{
    digits.iter().all(|digit| is_binary(*digit))
}

fn with_digit(value: u64, byte: u8) -> Option<u64>
    requires { value ≤ 4294967294 }
    ensures next { result ≡ with_digit value byte }
    ensures fits { IfSome result (λ next. next ≤ 4294967294) }
{
    if !is_digit(byte) {
        return None;
    }
    let next = value * 10 + u64::from(byte - b'0');
    if next <= MAX_NUMBER { Some(next) } else { None }
}

fn number_from(digits: &[u8]) -> Option<u64>
    ensures value { result ≡ number_from 0 digits.now }
    ensures fits { IfSome result (λ value. value ≤ 4294967294) }
{
    let mut value: u64 = 0;
    let mut rest = digits;
    while let Some((first, after)) = rest.split_first() {
        value = with_digit(value, *first)?;
        rest = after;
    }
    Some(value)
}

/// The number that digits without leading zeros write, at most 4,294,967,294.
pub(crate) fn number_of(word: &[u8]) -> Option<u64>
    ensures value { result ≡ number_of word.now }
    ensures fits { IfSome result (λ value. value ≤ 4294967294) }
{
    match word {
        [] => None,
        [b'0', _, ..] => None,
        _ => number_from(word),
    }
}

fn is_number(count: usize, number: Option<u64>) -> bool
    ensures { result ≡ is_number count number }
{
    match number {
        None => false,
        Some(value) => count as u64 == value,
    }
}

fn is_written(width: &[u8], digits: &[u8]) -> bool
    ensures { result ≡ is_written width.now digits.now }
{
    match digits {
        [] => false,
        [_, ..] => are_binary(digits) && is_number(digits.len(), number_of(width)),
    }
}

#[tactic(auto, unfolding(crate::specs::Literals::is_one))]
fn is_one(byte: u8) -> bool
    ensures { result ≡ is_one byte }
{
    byte == b'1'
}

fn read_digits(alloc: Global, digits: &[u8]) -> Result<Vec<bool>, AllocError>
    ensures { IfOk result (λ bits. bits.items ≡ map is_one digits.now) }
{
    digits.iter().map(|digit| is_one(*digit)).collect(alloc)
}

fn bits_of(alloc: Global, digits: &[u8]) -> Result<Word, Memory>
    ensures { IfOk result (λ word. word ≡ reverse (map is_one digits.now)) }
{
    let mut bits = read_digits(alloc, digits)?;
    bits.reverse();
    Ok(Word::from(bits))
}

/// The bits of a constant, from what stands before and behind its apostrophe. The error comes where memory is refused.
pub(crate) fn constant_of(alloc: Global, width: &[u8], rest: &[u8]) -> Result<Option<Word>, Memory>
    ensures { IfOk result (λ word. word ≡ constant_of width.now rest.now) }
{
    match rest {
        [b'b', digits @ ..] if is_written(width, digits) => Ok(Some(bits_of(alloc, digits)?)),
        _ => Ok(None),
    }
}
