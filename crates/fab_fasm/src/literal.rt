//! Values as they are written: decimal, or in a base behind a width.

ghost use Rattle.std.specs.Prelude.{◌≡◌, ◌^◌, IfOk, nat_lt, option_map};
ghost use Rattle.fab_lines.specs.Numbers.{capped};
ghost use Rattle.fab_fasm.specs.Numbers.{number_of, small};
ghost use Rattle.fab_fasm.specs.Values.{base_of, based_literal, bits_limit, decimal_literal, fits, limited, literal_of, room, sized_literal, value_number, written_width};
ghost use Rattle.fab_fasm.specs.inner.Plain.{plain_literal};

use crate::limbs::is_below_power;
use crate::numbers::{Base, is_decimal, is_number, number_of};
use crate::parts::parted;
use fab_base::{Memory, Problem, Quantity};
use std::alloc::Global;

/// The most bits of a value.
const MOST_BITS: u64 = 128;

/// A value as it is written: digits in a base, and the width in bits where one stands before them.
#[derive(Clone, Copy)]
pub struct Literal<'a> {
    pub width: Option<u64>,
    pub base: Base,
    pub digits: &'a [u8],
}

/// The base that a letter names.
fn base_of(letter: u8) -> Option<Base>
    ensures { result ≡ base_of letter }
{
    match letter {
        b'b' => Some(Base::Binary),
        b'o' => Some(Base::Octal),
        b'd' => Some(Base::Decimal),
        b'h' => Some(Base::Hexadecimal),
        _ => None,
    }
}

/// A number, or the greatest of 64 bits where it does not fit.
fn capped_number(text: &[u8]) -> u64
    ensures { result ≡ capped (number_of 10 text.now) }
{
    match number_of(text, Base::Decimal) {
        Some(number) => u64::try_from(number).unwrap_or(u64::MAX),
        None => u64::MAX,
    }
}

/// A width of at least one bit.
fn written_width(text: &[u8]) -> Option<u64>
    ensures { result ≡ written_width text.now }
{
    if !is_decimal(text) {
        return None;
    }
    let width = capped_number(text);
    if 0 < width { Some(width) } else { None }
}

/// A value in the base of this letter.
fn based_literal<'a>(width: &[u8], letter: u8, digits: &'a [u8]) -> Option<Literal<'a>>
    ensures { option_map plain_literal result ≡ based_literal (written_width width.now) (base_of letter) digits.now }
{
    let width = written_width(width)?;
    let base = base_of(letter)?;
    if !is_number(digits, base) {
        return None;
    }
    Some(Literal {
        width: Some(width),
        base,
        digits,
    })
}

/// A value behind a width and a `'`.
#[tactic(auto, unfolding(crate::specs::Values::sized_literal))]
fn sized_literal<'a>(width: &[u8], based: &'a [u8]) -> Option<Literal<'a>>
    ensures { option_map plain_literal result ≡ sized_literal width.now based.now }
{
    match based {
        [letter, digits @ ..] => based_literal(width, *letter, digits),
        [] => None,
    }
}

/// A decimal value without a width.
fn decimal_literal(word: &[u8]) -> Option<Literal<'_>>
    ensures { option_map plain_literal result ≡ decimal_literal word.now }
{
    if !is_decimal(word) {
        return None;
    }
    Some(Literal {
        width: None,
        base: Base::Decimal,
        digits: word,
    })
}

/// The value that a word writes, where it writes one.
#[tactic(auto, unfolding(crate::specs::Values::literal_of))]
pub fn literal_of(word: &[u8]) -> Option<Literal<'_>>
    ensures { option_map plain_literal result ≡ literal_of word.now }
{
    match parted(word, b'\'') {
        Some((width, based)) => sized_literal(width, based),
        None => decimal_literal(word),
    }
}

/// The bits that a value may take, of these bits of an address.
fn room(width: Option<u64>, bits: u64) -> u64
    ensures { result ≡ room width bits }
{
    match width {
        Some(width) => width.min(bits),
        None => bits,
    }
}

/// Whether a number is less than 2 to the number of these bits.
pub fn is_narrow(number: u128, bits: u64) -> bool
    ensures { result ≡ nat_lt number (2 ^ bits) }
{
    MOST_BITS <= bits || number >> bits == 0
}

impl Literal<'_> {
    /// Its number, where it fits 128 bits.
    pub fn number(&self) -> Option<u128>
        ensures { result ≡ small (value_number (plain_literal self.now)) }
    {
        number_of(self.digits, self.base)
    }

    /// Whether it fits so many bits and its own width, where this is its number.
    pub fn fits(&self, alloc: Global, number: Option<u128>, bits: u64) -> Result<bool, Memory>
        requires { number ≡ small (value_number (plain_literal self.now)) }
        ensures { IfOk result (λ fit. fit ≡ fits (plain_literal self.now) bits) }
    {
        let room = room(self.width, bits);
        match number {
            Some(number) => Ok(is_narrow(number, room)),
            None => {
                if room <= MOST_BITS {
                    Ok(false)
                } else {
                    is_below_power(alloc, self.digits, self.base, room)
                }
            }
        }
    }
}

fn limit(bits: u64) -> Problem
    ensures { result ≡ bits_limit bits }
{
    Problem::Limit(Quantity::LiteralBits, bits, MOST_BITS)
}

/// A number behind such a width, or the limit that one of them breaks; none stands for a number that does not fit 128 bits.
pub fn limited(width: Option<u64>, number: Option<u128>) -> Result<u128, Problem>
    ensures { result ≡ limited width number }
{
    match width {
        Some(width) if MOST_BITS < width => Err(limit(width)),
        _ => number.ok_or(limit(MOST_BITS + 1)),
    }
}
