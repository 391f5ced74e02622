//! Numbers that do not fit 128 bits, compared with a power of two.

ghost use Rattle.std.specs.Prelude.{◌≡◌, ◌+◌, ◌*◌, ◌/◌, ◌^◌, ◌<◌, ◌≤◌, IfOk, MatchBool, length, nat_lt, vec_len};
ghost use Rattle.fab_fasm.specs.inner.Limbs.{IsWaiting, limbs_number, waiting_number};
ghost use Rattle.fab_fasm.specs.Numbers.{next, number_of, radix};

use crate::leading::leading_of;
use crate::numbers::Base;
use fab_base::Memory;
use std::alloc::Global;

/// How many values a limb has.
const LIMB_VALUES: u64 = 1 << 32;

/// 10 to the power of 8: behind so many digits one more may wait.
const MOST_SCALE: u32 = 100_000_000;

/// Puts digits behind a number, where `scale` is the base to the power of how many they are. What does not fit its limbs is
/// answered.
fn push_digits(limbs: &mut [u32], scale: u32, digits: u32) -> u32
    ensures { limbs_number limbs.new + 2 ^ (32 * length limbs.old) * result ≡ limbs_number limbs.old * scale + digits }
{
    let mut carry = u64::from(digits);
    for limb in limbs.iter_mut() {
        let sum = u64::from(*limb) * u64::from(scale) + carry;
        *limb = (sum % LIMB_VALUES) as u32;
        carry = sum / LIMB_VALUES;
    }
    carry as u32
}

/// Puts digits behind a number, where it then has at most so many limbs; else the answer is false, and the limbs are of no
/// more use.
fn grow(limbs: &mut Vec<u32>, most: usize, scale: u32, digits: u32) -> Result<bool, Memory>
    requires few { vec_len limbs.old ≤ most }
    ensures few { IfOk result (λ grown. vec_len limbs.new ≤ most) }
    ensures number { IfOk result (λ grown. MatchBool grown
        (limbs_number limbs.new.items ≡ limbs_number limbs.old.items * scale + digits)
        (2 ^ (32 * most) ≤ limbs_number limbs.old.items * scale + digits)) }
{
    let carry = push_digits(limbs, scale, digits);
    if carry == 0 {
        return Ok(true);
    }
    if limbs.len() == most {
        return Ok(false);
    }
    limbs.push(carry)?;
    Ok(true)
}

/// A decimal number that grows digit by digit. Up to nine digits wait before they are put into the limbs together: `scale` is
/// 10 to the power of how many wait.
#[derive(Drop)]
struct Growing {
    limbs: Vec<u32>,
    scale: u32,
    waiting: u32,
}

impl Growing {
    /// Where nine digits wait, puts them into the limbs. The answer is false where the number then takes more than so many, and is
    /// of no more use.
    fn make_room(&mut self, most: usize) -> Result<bool, Memory>
        requires few { vec_len self.old.limbs ≤ most }
        requires waiting { IsWaiting 1000000000 self.old.scale self.old.waiting }
        ensures few { IfOk result (λ room. vec_len self.new.limbs ≤ most) }
        ensures waiting { IfOk result (λ room. IsWaiting 100000000 self.new.scale self.new.waiting) }
        ensures number { IfOk result (λ room. MatchBool room
            (waiting_number self.new.limbs.items self.new.scale self.new.waiting ≡ waiting_number self.old.limbs.items self.old.scale self.old.waiting)
            (2 ^ (32 * most) ≤ waiting_number self.old.limbs.items self.old.scale self.old.waiting)) }
    {
        if self.scale <= MOST_SCALE {
            return Ok(true);
        }
        let grown = grow(&mut self.limbs, most, self.scale, self.waiting)?;
        self.scale = 1;
        self.waiting = 0;
        Ok(grown)
    }

    /// Puts one digit more behind the number, with the same answer.
    fn push(&mut self, most: usize, digit: u32) -> Result<bool, Memory>
        requires few { vec_len self.old.limbs ≤ most }
        requires waiting { IsWaiting 1000000000 self.old.scale self.old.waiting }
        requires digit { digit < 10 }
        ensures few { IfOk result (λ pushed. vec_len self.new.limbs ≤ most) }
        ensures waiting { IfOk result (λ pushed. IsWaiting 1000000000 self.new.scale self.new.waiting) }
        ensures number { IfOk result (λ pushed. MatchBool pushed
            (waiting_number self.new.limbs.items self.new.scale self.new.waiting ≡ waiting_number self.old.limbs.items self.old.scale self.old.waiting * 10 + digit)
            (2 ^ (32 * most) ≤ waiting_number self.old.limbs.items self.old.scale self.old.waiting)) }
    {
        if !self.make_room(most)? {
            return Ok(false);
        }
        self.scale *= 10;
        self.waiting = self.waiting * 10 + digit;
        Ok(true)
    }

    /// The same for a byte, which counts where it is a digit.
    fn push_byte(&mut self, most: usize, byte: u8) -> Result<bool, Memory>
        requires few { vec_len self.old.limbs ≤ most }
        requires waiting { IsWaiting 1000000000 self.old.scale self.old.waiting }
        ensures few { IfOk result (λ pushed. vec_len self.new.limbs ≤ most) }
        ensures waiting { IfOk result (λ pushed. IsWaiting 1000000000 self.new.scale self.new.waiting) }
        ensures number { IfOk result (λ pushed. MatchBool pushed
            (waiting_number self.new.limbs.items self.new.scale self.new.waiting ≡ next 10 (waiting_number self.old.limbs.items self.old.scale self.old.waiting) byte)
            (2 ^ (32 * most) ≤ waiting_number self.old.limbs.items self.old.scale self.old.waiting)) }
    {
        match char::from(byte).to_digit(10) {
            Some(digit) => self.push(most, digit),
            None => Ok(true),
        }
    }
}

/// Whether a number is less than 2 to the number of these bits.
fn is_narrow(limbs: &[u32], bits: u64) -> bool
    requires { length limbs.now ≤ bits / 32 + 1 }
    ensures { result ≡ nat_lt (limbs_number limbs.now) (2 ^ bits) }
{
    let whole = (bits / 32) as usize;
    limbs.len() <= whole || limbs[whole] >> (bits % 32) == 0
}

/// Whether the decimal number that the digits of a text write is less than 2 to the number of these bits, found by its limbs.
fn is_below_by_limbs(alloc: Global, text: &[u8], bits: u64) -> Result<bool, Memory>
    ensures { IfOk result (λ below. below ≡ nat_lt (number_of 10 text.now) (2 ^ bits)) }
{
    let most = (bits / 32) as usize + 1;
    let mut number = Growing {
        limbs: Vec::new(alloc),
        scale: 1,
        waiting: 0,
    };
    for byte in text {
        if !number.push_byte(most, *byte)? {
            return Ok(false);
        }
    }
    let Growing {
        mut limbs,
        scale,
        waiting,
    } = number;
    if !grow(&mut limbs, most, scale, waiting)? {
        return Ok(false);
    }
    Ok(is_narrow(&limbs, bits))
}

fn is_decimal_below(alloc: Global, text: &[u8], bits: u64) -> Result<bool, Memory>
    ensures { IfOk result (λ below. below ≡ nat_lt (number_of 10 text.now) (2 ^ bits)) }
{
    match leading_of(text, Base::Decimal).is_narrow_decimal(bits) {
        Some(narrow) => Ok(narrow),
        None => is_below_by_limbs(alloc, text, bits),
    }
}

fn is_binary_below(text: &[u8], base: Base, width: u32, bits: u64) -> bool
    requires { radix base ≡ 2 ^ width }
    ensures { result ≡ nat_lt (number_of (radix base) text.now) (2 ^ bits) }
{
    leading_of(text, base).is_narrow(width, bits)
}

/// Whether the number that the digits of a text write is less than 2 to the number of these bits.
///
/// Of bases 2, 8 and 16 the first digit and the number of digits decide, and of most decimals too. A decimal number of n digits
/// and between 3 n and 4 n bits is computed, nine digits at a time: that takes about n² / 170 steps, some seconds for a million
/// digits, and hours for the 64 MiB that a file may have.
pub fn is_below_power(alloc: Global, text: &[u8], base: Base, bits: u64) -> Result<bool, Memory>
    ensures { IfOk result (λ below. below ≡ nat_lt (number_of (radix base) text.now) (2 ^ bits)) }
{
    match base {
        Base::Binary => Ok(is_binary_below(text, base, 1, bits)),
        Base::Octal => Ok(is_binary_below(text, base, 3, bits)),
        Base::Decimal => is_decimal_below(alloc, text, bits),
        Base::Hexadecimal => Ok(is_binary_below(text, base, 4, bits)),
    }
}
