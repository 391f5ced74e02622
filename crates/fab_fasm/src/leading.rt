//! The size of a number by its first digit and by how many digits follow it.

ghost use Rattle.std.specs.Prelude.{◌≡◌, ◌+◌, ◌*◌, ◌<◌, ◌≤◌, ◌^◌, ℕ, IfSome, nat_lt};
ghost use Rattle.fab_fasm.specs.inner.Leading.{BeginsWith};
ghost use Rattle.fab_fasm.specs.Numbers.{next, number_of, radix};

use crate::literal::is_narrow;
use crate::numbers::Base;

/// The first digit of a number that is not 0, and how many digits follow it.
#[derive(Clone, Copy, Debug)]
pub struct Leading {
    /// The digit, or 0 where the number is 0.
    pub digit: u32,
    /// How many digits follow it.
    pub behind: usize,
}

impl Leading {
    /// The same with one digit more behind the number.
    fn with_digit(self, base: Base, digit: u32) -> Leading
        requires few { self.behind + 1 < 2 ^ 64 }
        requires digit { digit < radix base }
        requires first { self.digit < radix base }
        ensures begins { (number : ℕ) → BeginsWith (radix base) self.digit self.behind number → BeginsWith (radix base) result.digit result.behind (number * radix base + digit) }
        ensures first { result.digit < radix base }
        ensures few { result.behind ≤ self.behind + 1 }
    {
        if self.digit == 0 {
            return Leading {
                digit,
                behind: self.behind,
            };
        }
        Leading {
            digit: self.digit,
            behind: self.behind + 1,
        }
    }

    /// The same with one byte more, which counts where it is a digit.
    fn with_byte(self, base: Base, byte: u8) -> Leading
        requires few { self.behind + 1 < 2 ^ 64 }
        requires first { self.digit < radix base }
        ensures begins { (number : ℕ) → BeginsWith (radix base) self.digit self.behind number → BeginsWith (radix base) result.digit result.behind (next (radix base) number byte) }
        ensures first { result.digit < radix base }
        ensures few { result.behind ≤ self.behind + 1 }
    {
        match char::from(byte).to_digit(base.radix()) {
            Some(digit) => self.with_digit(base, digit),
            None => self,
        }
    }

    /// Whether the number is less than 2 to the number of these bits, where each of its digits stands for `width` bits.
    pub fn is_narrow(self, width: u32, bits: u64) -> bool
        ensures { (number : ℕ) → BeginsWith (2 ^ width) self.digit self.behind number → result ≡ nat_lt number (2 ^ bits) }
    {
        let behind = self.behind as u128 * u128::from(width);
        if u128::from(bits) < behind {
            return false;
        }
        is_narrow(u128::from(self.digit), bits - behind as u64)
    }

    /// The same of a decimal number, where the number of its digits decides: each stands for more than three bits and less
    /// than four.
    pub fn is_narrow_decimal(self, bits: u64) -> Option<bool>
        requires { self.digit < 10 }
        ensures { (number : ℕ) → BeginsWith 10 self.digit self.behind number → IfSome result (λ narrow. narrow ≡ nat_lt number (2 ^ bits)) }
    {
        let behind = self.behind as u128;
        if behind * 4 + 4 <= u128::from(bits) {
            return Some(true);
        }
        if self.digit != 0 && u128::from(bits) <= behind * 3 {
            return Some(false);
        }
        None
    }
}

/// The first digit of the number that the digits of a text write, whatever stands between them, and how many follow it.
pub fn leading_of(text: &[u8], base: Base) -> Leading
    ensures begins { BeginsWith (radix base) result.digit result.behind (number_of (radix base) text.now) }
    ensures first { result.digit < radix base }
{
    let mut leading = Leading {
        digit: 0,
        behind: 0,
    };
    for byte in text {
        leading = leading.with_byte(base, *byte);
    }
    leading
}
