//! Digits, and the numbers that they write.

ghost use Rattle.std.specs.Prelude.{◌≡◌, ◌+◌, ◌*◌, ◌≤◌, option_and_then, if◌then◌else◌};
ghost use Rattle.std.specs.Char.{digit_value, is_digit};
ghost use Rattle.std.specs.List.{list_all, list_any};
ghost use Rattle.fab_fasm.specs.Numbers.{is_decimal, is_number, is_of_number, number_of, radix, small};

/// The base in which digits write a number.
#[derive(Clone, Copy, Debug, PartialEq, Eq)]
pub enum Base {
    Binary,
    Octal,
    Decimal,
    Hexadecimal,
}

impl Base {
    /// How many digits it has.
    pub fn radix(self) -> u32
        ensures value { result ≡ radix self }
        ensures low { 2 ≤ result }
        ensures high { result ≤ 16 }
    {
        match self {
            Base::Binary => 2,
            Base::Octal => 8,
            Base::Decimal => 10,
            Base::Hexadecimal => 16,
        }
    }
}

fn is_digit(byte: u8, base: Base) -> bool
    ensures { result ≡ is_digit byte (radix base) }
{
    char::from(byte).is_digit(base.radix())
}

fn is_of_number(byte: u8, base: Base) -> bool
    ensures { result ≡ is_of_number (radix base) byte }
{
    is_digit(byte, base) || byte == b'_'
}

fn has_digit(text: &[u8], base: Base) -> bool
    ensures { result ≡ list_any (λ byte. is_digit byte (radix base)) text.now }
{
    text.iter().any(|byte| is_digit(*byte, base))
}

fn has_only_digits(text: &[u8], base: Base) -> bool
    ensures { result ≡ list_all (is_of_number (radix base)) text.now }
{
    text.iter().all(|byte| is_of_number(*byte, base))
}

/// Whether the text has digits of this base, and but for them `_` alone.
pub fn is_number(text: &[u8], base: Base) -> bool
    ensures { result ≡ is_number (radix base) text.now }
{
    has_digit(text, base) && has_only_digits(text, base)
}

/// Whether the text is a decimal digit, followed by decimal digits and `_`.
pub fn is_decimal(text: &[u8]) -> bool
    ensures { result ≡ is_decimal text.now }
{
    match text {
        [first, ..] => is_digit(*first, Base::Decimal) && has_only_digits(text, Base::Decimal),
        [] => false,
    }
}

/// A number with one digit more, where it fits.
fn with_digit(number: Option<u128>, radix: u32, digit: u32) -> Option<u128>
    ensures { result ≡ option_and_then (λ n. small (n * radix + digit)) number }
{
    number?
        .checked_mul(u128::from(radix))?
        .checked_add(u128::from(digit))
}

/// A number with one byte more, which counts where it is a digit.
fn with_byte(number: Option<u128>, base: Base, byte: u8) -> Option<u128>
    ensures { result ≡ (if is_digit byte (radix base) then option_and_then (λ n. small (n * radix base + digit_value byte)) number else number) }
{
    let radix = base.radix();
    match char::from(byte).to_digit(radix) {
        Some(digit) => with_digit(number, radix, digit),
        None => number,
    }
}

/// The number that the digits of a text write in this base, whatever stands between them; none where it does not fit 128 bits.
pub fn number_of(text: &[u8], base: Base) -> Option<u128>
    ensures { result ≡ small (number_of (radix base) text.now) }
{
    let mut number = Some(0);
    for byte in text {
        number = with_byte(number, base, *byte);
    }
    number
}
