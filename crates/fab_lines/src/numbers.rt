//! Numbers as texts write them.

ghost use Rattle.std.specs.Prelude.{◌≡◌, None, Some, true, if◌then◌else◌};
ghost use Rattle.std.specs.List.{list_all};
ghost use Rattle.fab_lines.specs.Numbers.{capped, is_digit, is_number, number_of};

/// Whether a byte is one of the digits `0` to `9`.
pub fn is_digit(byte: u8) -> bool
    ensures { result ≡ is_digit byte }
{
    b'0' <= byte && byte <= b'9'
}

/// Whether each byte of a word is a digit; so it is of an empty word.
pub fn has_only_digits(word: &[u8]) -> bool
    ensures { result ≡ list_all is_digit word.now }
{
    word.iter().all(|byte| is_digit(*byte))
}

/// Whether the word is decimal digits without a leading zero, of any length.
pub fn is_number(word: &[u8]) -> bool
    ensures { result ≡ is_number word.now }
{
    if word.is_empty() {
        return false;
    }
    has_only_digits(word) && (word[0] != b'0' || word.len() == 1)
}

/// What digits write, or the greatest number of 64 bits where that is less.
fn capped_value(digits: &[u8]) -> u64
    requires { list_all is_digit digits.now ≡ true }
    ensures { result ≡ capped (number_of digits.now) }
{
    let mut value: u64 = 0;
    for digit in digits {
        value = value
            .saturating_mul(10)
            .saturating_add(u64::from(*digit - b'0'));
    }
    value
}

/// The number that the word writes in decimal digits, without sign or leading zero, or the greatest number of 64 bits where
/// that is less; none where the word is no such number.
pub fn capped_number(word: &[u8]) -> Option<u64>
    ensures { result ≡ (if is_number word.now then Some (capped (number_of word.now)) else None) }
{
    if !is_number(word) {
        return None;
    }
    Some(capped_value(word))
}
