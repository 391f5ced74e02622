//! Numbers as values of options.

ghost use Rattle.std.specs.Prelude.{◌≡◌, ◌<◌, ◌≤◌, option_copied};
ghost use Rattle.std.specs.Option.{ForSome};
ghost use Rattle.fab_words.specs.Numbers.{any_number, column_of, is_decimal, number_or, number_within, order_of, rounds_of, seed_of, size_of};

use fab_lines::has_only_digits;

/// Whether the word is one to twenty decimal digits.
fn is_decimal(word: &str) -> bool
    ensures { result ≡ is_decimal word.now }
{
    1 <= word.len() && word.len() <= 20 && has_only_digits(word.as_bytes())
}

/// The number of 64 bits that decimal digits write, if they write one.
pub fn decimal(word: &str) -> Option<u64>
    ensures { result ≡ any_number word.now }
{
    if !is_decimal(word) {
        return None;
    }
    word.parse::<u64>().ok()
}

/// The number that a word writes, where it is one from `least` to `most`.
fn number_within(word: &str, least: u64, most: u64) -> Option<u64>
    ensures number { result ≡ number_within least most word.now }
    ensures within { ForSome result (λ number. (least ≤ number) × (number ≤ most)) }
{
    let number = decimal(word)?;
    if least <= number && number <= most {
        return Some(number);
    }
    None
}

/// The number that an option gives, or the usual one without it.
fn number_or(value: Option<&str>, usual: u64, least: u64, most: u64) -> Option<u64>
    requires least { least ≤ usual }
    requires most { usual ≤ most }
    ensures number { result ≡ number_or usual least most (option_copied value.entry) }
    ensures within { ForSome result (λ number. (least ≤ number) × (number ≤ most)) }
{
    match value {
        None => Some(usual),
        Some(word) => number_within(word, least, most),
    }
}

/// The seed that the value of its option writes, if that is such a number.
pub fn seed_of(value: Option<&str>) -> Option<u64>
    ensures { result ≡ seed_of (option_copied value.entry) }
{
    number_or(value, 1, 0, 18446744073709551615)
}

/// The number of rounds that the value of its option writes, if that is such a number.
pub fn rounds_of(value: Option<&str>) -> Option<u32>
    ensures rounds { result ≡ rounds_of (option_copied value.entry) }
    ensures few { ForSome result (λ rounds. (1 ≤ rounds) × (rounds ≤ 64)) }
{
    let rounds = number_or(value, 32, 1, 64)?;
    u32::try_from(rounds).ok()
}

/// The seed of an order that the value of its option writes, if that is such a number; without the option there is none.
pub fn order_of(value: Option<&str>) -> Option<Option<u64>>
    ensures { result ≡ order_of (option_copied value.entry) }
{
    match value {
        None => Some(None),
        Some(word) => decimal(word).map(Some),
    }
}

/// The column of a fabric that a word writes, if it writes one.
pub fn column_of(word: &str) -> Option<u32>
    ensures column { result ≡ column_of word.now }
    ensures below { ForSome result (λ column. column < 32) }
{
    let column = number_within(word, 0, 31)?;
    u32::try_from(column).ok()
}

/// The size of a sample that a word writes, if it writes one.
pub fn size_of(word: &str) -> Option<usize>
    ensures size { result ≡ size_of word.now }
    ensures within { ForSome result (λ size. (2 ≤ size) × (size ≤ 16)) }
{
    let size = number_within(word, 2, 16)?;
    usize::try_from(size).ok()
}
