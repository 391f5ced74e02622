//! Which bits of a feature a line speaks of.

ghost use Rattle.std.specs.Prelude.{◌≡◌, ◌+◌, ◌≤◌, option_map};
ghost use Rattle.std.specs.Char.{is_digit};
ghost use Rattle.std.specs.List.{list_all};
ghost use Rattle.fab_fasm.specs.Parts.{address_at, address_number, address_of, both_ends, in_order, parted, width_of};
ghost use Rattle.fab_fasm.specs.inner.Plain.{plain_address};

use crate::numbers::{Base, number_of};
use crate::parts::{after_byte, parted};
use fab_base::Reason;

/// The bits from `high` down to `low`, and what follows them on the line, which is refused for this reason where it cannot
/// stand.
#[derive(Clone, Copy)]
pub struct Addressed<'a> {
    pub high: u32,
    pub low: u32,
    pub reason: Reason,
    pub rest: &'a [u8],
}

fn has_only_digits(text: &[u8]) -> bool
    ensures { result ≡ list_all (λ byte. is_digit byte 10) text.now }
{
    text.iter().all(|byte| char::from(*byte).is_digit(10))
}

/// The number that decimal digits write, where it fits 32 bits.
#[tactic(auto, unfolding(crate::specs::Parts::address_number))]
fn address_number(text: &[u8]) -> Option<u32>
    ensures { result ≡ address_number text.now }
{
    if text.is_empty() || !has_only_digits(text) {
        return None;
    }
    u32::try_from(number_of(text, Base::Decimal)?).ok()
}

/// Both sides of the `:` in a text, or twice the text.
fn both_ends(text: &[u8]) -> (&[u8], &[u8])
    ensures high { result.0.now ≡ (both_ends text.now (parted 58 text.now)).0 }
    ensures low { result.1.now ≡ (both_ends text.now (parted 58 text.now)).1 }
{
    match parted(text, b':') {
        Some(ends) => ends,
        None => (text, text),
    }
}

/// The bits that the brackets of an address hold.
#[tactic(auto, unfolding(crate::specs::Parts::address_of))]
fn address_of(text: &[u8]) -> Option<(u32, u32)>
    ensures { result ≡ address_of text.now }
{
    let (high, low) = both_ends(text);
    let high = address_number(high)?;
    let low = address_number(low)?;
    if low <= high { Some((high, low)) } else { None }
}

/// The address at the front of a text, which is bit 0 where there is none; nothing where it is malformed.
#[tactic(auto, unfolding(crate::specs::Parts::address_at))]
pub fn address_at(text: &[u8]) -> Option<Addressed<'_>>
    ensures { option_map plain_address result ≡ address_at text.now }
{
    let Some(inner) = after_byte(text, b'[') else {
        return Some(Addressed {
            high: 0,
            low: 0,
            reason: Reason::Feature,
            rest: text,
        });
    };
    let (bits, rest) = parted(inner, b']')?;
    let (high, low) = address_of(bits)?;
    Some(Addressed {
        high,
        low,
        reason: Reason::Address,
        rest,
    })
}

/// How many bits these are.
pub fn width_of(high: u32, low: u32) -> u64
    ensures { result ≡ width_of high low }
{
    u64::from(high.saturating_sub(low)) + 1
}
