//! The value of a feature, as a line gives it.

ghost use Rattle.std.specs.Prelude.{◌≡◌, IfOk, option_map};
ghost use Rattle.fab_fasm.specs.inner.Plain.{plain_address, plain_value};
ghost use Rattle.fab_fasm.specs.Values.{value_at, written_value};

use crate::address::{Addressed, width_of};
use crate::literal::{limited, literal_of};
use crate::parts::{after_byte, unblanked, value_run};
use fab_base::{Memory, Problem, Reason};
use std::alloc::Global;

/// A value or the limit that it breaks, and what follows it on the line, which is refused for this reason where it cannot
/// stand.
#[derive(Drop)]
pub struct Valued<'a> {
    pub value: Result<u128, Problem>,
    pub reason: Reason,
    pub rest: &'a [u8],
}

/// The value at the front of a text, for so many bits; nothing where there is none, or none that fits.
#[tactic(auto, unfolding(crate::specs::Values::written_value))]
fn written_value(alloc: Global, bits: u64, text: &[u8]) -> Result<Option<Valued<'_>>, Memory>
    ensures { IfOk result (λ value. option_map plain_value value ≡ written_value bits text.now) }
{
    let (word, rest) = value_run(text);
    let Some(literal) = literal_of(word) else {
        return Ok(None);
    };
    let number = literal.number();
    if !literal.fits(alloc, number, bits)? {
        return Ok(None);
    }
    Ok(Some(Valued {
        value: limited(literal.width, number),
        reason: Reason::Value,
        rest,
    }))
}

/// The value behind an address, which is 1 where there is none; nothing where it is malformed.
#[tactic(auto, unfolding(crate::specs::Values::value_at))]
pub fn value_at(alloc: Global, address: Addressed<'_>) -> Result<Option<Valued<'_>>, Memory>
    ensures { IfOk result (λ value. option_map plain_value value ≡ value_at (plain_address address.entry)) }
{
    match after_byte(unblanked(address.rest), b'=') {
        Some(text) => written_value(alloc, width_of(address.high, address.low), unblanked(text)),
        None => Ok(Some(Valued {
            value: Ok(1),
            reason: address.reason,
            rest: address.rest,
        })),
    }
}
