//! The feature that a line spells.

ghost use Rattle.std.specs.Prelude.{◌≡◌, option_map};
ghost use Rattle.fab_base.specs.Reading.{Answers};
ghost use Rattle.fab_fasm.specs.Fasm.{feature_line, line_of, valued};
ghost use Rattle.fab_fasm.specs.Parts.{run};
ghost use Rattle.fab_fasm.specs.inner.Plain.{plain_value};

use crate::address::address_at;
use crate::feature::Feature;
use crate::parts::{feature_run, has_return, is_feature, tail_fault, unblanked};
use crate::value::{Valued, value_at};
use fab_base::{Name, Problem, Reason};
use std::alloc::Global;

/// The number of a value behind which nothing is wrong.
fn number_of(value: Option<Valued<'_>>) -> Result<u128, Problem>
    ensures { result ≡ valued (option_map plain_value value.entry) }
{
    let Some(value) = value else {
        return Err(Problem::Malformed(Reason::Value));
    };
    match tail_fault(value.reason, value.rest) {
        Some(reason) => Err(Problem::Malformed(reason)),
        None => value.value,
    }
}

/// What a line says that begins with this word.
#[tactic(auto, unfolding(crate::specs::Fasm::feature_line))]
fn feature_line(
    alloc: Global,
    line: u32,
    word: &[u8],
    rest: &[u8],
) -> Result<Option<Feature>, Problem>
    ensures { Answers (λ said. said) result (feature_line line (word.now, rest.now)) }
{
    if !is_feature(word) {
        return Err(Problem::Malformed(Reason::Feature));
    }
    let Some(address) = address_at(rest) else {
        return Err(Problem::Malformed(Reason::Address));
    };
    let (high, low) = (address.high, address.low);
    let value = number_of(value_at(alloc, address)?)?;
    Ok(Some(Feature {
        line,
        name: Name::of(alloc, word)?,
        high,
        low,
        value,
    }))
}

/// The feature that a line of this number spells, if it has one.
///
/// `Malformed` comes with the reasons `feature`, `address`, `value` and `annotation`, and `Limit` with `literal bits`, in
/// this order.
#[tactic(auto, unfolding(crate::specs::Fasm::line_of))]
pub fn line_of(alloc: Global, line: u32, text: &[u8]) -> Result<Option<Feature>, Problem>
    ensures { Answers (λ said. said) result (line_of line text.now) }
{
    if has_return(text) {
        return Err(Problem::Malformed(Reason::Feature));
    }
    let text = unblanked(text);
    let (word, rest) = feature_run(text);
    if !word.is_empty() {
        return feature_line(alloc, line, word, rest);
    }
    match tail_fault(Reason::Feature, text) {
        Some(reason) => Err(Problem::Malformed(reason)),
        None => Ok(None),
    }
}
