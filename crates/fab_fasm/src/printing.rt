//! Features are printed, a line for each.

ghost use Rattle.std.specs.Prelude.{◌≡◌, ◌++◌, ◌/◌, ◌%◌, ◌^◌, All, IfOk, OnOk, codes, decimal};
ghost use Rattle.std.specs.Str.Lines.{lines};
ghost use Rattle.fab_fasm.specs.Parts.{width_of};
ghost use Rattle.fab_fasm.specs.Printing.{HasSpelling, address_text, binary, feature_text, line_by_line, printed, value_text};
ghost use Rattle.fab_fasm.specs.Spelled.{SpellsFasm};

use crate::address::width_of;
use crate::feature::Feature;
use fab_base::Memory;
use itoa::Buffer;
use std::alloc::Global;

fn put(out: &mut Vec<u8>, text: &[u8]) -> Result<(), Memory>
    ensures { OnOk result (out.new.items ≡ out.old.items ++ text.now) }
{
    out.extend_from_slice(text)?;
    Ok(())
}

fn put_number(out: &mut Vec<u8>, number: u64) -> Result<(), Memory>
    ensures { OnOk result (out.new.items ≡ out.old.items ++ decimal number) }
{
    put(out, Buffer::new().format(number).as_bytes())
}

#[tactic(auto, unfolding(crate::specs::Printing::address_text))]
fn put_address(out: &mut Vec<u8>, high: u32, low: u32) -> Result<(), Memory>
    ensures { OnOk result (out.new.items ≡ out.old.items ++ address_text high low) }
{
    if high == 0 && low == 0 {
        return Ok(());
    }
    put(out, b"[")?;
    put_number(out, u64::from(high))?;
    if high != low {
        put(out, b":")?;
        put_number(out, u64::from(low))?;
    }
    put(out, b"]")
}

/// The bit of this place; numbers have no bits above their type's.
fn bit(number: u128, place: u64) -> u8
    ensures { result ≡ number / 2 ^ place % 2 }
{
    if place < 128 {
        (number >> place & 1) as u8
    } else {
        0
    }
}

fn put_binary(out: &mut Vec<u8>, width: u64, number: u128) -> Result<(), Memory>
    ensures { OnOk result (out.new.items ≡ out.old.items ++ binary width number) }
{
    for place in (0..width).rev() {
        out.push(b'0' + bit(number, place))?;
    }
    Ok(())
}

#[tactic(auto, unfolding(crate::specs::Printing::value_text))]
fn put_value(out: &mut Vec<u8>, width: u64, value: u128) -> Result<(), Memory>
    ensures { OnOk result (out.new.items ≡ out.old.items ++ value_text width value) }
{
    if width == 1 && value == 1 {
        return Ok(());
    }
    put(out, b" = ")?;
    put_number(out, width)?;
    put(out, b"'b")?;
    put_binary(out, width, value)
}

fn put_feature(out: &mut Vec<u8>, feature: &Feature) -> Result<(), Memory>
    ensures { OnOk result (out.new.items ≡ out.old.items ++ (feature_text feature.now ++ codes "\n")) }
{
    put(out, feature.name.bytes())?;
    put_address(out, feature.high, feature.low)?;
    let width = width_of(feature.high, feature.low);
    put_value(out, width, feature.value)?;
    put(out, b"\n")
}

/// Features as FASM, one line for each. The line numbers of features are not printed.
///
/// A value is written in binary, with as many digits as the address has bits; bits of it above them are not. One bit that is
/// 1 needs no value, and bit 0 alone no address.
///
/// What is printed is read as the same features where they have a spelling, each with its place as the number of its line.
pub fn print_fasm(alloc: Global, features: &[Feature]) -> Result<Vec<u8>, Memory>
    ensures printed { IfOk result (λ bytes. bytes.items ≡ printed features.now) }
    ensures printed_is_read { IfOk result (λ bytes. All HasSpelling features.now → SpellsFasm (lines bytes.items) (line_by_line 1 features.now)) }
{
    let mut out = Vec::new(alloc);
    for feature in features {
        put_feature(&mut out, feature)?;
    }
    Ok(out)
}
