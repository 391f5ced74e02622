//! Wires, sites and cells as words.

ghost use Rattle.std.specs.Prelude.{◌≡◌, IfOk};
ghost use Rattle.fab_impl.specs.Names.{cell_number, cell_of, cell_text, site_in, wire_of};

use fab_base::{Memory, Name};
use fab_fabric::{Fabric, Site, Wire};
use fab_lines::capped_number;
use fab_texts::{after_byte, place_at, site_of};
use itoa::Buffer;
use std::alloc::Global;

/// The wire of a fabric that a word writes, as `X1Y2/N1BEG0`; none where the fabric has no such wire.
#[tactic(auto, unfolding(crate::specs::Names::wire_of))]
pub fn wire_of(fabric: &Fabric, word: &[u8]) -> Option<Wire>
    ensures { result ≡ wire_of fabric.now word.now }
{
    let place = place_at(word)?;
    let name = after_byte(b'/', place.rest)?;
    fabric.wire_of(place.x, place.y, name)
}

/// The site of a fabric that a word writes, as `X1Y2.A`; none where the fabric has no such site.
pub fn site_in(fabric: &Fabric, word: &[u8]) -> Option<Site>
    ensures { result ≡ site_in fabric.now word.now }
{
    let site = site_of(word)?;
    if fabric.kind_at(site).is_some() {
        Some(site)
    } else {
        None
    }
}

fn cell_number(digits: &[u8]) -> Option<u32>
    ensures { result ≡ cell_number digits.now }
{
    let number = capped_number(digits)?;
    if number <= u64::from(u32::MAX) {
        Some(number as u32)
    } else {
        None
    }
}

/// The cell that a word writes: `c` and its number, without a leading zero and within 32 bits.
pub fn cell_of(word: &[u8]) -> Option<u32>
    ensures { result ≡ cell_of word.now }
{
    let digits = after_byte(b'c', word)?;
    cell_number(digits)
}

/// A cell as a word.
pub fn cell_text(alloc: Global, cell: u32) -> Result<Name, Memory>
    ensures { IfOk result (λ name. name ≡ cell_text cell) }
{
    let mut text = Vec::new(alloc);
    text.push(b'c')?;
    text.extend_from_slice(Buffer::new().format(cell).as_bytes())?;
    Ok(Name::from(text))
}
