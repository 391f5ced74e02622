//! How ports and flip-flops are taken.

ghost use Rattle.std.specs.Prelude.{◌≡◌, ◌||◌};
ghost use Rattle.fab_base.specs.Reading.{Answers};
ghost use Rattle.fab_lines.specs.Items.{is_among};
ghost use Rattle.fab_state.specs.Lines.{digit_of, with_pad, with_register};

use fab_base::{Name, Problem, Reason};
use fab_fabric::Site;
use fab_texts::{WordSet, site_of};
use std::alloc::Global;

fn is_named(ports: &WordSet, sites: &WordSet, port: &[u8], word: &[u8]) -> bool
    ensures { result ≡ (is_among ports.now port.now || is_among sites.now word.now) }
{
    ports.contains(port) || sites.contains(word)
}

/// Takes a port and its site, of which neither was named before.
pub fn take_pad(
    ports: &mut WordSet,
    sites: &mut WordSet,
    pads: &mut Vec<(Name, Site)>,
    alloc: Global,
    port: &[u8],
    word: &[u8],
) -> Result<(), Problem>
    ensures { Answers (λ _. record { ports = ports.new; sites = sites.new; pads = pads.new.items }) result
        (with_pad (record { ports = ports.old; sites = sites.old; pads = pads.old.items }) port.now word.now) }
{
    if is_named(ports, sites, port, word) {
        return Err(Problem::Malformed(Reason::NameTwice));
    }
    let Some(site) = site_of(word) else {
        return Err(Problem::Malformed(Reason::Site));
    };
    ports.add(alloc, port)?;
    sites.add(alloc, word)?;
    pads.push((Name::of(alloc, port)?, site))?;
    Ok(())
}

fn digit_of(word: &[u8]) -> Option<bool>
    ensures { result ≡ digit_of word.now }
{
    if word == b"0".as_slice() {
        return Some(false);
    }
    if word == b"1".as_slice() {
        return Some(true);
    }
    None
}

/// Takes a flip-flop, whose site was not named before, and its value.
pub fn take_register(
    sites: &mut WordSet,
    ffs: &mut Vec<(Site, bool)>,
    alloc: Global,
    word: &[u8],
    digit: &[u8],
) -> Result<(), Problem>
    ensures { Answers (λ _. record { sites = sites.new; ffs = ffs.new.items }) result
        (with_register (record { sites = sites.old; ffs = ffs.old.items }) word.now digit.now) }
{
    if sites.contains(word) {
        return Err(Problem::Malformed(Reason::NameTwice));
    }
    let Some(bit) = digit_of(digit) else {
        return Err(Problem::Malformed(Reason::Digit));
    };
    let Some(site) = site_of(word) else {
        return Err(Problem::Malformed(Reason::Site));
    };
    sites.add(alloc, word)?;
    ffs.push((site, bit))?;
    Ok(())
}
