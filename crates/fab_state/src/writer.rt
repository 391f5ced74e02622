//! How a state is printed.

ghost use Rattle.std.specs.Prelude.{◌≡◌, ◌++◌, ◌<◌, All, IfOk, OnOk, map};
ghost use Rattle.fab_texts.specs.Printed.{row_text, rows_text};
ghost use Rattle.fab_texts.specs.Rows.{rows_of};
ghost use Rattle.fab_state.specs.Spelled.{HasLetters, HasSpelling, Says, Spells, digit, ff_line, pad_line, state_text};

use crate::state::State;
use fab_base::{Memory, Name};
use fab_fabric::Site;
use fab_texts::put_row;
use std::alloc::Global;

fn put_pads(
    out: &mut Vec<u8>,
    alloc: Global,
    first: &[u8],
    pads: &[(Name, Site)],
) -> Result<(), Memory>
    requires { All (λ pad. pad.1.bel < 26) pads.now }
    ensures { OnOk result (out.new.items ≡ out.old.items ++ rows_text (map (pad_line first.now) pads.now)) }
{
    for (port, site) in pads {
        let site = site.name(alloc)?;
        put_row(out, &[first, port.bytes(), site.bytes()])?;
    }
    Ok(())
}

fn digit(bit: bool) -> &'static [u8]
    ensures { result.now ≡ digit bit }
{
    if bit { b"1" } else { b"0" }
}

fn put_registers(out: &mut Vec<u8>, alloc: Global, ffs: &[(Site, bool)]) -> Result<(), Memory>
    requires { All (λ register. register.0.bel < 26) ffs.now }
    ensures { OnOk result (out.new.items ≡ out.old.items ++ rows_text (map ff_line ffs.now)) }
{
    for (site, bit) in ffs {
        let site = site.name(alloc)?;
        put_row(out, &[b"ff", site.bytes(), digit(*bit)])?;
    }
    Ok(())
}

fn print(alloc: Global, state: &State) -> Result<Vec<u8>, Memory>
    requires { HasLetters state.now }
    ensures { IfOk result (λ text. text.items ≡ state_text state.now) }
{
    let mut out = Vec::new(alloc);
    put_row(&mut out, &[b"fabulous-state", b"1"])?;
    put_pads(&mut out, alloc, b"in", &state.ins)?;
    put_pads(&mut out, alloc, b"out", &state.outs)?;
    put_registers(&mut out, alloc, &state.ffs)?;
    put_row(&mut out, &[b"end"])?;
    Ok(out)
}

/// The text of a state: its ports, flip-flops and values in their order, one blank between words, LF at the end of each line,
/// and no comment. Where the state has a spelling, this text spells it, and `read_state` gives the state back.
pub fn print_state(alloc: Global, state: &State) -> Result<Vec<u8>, Memory>
    requires { HasLetters state.now }
    ensures text { IfOk result (λ text. text.items ≡ state_text state.now) }
    ensures spells { IfOk result (λ text. HasSpelling state.now → Spells (rows_of text.items) state.now) }
    ensures says { IfOk result (λ text. HasSpelling state.now → Says (rows_of text.items) state.now) }
{
    print(alloc, state)
}
