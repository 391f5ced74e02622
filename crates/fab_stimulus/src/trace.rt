//! How a trace is printed.

ghost use Rattle.std.specs.Prelude.{◌≡◌, ◌++◌, [], ◌∷◌, IfOk, OnOk, map};
ghost use Rattle.fab_texts.specs.Printed.{row_text, rows_text};
ghost use Rattle.fab_stimulus.specs.Spelled.{names_line};
ghost use Rattle.fab_stimulus.specs.Stimuli.{ports_of};
ghost use Rattle.fab_stimulus.specs.Traces.{digit, trace_text, values_line};

use fab_base::{Memory, Name};
use fab_fabric::Site;
use fab_state::State;
use fab_ternary::Tern;
use fab_texts::put_row;
use std::alloc::Global;

fn names_of(alloc: Global, pads: &[(Name, Site)]) -> Result<Vec<&[u8]>, Memory>
    ensures { IfOk result (λ names. map (λ w. w.now) names.items ≡ ports_of pads.now) }
{
    let mut names = Vec::new(alloc);
    for (port, _) in pads {
        names.push(port.bytes())?;
    }
    Ok(names)
}

/// Adds the line of the ports' names.
fn put_names(out: &mut Vec<u8>, alloc: Global, pads: &[(Name, Site)]) -> Result<(), Memory>
    ensures { OnOk result (out.new.items ≡ out.old.items ++ row_text (names_line (ports_of pads.now))) }
{
    let names = names_of(alloc, pads)?;
    if names.is_empty() {
        return put_row(out, &[b"-"]);
    }
    put_row(out, &names)
}

fn digit(value: Tern) -> u8
    ensures { result ≡ digit value }
{
    match value {
        Tern::No => b'0',
        Tern::Yes => b'1',
        Tern::Open => b'?',
    }
}

fn put_digits(out: &mut Vec<u8>, values: &[Tern]) -> Result<(), Memory>
    ensures { OnOk result (out.new.items ≡ out.old.items ++ map digit values.now) }
{
    for value in values {
        out.push(digit(*value))?;
    }
    Ok(())
}

/// Adds the line of a cycle.
fn put_values(out: &mut Vec<u8>, values: &[Tern]) -> Result<(), Memory>
    ensures { OnOk result (out.new.items ≡ out.old.items ++ row_text (values_line values.now)) }
{
    if values.is_empty() {
        return put_row(out, &[b"-"]);
    }
    put_digits(out, values)?;
    out.push(b'\n')?;
    Ok(())
}

fn put_lines(out: &mut Vec<u8>, lines: &[Vec<Tern>]) -> Result<(), Memory>
    ensures { OnOk result (out.new.items ≡ out.old.items ++ rows_text (map (λ line. values_line line.items) lines.now)) }
{
    for line in lines {
        put_values(out, line)?;
    }
    Ok(())
}

/// The text of a trace: the names of the state's output ports in their order, and a line for each cycle with the digits `0`, `1` and
/// `?`, the last for a value that is open. Where the state has no output port, each line is `-`.
pub fn print_trace(alloc: Global, state: &State, lines: &[Vec<Tern>]) -> Result<Vec<u8>, Memory>
    ensures { IfOk result (λ text. text.items ≡ trace_text (ports_of state.now.outs) (map (λ line. line.items) lines.now)) }
{
    let mut out = Vec::new(alloc);
    put_names(&mut out, alloc, &state.outs)?;
    put_lines(&mut out, lines)?;
    Ok(out)
}
