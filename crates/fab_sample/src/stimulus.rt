//! The stimulus of a sample.

ghost use Rattle.std.specs.Prelude.{◌≡◌, ◌<◌, ◌≤◌, ◌*◌, ◌++◌, IfOk, OnOk, map};
ghost use Rattle.fab_draws.specs.Draws.{after, word_at};
ghost use Rattle.fab_sample.specs.Drawn.{stimulus_line, stimulus_lines};
ghost use Rattle.fab_sample.specs.Lines.{text};
ghost use Rattle.fab_sample.specs.Netlists.{digit, stimulus_text_lines};

use crate::lines::put;
use crate::net::{inputs, put_names};
use fab_base::{Memory, Name};
use fab_draws::draw_bit;
use rand_pcg::Lcg64Xsh32;
use std::alloc::Global;

/// How many lines a stimulus has.
const CYCLES: usize = 16;

/// Draws a line: a bit for each input.
fn draw_line(random: &mut Lcg64Xsh32, alloc: Global, size: usize) -> Result<Vec<bool>, Memory>
    ensures line { IfOk result (λ line. line.items ≡ stimulus_line size (word_at random.old)) }
    ensures rest { OnOk result (random.new ≡ after size random.old) }
{
    let mut line = Vec::new(alloc);
    for _place in 0..size {
        line.push(draw_bit(random))?;
    }
    Ok(line)
}

/// Draws a stimulus.
pub fn draw_stimulus(
    random: &mut Lcg64Xsh32,
    alloc: Global,
    size: usize,
) -> Result<Vec<Vec<bool>>, Memory>
    ensures { IfOk result (λ all. map (λ line. line.items) all.items ≡ stimulus_lines size (word_at random.old)) }
{
    let mut lines = Vec::new(alloc);
    for _cycle in 0..CYCLES {
        lines.push(draw_line(random, alloc, size)?)?;
    }
    Ok(lines)
}

/// The digit of a bit.
pub fn digit(bit: bool) -> u8
    ensures { result ≡ digit bit }
{
    if bit { b'1' } else { b'0' }
}

/// Adds the digits of a line.
fn put_digits(out: &mut Vec<u8>, line: &[bool]) -> Result<(), Memory>
    ensures { OnOk result (out.new.items ≡ out.old.items ++ map digit line.now) }
{
    for bit in line {
        out.push(digit(*bit))?;
    }
    Ok(())
}

/// The text of a stimulus: the names of the inputs, and then its lines.
pub fn print_stimulus(alloc: Global, size: usize, lines: &[Vec<bool>]) -> Result<Name, Memory>
    ensures { IfOk result (λ stimulus. stimulus ≡ text (stimulus_text_lines size (map (λ line. line.items) lines.now))) }
{
    let mut out = Vec::new(alloc);
    put_names(&mut out, &inputs(alloc, size)?)?;
    put(&mut out, b"\n")?;
    for line in lines {
        put_digits(&mut out, line)?;
        put(&mut out, b"\n")?;
    }
    Ok(Name::from(out))
}
