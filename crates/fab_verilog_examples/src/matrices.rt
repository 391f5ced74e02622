//! Switch matrices of a few names.

ghost use Rattle.std.specs.Prelude.{◌<◌, All, IsTrue};

use crate::cases::{Case, cases_of};
use crate::primitives::put_module;
use fab_base::{Memory, Name};
use fab_desk::{Desk, Sink};
use fab_examples::{Stop, fetch};
use fab_matrix::{list_module, matrix_module};
use fab_select::Pair;
use std::alloc::Global;
use std::str;

// The names of a line, parted by one blank.
fn names_of(alloc: Global, line: &str) -> Result<Vec<Name>, Memory> {
    let mut names = Vec::new(alloc);
    for word in line.split(' ') {
        names.push(Name::of(alloc, word.as_bytes())?)?;
    }
    Ok(names)
}

// Whether pairs have inputs among so many.
fn have_inputs(pairs: &[Pair], count: usize) -> bool
    ensures { IsTrue result → All (λ pair. pair.input < count) pairs.now }
{
    pairs.iter().all(|pair| (pair.input as usize) < count)
}

// Whether pairs have outputs among so many.
fn have_outputs(pairs: &[Pair], count: usize) -> bool
    ensures { IsTrue result → All (λ pair. pair.output < count) pairs.now }
{
    pairs.iter().all(|pair| (pair.output as usize) < count)
}

// The numbers of pairs, an output and an input each.
fn numbers_of(alloc: Global, lines: &str) -> Result<Vec<Pair>, Stop> {
    let mut pairs = Vec::new(alloc);
    for line in lines.lines() {
        let (output, input) = line.split_once(' ').unwrap_or((line, ""));
        pairs.push(Pair {
            output: output.parse::<u32>()?,
            input: input.parse::<u32>()?,
        })?;
    }
    Ok(pairs)
}

// The names of pairs, an output and an input each.
fn pairs_of(alloc: Global, lines: &str) -> Result<Vec<(Name, Name)>, Memory> {
    let mut pairs = Vec::new(alloc);
    for line in lines.lines() {
        let (output, input) = line.split_once(' ').unwrap_or((line, ""));
        pairs.push((
            Name::of(alloc, output.as_bytes())?,
            Name::of(alloc, input.as_bytes())?,
        ))?;
    }
    Ok(pairs)
}

// Prints the module of pairs by numbers. The first line has the inputs, the second the outputs, and each other a pair.
fn put_numbered<S: Sink>(alloc: Global, out: &mut S, name: &Name, text: &str) -> Result<(), Stop> {
    let (inputs, rest) = text.split_once('\n').unwrap_or((text, ""));
    let (outputs, pairs) = rest.split_once('\n').unwrap_or((rest, ""));
    let inputs = names_of(alloc, inputs)?;
    let outputs = names_of(alloc, outputs)?;
    let pairs = numbers_of(alloc, pairs)?;
    if !have_inputs(&pairs, inputs.len()) || !have_outputs(&pairs, outputs.len()) {
        return Err(Stop::Data);
    }
    put_module(
        alloc,
        out,
        matrix_module(alloc, name, &inputs, &outputs, &pairs)?,
    )
}

// Prints the modules of matrices that are given by numbers.
fn put_by_number<D: Desk, S: Sink>(alloc: Global, desk: &mut D, out: &mut S) -> Result<(), Stop> {
    let bytes = fetch(alloc, desk, "numbered.cases")?;
    for Case { name, text } in cases_of(alloc, &bytes)? {
        let name = Name::of(alloc, name.as_bytes())?;
        put_numbered(alloc, out, &name, str::from_utf8(text)?)?;
    }
    Ok(())
}

// Prints the modules of matrices that are given by names.
fn put_by_name<D: Desk, S: Sink>(alloc: Global, desk: &mut D, out: &mut S) -> Result<(), Stop> {
    let bytes = fetch(alloc, desk, "listed.cases")?;
    for Case { name, text } in cases_of(alloc, &bytes)? {
        let name = Name::of(alloc, name.as_bytes())?;
        let pairs = pairs_of(alloc, str::from_utf8(text)?)?;
        put_module(alloc, out, list_module(alloc, &name, &pairs)?)?;
    }
    Ok(())
}

/// Prints the modules of matrices, some by the numbers of names and some by names.
pub fn put_matrices<D: Desk, S: Sink>(
    alloc: Global,
    desk: &mut D,
    out: &mut S,
) -> Result<(), Stop> {
    put_by_number(alloc, desk, out)?;
    put_by_name(alloc, desk, out)
}
