//! The loader of a generated fabric, run on the words of a bitstream by the equations of its text: whatever registers and latches held,
//! the latches of the configuration hold the bits of the bitstream at last.

mod comparing;
mod driven;
mod files;
mod points;
mod settling;
mod state;
mod ticking;

use comparing::{Compared, compare, number_held};
use fab_base::Name;
use fab_desk::{Desk, Sink};
use fab_equations::{Equations, elaborate};
use fab_examples::Stop;
use files::{bitstream, fabric_text};
use points::loading_points;
use state::{Start, State};
use std::alloc::Global;
use ticking::write_words;

// Loads the words from a start, and prints what the latches and the loader hold then.
fn put_run<S: Sink>(
    alloc: Global,
    out: &mut S,
    equations: &Equations,
    loading: &[u32],
    words: &[u32],
    start: Start,
) -> Result<(), Stop> {
    let mut state = State::new(alloc, equations.points(), start)?;
    write_words(alloc, equations, loading, &mut state, words)?;
    let Compared { latches, right } = compare(alloc, equations, &state)?;
    let from = start.told();
    let waiting = number_held(equations, &state, "fab_loader.state")?;
    let strobe = number_held(equations, &state, "fab_loader.strobe")?;
    let line = format!(in alloc;
        "from {from}: {right} of {latches} latches hold their bit, state {waiting}, strobe {strobe}\n"
    )?;
    out.put(line.as_bytes())?;
    Ok(())
}

/// Prints how loading ends from three states.
pub fn put_loading<D: Desk, S: Sink>(alloc: Global, desk: &mut D, out: &mut S) -> Result<(), Stop> {
    let file = Name::of(alloc, b"duo.v")?;
    let text = fabric_text(alloc, desk, &file)?;
    let equations = elaborate(alloc, &file, &text)?;
    let loading = loading_points(alloc, &equations)?;
    let words = bitstream(alloc, desk)?;
    for start in [Start::Zeros, Start::Ones, Start::Thirds] {
        put_run(alloc, out, &equations, &loading, &words, start)?;
    }
    Ok(())
}
