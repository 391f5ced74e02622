//! Words that are written one after the other, each with a tick of the loader's clock.

use crate::loading::driven::{held_behind_tick, values_shown};
use crate::loading::points::point_of;
use crate::loading::settling::settle;
use crate::loading::state::{State, set_bit};
use fab_base::Memory;
use fab_equations::Equations;
use fab_examples::Stop;
use std::alloc::Global;

/// The clock of the loader.
const CLOCK: &str = "CLK";

/// Whether a word is written.
const WRITES: &str = "WriteStrobe";

/// The word.
const WORD: &str = "WriteData";

// Shows a word that is written, while the clock is 0.
fn write_word(equations: &Equations, state: &mut State, word: u32) -> Result<(), Stop> {
    set_bit(&mut state.shown, point_of(equations, CLOCK, 0)?, false);
    set_bit(&mut state.shown, point_of(equations, WRITES, 0)?, true);
    for bit in 0..32 {
        let point = point_of(equations, WORD, bit)?;
        set_bit(&mut state.shown, point, (word >> bit) & 1 == 1);
    }
    Ok(())
}

// Ticks a clock, given by its point.
fn tick(
    alloc: Global,
    equations: &Equations,
    loading: &[u32],
    state: &mut State,
    clock: u32,
) -> Result<(), Memory> {
    let values = values_shown(alloc, equations, &state.shown)?;
    for point in loading {
        if *point < equations.points() {
            let bit = held_behind_tick(equations, &values, state, *point, clock);
            set_bit(&mut state.held, *point, bit);
        }
    }
    Ok(())
}

/// Writes all words. In each tick the loading points settle, and then the clock of the loader ticks.
pub fn write_words(
    alloc: Global,
    equations: &Equations,
    loading: &[u32],
    state: &mut State,
    words: &[u32],
) -> Result<(), Stop> {
    let clock = point_of(equations, CLOCK, 0)?;
    for word in words {
        write_word(equations, state, *word)?;
        settle(alloc, equations, loading, state)?;
        tick(alloc, equations, loading, state, clock)?;
    }
    Ok(())
}
