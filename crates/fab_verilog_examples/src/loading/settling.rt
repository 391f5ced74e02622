//! Passes over the loading points until nothing changes.

use crate::loading::driven::{shown_by_driver, values_shown};
use crate::loading::state::{State, bit_of, set_bit};
use fab_base::Memory;
use fab_equations::Equations;
use fab_examples::Stop;
use std::alloc::Global;

// Lets each loading point show what its driver gives. Tells whether one of them changed.
fn pass(
    alloc: Global,
    equations: &Equations,
    loading: &[u32],
    state: &mut State,
) -> Result<bool, Memory> {
    let values = values_shown(alloc, equations, &state.shown)?;
    let mut changed = false;
    for point in loading {
        if *point < equations.points() {
            let bit = shown_by_driver(equations, &values, state, *point);
            changed |= bit != bit_of(&state.shown, *point);
            set_bit(&mut state.shown, *point, bit);
        }
    }
    Ok(changed)
}

/// Settles the loading points. Where none of them reads itself by way of others, as many passes as there are points are enough.
pub fn settle(
    alloc: Global,
    equations: &Equations,
    loading: &[u32],
    state: &mut State,
) -> Result<(), Stop> {
    for _ in 0..=loading.len() {
        if !pass(alloc, equations, loading, state)? {
            return Ok(());
        }
    }
    Err(Stop::Data)
}
