//! What the latches of the configuration hold, beside the bits of the bitstream.

use crate::loading::points::{declared, point_of};
use crate::loading::state::{State, bit_of};
use fab_equations::Equations;
use fab_examples::Stop;
use fab_values::bits_of_shape;
use std::alloc::Global;

/// The configuration bits of a tile: how many it has, and the numbers of those that are 1.
struct TileBits {
    tile: &'static str,
    count: u32,
    ones: &'static [u32],
}

/// The bits of the bitstream.
const BITS: [TileBits; 2] = [
    TileBits {
        tile: "X0Y0",
        count: 2,
        ones: &[1],
    },
    TileBits {
        tile: "X1Y0",
        count: 21,
        ones: &[0, 2, 4, 6, 8, 10, 12, 14],
    },
];

/// How many latches there are, and how many of them hold their bit.
#[derive(Clone, Copy)]
pub struct Compared {
    pub latches: u32,
    pub right: u32,
}

/// Compares the latches with the bits.
pub fn compare(alloc: Global, equations: &Equations, state: &State) -> Result<Compared, Stop> {
    let mut compared = Compared {
        latches: 0,
        right: 0,
    };
    for bits in &BITS {
        compare_tile(alloc, equations, state, bits, &mut compared)?;
    }
    Ok(compared)
}

// Compares the latches of a tile.
fn compare_tile(
    alloc: Global,
    equations: &Equations,
    state: &State,
    bits: &TileBits,
    compared: &mut Compared,
) -> Result<(), Stop> {
    let TileBits { tile, count, ones } = bits;
    for number in 0..*count {
        let latch = format!(in alloc; "{tile}.fab_config.q{number}")?;
        let point = point_of(equations, &latch, 0)?;
        compared.latches = compared.latches.saturating_add(1);
        if bit_of(&state.held, point) == ones.contains(&number) {
            compared.right = compared.right.saturating_add(1);
        }
    }
    Ok(())
}

/// The number that a register holds.
pub fn number_held(equations: &Equations, state: &State, name: &str) -> Result<u64, Stop> {
    let mut number: u64 = 0;
    for bit in 0..bits_of_shape(declared(equations, name)?.shape) {
        if bit_of(&state.held, point_of(equations, name, bit)?) {
            number |= 1u64.checked_shl(bit).unwrap_or(0);
        }
    }
    Ok(number)
}
