//! What the points of a text hold and show.

use fab_base::Memory;
use std::alloc::Global;

/// What the registers and latches hold before the first word.
#[derive(Clone, Copy)]
pub enum Start {
    Zeros,
    Ones,
    /// Each third point holds 1.
    Thirds,
}

impl Start {
    /// What stands behind `from` in the line of its run.
    pub fn told(self) -> &'static str {
        match self {
            Start::Zeros => "all 0",
            Start::Ones => "all 1",
            Start::Thirds => "each third 1",
        }
    }

    // What a point holds.
    fn bit(self, point: u32) -> bool {
        match self {
            Start::Zeros => false,
            Start::Ones => true,
            Start::Thirds => point % 3 == 0,
        }
    }
}

/// A bit for each point of a text, by its number.
#[derive(Drop)]
pub struct State {
    /// What flip-flops and latches hold; of other points it means nothing.
    pub held: Vec<bool>,
    /// What all points show.
    pub shown: Vec<bool>,
}

impl State {
    /// So many points that hold what they hold at the start, and show 0.
    pub fn new(alloc: Global, points: u32, start: Start) -> Result<State, Memory> {
        let mut held = Vec::new(alloc);
        for point in 0..points {
            held.push(start.bit(point))?;
        }
        let shown = vec![in alloc; false; points as usize]?;
        Ok(State { held, shown })
    }
}

/// The bit of a point; 0 where there is none.
pub fn bit_of(bits: &[bool], point: u32) -> bool {
    bits.get(point as usize).copied().unwrap_or(false)
}

/// Writes the bit of a point, if there is one.
pub fn set_bit(bits: &mut [bool], point: u32, value: bool) {
    if let Some(bit) = bits.get_mut(point as usize) {
        *bit = value;
    }
}
