//! What loading sets.

use fab_network::Source;

/// A flip-flop of the loader's clock that loading sets, with its next value.
#[derive(Clone, Copy, Debug)]
pub struct LoadedFlop {
    pub point: u32,
    pub next: Source,
}

/// A latch that loading sets, with its data.
#[derive(Clone, Copy, Debug)]
pub struct Latch {
    pub point: u32,
    pub latched: Source,
}

/// Latches whose gates open together: the gate of the first stands for all.
#[derive(Drop)]
pub struct Run {
    pub gate: Source,
    pub latches: Vec<Latch>,
}

/// The flip-flops and the latches that loading sets. A word opens the gates of few latches, so that most runs are passed over.
///
/// `chain` is the input from which a chain goes through all flip-flops as they stand here, if there is one and no latch is set.
#[derive(Drop)]
pub struct Loading {
    pub flops: Vec<LoadedFlop>,
    pub runs: Vec<Run>,
    pub chain: Option<u32>,
}
