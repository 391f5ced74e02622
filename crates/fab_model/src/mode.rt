//! How the configuration of a fabric is kept.

/// What keeps the configuration bits of the tiles, and how they come there.
#[derive(Clone, Copy, Debug, PartialEq, Eq)]
pub enum Mode {
    /// Latches in frames: a loader takes words and strobes one frame of a column after the other.
    Frames,
    /// Flip-flops in a chain through all tiles, which moves on by a bit at each tick.
    Chain,
}
