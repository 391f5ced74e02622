//! The places that rows of a configuration table give.

/// A configuration bit of a tile, and its place: a frame, and a bit in it.
#[derive(Clone, Copy, Debug)]
pub struct Entry {
    pub bit: u32,
    pub place: (u8, u8),
}
