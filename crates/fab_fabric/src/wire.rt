//! Wires and sites of a fabric, and what drives a wire.

/// A wire of a fabric by its number: wires are numbered column by column, in a column from the top, and in a tile by matrix
/// name.
#[derive(Clone, Copy, Debug, PartialEq, Eq, PartialOrd, Ord)]
pub struct Wire(pub u32);

/// A BEL of the tile at a place. Sites are ordered by column, then by row, then by BEL.
#[derive(Clone, Copy, Debug, PartialEq, Eq, PartialOrd, Ord)]
pub struct Site {
    pub x: u32,
    pub y: u32,
    pub bel: u32,
}

/// What drives a wire.
#[derive(Clone, Copy, Debug, PartialEq, Eq)]
pub enum Drive {
    Zero,
    One,
    /// It has the value of another wire.
    Copy(Wire),
    /// It is an output pin of a BEL. A pin's number counts the input pins first.
    Pin(Site, u32),
}
