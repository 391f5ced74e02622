//! The nets of a packed design.

/// A net of a packed design.
#[derive(Clone, Copy, Debug, PartialEq, Eq)]
pub enum NetId {
    /// The net that is always 0; also one that nothing drives.
    Zero,
    /// The net that is always 1.
    One,
    /// The net of the input port at this place.
    In(u32),
    /// The net of the cell at this place: what its latch holds where it has one, else what it computes.
    Cell(u32),
}
