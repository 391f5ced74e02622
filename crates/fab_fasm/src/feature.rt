//! What a line of FASM says.

use fab_base::Name;

/// Bits of a feature, and the value that they take.
#[derive(Debug, Drop)]
pub struct Feature {
    /// The number of the line that says so, counted from 1.
    pub line: u32,
    /// Names that are joined by dots.
    pub name: Name,
    /// The number of the most significant bit of the value.
    pub high: u32,
    /// The number of its least significant bit. Without an address both are 0.
    pub low: u32,
    /// The value of these bits.
    pub value: u128,
}
