//! Pairs of a switch matrix.

/// A pair of a switch matrix by its numbers: the output may take the value of the input.
#[derive(Clone, Copy, Debug, PartialEq, Eq)]
pub struct Pair {
    pub output: u32,
    pub input: u32,
}
