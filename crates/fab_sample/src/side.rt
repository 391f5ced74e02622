//! The sides of a tile, and the wires that go there.

ghost use Rattle.std.specs.Prelude.{◌≡◌};
ghost use Rattle.fab_sample.specs.Lists.{begin_of, end_of, turns};

/// A side of a tile.
#[derive(Clone, Copy)]
pub enum Side {
    North,
    East,
    South,
    West,
}

impl Side {
    /// The wires that go to the neighbour on this side.
    pub fn begin(self) -> &'static [u8]
        ensures { result.now ≡ begin_of self }
    {
        match self {
            Side::North => b"N1BEG",
            Side::East => b"E1BEG",
            Side::South => b"S1BEG",
            Side::West => b"W1BEG",
        }
    }

    /// The wires that go on in this direction, where they end.
    pub fn end(self) -> &'static [u8]
        ensures { result.now ≡ end_of self }
    {
        match self {
            Side::North => b"N1END",
            Side::East => b"E1END",
            Side::South => b"S1END",
            Side::West => b"W1END",
        }
    }

    /// In which directions wires went that may go on to this side: straight on, or round a corner.
    pub fn turns(self) -> [Side; 3]
        ensures { result ≡ turns self }
    {
        match self {
            Side::North => [Side::North, Side::East, Side::West],
            Side::East => [Side::East, Side::North, Side::South],
            Side::South => [Side::South, Side::East, Side::West],
            Side::West => [Side::West, Side::North, Side::South],
        }
    }
}
