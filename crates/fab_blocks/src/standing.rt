//! Where the rows of a file stand, and what a row says.

use crate::block::Block;
use fab_base::Name;

/// The block that is open.
#[derive(Debug, Drop)]
pub enum OpenBlock {
    /// None is, but perhaps that of the parameters.
    Outside,
    /// The grid.
    Grid,
    /// A tile.
    Tile(Block),
}

/// The block of parameters.
#[derive(Clone, Copy, Debug, PartialEq, Eq)]
pub enum Parameters {
    /// It has not begun.
    Absent,
    /// It is open.
    Open,
    /// It has ended.
    Ended,
}

/// Where a row stands.
#[derive(Clone, Copy, Debug, PartialEq, Eq)]
pub enum Place {
    /// In no block.
    Outside,
    /// In the grid.
    Grid,
    /// In the block of parameters.
    Parameters,
    /// In the block of a tile.
    Tile,
}

/// What a row says.
#[derive(Debug, Drop)]
pub enum Said {
    /// It is taken into what was read so far.
    Taken,
    /// The rows of this file stand in its place.
    Includes(Name),
    /// This file holds tiles, which are read in its place.
    NamesTiles(Name),
    /// It ends the block of this tile. What the tile's files say comes now, and then the tile is to be pushed.
    EndsTile(Block),
}
