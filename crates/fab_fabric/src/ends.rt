//! The rows of a tile that go out of it or come into it, direction by direction.

ghost use Rattle.std.specs.Prelude.{◌≡◌, IfOk};
ghost use Rattle.fab_fabric.specs.inner.Index.{has_side, HasEnds, HasSides, ends_of_dir};

use fab_base::Memory;
use fab_model::{Dir, WireRow};
use std::alloc::Global;

/// The two sides of a row of wires.
#[derive(Clone, Copy, Debug, PartialEq, Eq)]
pub enum Side {
    Source,
    Dest,
}

/// The rows of a tile that have a side, of one direction.
#[derive(Debug, Drop)]
pub struct Ends {
    /// How many of them stand before each row of the tile.
    pub before: Vec<usize>,
    /// Their numbers in the tile.
    pub rows: Vec<usize>,
}

/// The rows of a tile that have a side, of each direction.
#[derive(Debug, Drop)]
pub struct SideEnds {
    pub north: Ends,
    pub east: Ends,
    pub south: Ends,
    pub west: Ends,
    pub jump: Ends,
}

impl SideEnds {
    /// Those of one direction.
    pub fn of(&self, dir: Dir) -> &Ends
        ensures { result.now ≡ ends_of_dir self.now dir }
    {
        match dir {
            Dir::North => &self.north,
            Dir::East => &self.east,
            Dir::South => &self.south,
            Dir::West => &self.west,
            Dir::Jump => &self.jump,
        }
    }
}

/// The rows that have a side, of each direction.
pub fn side_ends(alloc: Global, rows: &[WireRow], side: Side) -> Result<SideEnds, Memory>
    ensures { IfOk result (HasSides side rows.now) }
{
    Ok(SideEnds {
        north: ends_of(alloc, rows, side, Dir::North)?,
        east: ends_of(alloc, rows, side, Dir::East)?,
        south: ends_of(alloc, rows, side, Dir::South)?,
        west: ends_of(alloc, rows, side, Dir::West)?,
        jump: ends_of(alloc, rows, side, Dir::Jump)?,
    })
}

// The rows of one direction that have a side.
fn ends_of(alloc: Global, rows: &[WireRow], side: Side, dir: Dir) -> Result<Ends, Memory>
    ensures { IfOk result (HasEnds (has_side side dir) rows.now) }
{
    let mut before = Vec::new(alloc);
    let mut found = Vec::new(alloc);
    for (number, row) in rows.iter().enumerate() {
        before.push(found.len())?;
        if has_side(row, side, dir) {
            found.push(number)?;
        }
    }
    Ok(Ends {
        before,
        rows: found,
    })
}

fn has_side(row: &WireRow, side: Side, dir: Dir) -> bool
    ensures { result ≡ has_side side dir row.now }
{
    let end = match side {
        Side::Source => &row.source,
        Side::Dest => &row.dest,
    };
    row.dir == dir && end.is_some()
}
