//! What was read so far of a fabric file and of the files that stand in it.

ghost use Rattle.std.specs.Prelude.{◌≡◌, OnOk, IfOk, option_map};
ghost use Rattle.fab_base.specs.Reading.{Answers};
ghost use Rattle.fab_blocks.specs.declared.standing.OpenBlock.TheVariants as blocks;
ghost use Rattle.fab_blocks.specs.Reading.{HasRoom, IsReading, is_inside, place_of, start, with_type};
ghost use Rattle.fab_blocks.specs.Saying.{HasRoomIfEnded, said_of};

use crate::cells::cell_at;
use crate::grid::GridLine;
use crate::holder::Holder;
use crate::standing::{OpenBlock, Parameters, Place, Said};
use crate::words::word_of;
use fab_base::{Memory, Problem, Reason};
use fab_model::{Mode, TileType};
use fab_rows::Row;
use std::alloc::Global;
use std::marker::Model;

mod steps;

/// What was read so far: the tiles whose blocks have ended, the grid, what parameters tell, and the block that is open.
#[derive(Debug, Drop)]
pub struct Reading {
    types: Vec<TileType>,
    grid: Option<Vec<GridLine>>,
    parameters: Parameters,
    configuration: Mode,
    begun: OpenBlock,
}

impl Model for Reading {
    ghost use Rattle.std.specs.Prelude.{option_map};
    ghost use Rattle.fab_blocks.specs.Reading.{PlainReading, IsReading};

    ghost Value = { PlainReading };

    ghost view = { λ r. record { types = r.types.items; grid = option_map (λ lines. lines.items) r.grid; parameters = r.parameters; configuration = r.configuration; begun = r.begun } };

    ghost invariant = { λ r. IsReading (record { types = r.types.items; grid = option_map (λ lines. lines.items) r.grid; parameters = r.parameters; configuration = r.configuration; begun = r.begun }) };
}

impl Reading {
    /// Nothing was read yet.
    pub fn new(alloc: Global) -> Reading
        ensures { result ≡ start }
    {
        Reading {
            types: Vec::new(alloc),
            grid: None,
            parameters: Parameters::Absent,
            configuration: Mode::Frames,
            begun: OpenBlock::Outside,
        }
    }

    pub(crate) fn place(&self, is_fabric: bool) -> Place
        ensures { result ≡ place_of self.now is_fabric }
    {
        match &self.begun {
            OpenBlock::Grid => Place::Grid,
            OpenBlock::Tile(_) => Place::Tile,
            OpenBlock::Outside => {
                if self.parameters == Parameters::Open && is_fabric {
                    Place::Parameters
                } else {
                    Place::Outside
                }
            }
        }
    }

    /// Whether a block is open, as a file sees it that is a fabric file or is included in one, or else holds tiles alone: such a
    /// file may be named inside the block of parameters, and stands outside of it.
    pub fn is_open(&self, is_fabric: bool) -> bool
        ensures { result ≡ is_inside (place_of self.now is_fabric) }
    {
        self.place(is_fabric) != Place::Outside
    }

    /// Takes the next row. After an error the reading is of no more use.
    #[tactic(auto, unfolding(crate::specs::Saying::said_of))]
    pub fn take_row(&mut self, alloc: Global, holder: &Holder, row: &Row) -> Result<Said, Problem>
        ensures said { Answers (λ said. (self.new, said)) result (said_of self.old holder.now row.now) }
        ensures room { IfOk result (HasRoomIfEnded self.new) }
    {
        if row.cells.is_empty() {
            return Err(Problem::Malformed(Reason::Row));
        }
        self.say(alloc, holder, word_of(cell_at(&row.cells, 0)), row)
    }

    /// Adds a tile whose block has ended. After an error the reading is of no more use.
    pub fn push_tile(&mut self, tile: TileType) -> Result<(), Memory>
        requires outside { self.old.begun ≡ blocks.Outside }
        requires room { HasRoom self.old.types tile.name tile.bels }
        ensures { OnOk result (self.new ≡ with_type self.old tile) }
    {
        self.types.push(tile)?;
        Ok(())
    }

    /// What keeps the configuration, as the last row of its key has told.
    pub fn configuration(&self) -> Mode
        ensures { result ≡ self.now.configuration }
    {
        self.configuration
    }

    /// The tiles in the order of their blocks' ends, and the lines of the grid, if there is one.
    pub fn into_parts(self) -> (Vec<TileType>, Option<Vec<GridLine>>)
        ensures types { result.0.items ≡ self.types }
        ensures grid { option_map (λ lines. lines.items) result.1 ≡ self.grid }
        ensures sound { IsReading self }
    {
        let Reading { types, grid, .. } = self;
        (types, grid)
    }
}
