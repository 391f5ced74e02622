//! What each row makes of what was read so far.

ghost use Rattle.std.specs.Prelude.{◌≡◌, ◌<◌, ◌==◌, ◌||◌, length, IfOk, if◌then◌else◌};
ghost use Rattle.std.specs.List.{list_any};
ghost use Rattle.std.specs.Str.{bytes_eq};
ghost use Rattle.fab_base.specs.Reading.{Answers};
ghost use Rattle.fab_blocks.specs.declared.standing.OpenBlock.TheVariants as blocks;
ghost use Rattle.fab_blocks.specs.declared.standing.Place.TheVariants as places;
ghost use Rattle.fab_lines.specs.Items.{is_among};
ghost use Rattle.fab_blocks.specs.Inner.{IsPlain, block_row, outer_row};
ghost use Rattle.fab_blocks.specs.Reading.{HasRoom, open_name, tile_names};
ghost use Rattle.fab_blocks.specs.Saying.{begin_grid, begin_limit, begin_parameters, begin_problem, begin_reason, begin_tile, end_grid, end_parameters, end_tile, grid_line, inner_parameter, is_place, lines_of, may_begin, parameter_row, parameters_begun, row_in, say, stands, with_block, with_said, HasRoomIfEnded};

use super::Reading;
use crate::block::Block;
use crate::block_rows::block_row;
use crate::cells::{cell_at, is_tile_name, long_of};
use crate::grid::{line_of, line_problem};
use crate::holder::Holder;
use crate::inner::{foreign_row, outer_row, tiles_row, told_mode, value_problem};
use crate::standing::{OpenBlock, Parameters, Place, Said};
use crate::words::Word;
use fab_base::{Name, Problem, Quantity, Reason};
use fab_model::TileType;
use fab_rows::Row;
use std::alloc::Global;
use std::mem;

/// The most tiles of a fabric.
const MAX_TYPES: usize = 64;

#[tactic(auto, unfolding(crate::specs::Saying::is_place))]
fn is_place(place: Place, asked: Place) -> bool
    ensures { result ≡ is_place place asked }
{
    place == asked
}

fn either(one: bool, other: bool) -> bool
    ensures { result ≡ (one || other) }
{
    one || other
}

fn has_type(types: &[TileType], name: &[u8]) -> bool
    ensures { result ≡ list_any (λ tile. bytes_eq name.now tile.name) types.now }
{
    types.iter().any(|tile| name == tile.name().bytes())
}

impl Reading {
    #[tactic(auto, unfolding(crate::specs::Saying::stands))]
    fn stands(&self, holder: &Holder, place: Place) -> bool
        ensures { result ≡ stands self.now holder.now place }
    {
        is_place(self.place(holder.is_fabric), place)
    }

    /// Whether the grid or the block of parameters may begin.
    #[tactic(auto, unfolding(crate::specs::Saying::may_begin))]
    fn may_begin(&self, holder: &Holder, begun: bool) -> bool
        ensures { result ≡ may_begin self.now holder.now begun }
    {
        self.stands(holder, Place::Outside) && holder.is_fabric && !begun
    }

    #[tactic(auto, unfolding(crate::specs::Saying::begin_grid))]
    fn begin_grid(
        &mut self,
        alloc: Global,
        holder: &Holder,
        cells: &[Name],
    ) -> Result<Said, Problem>
        ensures plain { IfOk result IsPlain }
        ensures said { Answers (λ said. (self.new, said)) result (begin_grid self.old holder.now cells.now) }
    {
        if cells.len() != 1 {
            return Err(Problem::Malformed(Reason::Row));
        }
        if !self.may_begin(holder, self.grid.is_some()) {
            return Err(Problem::Malformed(Reason::Block));
        }
        self.grid = Some(Vec::new(alloc));
        self.begun = OpenBlock::Grid;
        Ok(Said::Taken)
    }

    fn lacks_lines(&self) -> bool
        ensures { result ≡ (length (lines_of self.now) == 0) }
    {
        match &self.grid {
            None => true,
            Some(lines) => lines.is_empty(),
        }
    }

    #[tactic(auto, unfolding(crate::specs::Saying::end_grid))]
    fn end_grid(&mut self, holder: &Holder, cells: &[Name]) -> Result<Said, Problem>
        ensures plain { IfOk result IsPlain }
        ensures said { Answers (λ said. (self.new, said)) result (end_grid self.old holder.now cells.now) }
    {
        if cells.len() != 1 {
            return Err(Problem::Malformed(Reason::Row));
        }
        if !(self.stands(holder, Place::Grid) && holder.is_own) {
            return Err(Problem::Malformed(Reason::Block));
        }
        if self.lacks_lines() {
            return Err(Problem::Malformed(Reason::Grid));
        }
        self.begun = OpenBlock::Outside;
        Ok(Said::Taken)
    }

    #[tactic(auto, unfolding(crate::specs::Saying::grid_line))]
    fn grid_line(&mut self, alloc: Global, holder: &Holder, row: &Row) -> Result<Said, Problem>
        requires { 0 < length row.now.cells }
        ensures plain { IfOk result IsPlain }
        ensures said { Answers (λ said. (self.new, said)) result (grid_line self.old holder.now row.now) }
    {
        let mut lines = self.grid.take().unwrap_or(Vec::new(alloc));
        if let Some(problem) = line_problem(&lines, &row.cells) {
            return Err(problem);
        }
        lines.push(line_of(alloc, holder, row)?)?;
        self.grid = Some(lines);
        Ok(Said::Taken)
    }

    fn parameters_begun(&self) -> bool
        ensures { result ≡ parameters_begun self.now.parameters }
    {
        match self.parameters {
            Parameters::Absent => false,
            Parameters::Open | Parameters::Ended => true,
        }
    }

    #[tactic(auto, unfolding(crate::specs::Saying::begin_parameters))]
    fn begin_parameters(&mut self, holder: &Holder, cells: &[Name]) -> Result<Said, Problem>
        ensures plain { IfOk result IsPlain }
        ensures said { Answers (λ said. (self.new, said)) result (begin_parameters self.old holder.now cells.now) }
    {
        if cells.len() != 1 {
            return Err(Problem::Malformed(Reason::Row));
        }
        if !self.may_begin(holder, self.parameters_begun()) {
            return Err(Problem::Malformed(Reason::Block));
        }
        self.parameters = Parameters::Open;
        Ok(Said::Taken)
    }

    #[tactic(auto, unfolding(crate::specs::Saying::end_parameters))]
    fn end_parameters(&mut self, holder: &Holder, cells: &[Name]) -> Result<Said, Problem>
        ensures plain { IfOk result IsPlain }
        ensures said { Answers (λ said. (self.new, said)) result (end_parameters self.old holder.now cells.now) }
    {
        if cells.len() != 1 {
            return Err(Problem::Malformed(Reason::Row));
        }
        if !(self.stands(holder, Place::Parameters) && holder.is_own) {
            return Err(Problem::Malformed(Reason::Block));
        }
        self.parameters = Parameters::Ended;
        Ok(Said::Taken)
    }

    fn is_open_name(&self, name: &[u8]) -> bool
        ensures { result ≡ list_any (bytes_eq name.now) (open_name self.now.begun) }
    {
        match &self.begun {
            OpenBlock::Tile(block) => name == block.name().bytes(),
            OpenBlock::Outside | OpenBlock::Grid => false,
        }
    }

    /// Whether a tile was called so before, also one whose block is open.
    fn has_tile(&self, name: &[u8]) -> bool
        ensures { result ≡ is_among (tile_names self.now) name.now }
    {
        let ended = has_type(&self.types, name);
        let begun = self.is_open_name(name);
        either(ended, begun)
    }

    #[tactic(auto, unfolding(crate::specs::Saying::begin_reason))]
    fn begin_reason(&self, holder: &Holder, cells: &[Name]) -> Option<Reason>
        ensures { result ≡ begin_reason self.now holder.now cells.now }
    {
        if cells.len() != 2 {
            return Some(Reason::Row);
        }
        if !is_tile_name(cell_at(cells, 1)) {
            return Some(Reason::Name);
        }
        if self.has_tile(cell_at(cells, 1)) {
            return Some(Reason::NameTwice);
        }
        if !self.stands(holder, Place::Outside) {
            return Some(Reason::Block);
        }
        None
    }

    #[tactic(auto, unfolding(crate::specs::Saying::begin_limit))]
    fn begin_limit(&self, name: &[u8]) -> Option<Problem>
        ensures { result ≡ begin_limit self.now name.now }
    {
        if MAX_TYPES <= self.types.len() {
            let count = self.types.len() as u64 + 1;
            return Some(Problem::Limit(Quantity::TileTypes, count, MAX_TYPES as u64));
        }
        long_of(name)
    }

    fn begin_problem(&self, holder: &Holder, cells: &[Name]) -> Option<Problem>
        ensures { result ≡ begin_problem self.now holder.now cells.now }
    {
        match self.begin_reason(holder, cells) {
            Some(reason) => Some(Problem::Malformed(reason)),
            None => self.begin_limit(cell_at(cells, 1)),
        }
    }

    #[tactic(auto, unfolding(crate::specs::Saying::begin_tile))]
    fn begin_tile(
        &mut self,
        alloc: Global,
        holder: &Holder,
        cells: &[Name],
    ) -> Result<Said, Problem>
        ensures plain { IfOk result IsPlain }
        ensures said { Answers (λ said. (self.new, said)) result (begin_tile self.old holder.now cells.now) }
    {
        if let Some(problem) = self.begin_problem(holder, cells) {
            return Err(problem);
        }
        let name = Name::of(alloc, cell_at(cells, 1))?;
        self.begun = OpenBlock::Tile(Block::new(alloc, name));
        Ok(Said::Taken)
    }

    #[tactic(auto, unfolding(crate::specs::Saying::end_tile))]
    fn end_tile(&mut self, holder: &Holder, cells: &[Name]) -> Result<Said, Problem>
        ensures said { Answers (λ said. (self.new, said)) result (end_tile self.old holder.now cells.now) }
        ensures room { IfOk result (HasRoomIfEnded self.new) }
    {
        if cells.len() != 1 {
            return Err(Problem::Malformed(Reason::Row));
        }
        if !holder.is_own {
            return Err(Problem::Malformed(Reason::Block));
        }
        match mem::replace(&mut self.begun, OpenBlock::Outside) {
            OpenBlock::Tile(block) => Ok(Said::EndsTile(block)),
            other => {
                self.begun = other;
                Err(Problem::Malformed(Reason::Block))
            }
        }
    }

    /// What a row says in the block of a tile that was open.
    fn tile_row(
        &mut self,
        alloc: Global,
        old: Block,
        holder: &Holder,
        word: Word,
        cells: &[Name],
    ) -> Result<Said, Problem>
        requires outside { self.old.begun ≡ blocks.Outside }
        requires room { HasRoom self.old.types old.name old.bels }
        ensures plain { IfOk result IsPlain }
        ensures said { Answers (λ said. (self.new, said)) result (with_block self.old (block_row old holder.now word cells.now)) }
    {
        let mut block = old;
        let said = block_row(&mut block, alloc, holder, word, cells)?;
        self.begun = OpenBlock::Tile(block);
        Ok(said)
    }

    /// Takes the value of a parameter.
    #[tactic(auto, unfolding(crate::specs::Saying::parameter_row))]
    fn parameter_row(&mut self, alloc: Global, cells: &[Name]) -> Result<Said, Problem>
        ensures plain { IfOk result IsPlain }
        ensures said { Answers (λ said. (self.new, said)) result (parameter_row self.old cells.now) }
    {
        if cells.len() != 2 {
            return Err(Problem::Malformed(Reason::Row));
        }
        let (key, value) = (cell_at(cells, 0), cell_at(cells, 1));
        if let Some(problem) = value_problem(alloc, key, value)? {
            return Err(problem);
        }
        self.configuration = told_mode(key, value, self.configuration);
        Ok(Said::Taken)
    }

    /// What a row says in the block of parameters.
    #[tactic(auto, unfolding(crate::specs::Saying::inner_parameter))]
    fn inner_parameter(
        &mut self,
        alloc: Global,
        holder: &Holder,
        word: Word,
        cells: &[Name],
    ) -> Result<Said, Problem>
        ensures plain { IfOk result IsPlain }
        ensures said { Answers (λ said. (self.new, said)) result (inner_parameter self.old holder.now word cells.now) }
    {
        match word {
            Word::Foreign => foreign_row(alloc, cells),
            Word::Tile => tiles_row(alloc, holder, cells),
            _ => self.parameter_row(alloc, cells),
        }
    }

    /// What a row says that stands outside of the grid and of tile blocks.
    fn free_row(
        &mut self,
        alloc: Global,
        holder: &Holder,
        word: Word,
        cells: &[Name],
    ) -> Result<Said, Problem>
        ensures plain { IfOk result IsPlain }
        ensures said { Answers (λ said. (self.new, said)) result
            (if stands self.old holder.now places.Parameters then inner_parameter self.old holder.now word cells.now else with_said self.old (outer_row holder.now word cells.now)) }
    {
        if self.stands(holder, Place::Parameters) {
            return self.inner_parameter(alloc, holder, word, cells);
        }
        outer_row(alloc, holder, word, cells)
    }

    #[tactic(auto, unfolding(crate::specs::Saying::row_in))]
    fn row_in(
        &mut self,
        alloc: Global,
        holder: &Holder,
        word: Word,
        row: &Row,
    ) -> Result<Said, Problem>
        requires { 0 < length row.now.cells }
        ensures plain { IfOk result IsPlain }
        ensures said { Answers (λ said. (self.new, said)) result (row_in self.old self.old.begun holder.now word row.now) }
    {
        match mem::replace(&mut self.begun, OpenBlock::Outside) {
            OpenBlock::Grid => {
                self.begun = OpenBlock::Grid;
                self.grid_line(alloc, holder, row)
            }
            OpenBlock::Tile(block) => self.tile_row(alloc, block, holder, word, &row.cells),
            OpenBlock::Outside => self.free_row(alloc, holder, word, &row.cells),
        }
    }

    /// What a row says that begins with this word.
    #[tactic(auto, unfolding(crate::specs::Saying::say), using(crate::proofs::Readings::plain_room))]
    pub fn say(
        &mut self,
        alloc: Global,
        holder: &Holder,
        word: Word,
        row: &Row,
    ) -> Result<Said, Problem>
        requires { 0 < length row.now.cells }
        ensures room { IfOk result (HasRoomIfEnded self.new) }
        ensures said { Answers (λ said. (self.new, said)) result (say self.old holder.now word row.now) }
    {
        match word {
            Word::FabricBegin => self.begin_grid(alloc, holder, &row.cells),
            Word::FabricEnd => self.end_grid(holder, &row.cells),
            Word::ParametersBegin => self.begin_parameters(holder, &row.cells),
            Word::ParametersEnd => self.end_parameters(holder, &row.cells),
            Word::TileBegin => self.begin_tile(alloc, holder, &row.cells),
            Word::TileEnd => self.end_tile(holder, &row.cells),
            _ => self.row_in(alloc, holder, word, row),
        }
    }
}
