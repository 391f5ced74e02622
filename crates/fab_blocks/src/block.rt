//! The block of a tile.

ghost use Rattle.std.specs.Prelude.{◌≡◌, ◌≤◌, ◌+◌, ℕ, IfOk, OnOk, length, option_copied};
ghost use Rattle.fab_base.specs.Reading.{Answers};
ghost use Rattle.fab_lines.specs.Numbers.{capped};
ghost use Rattle.fab_paths.specs.Paths.{resolved, stem};
ghost use Rattle.fab_blocks.specs.Blocks.{IsBlock, bare, names, new_block, row_names, with_bel, with_matrix, with_row};
ghost use Rattle.fab_names.specs.Names.{names_of, side_families};
ghost use Rattle.fab_blocks.specs.Cells.{come_twice};
ghost use Rattle.fab_blocks.specs.Inner.{IsPlain, goes_on};
ghost use Rattle.fab_blocks.specs.Rows.{bel_problem, bel_problem_of, bel_reason, kind_of, kind_problem, matrix_problem, pins_of, row_of, wire_problem, wire_reason, with_bel_of};

use crate::bel::{is_matrix_file, is_prefix, kind_of, may_lack_prefix, pins_of};
use crate::cells::{is_path, long_of};
use crate::standing::Said;
use crate::wire::{Cells, Wire, has_numbers, has_sides, leads_on, wire_of};
use fab_base::{Memory, Name, Problem, Quantity, Reason};
use fab_kinds::Kind;
use fab_model::{Bel, TileType, WireRow};
use fab_names::{Family, Names};
use fab_paths::{resolve, stem};
use std::alloc::Global;
use std::marker::Model;

/// The most BELs of a tile.
const MAX_BELS: usize = 26;

/// The block of a tile: its wires, its BELs and the file of its switch matrix. Its matrix names differ, and it has at most
/// 26 BELs. Counts of wires have no bound.
#[derive(Debug, Drop)]
pub struct Block {
    name: Name,
    rows: Vec<Wire>,
    bels: Vec<Bel>,
    matrix: Option<Name>,
    // the matrix names, which lack some only after memory was refused
    names: Names,
    is_whole: bool,
    // how many there are
    count: u64,
}

impl Model for Block {
    ghost use Rattle.fab_blocks.specs.Blocks.{PlainBlock, IsKept};

    ghost Value = { PlainBlock };

    ghost view = { λ b. record { name = b.name; rows = b.rows.items; bels = b.bels.items; matrix = b.matrix } };

    ghost invariant = { λ b. IsKept (record { name = b.name; rows = b.rows.items; bels = b.bels.items; matrix = b.matrix }) b.names b.is_whole b.count };
}

/// A count and the bits of a side more, or the greatest number of 64 bits where that is less.
fn more(count: u64, side: &Option<Family>) -> u64
    ensures { (n : ℕ) → count ≡ capped n → result ≡ capped (n + length (names_of (side_families side.now))) }
{
    match side {
        None => count,
        Some(family) => count.saturating_add(family.count()),
    }
}

/// A count and so many pins more, or the greatest number of 64 bits where that is less.
fn more_pins(count: u64, pins: &[Name]) -> u64
    ensures { (n : ℕ) → count ≡ capped n → result ≡ capped (n + length pins.now) }
{
    count.saturating_add(pins.len() as u64)
}

fn rows_of(alloc: Global, wires: Vec<Wire>) -> Result<Vec<WireRow>, Memory>
    ensures { IfOk result (λ rows. rows.items ≡ wires.items) }
{
    let mut rows = Vec::new(alloc);
    for wire in wires {
        rows.push(wire.into_row()?)?;
    }
    Ok(rows)
}

impl Block {
    /// A block without rows.
    pub(crate) fn new(alloc: Global, name: Name) -> Block
        ensures { result ≡ new_block name }
    {
        Block {
            name,
            rows: Vec::new(alloc),
            bels: Vec::new(alloc),
            matrix: None,
            names: Names::new(alloc),
            is_whole: true,
            count: 0,
        }
    }

    /// The name of the tile.
    pub fn name(&self) -> &Name
        ensures { result.now ≡ self.now.name }
    {
        &self.name
    }

    /// The file of its switch matrix, where a row has named it.
    pub fn matrix(&self) -> Option<&Name>
        ensures { option_copied result ≡ self.now.matrix }
    {
        self.matrix.as_ref()
    }

    /// How many matrix names it has, or the greatest number of 64 bits where that is less.
    pub fn count_names(&self) -> u64
        ensures { result ≡ capped (length (names self.now)) }
    {
        self.count
    }

    /// The tile, without pairs and without places of configuration bits.
    pub fn into_tile(self, alloc: Global) -> Result<TileType, Memory>
        requires { length (names self) ≤ 4096 }
        ensures { IfOk result (λ tile. tile ≡ bare self) }
    {
        let Block {
            name,
            rows,
            bels,
            ..
        } = self;
        let rows = rows_of(alloc, rows)?;
        TileType::new(alloc, name, rows, bels)
    }

    /// Whether a name of this row stands among the matrix names, or twice in the row.
    #[tactic(auto, unfolding(crate::specs::Blocks::names, crate::specs::Blocks::row_names))]
    fn meets(&self, alloc: Global, wire: &Wire) -> Result<bool, Memory>
        ensures { IfOk result (λ twice. twice ≡ come_twice (names self.now) (row_names wire.now)) }
    {
        if !self.is_whole {
            return Err(Memory);
        }
        let source = wire.source_family(alloc)?;
        let dest = wire.dest_family(alloc)?;
        Ok(self.names.meets(&source, &dest))
    }

    /// Whether a name of a BEL stands among the matrix names.
    #[tactic(auto, unfolding(crate::specs::Blocks::names))]
    fn meets_pins(&self, alloc: Global, kind: Option<Kind>, prefix: &[u8]) -> Result<bool, Memory>
        ensures { IfOk result (λ twice. twice ≡ come_twice (names self.now) (pins_of kind prefix.now)) }
    {
        if !self.is_whole {
            return Err(Memory);
        }
        match kind {
            None => {
                let pins = Vec::new(alloc);
                Ok(self.names.meets_pins(&pins))
            }
            Some(kind) => {
                let pins = pins_of(alloc, kind, prefix)?;
                Ok(self.names.meets_pins(&pins))
            }
        }
    }

    fn push_wire(&mut self, alloc: Global, wire: Wire) -> Result<(), Memory>
        requires { IsBlock (with_row self.old wire) }
        ensures pushed { OnOk result (self.new ≡ with_row self.old wire) }
        ensures name { self.new.name ≡ self.old.name }
        ensures few_bels { length self.new.bels ≤ 26 }
    {
        if !self.is_whole {
            return Err(Memory);
        }
        let source = wire.source_family(alloc)?;
        let dest = wire.dest_family(alloc)?;
        let count = more(more(self.count, &source), &dest);
        self.rows.push(wire)?;
        self.count = count;
        self.is_whole = false;
        self.names.push(alloc, source, dest)?;
        self.is_whole = true;
        Ok(())
    }

    fn push_bel(&mut self, alloc: Global, bel: Bel) -> Result<(), Memory>
        requires { IsBlock (with_bel self.old bel) }
        ensures pushed { OnOk result (self.new ≡ with_bel self.old bel) }
        ensures name { self.new.name ≡ self.old.name }
        ensures few_bels { length self.new.bels ≤ 26 }
    {
        if !self.is_whole {
            return Err(Memory);
        }
        let pins = pins_of(alloc, bel.kind, bel.prefix.bytes())?;
        let count = more_pins(self.count, &pins);
        self.bels.push(bel)?;
        self.count = count;
        self.is_whole = false;
        self.names.push_pins(pins)?;
        self.is_whole = true;
        Ok(())
    }

    /// Why a row of wires is malformed, if it is.
    #[tactic(auto, unfolding(crate::specs::Rows::wire_reason))]
    fn wire_reason(&self, alloc: Global, cells: &Cells) -> Result<Option<Reason>, Memory>
        ensures { IfOk result (λ reason. reason ≡ wire_reason self.now cells.now) }
    {
        if !has_numbers(cells) {
            return Ok(Some(Reason::Number));
        }
        if !has_sides(cells) {
            return Ok(Some(Reason::Name));
        }
        let wire = wire_of(alloc, cells)?;
        if self.meets(alloc, &wire)? {
            return Ok(Some(Reason::NameTwice));
        }
        if !leads_on(cells) {
            return Ok(Some(Reason::Direction));
        }
        if !wire.has_ends() {
            return Ok(Some(Reason::Null));
        }
        Ok(None)
    }

    /// Why a row of wires is refused, if it is.
    fn wire_problem(&self, alloc: Global, cells: &Cells) -> Result<Option<Problem>, Memory>
        ensures { IfOk result (λ problem. problem ≡ wire_problem self.now cells.now) }
    {
        if let Some(reason) = self.wire_reason(alloc, cells)? {
            return Ok(Some(Problem::Malformed(reason)));
        }
        if let Some(problem) = long_of(cells.source) {
            return Ok(Some(problem));
        }
        Ok(long_of(cells.dest))
    }

    /// Takes a row of wires.
    #[tactic(auto, using(crate::proofs::Fine::fine_has_numbers))]
    pub(crate) fn take_wire(&mut self, alloc: Global, cells: &Cells) -> Result<Said, Problem>
        ensures plain { IfOk result IsPlain }
        ensures name { self.new.name ≡ self.old.name }
        ensures few_bels { length self.new.bels ≤ 26 }
        ensures said { Answers (λ said. (self.new, said)) result (goes_on (wire_problem self.old cells.now) (with_row self.old (row_of cells.now))) }
    {
        let _ = &self.bels;
        if let Some(problem) = self.wire_problem(alloc, cells)? {
            return Err(problem);
        }
        let wire = wire_of(alloc, cells)?;
        self.push_wire(alloc, wire)?;
        Ok(Said::Taken)
    }

    /// Why a row of a BEL of this kind is malformed, if it is.
    #[tactic(auto, unfolding(crate::specs::Rows::bel_reason))]
    fn bel_reason(
        &self,
        alloc: Global,
        kind: Option<Kind>,
        holder: &Name,
        file: &[u8],
        prefix: &[u8],
    ) -> Result<Option<Reason>, Memory>
        ensures { IfOk result (λ reason. reason ≡ bel_reason self.now kind holder.now file.now prefix.now) }
    {
        if !is_path(alloc, holder, file)? {
            return Ok(Some(Reason::Name));
        }
        if !is_prefix(prefix) {
            return Ok(Some(Reason::Name));
        }
        if self.meets_pins(alloc, kind, prefix)? {
            return Ok(Some(Reason::NameTwice));
        }
        if prefix.is_empty() && !may_lack_prefix(kind) {
            return Ok(Some(Reason::Prefix));
        }
        Ok(None)
    }

    /// What is wrong with a BEL that is not malformed.
    #[tactic(auto, unfolding(crate::specs::Rows::kind_problem))]
    fn kind_problem(
        &self,
        alloc: Global,
        kind: Option<Kind>,
        file: &[u8],
        prefix: &[u8],
    ) -> Result<Option<Problem>, Memory>
        ensures { IfOk result (λ problem. problem ≡ kind_problem self.now kind file.now prefix.now) }
    {
        if kind.is_none() {
            return Ok(Some(Problem::Unsupported(Name::of(alloc, stem(file))?)));
        }
        if MAX_BELS <= self.bels.len() {
            let count = self.bels.len() as u64 + 1;
            return Ok(Some(Problem::Limit(Quantity::Bels, count, MAX_BELS as u64)));
        }
        Ok(long_of(prefix))
    }

    fn bel_problem(
        &self,
        alloc: Global,
        kind: Option<Kind>,
        holder: &Name,
        file: &[u8],
        prefix: &[u8],
    ) -> Result<Option<Problem>, Memory>
        ensures { IfOk result (λ problem. problem ≡ bel_problem_of self.now kind holder.now file.now prefix.now) }
    {
        if let Some(reason) = self.bel_reason(alloc, kind, holder, file, prefix)? {
            return Ok(Some(Problem::Malformed(reason)));
        }
        self.kind_problem(alloc, kind, file, prefix)
    }

    /// Takes a row of a BEL, of this file and prefix, which stands in the file `holder`.
    pub(crate) fn take_bel(
        &mut self,
        alloc: Global,
        holder: &Name,
        file: &[u8],
        prefix: &[u8],
    ) -> Result<Said, Problem>
        ensures plain { IfOk result IsPlain }
        ensures name { self.new.name ≡ self.old.name }
        ensures few_bels { length self.new.bels ≤ 26 }
        ensures said { Answers (λ said. (self.new, said)) result
            (goes_on (bel_problem self.old holder.now file.now prefix.now) (with_bel_of self.old (kind_of (stem file.now)) prefix.now)) }
    {
        let _ = &self.bels;
        let kind = kind_of(stem(file));
        if let Some(problem) = self.bel_problem(alloc, kind, holder, file, prefix)? {
            return Err(problem);
        }
        if let Some(kind) = kind {
            let prefix = Name::of(alloc, prefix)?;
            self.push_bel(alloc, Bel { kind, prefix })?;
        }
        Ok(Said::Taken)
    }

    /// Takes a row of the file of a switch matrix, which stands in the file `holder`.
    #[tactic(auto, unfolding(crate::specs::Rows::matrix_problem))]
    pub(crate) fn take_matrix(
        &mut self,
        alloc: Global,
        holder: &Name,
        file: &[u8],
    ) -> Result<Said, Problem>
        ensures plain { IfOk result IsPlain }
        ensures name { self.new.name ≡ self.old.name }
        ensures few_bels { length self.new.bels ≤ 26 }
        ensures said { Answers (λ said. (self.new, said)) result
            (goes_on (matrix_problem self.old holder.now file.now) (with_matrix self.old (resolved holder.now file.now))) }
    {
        if self.matrix.is_some() {
            return Err(Problem::Malformed(Reason::Row));
        }
        let Some(found) = resolve(alloc, holder, file)? else {
            return Err(Problem::Malformed(Reason::Name));
        };
        if !is_matrix_file(file) {
            return Err(Problem::Unsupported(Name::of(alloc, b"matrix file")?));
        }
        self.matrix = Some(found);
        Ok(Said::Taken)
    }
}
