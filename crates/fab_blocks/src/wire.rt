//! A row of wires: its cells, and what they say.

ghost use Rattle.std.specs.Prelude.{◌≡◌, ◌≤◌, ◌*◌, ◌==◌, ℕ, List, Some, true, IfOk};
ghost use Rattle.fab_model.specs.Rows.{side_bits};
ghost use Rattle.fab_blocks.specs.Blocks.{dest_of, side_of, source_of};
ghost use Rattle.fab_lines.specs.Numbers.{capped, is_number, number_of};
ghost use Rattle.fab_blocks.specs.Cells.{is_signed};
ghost use Rattle.fab_blocks.specs.Rows.{has_ends, has_numbers, has_sides, is_constant, points, row_of, side, span as span_of_cells};

use crate::cells::{is_negative, is_null, is_positive, is_side, is_signed, is_zero, magnitude};
use fab_base::{Memory, Name};
use fab_lines::{capped_number, is_number};
use fab_model::{Dir, WireRow};
use fab_names::Family;
use std::alloc::Global;
use std::marker::Model;

/// How many tiles a wire may go.
const MAX_SPAN: u64 = 31;

/// The cells of a row of wires.
#[derive(Drop)]
pub struct Cells<'a> {
    pub dir: Dir,
    pub source: &'a [u8],
    pub dx: &'a [u8],
    pub dy: &'a [u8],
    pub dest: &'a [u8],
    pub count: &'a [u8],
}

impl<'a> Model for Cells<'a> {
    ghost use Rattle.fab_blocks.specs.Rows.{WireCells};

    ghost Value = { WireCells };

    ghost view = { λ c. record { dir = c.dir; source = c.source.now; dx = c.dx.now; dy = c.dy.now; dest = c.dest.now; count = c.count.now } };
}

/// A row of wires. Contracts see it as a row of a tile type, whose count is what the digits write.
#[derive(Debug, Drop)]
pub struct Wire {
    pub dir: Dir,
    pub source: Option<Name>,
    pub span: u32,
    pub dest: Option<Name>,
    /// In decimal digits.
    pub count: Vec<u8>,
}

impl Model for Wire {
    ghost use Rattle.std.specs.Prelude.{◌≡◌, ◌≤◌, true};
    ghost use Rattle.fab_model.specs.declared.tiles.WireRow.{WireRow};
    ghost use Rattle.fab_lines.specs.Numbers.{is_number, number_of};

    ghost Value = { WireRow };

    ghost view = { λ w. record { dir = w.dir; source = w.source; span = w.span; dest = w.dest; count = number_of w.count.items } };

    ghost invariant = { λ w. (is_number w.count.items ≡ true) × (w.span ≤ 31) };
}

/// How many tiles the wires go, or the greatest number of 64 bits where that is less.
fn span_of(cells: &Cells) -> u64
    requires dx { is_signed cells.now.dx ≡ true }
    requires dy { is_signed cells.now.dy ≡ true }
    ensures { result ≡ capped (span_of_cells cells.now) }
{
    magnitude(cells.dx).saturating_add(magnitude(cells.dy))
}

fn is_zero_count(digits: &[u8]) -> bool
    requires { is_number digits.now ≡ true }
    ensures { result ≡ (number_of digits.now == 0) }
{
    capped_number(digits) == Some(0)
}

/// Whether the numbers of a row are good.
#[tactic(auto, unfolding(crate::specs::Rows::has_numbers))]
pub fn has_numbers(cells: &Cells) -> bool
    ensures { result ≡ has_numbers cells.now }
{
    if !is_signed(cells.dx) {
        return false;
    }
    if !is_signed(cells.dy) {
        return false;
    }
    if !is_number(cells.count) {
        return false;
    }
    span_of(cells) <= MAX_SPAN && !is_zero_count(cells.count)
}

/// Whether each side is missing or has the name of a wire.
#[tactic(auto, unfolding(crate::specs::Rows::has_sides))]
pub fn has_sides(cells: &Cells) -> bool
    ensures { result ≡ has_sides cells.now }
{
    is_side(cells.source) && is_side(cells.dest)
}

/// Whether the row leads into its direction.
#[tactic(auto, unfolding(crate::specs::Rows::points, crate::specs::Rows::has_numbers))]
pub fn leads_on(cells: &Cells) -> bool
    requires { has_numbers cells.now ≡ true }
    ensures { result ≡ points cells.now.dir cells.now.dx cells.now.dy }
{
    match cells.dir {
        Dir::North => is_zero(cells.dx) && is_negative(cells.dy),
        Dir::East => is_positive(cells.dx) && is_zero(cells.dy),
        Dir::South => is_zero(cells.dx) && is_positive(cells.dy),
        Dir::West => is_negative(cells.dx) && is_zero(cells.dy),
        Dir::Jump => is_zero(cells.dx) && is_zero(cells.dy),
    }
}

fn side(alloc: Global, cell: &[u8]) -> Result<Option<Name>, Memory>
    ensures { IfOk result (λ found. found ≡ side cell.now) }
{
    if is_null(cell) {
        return Ok(None);
    }
    Ok(Some(Name::of(alloc, cell)?))
}

/// The row that cells say whose numbers are good.
#[tactic(auto, unfolding(crate::specs::Rows::has_numbers))]
pub fn wire_of(alloc: Global, cells: &Cells) -> Result<Wire, Memory>
    requires { has_numbers cells.now ≡ true }
    ensures { IfOk result (λ wire. wire ≡ row_of cells.now) }
{
    let source = side(alloc, cells.source)?;
    let dest = side(alloc, cells.dest)?;
    let count = Vec::from_slice(alloc, cells.count)?;
    let span = span_of(cells) as u32;
    Ok(Wire {
        dir: cells.dir,
        source,
        span,
        dest,
        count,
    })
}

fn is_constant(dest: &Option<Name>) -> bool
    ensures { result ≡ is_constant dest.now }
{
    match dest {
        None => false,
        Some(name) => name.bytes() == b"GND".as_slice() || name.bytes() == b"VCC".as_slice(),
    }
}

impl Wire {
    /// Whether it has the ends that its direction asks for.
    #[tactic(auto, unfolding(crate::specs::Rows::has_ends))]
    pub fn has_ends(&self) -> bool
        ensures { result ≡ has_ends self.now }
    {
        if self.dir != Dir::Jump {
            return self.source.is_some() || self.dest.is_some();
        }
        if self.source.is_some() {
            return self.dest.is_some();
        }
        is_constant(&self.dest)
    }

    /// How many times its count a side has bits, where the other side is this.
    fn factor(&self, other: &Option<Name>) -> u32
        ensures small { result ≤ 31 }
        ensures times { (name : List ℕ) → result * self.now.count ≡ side_bits self.now (Some name) other.now }
    {
        if self.dir == Dir::Jump {
            return 1;
        }
        if other.is_some() {
            return 1;
        }
        self.span
    }

    fn family(
        &self,
        alloc: Global,
        side: &Option<Name>,
        other: &Option<Name>,
    ) -> Result<Option<Family>, Memory>
        ensures { IfOk result (λ family. family ≡ side_of side.now (side_bits self.now side.now other.now)) }
    {
        match side {
            None => Ok(None),
            Some(name) => {
                let factor = self.factor(other);
                let family = Family::new(alloc, name.bytes(), factor, &self.count)?;
                Ok(Some(family))
            }
        }
    }

    /// The names of its source bits.
    pub fn source_family(&self, alloc: Global) -> Result<Option<Family>, Memory>
        ensures { IfOk result (λ family. family ≡ source_of self.now) }
    {
        self.family(alloc, &self.source, &self.dest)
    }

    /// The names of its destination bits.
    pub fn dest_family(&self, alloc: Global) -> Result<Option<Family>, Memory>
        ensures { IfOk result (λ family. family ≡ dest_of self.now) }
    {
        self.family(alloc, &self.dest, &self.source)
    }

    /// The row of a tile type; want of memory where its count is above 32 bits.
    pub fn into_row(self) -> Result<WireRow, Memory>
        ensures { IfOk result (λ row. row ≡ self) }
    {
        let Some(count) = capped_number(&self.count) else {
            return Err(Memory);
        };
        let Ok(count) = u32::try_from(count) else {
            return Err(Memory);
        };
        let Wire {
            dir,
            source,
            span,
            dest,
            ..
        } = self;
        Ok(WireRow {
            dir,
            source,
            span,
            dest,
            count,
        })
    }
}
