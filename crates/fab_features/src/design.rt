//! The configuration bits of a legal implementation.

ghost use Rattle.std.specs.Prelude.{◌≡◌, ◌<◌, ◌≤◌, false, List, IfOk, All, Some, length, nat_eq, position, is_some, if◌then◌else◌};
ghost use Rattle.std.specs.Option.{option_map_or};
ghost use Rattle.fab_kinds.specs.declared.kind.Kind.TheVariants as kinds;
ghost use Rattle.fab_model.specs.Grid.{tile_at};
ghost use Rattle.fab_fabric.specs.Bits.{AreBitsOf, plain_bits};
ghost use Rattle.fab_implementation.specs.Plain.{Pad};
ghost use Rattle.fab_implementation.specs.OnFabric.{HasWires, kind_at};
ghost use Rattle.fab_legal.specs.Legal.{IsLegal};
ghost use Rattle.fab_model.specs.Tiles.{bits_before};
ghost use Rattle.fab_use_defs.specs.fab_gen_tile_Words.{IsNamed};
ghost use Rattle.fab_netlist.specs.Meaning.{begins_high};
ghost use Rattle.fab_use_defs.specs.Configuring.{Configures, cell_bit};
ghost use Rattle.fab_features.specs.Naming.{HasPrefixes};
ghost use Rattle.fab_features.specs.Features.{IsBitMapOf};
ghost use Rattle.fab_features.specs.Design.{design_features};
ghost use Rattle.fab_features.specs.inner.Matrices.{AreMatricesOf, IsMatrixOf};
ghost use Rattle.fab_features.specs.inner.Adding.{Adds, SomeOf, IsSiteOne, IsCellOne, IsCellLine, IsChoiceOne, IsEdgeOne, IsTreeOne};

use crate::matrices::{Matrix, matrices_of, tile_with};
use crate::ones::{Ones, set_ones};
use crate::said::Choice;
use fab_base::Memory;
use fab_fabric::{Bits, Fabric, Site, Wire};
use fab_legal::{Legal, Tree};
use fab_model::TileType;
use fab_netlist::{Cell, Packed};
use std::alloc::Global;

// How many bits of a LUT4c are its table. The bit behind them selects the flip-flop.
const TABLE_BITS: u32 = 16;

// The bit of a LUT4c that a reset loads.
const RESET_BIT: u32 = 18;

/// The first configuration bit of a BEL of a tile.
pub fn first_bit(tile: &TileType, bel: usize) -> u32
    requires few { length tile.now.bels ≤ 26 }
    requires inside { bel < length tile.now.bels }
    ensures before { result ≡ bits_before tile.now.bels bel }
    ensures small { result ≤ 494 }
{
    tile.bel_field(bel).0
}

// 1 where a cell has a latch.
fn latch_value(cell: &Cell) -> u128
    ensures { result ≡ (if is_some cell.now.latch then 1 else 0) }
{
    u128::from(cell.latch.is_some())
}

// Whether a cell has a latch that begins with 1.
fn begins_high(cell: &Cell) -> bool
    ensures { result ≡ option_map_or begins_high cell.now.latch false }
{
    match cell.latch {
        Some(init) => init == 1,
        None => false,
    }
}

/// Whether a reset loads 1 into the flip-flop of a cell, in a design that has a reset port or not.
pub fn loads_high(resets: bool, cell: &Cell) -> bool
    ensures { result ≡ cell_bit resets cell.now 18 }
{
    resets && begins_high(cell)
}

// 1 where a reset loads 1.
fn reset_value(resets: bool, cell: &Cell) -> u128
    ensures { result ≡ (if cell_bit resets cell.now 18 then 1 else 0) }
{
    u128::from(loads_high(resets, cell))
}

// Sets the bits of a cell that are 1, in a design that has a reset port or not.
fn set_cell(
    fabric: &Fabric,
    bits: &mut Bits,
    matrices: &[Matrix],
    site: Site,
    cell: &Cell,
    resets: bool,
)
    requires are { AreBitsOf fabric.now bits.old }
    requires matrices { AreMatricesOf fabric.now.types matrices.now }
    requires of_kind { kind_at fabric.now site ≡ Some kinds.Lut4c }
    ensures are { AreBitsOf fabric.now bits.new }
    ensures adds { Adds (plain_bits bits.old) (plain_bits bits.new) (IsSiteOne fabric.now resets site cell.now) }
{
    let Some((tile, _)) = tile_with(fabric, matrices, site.x, site.y) else {
        unreachable!()
    };
    let low = first_bit(tile, site.bel as usize);
    let table = Ones {
        x: site.x,
        y: site.y,
        low,
        width: TABLE_BITS,
        value: u128::from(cell.table),
    };
    let flip_flop = Ones {
        x: site.x,
        y: site.y,
        low: low + TABLE_BITS,
        width: 1,
        value: latch_value(cell),
    };
    let reset = Ones {
        x: site.x,
        y: site.y,
        low: low + RESET_BIT,
        width: 1,
        value: reset_value(resets, cell),
    };
    set_ones(fabric, bits, table);
    set_ones(fabric, bits, flip_flop);
    set_ones(fabric, bits, reset);
}

// Sets the bits of all cells that are 1.
fn set_cells(
    fabric: &Fabric,
    bits: &mut Bits,
    matrices: &[Matrix],
    packed: &Packed,
    cells: &[(u32, Site)],
)
    requires are { AreBitsOf fabric.now bits.old }
    requires matrices { AreMatricesOf fabric.now.types matrices.now }
    requires lines { All (IsCellLine fabric.now packed.now) cells.now }
    ensures are { AreBitsOf fabric.now bits.new }
    ensures adds { Adds (plain_bits bits.old) (plain_bits bits.new) (SomeOf (IsCellOne fabric.now packed.now) cells.now) }
{
    for line in cells {
        set_cell(
            fabric,
            bits,
            matrices,
            line.1,
            &packed.cells[line.0 as usize],
            packed.reset.is_some(),
        );
    }
}

// The first place of an input among those of an output.
fn place_among(inputs: &[u32], input: u32) -> Option<usize>
    ensures { result ≡ position (λ other. nat_eq other input) inputs.now }
{
    inputs.iter().position(|other| *other == input)
}

/// Sets the select bits of an output that are 1 where it has an input, if it has it.
pub fn set_choice(
    fabric: &Fabric,
    bits: &mut Bits,
    tile: &TileType,
    matrix: &Matrix,
    choice: Choice,
)
    requires are { AreBitsOf fabric.now bits.old }
    requires tile { tile_at fabric.now choice.x choice.y ≡ Some tile.now }
    requires matrix { IsMatrixOf tile.now matrix.now }
    ensures are { AreBitsOf fabric.now bits.new }
    ensures adds { Adds (plain_bits bits.old) (plain_bits bits.new) (IsChoiceOne tile.now choice) }
{
    let inputs = matrix.inputs_of(choice.output);
    let Some(place) = place_among(inputs, choice.input) else {
        return;
    };
    let (low, width) = tile.field(choice.output);
    let ones = Ones {
        x: choice.x,
        y: choice.y,
        low,
        width,
        value: place as u128,
    };
    set_ones(fabric, bits, ones);
}

// Sets the select bits of the output that an edge enters, where it is of a pair.
fn set_edge(fabric: &Fabric, bits: &mut Bits, matrices: &[Matrix], edge: (Wire, Wire))
    requires are { AreBitsOf fabric.now bits.old }
    requires matrices { AreMatricesOf fabric.now.types matrices.now }
    requires wires { HasWires fabric.now edge }
    ensures are { AreBitsOf fabric.now bits.new }
    ensures adds { Adds (plain_bits bits.old) (plain_bits bits.new) (IsEdgeOne fabric.now edge) }
{
    let (from_x, from_y, input) = fabric.spot(edge.0);
    let (x, y, output) = fabric.spot(edge.1);
    if from_x != x || from_y != y {
        return;
    }
    let Some((tile, matrix)) = tile_with(fabric, matrices, x, y) else {
        return;
    };
    let choice = Choice {
        x,
        y,
        output,
        input,
    };
    set_choice(fabric, bits, tile, matrix, choice);
}

fn set_edges(fabric: &Fabric, bits: &mut Bits, matrices: &[Matrix], edges: &[(Wire, Wire)])
    requires are { AreBitsOf fabric.now bits.old }
    requires matrices { AreMatricesOf fabric.now.types matrices.now }
    requires wires { All (HasWires fabric.now) edges.now }
    ensures are { AreBitsOf fabric.now bits.new }
    ensures adds { Adds (plain_bits bits.old) (plain_bits bits.new) (SomeOf (IsEdgeOne fabric.now) edges.now) }
{
    for edge in edges {
        set_edge(fabric, bits, matrices, *edge);
    }
}

fn set_trees(fabric: &Fabric, bits: &mut Bits, matrices: &[Matrix], trees: &[Tree])
    requires are { AreBitsOf fabric.now bits.old }
    requires matrices { AreMatricesOf fabric.now.types matrices.now }
    requires wires { All (λ tree. All (HasWires fabric.now) tree.edges) trees.now }
    ensures are { AreBitsOf fabric.now bits.new }
    ensures adds { Adds (plain_bits bits.old) (plain_bits bits.new) (SomeOf (IsTreeOne fabric.now) trees.now) }
{
    for tree in trees {
        set_edges(fabric, bits, matrices, &tree.edges);
    }
}

/// The configuration bits of a legal implementation: those of its cells, and for each output that an edge enters the select bits of
/// the edge's input. All others are 0.
///
/// They are the bit map of the features of the implementation, if the names on the fabric are free and only MUX8LUTs
/// lack a prefix, as on each fabric that files spell.
pub fn design_bits(
    alloc: Global,
    fabric: &Fabric,
    packed: &Packed,
    legal: &Legal,
) -> Result<Bits, Memory>
    requires legal { (fixed : List Pad) × IsLegal fabric.now packed.now fixed legal.now }
    ensures are { IfOk result (AreBitsOf fabric.now) }
    ensures configures { IfOk result (λ bits. Configures fabric.now packed.now legal.now (plain_bits bits)) }
    ensures map { IfOk result (λ bits. All IsNamed fabric.now.types → All HasPrefixes fabric.now.types → IsBitMapOf fabric.now (design_features fabric.now packed.now legal.now) (plain_bits bits)) }
{
    let implementation = legal.get();
    let matrices = matrices_of(alloc, fabric)?;
    let mut bits = Bits::new(alloc, fabric)?;
    set_cells(fabric, &mut bits, &matrices, packed, &implementation.cells);
    set_trees(fabric, &mut bits, &matrices, &implementation.trees);
    Ok(bits)
}
