//! The features of a legal implementation.

ghost use Rattle.std.specs.Prelude.{◌≡◌, ◌<◌, ◌+◌, ◌-◌, ◌++◌, ◌*◌, ◌≤◌, [], ◌∷◌, List, All, IfOk, OnOk, Some, is_some, length, map, codes, nat_eq, option_map, option_copied, slice_get, slice_index_or};
ghost use Rattle.std.specs.List.{flat_map, filter_map};
ghost use Rattle.fab_model.specs.Tiles.{IsTile, counted, matrix_names};
ghost use Rattle.fab_model.specs.Grid.{tile_at};
ghost use Rattle.fab_fabric.specs.Fabric.{IsFabric, wires_at};
ghost use Rattle.fab_fabric.specs.Wires.{wire_index};
ghost use Rattle.fab_fabric.specs.Names.{place_name};
ghost use Rattle.fab_implementation.specs.Plain.{Pad};
ghost use Rattle.fab_implementation.specs.OnFabric.{HasWires};
ghost use Rattle.fab_legal.specs.Legal.{IsLegal};
ghost use Rattle.fab_use_defs.specs.fab_fabric_text_defs_Places.{column_tiles, placed_tiles};
ghost use Rattle.fab_features.specs.inner.Matrices.{AreMatricesOf, IsMatrixOf};
ghost use Rattle.fab_features.specs.inner.Adding.{IsCellLine};
ghost use Rattle.fab_features.specs.Design.{bit_features, cell_features, cell_on, design_features, edge_into, feature_of, field_name, output_feature, site_features, tile_features};
ghost use Rattle.fab_features.specs.inner.Listing.{Pushes, HoldsFirsts, IsNear, IsInGrid, edge_key, line_key, placed_tile, site_at};
ghost use Rattle.fab_features.specs.inner.Lookups.{IsLookup};

use crate::design::loads_high;
use crate::matrices::{Matrix, matrices_of, tile_with};
use fab_base::{Memory, Name};
use fab_fabric::{Fabric, Site, Wire, place_name};
use fab_fasm::Feature;
use fab_legal::{Implementation, Legal, Tree};
use fab_model::TileType;
use fab_netlist::{Cell, Packed};
use std::alloc::Global;

// How many BELs a tile may have.
const MOST_BELS: u32 = 26;

// ---- tables by number

// For each number below `size` the second number of the first pair that begins with it.
fn first_values(alloc: Global, size: u32, pairs: &[(u32, u32)]) -> Result<Vec<Option<u32>>, Memory>
    requires { All (λ pair. pair.0 < size) pairs.now }
    ensures { IfOk result (λ table. HoldsFirsts size pairs.now table.items) }
{
    let mut table: Vec<Option<u32>> = vec![in alloc; None; size as usize]?;
    for pair in pairs {
        let key = pair.0 as usize;
        if table[key].is_none() {
            table[key] = Some(pair.1);
        }
    }
    Ok(table)
}

// The edges by the wires that they enter.
fn put_edges(pairs: &mut Vec<(u32, u32)>, edges: &[(Wire, Wire)]) -> Result<(), Memory>
    ensures { OnOk result (pairs.new.items ≡ pairs.old.items ++ map edge_key edges.now) }
{
    for edge in edges {
        pairs.push((edge.1.0, edge.0.0))?;
    }
    Ok(())
}

fn edge_pairs(alloc: Global, trees: &[Tree]) -> Result<Vec<(u32, u32)>, Memory>
    ensures { IfOk result (λ pairs. pairs.items ≡ map edge_key (flat_map (λ tree. tree.edges) trees.now)) }
{
    let mut pairs = Vec::new(alloc);
    for tree in trees {
        put_edges(&mut pairs, &tree.edges)?;
    }
    Ok(pairs)
}

// The number of a site among those of a fabric with so many rows.
fn site_number(rows: u32, site: Site) -> u32
    requires rows { rows ≤ 31 }
    requires x { site.x < 32 }
    requires y { site.y < rows }
    requires bel { site.bel < 26 }
    ensures { result ≡ (site.x * rows + site.y) * 26 + site.bel }
{
    (site.x * rows + site.y) * MOST_BELS + site.bel
}

fn line_pairs(alloc: Global, rows: u32, cells: &[(u32, Site)]) -> Result<Vec<(u32, u32)>, Memory>
    requires rows { rows ≤ 31 }
    requires lines { All (λ line. IsNear rows line.1) cells.now }
    ensures { IfOk result (λ pairs. pairs.items ≡ map (line_key rows) cells.now) }
{
    let mut pairs = Vec::new(alloc);
    for line in cells {
        pairs.push((site_number(rows, line.1), line.0))?;
    }
    Ok(pairs)
}

// The cell of a number, if there is one.
fn cell_at(cells: &[Cell], number: u32) -> Option<&Cell>
    ensures { option_copied result ≡ slice_get cells.now number }
{
    cells.get(number as usize)
}

/// A design on a fabric, with its cells by their sites and its edges by the wires that they enter.
#[derive(Debug, Drop)]
struct Lookup<'a> {
    fabric: &'a Fabric,
    packed: &'a Packed,
    implementation: &'a Implementation,
    // the number of the cell of each site
    cells: Vec<Option<u32>>,
    // the wire from which an edge enters each wire
    entering: Vec<Option<u32>>,
}

impl<'a> Lookup<'a> {
    fn of(
        alloc: Global,
        fabric: &'a Fabric,
        packed: &'a Packed,
        implementation: &'a Implementation,
    ) -> Result<Lookup<'a>, Memory>
        requires is_fabric { IsFabric fabric.now }
        requires lines { All (IsCellLine fabric.now packed.now) implementation.now.cells }
        requires wires { All (λ tree. All (HasWires fabric.now) tree.edges) implementation.now.trees }
        ensures fabric { IfOk result (λ lookup. lookup.fabric.now ≡ fabric.now) }
        ensures packed { IfOk result (λ lookup. lookup.packed.now ≡ packed.now) }
        ensures implementation { IfOk result (λ lookup. lookup.implementation.now ≡ implementation.now) }
        ensures is { IfOk result IsLookup }
    {
        let rows = fabric.rows();
        let sites = fabric.columns() * rows * MOST_BELS;
        let lines = line_pairs(alloc, rows, &implementation.cells)?;
        let edges = edge_pairs(alloc, &implementation.trees)?;
        Ok(Lookup {
            fabric,
            packed,
            implementation,
            cells: first_values(alloc, sites, &lines)?,
            entering: first_values(alloc, fabric.wires(), &edges)?,
        })
    }

    /// The cell on a site, if there is one.
    fn cell_on(&self, site: Site) -> Option<&Cell>
        requires is { IsLookup self.now }
        requires in_grid { IsInGrid self.now.fabric.now site }
        ensures { option_copied result ≡ cell_on self.now.packed.now self.now.implementation.now.cells site }
    {
        let place = site_number(self.fabric.rows(), site);
        let packed = self.packed;
        match self.cells[place as usize] {
            Some(number) => cell_at(&packed.cells, number),
            None => None,
        }
    }

    /// The input that an output of a switch matrix has, if an edge enters it.
    fn input_of(&self, x: u32, y: u32, output: u32) -> Option<u32>
        requires is { IsLookup self.now }
        requires output { output < wires_at self.now.fabric.now x y }
        ensures { result ≡ option_map (λ edge. edge.0.0 - wire_index self.now.fabric.now x y 0) (edge_into self.now.implementation.now (wire_index self.now.fabric.now x y output)) }
    {
        let wire = self.fabric.wire_at(x, y, output);
        let first = self.fabric.wire_at(x, y, 0);
        match self.entering[wire.0 as usize] {
            Some(from) => Some(from.saturating_sub(first.0)),
            None => None,
        }
    }
}

// ---- names

/// A matrix name of a tile, empty past the last.
pub fn matrix_name(alloc: Global, tile: &TileType, number: u32) -> Result<Name, Memory>
    ensures { IfOk result (λ name. name ≡ slice_index_or (matrix_names tile.now) number []) }
{
    if number < tile.matrix_names() {
        tile.matrix_name(alloc, number)
    } else {
        Ok(Name::from(Vec::new(alloc)))
    }
}

/// The name of a field of a BEL, as `X1Y2.A.INIT`.
pub fn field_name(alloc: Global, site: Site, field: &[u8]) -> Result<Name, Memory>
    requires { site.bel < 26 }
    ensures { IfOk result (λ name. name ≡ field_name site field.now) }
{
    let mut text = site.name(alloc)?.into_vec();
    text.push(b'.')?;
    text.extend_from_slice(field)?;
    Ok(Name::from(text))
}

/// The name of a pair of the switch matrix, as `X1Y2.E1END0.LA_I0`.
pub fn pair_name(
    alloc: Global,
    x: u32,
    y: u32,
    tile: &TileType,
    output: u32,
    input: u32,
) -> Result<Name, Memory>
    ensures { IfOk result (λ name. name ≡ place_name x y ++ codes "." ++ slice_index_or (matrix_names tile.now) input [] ++ codes "." ++ slice_index_or (matrix_names tile.now) output []) }
{
    let mut text = place_name(alloc, x, y)?;
    text.push(b'.')?;
    text.extend_from_slice(matrix_name(alloc, tile, input)?.bytes())?;
    text.push(b'.')?;
    text.extend_from_slice(matrix_name(alloc, tile, output)?.bytes())?;
    Ok(Name::from(text))
}

// ---- lines

/// Adds a line; want of memory is also the answer where its number does not fit 32 bits.
pub fn push_line(
    features: &mut Vec<Feature>,
    name: Name,
    high: u32,
    value: u128,
) -> Result<(), Memory>
    ensures { OnOk result (Pushes features.old.items features.new.items (feature_of name high 0 value ∷ [])) }
{
    let line = u32::try_from(features.len() + 1).map_err(|_| Memory)?;
    features.push(Feature {
        line,
        name,
        high,
        low: 0,
        value,
    })?;
    Ok(())
}

// Adds the line of a bit of a BEL, where it is 1.
fn push_bit(
    features: &mut Vec<Feature>,
    alloc: Global,
    site: Site,
    field: &[u8],
    bit: bool,
) -> Result<(), Memory>
    requires { site.bel < 26 }
    ensures { OnOk result (Pushes features.old.items features.new.items (bit_features site field.now bit)) }
{
    if bit {
        let name = field_name(alloc, site, field)?;
        push_line(features, name, 0, 1)?;
    }
    Ok(())
}

// Adds the lines of a cell: its table, that it has a flip-flop where it has a latch, and that a reset loads 1 where it does so, in
// a design that has a reset port or not.
fn push_cell(
    features: &mut Vec<Feature>,
    alloc: Global,
    site: Site,
    cell: &Cell,
    resets: bool,
) -> Result<(), Memory>
    requires { site.bel < 26 }
    ensures { OnOk result (Pushes features.old.items features.new.items (cell_features resets site (Some cell.now))) }
{
    let table = field_name(alloc, site, b"INIT")?;
    push_line(features, table, 15, u128::from(cell.table))?;
    push_bit(features, alloc, site, b"FF", cell.latch.is_some())?;
    push_bit(
        features,
        alloc,
        site,
        b"SET_NORESET",
        loads_high(resets, cell),
    )?;
    Ok(())
}

// Adds the lines of the first BELs of a tile.
fn push_bels(
    features: &mut Vec<Feature>,
    alloc: Global,
    lookup: &Lookup,
    x: u32,
    y: u32,
    bels: u32,
) -> Result<(), Memory>
    requires is { IsLookup lookup.now }
    requires x { x < lookup.now.fabric.now.columns }
    requires y { y < lookup.now.fabric.now.rows }
    requires bels { bels ≤ 26 }
    ensures { OnOk result (Pushes features.old.items features.new.items (flat_map (λ bel. site_features lookup.now.packed.now lookup.now.implementation.now (site_at x y bel)) (counted bels (λ bel. bel)))) }
{
    let packed = lookup.packed;
    let resets = packed.reset.is_some();
    for bel in 0..bels {
        let site = Site { x, y, bel };
        if let Some(cell) = lookup.cell_on(site) {
            push_cell(features, alloc, site, cell, resets)?;
        }
    }
    Ok(())
}

// Adds a line for each of these outputs of a tile that an edge enters.
fn push_outputs(
    features: &mut Vec<Feature>,
    alloc: Global,
    lookup: &Lookup,
    x: u32,
    y: u32,
    tile: &TileType,
    outputs: &[u32],
) -> Result<(), Memory>
    requires is { IsLookup lookup.now }
    requires tile { tile_at lookup.now.fabric.now x y ≡ Some tile.now }
    requires outputs { All (λ output. output < wires_at lookup.now.fabric.now x y) outputs.now }
    ensures { OnOk result (Pushes features.old.items features.new.items (filter_map (output_feature lookup.now.fabric.now lookup.now.implementation.now x y) outputs.now)) }
{
    for output in outputs {
        if let Some(input) = lookup.input_of(x, y, *output) {
            let name = pair_name(alloc, x, y, tile, *output, input)?;
            push_line(features, name, 0, 1)?;
        }
    }
    Ok(())
}

// Adds the lines of a tile.
fn push_tile(
    features: &mut Vec<Feature>,
    alloc: Global,
    lookup: &Lookup,
    x: u32,
    y: u32,
    tile: &TileType,
    matrix: &Matrix,
) -> Result<(), Memory>
    requires is { IsLookup lookup.now }
    requires tile { tile_at lookup.now.fabric.now x y ≡ Some tile.now }
    requires is_tile { IsTile tile.now }
    requires matrix { IsMatrixOf tile.now matrix.now }
    requires bels { length tile.now.bels ≤ 26 }
    ensures { OnOk result (Pushes features.old.items features.new.items (tile_features lookup.now.fabric.now lookup.now.packed.now lookup.now.implementation.now (placed_tile x y tile.now))) }
{
    push_bels(features, alloc, lookup, x, y, tile.bels().len() as u32)?;
    push_outputs(
        features,
        alloc,
        lookup,
        x,
        y,
        tile,
        matrix.outputs.as_slice(),
    )?;
    Ok(())
}

// Adds the lines of a column, from the top.
fn push_column(
    features: &mut Vec<Feature>,
    alloc: Global,
    lookup: &Lookup,
    matrices: &[Matrix],
    x: u32,
) -> Result<(), Memory>
    requires is { IsLookup lookup.now }
    requires matrices { AreMatricesOf lookup.now.fabric.now.types matrices.now }
    ensures { OnOk result (Pushes features.old.items features.new.items (flat_map (tile_features lookup.now.fabric.now lookup.now.packed.now lookup.now.implementation.now) (column_tiles lookup.now.fabric.now x))) }
{
    for y in 0..lookup.fabric.rows() {
        if let Some((tile, matrix)) = tile_with(lookup.fabric, matrices, x, y) {
            push_tile(features, alloc, lookup, x, y, tile, matrix)?;
        }
    }
    Ok(())
}

fn push_columns(
    features: &mut Vec<Feature>,
    alloc: Global,
    lookup: &Lookup,
    matrices: &[Matrix],
) -> Result<(), Memory>
    requires is { IsLookup lookup.now }
    requires matrices { AreMatricesOf lookup.now.fabric.now.types matrices.now }
    ensures { OnOk result (Pushes features.old.items features.new.items (flat_map (tile_features lookup.now.fabric.now lookup.now.packed.now lookup.now.implementation.now) (placed_tiles lookup.now.fabric.now))) }
{
    for x in 0..lookup.fabric.columns() {
        push_column(features, alloc, lookup, matrices, x)?;
    }
    Ok(())
}

/// The features of a legal implementation, in the order of tiles by column and row: of each BEL with a cell by letter `INIT`, also
/// where it is all 0, `FF` where the cell has a latch and `SET_NORESET` where a reset loads 1 into it; then of each output of the switch matrix that an edge enters, in the order of the
/// first pairs, its input, also where it has no other. Lines are numbered from 1.
///
/// Want of memory is also the answer where a line number does not fit 32 bits.
pub fn features_of(
    alloc: Global,
    fabric: &Fabric,
    packed: &Packed,
    legal: &Legal,
) -> Result<Vec<Feature>, Memory>
    requires legal { (fixed : List Pad) × IsLegal fabric.now packed.now fixed legal.now }
    ensures { IfOk result (λ features. features.items ≡ design_features fabric.now packed.now legal.now) }
{
    let implementation = legal.get();
    let matrices = matrices_of(alloc, fabric)?;
    let lookup = Lookup::of(alloc, fabric, packed, implementation)?;
    let mut features = Vec::new(alloc);
    push_columns(&mut features, alloc, &lookup, &matrices)?;
    Ok(features)
}
