//! The steps of a design as tables.

ghost use Rattle.std.specs.Prelude.{◌≡◌, ◌+◌, ◌<◌, ◌≤◌, ◌↔◌, ℕ, List, [], IsTrue, IfOk, OnOk, All, Contains, Some, length};
ghost use Rattle.fab_fabric.specs.Fabric.{wire_count};
ghost use Rattle.fab_kinds.specs.declared.kind.Kind.TheVariants as kinds;
ghost use Rattle.fab_implementation.specs.Plain.{Pad};
ghost use Rattle.fab_implementation.specs.OnFabric.{HasWires, IsOnFabric, kind_at};
ghost use Rattle.fab_legal.specs.Legal.{IsLegal};
ghost use Rattle.fab_legal.specs.Steps.{IsJoined};
ghost use Rattle.fab_legal.specs.WellMade.{IsWellMadePacked};
ghost use Rattle.fab_timing.specs.inner.Adding.{Adds, AddedBelow, AddedBy};
ghost use Rattle.fab_timing.specs.inner.Design.{StepsAre};
ghost use Rattle.fab_timing.specs.inner.Passes.{AreApart, AreUnits, HasStep, IsCellLine, IsCellStep, IsEdgeStep, IsFromPin, IsTreeStep, OfLine};
ghost use Rattle.fab_timing.specs.inner.Tables.{AreTables, before_in, plain_steps, sum_at};

use crate::ends::{LUT_OUTPUT, starts_of};
use fab_base::Memory;
use fab_fabric::{Fabric, Site, Wire};
use fab_graph::distance;
use fab_implementation::Tree;
use fab_legal::{Legal, find_pin};
use fab_netlist::{Cell, Packed};
use std::alloc::Global;

// The units of a step along a pair, and of one through a cell.
const PAIR: u32 = 4;

const CELL: u32 = 6;

/// What leads to each wire of a design, by the number of the wire.
#[derive(Debug, Drop)]
pub struct Steps {
    /// The units of the start at the wire, if walks may begin there.
    pub starts: Vec<Option<u32>>,
    /// The wires from which a step leads to the wire, each with the units of the step.
    pub before: Vec<Vec<(u32, u32)>>,
}

/// The starts and the steps of a legal implementation. It takes one pass over its pads, its edges, and the pins of its cells.
pub fn steps_of(
    alloc: Global,
    fabric: &Fabric,
    packed: &Packed,
    legal: &Legal,
) -> Result<Steps, Memory>
    requires made { IsWellMadePacked packed.now }
    requires on_fabric { IsOnFabric fabric.now legal.now }
    requires legal { (fixed : List Pad) × IsLegal fabric.now packed.now fixed legal.now }
    ensures tables { IfOk result AreTables }
    ensures count { IfOk result (λ steps. length steps.starts.items ≡ wire_count fabric.now) }
    ensures steps { IfOk result (λ steps. StepsAre fabric.now packed.now legal.now (plain_steps steps)) }
{
    fabric.is_well_made();
    let starts = starts_of(alloc, fabric, packed, legal)?;
    let table = start_table(alloc, fabric.wires() as usize, &starts)?;
    let before = before_table(alloc, fabric, packed, legal)?;
    Ok(Steps {
        starts: table,
        before,
    })
}

// The units of the start at each node, for so many nodes.
fn start_table(
    alloc: Global,
    count: usize,
    starts: &[(u32, u32)],
) -> Result<Vec<Option<u32>>, Memory>
    requires within { All (λ start. start.0 < count) starts.now }
    requires apart { AreApart starts.now }
    ensures len { IfOk result (λ table. length table.items ≡ count) }
    ensures starts { IfOk result (λ table. (node units : ℕ) → (sum_at table.items node ≡ Some units) ↔ Contains starts.now (node, units)) }
{
    let mut table = vec![in alloc; None; count]?;
    for (node, units) in starts {
        table[*node as usize] = Some(*units);
    }
    Ok(table)
}

// The steps to each wire.
fn before_table(
    alloc: Global,
    fabric: &Fabric,
    packed: &Packed,
    legal: &Legal,
) -> Result<Vec<Vec<(u32, u32)>>, Memory>
    requires made { IsWellMadePacked packed.now }
    requires on_fabric { IsOnFabric fabric.now legal.now }
    requires legal { (fixed : List Pad) × IsLegal fabric.now packed.now fixed legal.now }
    ensures len { IfOk result (λ before. length before.items ≡ wire_count fabric.now) }
    ensures edges { IfOk result (λ before. Adds (AddedBy (OfLine packed.now (IsCellStep fabric.now)) legal.now.cells)
        (AddedBy (IsTreeStep fabric.now) legal.now.trees) (HasStep before.items)) }
{
    let implementation = legal.get();
    let mut before = no_steps(alloc, fabric.wires() as usize)?;
    put_trees(&mut before, fabric, &implementation.trees)?;
    put_cells(alloc, &mut before, fabric, packed, &implementation.cells)?;
    Ok(before)
}

// No steps to any of so many nodes.
fn no_steps(alloc: Global, count: usize) -> Result<Vec<Vec<(u32, u32)>>, Memory>
    ensures len { IfOk result (λ before. length before.items ≡ count) }
    ensures none { IfOk result (λ before. (node : ℕ) → before_in before.items node ≡ []) }
{
    let mut before = Vec::new(alloc);
    for _node in 0..count {
        before.push(Vec::new(alloc))?;
    }
    Ok(before)
}

// Adds a step.
fn put_step(
    before: &mut Vec<Vec<(u32, u32)>>,
    from: Wire,
    to: Wire,
    units: u32,
) -> Result<(), Memory>
    requires { to.0 < length before.old.items }
    ensures len { OnOk result (length before.new.items ≡ length before.old.items) }
    ensures added { OnOk result (Adds (λ step. step ≡ (from, to, units)) (HasStep before.old.items) (HasStep before.new.items)) }
{
    before[to.0 as usize].push((from.0, units))?;
    Ok(())
}

// Whether a join leads from a wire to another.
fn is_joined(fabric: &Fabric, from: Wire, to: Wire) -> bool
    requires { from.0 < wire_count fabric.now }
    ensures { IsTrue result ↔ IsJoined fabric.now from to }
{
    match fabric.join_to(from) {
        Some(wire) => wire.0 == to.0,
        None => false,
    }
}

// The units of an edge. A join takes longer the farther its tiles are apart; an edge that is no join is a pair.
fn edge_units(fabric: &Fabric, from: Wire, to: Wire) -> u32
    requires from { from.0 < wire_count fabric.now }
    requires to { to.0 < wire_count fabric.now }
    ensures { AreUnits fabric.now from to result }
{
    if is_joined(fabric, from, to) {
        1 + 2 * distance(fabric, from, to)
    } else {
        PAIR
    }
}

// Adds the edges of a tree.
fn put_edges(
    before: &mut Vec<Vec<(u32, u32)>>,
    fabric: &Fabric,
    edges: &[(Wire, Wire)],
) -> Result<(), Memory>
    requires wires { All (HasWires fabric.now) edges.now }
    requires count { length before.old.items ≡ wire_count fabric.now }
    ensures len { OnOk result (length before.new.items ≡ length before.old.items) }
    ensures added { OnOk result (Adds (AddedBy (IsEdgeStep fabric.now) edges.now) (HasStep before.old.items) (HasStep before.new.items)) }
{
    for (from, to) in edges {
        let units = edge_units(fabric, *from, *to);
        put_step(before, *from, *to, units)?;
    }
    Ok(())
}

// Adds the edges of trees.
fn put_trees(
    before: &mut Vec<Vec<(u32, u32)>>,
    fabric: &Fabric,
    trees: &[Tree],
) -> Result<(), Memory>
    requires wires { All (λ tree. All (HasWires fabric.now) tree.edges) trees.now }
    requires count { length before.old.items ≡ wire_count fabric.now }
    ensures len { OnOk result (length before.new.items ≡ length before.old.items) }
    ensures added { OnOk result (Adds (AddedBy (IsTreeStep fabric.now) trees.now) (HasStep before.old.items) (HasStep before.new.items)) }
{
    for tree in trees {
        put_edges(before, fabric, &tree.edges)?;
    }
    Ok(())
}

// Adds the steps from the first pins of a LUT4c to a wire.
fn put_pins(
    alloc: Global,
    before: &mut Vec<Vec<(u32, u32)>>,
    fabric: &Fabric,
    site: Site,
    count: u32,
    output: Wire,
) -> Result<(), Memory>
    requires lut { kind_at fabric.now site ≡ Some kinds.Lut4c }
    requires few { count ≤ 4 }
    requires output { output.0 < length before.old.items }
    ensures len { OnOk result (length before.new.items ≡ length before.old.items) }
    ensures added { OnOk result (Adds (AddedBelow (IsFromPin fabric.now site output) count) (HasStep before.old.items) (HasStep before.new.items)) }
{
    for pin in 0..count {
        let from = find_pin(alloc, fabric, site, pin)?;
        put_step(before, from, output, CELL)?;
    }
    Ok(())
}

// Adds the steps through a cell, if it has no latch.
fn put_cell(
    alloc: Global,
    before: &mut Vec<Vec<(u32, u32)>>,
    fabric: &Fabric,
    site: Site,
    cell: &Cell,
) -> Result<(), Memory>
    requires lut { kind_at fabric.now site ≡ Some kinds.Lut4c }
    requires few { length cell.now.inputs ≤ 4 }
    requires count { length before.old.items ≡ wire_count fabric.now }
    ensures len { OnOk result (length before.new.items ≡ length before.old.items) }
    ensures added { OnOk result (Adds (IsCellStep fabric.now site cell.now) (HasStep before.old.items) (HasStep before.new.items)) }
{
    if cell.latch.is_some() {
        return Ok(());
    }
    let output = find_pin(alloc, fabric, site, LUT_OUTPUT)?;
    put_pins(
        alloc,
        before,
        fabric,
        site,
        cell.inputs.len() as u32,
        output,
    )
}

// Adds the steps through cells.
fn put_cells(
    alloc: Global,
    before: &mut Vec<Vec<(u32, u32)>>,
    fabric: &Fabric,
    packed: &Packed,
    lines: &[(u32, Site)],
) -> Result<(), Memory>
    requires made { IsWellMadePacked packed.now }
    requires lines { All (IsCellLine fabric.now packed.now) lines.now }
    requires count { length before.old.items ≡ wire_count fabric.now }
    ensures len { OnOk result (length before.new.items ≡ length before.old.items) }
    ensures added { OnOk result (Adds (AddedBy (OfLine packed.now (IsCellStep fabric.now)) lines.now) (HasStep before.old.items) (HasStep before.new.items)) }
{
    for (number, site) in lines {
        let cell = &packed.cells[*number as usize];
        put_cell(alloc, before, fabric, *site, cell)?;
    }
    Ok(())
}
