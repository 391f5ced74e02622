//! What a fabric keeps of a tile type, so that calls take no search.

ghost use Rattle.std.specs.Prelude.{◌≡◌, ◌<◌, ◌++◌, ℕ, [], All, IfOk, OnOk, length, map, slice_index_or, slice_get, option_map, sum_by, take};
ghost use Rattle.fab_model.specs.fab_kinds.specs.Pins.{pin_names};
ghost use Rattle.fab_model.specs.Rows.{source_bits, dest_bits};
ghost use Rattle.fab_model.specs.Tiles.{counted, PlainTile, numbered_pairs, pair_numbers};
ghost use Rattle.fab_model.specs.Wires.{source_of, dest_of, pin_of, pin_count, plain_row_wires, plain_bel_wires, wires_before_row};
ghost use Rattle.fab_model.specs.fab_select.specs.Selection.{inputs_of};
ghost use Rattle.std.specs.Prelude.{nat_eq};
ghost use Rattle.fab_model.specs.fab_bits.specs.Keys.{group_at};
ghost use Rattle.fab_fabric.specs.inner.Index.{HasIndex, plain_wire, ends_of};

use crate::ends::{Ends, Side, SideEnds, side_ends};
use fab_base::Memory;
use fab_model::{Bel, Dir, Pair, TileType, WireRow};
use std::alloc::Global;

/// A wire of a tile: a bit of a row, or a pin of a BEL, whose number counts the inputs first.
#[derive(Clone, Copy, Debug)]
pub enum TileWire {
    Source(usize, u64),
    Dest(usize, u64),
    Pin(usize, u32),
}

/// What is kept of a tile type.
#[derive(Debug, Drop)]
pub struct TileIndex {
    /// The wires of the tile by number.
    pub wires: Vec<TileWire>,
    /// The number of the first wire of each row.
    pub starts: Vec<u64>,
    pub sources: SideEnds,
    pub dests: SideEnds,
    /// The inputs of each matrix output, in the order of its pairs.
    pub inputs: Vec<Vec<u32>>,
}

impl TileIndex {
    /// What is kept of this tile type.
    pub fn of(alloc: Global, tile: &TileType) -> Result<TileIndex, Memory>
        ensures { IfOk result (HasIndex tile.now) }
    {
        let rows = tile.rows();
        Ok(TileIndex {
            wires: wires_of(alloc, rows, tile.bels())?,
            starts: starts_of(alloc, rows)?,
            sources: side_ends(alloc, rows, Side::Source)?,
            dests: side_ends(alloc, rows, Side::Dest)?,
            inputs: inputs_by_output(alloc, tile.matrix_names(), tile.pairs())?,
        })
    }

    /// The rows of a direction that have a side.
    pub fn ends(&self, side: Side, dir: Dir) -> &Ends
        ensures { result.now ≡ ends_of self.now side dir }
    {
        match side {
            Side::Source => self.sources.of(dir),
            Side::Dest => self.dests.of(dir),
        }
    }

    /// The inputs of a matrix output, in the order of its pairs.
    pub fn inputs_of(&self, output: u32) -> &[u32]
        ensures { result.now ≡ group_at self.now.inputs.items output }
    {
        match self.inputs.get(output as usize) {
            Some(inputs) => inputs,
            None => &[],
        }
    }
}

// The wires of a tile with these rows and BELs, by number.
fn wires_of(alloc: Global, rows: &[WireRow], bels: &[Bel]) -> Result<Vec<TileWire>, Memory>
    ensures { IfOk result (λ wires. map plain_wire wires.items ≡ plain_row_wires 0 rows.now ++ plain_bel_wires 0 bels.now) }
{
    let mut wires = Vec::new(alloc);
    push_rows(&mut wires, rows)?;
    push_bels(&mut wires, bels)?;
    Ok(wires)
}

fn push_rows(wires: &mut Vec<TileWire>, rows: &[WireRow]) -> Result<(), Memory>
    ensures { OnOk result (map plain_wire wires.new.items ≡ map plain_wire wires.old.items ++ plain_row_wires 0 rows.now) }
{
    for (number, row) in rows.iter().enumerate() {
        push_row(wires, number, row)?;
    }
    Ok(())
}

fn push_row(wires: &mut Vec<TileWire>, number: usize, row: &WireRow) -> Result<(), Memory>
    ensures { OnOk result (map plain_wire wires.new.items
        ≡ map plain_wire wires.old.items ++ counted (source_bits row.now) (source_of number) ++ counted (dest_bits row.now) (dest_of number)) }
{
    push_sources(wires, number, row.source_bits())?;
    push_dests(wires, number, row.dest_bits())?;
    Ok(())
}

fn push_sources(wires: &mut Vec<TileWire>, row: usize, bits: u64) -> Result<(), Memory>
    ensures { OnOk result (map plain_wire wires.new.items ≡ map plain_wire wires.old.items ++ counted bits (source_of row)) }
{
    for bit in 0..bits {
        wires.push(TileWire::Source(row, bit))?;
    }
    Ok(())
}

fn push_dests(wires: &mut Vec<TileWire>, row: usize, bits: u64) -> Result<(), Memory>
    ensures { OnOk result (map plain_wire wires.new.items ≡ map plain_wire wires.old.items ++ counted bits (dest_of row)) }
{
    for bit in 0..bits {
        wires.push(TileWire::Dest(row, bit))?;
    }
    Ok(())
}

fn push_bels(wires: &mut Vec<TileWire>, bels: &[Bel]) -> Result<(), Memory>
    ensures { OnOk result (map plain_wire wires.new.items ≡ map plain_wire wires.old.items ++ plain_bel_wires 0 bels.now) }
{
    for (number, bel) in bels.iter().enumerate() {
        push_pins(wires, number, bel.kind.inputs() + bel.kind.outputs())?;
    }
    Ok(())
}

fn push_pins(wires: &mut Vec<TileWire>, bel: usize, pins: u32) -> Result<(), Memory>
    ensures { OnOk result (map plain_wire wires.new.items ≡ map plain_wire wires.old.items ++ counted pins (pin_of bel)) }
{
    for pin in 0..pins {
        wires.push(TileWire::Pin(bel, pin))?;
    }
    Ok(())
}

// The number of the first wire of each row. Want of memory is also the answer where they are too many to count.
fn starts_of(alloc: Global, rows: &[WireRow]) -> Result<Vec<u64>, Memory>
    ensures len { IfOk result (λ starts. length starts.items ≡ length rows.now) }
    ensures starts { IfOk result (λ starts. (row : ℕ) → row < length rows.now → slice_index_or starts.items row 0 ≡ wires_before_row rows.now row) }
{
    let mut starts = Vec::new(alloc);
    let mut start: u64 = 0;
    for row in rows {
        starts.push(start)?;
        start = start
            .checked_add(row.source_bits())
            .and_then(|sources| sources.checked_add(row.dest_bits()))
            .ok_or(Memory)?;
    }
    Ok(starts)
}

/// The inputs of each of so many outputs of a switch matrix, in the order of the pairs.
pub fn inputs_by_output(
    alloc: Global,
    outputs: u32,
    pairs: &[Pair],
) -> Result<Vec<Vec<u32>>, Memory>
    requires { All (λ pair. pair.output < outputs) pairs.now }
    ensures { IfOk result (λ groups. (output : ℕ) → group_at groups.items output ≡ inputs_of nat_eq (map pair_numbers pairs.now) output) }
{
    let mut groups = no_inputs(alloc, outputs)?;
    for pair in pairs {
        groups[pair.output as usize].push(pair.input)?;
    }
    Ok(groups)
}

// An empty group for each output.
fn no_inputs(alloc: Global, outputs: u32) -> Result<Vec<Vec<u32>>, Memory>
    ensures len { IfOk result (λ groups. length groups.items ≡ outputs) }
    ensures groups { IfOk result (λ groups. (output : ℕ) → group_at groups.items output ≡ []) }
{
    let mut groups = Vec::new(alloc);
    for _output in 0..outputs {
        groups.push(Vec::new(alloc))?;
    }
    Ok(groups)
}
