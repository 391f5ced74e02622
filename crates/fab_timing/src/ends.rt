//! Where walks of a design begin and end.

ghost use Rattle.std.specs.Prelude.{◌≡◌, ◌<◌, ◌≤◌, ℕ, IfOk, OnOk, All, Contains, Some, List, length};
ghost use Rattle.fab_fabric.specs.Fabric.{wire_count};
ghost use Rattle.fab_kinds.specs.declared.kind.Kind.TheVariants as kinds;
ghost use Rattle.fab_implementation.specs.Plain.{Pad};
ghost use Rattle.fab_implementation.specs.OnFabric.{kind_at};
ghost use Rattle.fab_legal.specs.Legal.{IsLegal};
ghost use Rattle.fab_legal.specs.Steps.{HasPin};
ghost use Rattle.fab_legal.specs.WellMade.{IsWellMadePacked};
ghost use Rattle.fab_timing.specs.inner.Adding.{Adds, AddedBelow, AddedBy};
ghost use Rattle.fab_timing.specs.inner.Design.{StartsAre, EndsAre};
ghost use Rattle.fab_timing.specs.inner.Passes.{AreApart, IsCellLine, IsLatchEnd, IsLatchStart, IsListed, IsPin, IsPinOf, OfLine};

use fab_base::{Memory, Name};
use fab_fabric::{Fabric, Site};
use fab_legal::{Legal, find_pin};
use fab_netlist::{Cell, Packed};
use std::alloc::Global;

// I and O of a pad; SR of a LUT4c.
const PAD_DATA: u32 = 0;

const PAD_OUTPUT: u32 = 2;

const LUT_RESET: u32 = 5;

/// O of a LUT4c.
pub const LUT_OUTPUT: u32 = 7;

// The units of a start at an input pad and at a latch, and of an end at an output pad and at a latch.
const INPUT_PAD: u32 = 2;

const LATCH_OUTPUT: u32 = 3;

const OUTPUT_PAD: u32 = 2;

const LATCH_INPUT: u32 = 7;

/// The wires at which walks may begin, each with its units: O of the pads of input ports, and O of the cells with latches.
pub fn starts_of(
    alloc: Global,
    fabric: &Fabric,
    packed: &Packed,
    legal: &Legal,
) -> Result<Vec<(u32, u32)>, Memory>
    requires made { IsWellMadePacked packed.now }
    requires legal { (fixed : List Pad) × IsLegal fabric.now packed.now fixed legal.now }
    ensures starts { IfOk result (λ starts. StartsAre fabric.now packed.now legal.now starts.items) }
    ensures within { IfOk result (λ starts. All (λ start. start.0 < wire_count fabric.now) starts.items) }
    ensures apart { IfOk result (λ starts. AreApart starts.items) }
{
    fabric.is_well_made();
    let implementation = legal.get();
    let mut starts = Vec::new(alloc);
    put_pads(
        alloc,
        &mut starts,
        fabric,
        &implementation.ins,
        PAD_OUTPUT,
        INPUT_PAD,
    )?;
    put_starts(alloc, &mut starts, fabric, packed, &implementation.cells)?;
    Ok(starts)
}

/// The wires at which walks may end, each with its units: I of the pads of output ports, and of the cells with latches the
/// pins that they read, and SR.
pub fn ends_of(
    alloc: Global,
    fabric: &Fabric,
    packed: &Packed,
    legal: &Legal,
) -> Result<Vec<(u32, u32)>, Memory>
    requires made { IsWellMadePacked packed.now }
    requires legal { (fixed : List Pad) × IsLegal fabric.now packed.now fixed legal.now }
    ensures ends { IfOk result (λ ends. EndsAre fabric.now packed.now legal.now ends.items) }
    ensures within { IfOk result (λ ends. All (λ end. end.0 < wire_count fabric.now) ends.items) }
{
    let implementation = legal.get();
    let mut ends = Vec::new(alloc);
    put_pads(
        alloc,
        &mut ends,
        fabric,
        &implementation.outs,
        PAD_DATA,
        OUTPUT_PAD,
    )?;
    put_ends(alloc, &mut ends, fabric, packed, &implementation.cells)?;
    Ok(ends)
}

// Lists a pin with its units.
fn put_pin(
    alloc: Global,
    pins: &mut Vec<(u32, u32)>,
    fabric: &Fabric,
    site: Site,
    pin: u32,
    units: u32,
) -> Result<(), Memory>
    requires { HasPin fabric.now site pin }
    ensures { OnOk result (Adds (IsPin fabric.now site units pin) (IsListed pins.old.items) (IsListed pins.new.items)) }
{
    let wire = find_pin(alloc, fabric, site, pin)?;
    pins.push((wire.0, units))?;
    Ok(())
}

// Lists a pin of each pad.
fn put_pads(
    alloc: Global,
    pins: &mut Vec<(u32, u32)>,
    fabric: &Fabric,
    pads: &[(Name, Site)],
    pin: u32,
    units: u32,
) -> Result<(), Memory>
    requires pads { All (λ pad. kind_at fabric.now pad.1 ≡ Some kinds.Io) pads.now }
    requires pin { pin < 4 }
    ensures { OnOk result (Adds (AddedBy (IsPinOf fabric.now pin units) pads.now) (IsListed pins.old.items) (IsListed pins.new.items)) }
{
    for (_, site) in pads {
        put_pin(alloc, pins, fabric, *site, pin, units)?;
    }
    Ok(())
}

// Lists O of a cell, if it has a latch.
fn put_start(
    alloc: Global,
    starts: &mut Vec<(u32, u32)>,
    fabric: &Fabric,
    site: Site,
    cell: &Cell,
) -> Result<(), Memory>
    requires { kind_at fabric.now site ≡ Some kinds.Lut4c }
    ensures { OnOk result (Adds (IsLatchStart fabric.now site cell.now) (IsListed starts.old.items) (IsListed starts.new.items)) }
{
    if cell.latch.is_some() {
        put_pin(alloc, starts, fabric, site, LUT_OUTPUT, LATCH_OUTPUT)?;
    }
    Ok(())
}

// Lists O of each cell with a latch.
fn put_starts(
    alloc: Global,
    starts: &mut Vec<(u32, u32)>,
    fabric: &Fabric,
    packed: &Packed,
    lines: &[(u32, Site)],
) -> Result<(), Memory>
    requires { All (IsCellLine fabric.now packed.now) lines.now }
    ensures { OnOk result (Adds (AddedBy (OfLine packed.now (IsLatchStart fabric.now)) lines.now) (IsListed starts.old.items) (IsListed starts.new.items)) }
{
    for (number, site) in lines {
        let cell = &packed.cells[*number as usize];
        put_start(alloc, starts, fabric, *site, cell)?;
    }
    Ok(())
}

// Lists the first pins of a LUT4c.
fn put_pins(
    alloc: Global,
    ends: &mut Vec<(u32, u32)>,
    fabric: &Fabric,
    site: Site,
    count: u32,
    units: u32,
) -> Result<(), Memory>
    requires lut { kind_at fabric.now site ≡ Some kinds.Lut4c }
    requires few { count ≤ 4 }
    ensures { OnOk result (Adds (AddedBelow (IsPin fabric.now site units) count) (IsListed ends.old.items) (IsListed ends.new.items)) }
{
    for pin in 0..count {
        put_pin(alloc, ends, fabric, site, pin, units)?;
    }
    Ok(())
}

// Lists the pins that a cell reads, and SR, if it has a latch.
fn put_end(
    alloc: Global,
    ends: &mut Vec<(u32, u32)>,
    fabric: &Fabric,
    site: Site,
    cell: &Cell,
) -> Result<(), Memory>
    requires lut { kind_at fabric.now site ≡ Some kinds.Lut4c }
    requires few { length cell.now.inputs ≤ 4 }
    ensures { OnOk result (Adds (IsLatchEnd fabric.now site cell.now) (IsListed ends.old.items) (IsListed ends.new.items)) }
{
    if cell.latch.is_none() {
        return Ok(());
    }
    put_pins(
        alloc,
        ends,
        fabric,
        site,
        cell.inputs.len() as u32,
        LATCH_INPUT,
    )?;
    put_pin(alloc, ends, fabric, site, LUT_RESET, LATCH_INPUT)
}

// Lists the pins that cells with latches read, and SR of these cells.
fn put_ends(
    alloc: Global,
    ends: &mut Vec<(u32, u32)>,
    fabric: &Fabric,
    packed: &Packed,
    lines: &[(u32, Site)],
) -> Result<(), Memory>
    requires made { IsWellMadePacked packed.now }
    requires lines { All (IsCellLine fabric.now packed.now) lines.now }
    ensures { OnOk result (Adds (AddedBy (OfLine packed.now (IsLatchEnd fabric.now)) lines.now) (IsListed ends.old.items) (IsListed ends.new.items)) }
{
    for (number, site) in lines {
        let cell = &packed.cells[*number as usize];
        put_end(alloc, ends, fabric, *site, cell)?;
    }
    Ok(())
}
