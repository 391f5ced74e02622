//! The required sinks of a placed design, in their order.

ghost use Rattle.std.specs.Prelude.{◌≡◌, ◌<◌, ◌≤◌, ◌++◌, ◌∷◌, [], ℕ, IfOk, OnOk, All, Some, length};
ghost use Rattle.std.specs.List.{flat_map};
ghost use Rattle.fab_implementation.specs.fab_fabric.specs.Fabric.{wire_count};
ghost use Rattle.fab_kinds.specs.declared.kind.Kind.TheVariants as kinds;
ghost use Rattle.fab_implementation.specs.OnFabric.{kind_at};
ghost use Rattle.fab_legal.specs.WellMade.{IsWellMadePacked};
ghost use Rattle.fab_legal.specs.Lines.{CellsHaveSites, PortsHavePads};
ghost use Rattle.fab_legal.specs.Steps.{pin_wire, HasPin};
ghost use Rattle.fab_legal.specs.Sinks.{input_sinks, reset_id, cell_sinks, cells_sinks, sinks};
ghost use Rattle.fab_legal.specs.inner.Kept.{AreKept, HasKinds, site_at, in_sinks, outs_sinks, sinks_by};

use crate::placed::{Placed, find_sites};
use crate::tiles::find_pin;
use fab_base::{Memory, Name};
use fab_implementation::Implementation;
use fab_implementation::fab_fabric::{Fabric, Site, Wire};
use fab_implementation::fab_netlist::{Cell, NetId, Packed};
use std::alloc::Global;

// The pins of a LUT4c, and of a pad: I is what it shows outside, and T is 1 where it drives.
const LUT_RESET: u32 = 5;

const LUT_ENABLE: u32 = 6;

const PAD_DATA: u32 = 0;

const PAD_DRIVE: u32 = 1;

fn put_sink(
    alloc: Global,
    sinks: &mut Vec<(NetId, Wire)>,
    fabric: &Fabric,
    net: NetId,
    site: Site,
    pin: u32,
) -> Result<(), Memory>
    requires { HasPin fabric.now site pin }
    ensures { OnOk result (sinks.new.items ≡ sinks.old.items ++ (net, pin_wire fabric.now site pin) ∷ []) }
{
    let wire = find_pin(alloc, fabric, site, pin)?;
    sinks.push((net, wire))?;
    Ok(())
}

// The net that resets latches, where the reset port has this place among the inputs.
fn reset_id(reset: Option<u32>) -> NetId
    ensures { result ≡ reset_id reset }
{
    match reset {
        None => NetId::Zero,
        Some(place) => NetId::In(place),
    }
}

// The input pins of a cell.
fn put_inputs(
    alloc: Global,
    sinks: &mut Vec<(NetId, Wire)>,
    fabric: &Fabric,
    site: Site,
    nets: &[NetId],
) -> Result<(), Memory>
    requires lut { kind_at fabric.now site ≡ Some kinds.Lut4c }
    requires few { length nets.now ≤ 4 }
    ensures { OnOk result (sinks.new.items ≡ sinks.old.items ++ input_sinks fabric.now site 0 nets.now) }
{
    for (pin, net) in nets.iter().enumerate() {
        put_sink(alloc, sinks, fabric, *net, site, pin as u32)?;
    }
    Ok(())
}

// The pins of a cell, and those of its latch.
fn put_cell(
    alloc: Global,
    sinks: &mut Vec<(NetId, Wire)>,
    fabric: &Fabric,
    site: Site,
    reset: NetId,
    cell: &Cell,
) -> Result<(), Memory>
    requires lut { kind_at fabric.now site ≡ Some kinds.Lut4c }
    requires few { length cell.now.inputs ≤ 4 }
    ensures { OnOk result (sinks.new.items ≡ sinks.old.items ++ cell_sinks fabric.now site reset cell.now) }
{
    put_inputs(alloc, sinks, fabric, site, &cell.inputs)?;
    if cell.latch.is_some() {
        put_sink(alloc, sinks, fabric, NetId::One, site, LUT_ENABLE)?;
        put_sink(alloc, sinks, fabric, reset, site, LUT_RESET)?;
    }
    Ok(())
}

fn put_cells(
    alloc: Global,
    sinks: &mut Vec<(NetId, Wire)>,
    fabric: &Fabric,
    sites: &[Site],
    reset: NetId,
    cells: &[Cell],
) -> Result<(), Memory>
    requires luts { All (λ site. kind_at fabric.now site ≡ Some kinds.Lut4c) sites.now }
    requires as_many { length sites.now ≡ length cells.now }
    requires few { All (λ cell. length cell.inputs ≤ 4) cells.now }
    ensures { OnOk result (sinks.new.items ≡ sinks.old.items ++ cells_sinks fabric.now (site_at sites.now) reset 0 cells.now) }
{
    for (number, cell) in cells.iter().enumerate() {
        put_cell(alloc, sinks, fabric, sites[number], reset, cell)?;
    }
    Ok(())
}

fn put_ins(
    alloc: Global,
    sinks: &mut Vec<(NetId, Wire)>,
    fabric: &Fabric,
    sites: &[Site],
) -> Result<(), Memory>
    requires { All (λ site. kind_at fabric.now site ≡ Some kinds.Io) sites.now }
    ensures { OnOk result (sinks.new.items ≡ sinks.old.items ++ flat_map (in_sinks fabric.now) sites.now) }
{
    for site in sites {
        put_sink(alloc, sinks, fabric, NetId::Zero, *site, PAD_DRIVE)?;
    }
    Ok(())
}

fn put_outs(
    alloc: Global,
    sinks: &mut Vec<(NetId, Wire)>,
    fabric: &Fabric,
    sites: &[Site],
    outputs: &[(Name, NetId)],
) -> Result<(), Memory>
    requires pads { All (λ site. kind_at fabric.now site ≡ Some kinds.Io) sites.now }
    requires as_many { length sites.now ≡ length outputs.now }
    ensures { OnOk result (sinks.new.items ≡ sinks.old.items ++ outs_sinks fabric.now (site_at sites.now) 0 outputs.now) }
{
    for (number, output) in outputs.iter().enumerate() {
        put_sink(alloc, sinks, fabric, output.1, sites[number], PAD_DATA)?;
        put_sink(alloc, sinks, fabric, NetId::One, sites[number], PAD_DRIVE)?;
    }
    Ok(())
}

/// The required sinks of a placed design with their nets, by the numbers of inputs and cells of the design.
pub fn sinks_of(
    alloc: Global,
    fabric: &Fabric,
    packed: &Packed,
    placed: &Placed,
) -> Result<Vec<(NetId, Wire)>, Memory>
    requires made { IsWellMadePacked packed.now }
    requires kinds { HasKinds fabric.now packed.now placed.now }
    ensures { IfOk result (λ found. found.items ≡ sinks_by fabric.now packed.now placed.now) }
{
    let mut sinks = Vec::new(alloc);
    put_cells(
        alloc,
        &mut sinks,
        fabric,
        &placed.cells,
        reset_id(packed.reset),
        &packed.cells,
    )?;
    put_ins(alloc, &mut sinks, fabric, &placed.ins.sites)?;
    put_outs(
        alloc,
        &mut sinks,
        fabric,
        &placed.outs.sites,
        &packed.outputs,
    )?;
    Ok(sinks)
}

/// The wires that the nets of a design have to reach, with their nets, where a design is placed: for each cell by number its
/// input pins from I0, and with a latch EN in the net of ones and SR in that of the reset port, or in that of zeros without
/// one; for each input port in declared order T of its pad in the net of zeros; for each output port I of its pad in the port's
/// net, and T in that of ones. Nets are named by the numbers of inputs and cells of the design.
pub fn required(
    alloc: Global,
    fabric: &Fabric,
    packed: &Packed,
    placed: &Implementation,
) -> Result<Vec<(NetId, Wire)>, Memory>
    requires made { IsWellMadePacked packed.now }
    requires cells { CellsHaveSites fabric.now packed.now placed.now }
    requires ports { PortsHavePads fabric.now packed.now placed.now }
    ensures sinks { IfOk result (λ found. found.items ≡ sinks fabric.now packed.now placed.now) }
    ensures wires { IfOk result (λ found. All (λ sink. sink.1.0 < wire_count fabric.now) found.items) }
{
    let kept = find_sites(alloc, fabric, packed, placed)?;
    sinks_of(alloc, fabric, packed, &kept)
}
