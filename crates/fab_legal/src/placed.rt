//! Cells and ports with their sites: the first four rules.

ghost use Rattle.std.specs.Prelude.{◌≡◌, ◌≢◌, ◌<◌, ◌≤◌, ℕ, ◌++◌, IfOk, IfErr, OnOk, All, MatchOption, length, map, option_copied};
ghost use Rattle.fab_bits.specs.Keys.{key_names};
ghost use Rattle.fab_legal.specs.Turns.{AreRight, IsFirstWrongAt};
ghost use Rattle.fab_legal.specs.WellMade.{IsWellMadePacked, output_ports};
ghost use Rattle.fab_legal.specs.Lines.{CellsHaveSites, SitesDiffer, PortsHavePads, ConstraintsHold, IsNew, sites, sited};
ghost use Rattle.fab_implementation.specs.OnFabric.{IsOnFabric};
ghost use Rattle.fab_legal.specs.Legal.{ArePlaced};
ghost use Rattle.fab_legal.specs.Broken.{IsCellItem, IsSiteItem, IsPortItem, Explains};
ghost use Rattle.fab_legal.specs.inner.Keeping.{AreSites, ArePads, BindsPads};
ghost use Rattle.fab_legal.specs.inner.Kept.{AreKept, HasOne, IsCounted, IsWithin, wrong_port, IsBound};
ghost use Rattle.fab_legal.specs.declared.ports.PadBinding.TheVariants as pad_bindings;
ghost use Rattle.fab_legal.specs.inner.Answers.{Breaks};
ghost use Rattle.fab_implementation.specs.fab_netlist.specs.WellMade.{most_nets};

use crate::broken::{CheckFault, broken_by};
use crate::lines::{Binding, bind};
use crate::ports::{PadBinding, Pads, bind_pads, input_ports, output_ports};
use crate::texts::cell_text;
use fab_base::{Memory, Name};
use fab_implementation::fab_fabric::{Fabric, Site};
use fab_implementation::fab_netlist::Packed;
use fab_implementation::{Fixed, Implementation};
use fab_kinds::Kind;
use indexmap::IndexSet;
use std::alloc::Global;
use std::mem;

/// The sites of the cells and ports of a design.
#[derive(Debug, Drop)]
pub struct Placed {
    /// The sites of the cells by number.
    pub cells: Vec<Site>,
    /// The input ports.
    pub ins: Pads,
    /// The output ports.
    pub outs: Pads,
}

// The sites of cells by number.
fn place_cells(
    alloc: Global,
    fabric: &Fabric,
    packed: &Packed,
    implementation: &Implementation,
) -> Result<Vec<Site>, CheckFault>
    requires { length packed.now.cells ≤ most_nets }
    ensures placed { OnOk result (CellsHaveSites fabric.now packed.now implementation.now) }
    ensures sites { IfOk result (λ sites. AreSites implementation.now.cells (length packed.now.cells) sites.items) }
    ensures err { IfErr result (Breaks 1 (IsCellItem fabric.now packed.now implementation.now)) }
{
    let count = packed.cells.len() as u32;
    match bind(alloc, fabric, Kind::Lut4c, count, &implementation.cells)? {
        Binding::Sites(sites) => Ok(sites),
        Binding::WrongLine(place) => {
            let number = implementation.cells[place].0;
            Err(broken_by(1, cell_text(alloc, number)?))
        }
        Binding::Unnamed(number) => Err(broken_by(1, cell_text(alloc, number)?)),
    }
}

// The sites in the order of the lines.
fn sites_of(alloc: Global, implementation: &Implementation) -> Result<Vec<Site>, Memory>
    ensures { IfOk result (λ found. found.items ≡ sites implementation.now) }
{
    let mut sites = Vec::new(alloc);
    for line in &implementation.cells {
        sites.push(line.1)?;
    }
    put_pads(&mut sites, &implementation.ins)?;
    put_pads(&mut sites, &implementation.outs)?;
    Ok(sites)
}

fn put_pads(sites: &mut Vec<Site>, pads: &[(Name, Site)]) -> Result<(), Memory>
    ensures { OnOk result (sites.new.items ≡ sites.old.items ++ sited pads.now) }
{
    for pad in pads {
        sites.push(pad.1)?;
    }
    Ok(())
}

// The place of the first site that stands before it too.
fn first_again(alloc: Global, sites: &[Site]) -> Result<Option<usize>, Memory>
    ensures { IfOk result (λ found. MatchOption found (AreRight IsNew sites.now) (IsFirstWrongAt IsNew sites.now)) }
{
    let mut seen: IndexSet<(u32, u32, u32)> = IndexSet::new(alloc);
    for (place, site) in sites.iter().enumerate() {
        let key = (site.x, site.y, site.bel);
        if seen.contains(&key) {
            return Ok(Some(place));
        }
        seen.insert(key)?;
    }
    Ok(None)
}

// No site is used twice.
fn check_sites(alloc: Global, implementation: &Implementation) -> Result<(), CheckFault>
    requires { All (λ site. site.bel < 26) (sites implementation.now) }
    ensures ok { OnOk result (SitesDiffer implementation.now) }
    ensures err { IfErr result (Breaks 2 (IsSiteItem implementation.now)) }
{
    let sites = sites_of(alloc, implementation)?;
    match first_again(alloc, &sites)? {
        None => Ok(()),
        Some(place) => Err(broken_by(2, sites[place].name(alloc)?)),
    }
}

// The port by which lines are wrong or which none names, if there is one.
fn wrong_port<'a>(
    packed: &'a Packed,
    implementation: &'a Implementation,
    ins: &PadBinding,
    outs: &PadBinding,
) -> Option<&'a Name>
    requires ins { IsWithin (length packed.now.inputs) (length implementation.now.ins) ins.now }
    requires outs { IsWithin (length packed.now.outputs) (length implementation.now.outs) outs.now }
    ensures { option_copied result ≡ wrong_port packed.now implementation.now ins.now outs.now }
{
    if let PadBinding::WrongLine(place) = ins {
        return Some(&implementation.ins[*place].0);
    }
    if let PadBinding::WrongLine(place) = outs {
        return Some(&implementation.outs[*place].0);
    }
    if let PadBinding::Unnamed(place) = ins {
        return Some(&packed.inputs[*place]);
    }
    if let PadBinding::Unnamed(place) = outs {
        return Some(&packed.outputs[*place].0);
    }
    None
}

// The pads that are bound.
fn bound_pads(binding: PadBinding) -> Pads
    requires { IsBound binding }
    ensures { binding ≡ pad_bindings.Bound result }
{
    match binding {
        PadBinding::Bound(pads) => pads,
        _ => unreachable!(),
    }
}

// What lines give to the input ports.
fn bind_ins(
    alloc: Global,
    fabric: &Fabric,
    packed: &Packed,
    implementation: &Implementation,
) -> Result<PadBinding, Memory>
    requires { IsWellMadePacked packed.now }
    ensures { IfOk result (BindsPads fabric.now packed.now.inputs implementation.now.ins) }
{
    let names = input_ports(alloc, &packed.inputs)?;
    bind_pads(alloc, fabric, names, &implementation.ins)
}

// What lines give to the output ports.
fn bind_outs(
    alloc: Global,
    fabric: &Fabric,
    packed: &Packed,
    implementation: &Implementation,
) -> Result<PadBinding, Memory>
    requires { IsWellMadePacked packed.now }
    ensures { IfOk result (BindsPads fabric.now (output_ports packed.now) implementation.now.outs) }
{
    let names = output_ports(alloc, &packed.outputs)?;
    bind_pads(alloc, fabric, names, &implementation.outs)
}

// What lines give to the ports, inputs and outputs.
fn bind_ports(
    alloc: Global,
    fabric: &Fabric,
    packed: &Packed,
    implementation: &Implementation,
) -> Result<(PadBinding, PadBinding), Memory>
    requires { IsWellMadePacked packed.now }
    ensures ins { IfOk result (λ bound. BindsPads fabric.now packed.now.inputs implementation.now.ins bound.0) }
    ensures outs { IfOk result (λ bound. BindsPads fabric.now (output_ports packed.now) implementation.now.outs bound.1) }
{
    let ins = bind_ins(alloc, fabric, packed, implementation)?;
    match bind_outs(alloc, fabric, packed, implementation) {
        Ok(outs) => Ok((ins, outs)),
        Err(Memory) => {
            mem::drop(ins);
            Err(Memory)
        }
    }
}

// The ports with their pads, inputs and outputs.
fn place_ports(
    alloc: Global,
    fabric: &Fabric,
    packed: &Packed,
    implementation: &Implementation,
) -> Result<(Pads, Pads), CheckFault>
    requires { IsWellMadePacked packed.now }
    ensures placed { OnOk result (PortsHavePads fabric.now packed.now implementation.now) }
    ensures ins { IfOk result (λ pads. ArePads packed.now.inputs implementation.now.ins pads.0) }
    ensures outs { IfOk result (λ pads. ArePads (output_ports packed.now) implementation.now.outs pads.1) }
    ensures err { IfErr result (Breaks 3 (IsPortItem fabric.now packed.now implementation.now)) }
{
    let (ins, outs) = bind_ports(alloc, fabric, packed, implementation)?;
    if let Some(name) = wrong_port(packed, implementation, &ins, &outs) {
        mem::drop((ins, outs));
        return Err(broken_by(3, name.copy(alloc)?));
    }
    Ok((bound_pads(ins), bound_pads(outs)))
}

// The place of the first constrained port that stands on another pad.
fn wrong_pad(placed: &Placed, pads: &[(Name, Site)]) -> Option<usize>
    requires ins { IsCounted placed.now.ins }
    requires outs { IsCounted placed.now.outs }
    ensures { MatchOption result (AreRight (HasOne placed.now) pads.now) (IsFirstWrongAt (HasOne placed.now) pads.now) }
{
    for (place, pad) in pads.iter().enumerate() {
        if !placed.ins.has(pad) && !placed.outs.has(pad) {
            return Some(place);
        }
    }
    None
}

/// Places cells and ports as an implementation says, if it keeps the first four rules.
pub fn place(
    alloc: Global,
    fabric: &Fabric,
    packed: &Packed,
    fixed: &Fixed,
    implementation: &Implementation,
) -> Result<Placed, CheckFault>
    requires made { IsWellMadePacked packed.now }
    requires on_fabric { IsOnFabric fabric.now implementation.now }
    ensures placed { OnOk result (ArePlaced fabric.now packed.now implementation.now) }
    ensures constraints { OnOk result (ConstraintsHold fixed.now implementation.now) }
    ensures kept { IfOk result (AreKept packed.now implementation.now) }
    ensures err { IfErr result (Explains fabric.now packed.now fixed.now implementation.now) }
{
    fabric.is_well_made();
    let cells = place_cells(alloc, fabric, packed, implementation)?;
    check_sites(alloc, implementation)?;
    let (ins, outs) = place_ports(alloc, fabric, packed, implementation)?;
    let placed = Placed { cells, ins, outs };
    match wrong_pad(&placed, &fixed.pads) {
        None => Ok(placed),
        Some(place) => {
            mem::drop(placed);
            Err(broken_by(4, fixed.pads[place].0.copy(alloc)?))
        }
    }
}

/// The sites that an implementation gives to cells and ports, where it keeps the rules on them.
pub fn find_sites(
    alloc: Global,
    fabric: &Fabric,
    packed: &Packed,
    implementation: &Implementation,
) -> Result<Placed, Memory>
    requires made { IsWellMadePacked packed.now }
    requires cells { CellsHaveSites fabric.now packed.now implementation.now }
    requires ports { PortsHavePads fabric.now packed.now implementation.now }
    ensures { IfOk result (AreKept packed.now implementation.now) }
{
    let cells = match place_cells(alloc, fabric, packed, implementation) {
        Ok(cells) => cells,
        Err(_) => return Err(Memory),
    };
    match place_ports(alloc, fabric, packed, implementation) {
        Ok((ins, outs)) => Ok(Placed { cells, ins, outs }),
        Err(_) => Err(Memory),
    }
}
