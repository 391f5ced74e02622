//! The state of a design: its ports at their pads, and its flip-flops with their initial values.

ghost use Rattle.std.specs.Prelude.{◌≡◌, IfOk, map, length, option_map, nat_eq};
ghost use Rattle.std.specs.List.{filter_map, enumerate_from};
ghost use Rattle.fab_settling_laws.specs.fab_use_defs_Registers.{bound_pad, register_of, design_state};
ghost use Rattle.fab_assemble.specs.inner.Sites.{HoldSites, HoldPads, site_at_key};

use fab_base::{Memory, Name};
use fab_fabric::Site;
use fab_legal::Implementation;
use fab_netlist::{Cell, NetId, Packed};
use fab_state::State;
use indexmap::IndexMap;
use std::alloc::Global;

// Where a thing stands that no line names.
const NOWHERE: Site = Site { x: 0, y: 0, bel: 0 };

// The sites of so many cells by number. The lines are taken from the last to the first, so that of two lines of a cell the first counts.
fn cell_sites(alloc: Global, count: usize, lines: &[(u32, Site)]) -> Result<Vec<Site>, Memory>
    ensures { IfOk result (λ sites. HoldSites lines.now count sites.items) }
{
    let mut sites = vec![in alloc; NOWHERE; count]?;
    for line in lines.iter().rev() {
        let number = line.0 as usize;
        if number < sites.len() {
            sites[number] = line.1;
        }
    }
    Ok(sites)
}

// The flip-flop of a cell with a latch; where the netlist says 2 or 3, any value, it is 0.
fn register_of(site: Site, cell: &Cell) -> Option<(Site, bool)>
    ensures { result ≡ option_map (λ init. (site, nat_eq init 1)) cell.now.latch }
{
    let init = cell.latch?;
    Some((site, init == 1))
}

// The flip-flops in the order of cells.
fn registers(
    alloc: Global,
    cells: &[Cell],
    implementation: &Implementation,
) -> Result<Vec<(Site, bool)>, Memory>
    ensures { IfOk result (λ found. found.items ≡ filter_map (λ at. register_of implementation.now at.0 at.1) (enumerate_from 0 cells.now)) }
{
    let sites = cell_sites(alloc, cells.len(), &implementation.cells)?;
    let mut registers = Vec::new(alloc);
    for (number, cell) in cells.iter().enumerate() {
        if let Some(register) = register_of(sites[number], cell) {
            registers.push(register)?;
        }
    }
    Ok(registers)
}

// The sites of ports by name; of two lines of a port the first counts.
fn pad_sites(alloc: Global, lines: &[(Name, Site)]) -> Result<IndexMap<Vec<u8>, Site>, Memory>
    ensures { IfOk result (λ sites. HoldPads lines.now sites.entries) }
{
    let mut sites = IndexMap::new(alloc);
    for (port, site) in lines.iter().rev() {
        let key = Vec::from_slice(alloc, port.bytes())?;
        sites.insert(key, *site)?;
    }
    Ok(sites)
}

// A port at its pad.
fn pad_of(
    alloc: Global,
    sites: &IndexMap<Vec<u8>, Site>,
    port: &Name,
) -> Result<(Name, Site), Memory>
    ensures { IfOk result (λ pad. pad ≡ (port.now, site_at_key sites.now.entries port.now)) }
{
    let name = port.copy(alloc)?;
    match sites.get(port.bytes()) {
        Some(site) => Ok((name, *site)),
        None => Ok((name, NOWHERE)),
    }
}

// Input ports at their pads.
fn input_pads(
    alloc: Global,
    ports: &[Name],
    lines: &[(Name, Site)],
) -> Result<Vec<(Name, Site)>, Memory>
    ensures { IfOk result (λ pads. pads.items ≡ map (bound_pad lines.now) ports.now) }
{
    let sites = pad_sites(alloc, lines)?;
    let mut pads = Vec::new(alloc);
    for port in ports {
        pads.push(pad_of(alloc, &sites, port)?)?;
    }
    Ok(pads)
}

// Output ports at their pads.
fn output_pads(
    alloc: Global,
    outputs: &[(Name, NetId)],
    lines: &[(Name, Site)],
) -> Result<Vec<(Name, Site)>, Memory>
    ensures { IfOk result (λ pads. pads.items ≡ map (λ output. bound_pad lines.now output.0) outputs.now) }
{
    let sites = pad_sites(alloc, lines)?;
    let mut pads = Vec::new(alloc);
    for (port, _) in outputs {
        pads.push(pad_of(alloc, &sites, port)?)?;
    }
    Ok(pads)
}

/// The state of a design: its ports in declared order, each at its pad, and its flip-flops in the order of cells, each at its cell's site
/// with its initial value. The time is linear in cells, ports and lines.
pub fn state_of(
    alloc: Global,
    packed: &Packed,
    implementation: &Implementation,
) -> Result<State, Memory>
    ensures { IfOk result (λ state. state ≡ design_state packed.now implementation.now) }
{
    Ok(State {
        ins: input_pads(alloc, &packed.inputs, &implementation.ins)?,
        outs: output_pads(alloc, &packed.outputs, &implementation.outs)?,
        ffs: registers(alloc, &packed.cells, implementation)?,
    })
}
