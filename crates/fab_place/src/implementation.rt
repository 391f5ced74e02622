//! The implementation that a placement makes.
ghost use Rattle.std.specs.Prelude.{◌≡◌, ◌<◌, ◌≤◌, ◌+◌, ◌++◌, ℕ, Some, IfOk, OnOk, All, length};
ghost use Rattle.fab_netlist.specs.Packed.{PlainPacked};
ghost use Rattle.fab_implementation.specs.Plain.{reset_name};
ghost use Rattle.fab_place.specs.Pins.{item_total};
ghost use Rattle.fab_place.specs.Standing.{site_at, cell_lines, input_lines, output_lines, standing};
ghost use Rattle.fab_netlist.specs.WellMade.{most_nets};

use fab_base::{Memory, Name};
use fab_fabric::Site;
use fab_implementation::Implementation;
use fab_netlist::{NetId, Packed};
use std::alloc::Global;

/// The implementation in which items stand on these sites, by their numbers: cells, then input ports, then output ports.
pub fn implementation_of(
    alloc: Global,
    packed: &Packed,
    sites: &[Site],
    numbers: &[u32],
) -> Result<Implementation, Memory>
    requires cells { length packed.now.cells ≤ most_nets }
    requires items { length numbers.now ≡ item_total packed.now }
    requires inside { All (λ number. number < length sites.now) numbers.now }
    requires reset { (place : ℕ) → packed.now.reset ≡ Some place → place < length packed.now.inputs }
    ensures { IfOk result (λ made. made ≡ standing packed.now sites.now numbers.now) }
{
    let cells = packed.cells.len();
    let ports = cells + packed.inputs.len();
    Ok(Implementation {
        cells: cells_on(alloc, cells, sites, numbers)?,
        ins: inputs_on(alloc, &packed.inputs, sites, numbers, cells)?,
        outs: outputs_on(alloc, &packed.outputs, sites, numbers, ports)?,
        trees: Vec::new(alloc),
        reset: reset_name(alloc, packed)?,
    })
}

/// The name of the reset port.
fn reset_name(alloc: Global, packed: &Packed) -> Result<Option<Name>, Memory>
    requires { (place : ℕ) → packed.now.reset ≡ Some place → place < length packed.now.inputs }
    ensures { IfOk result (λ name. name ≡ reset_name packed.now) }
{
    match packed.reset {
        Some(place) => Ok(Some(packed.inputs[place as usize].copy(alloc)?)),
        None => Ok(None),
    }
}

/// The lines of cells.
fn cells_on(
    alloc: Global,
    cells: usize,
    sites: &[Site],
    numbers: &[u32],
) -> Result<Vec<(u32, Site)>, Memory>
    requires few { cells ≤ most_nets }
    requires items { cells ≤ length numbers.now }
    requires inside { All (λ number. number < length sites.now) numbers.now }
    ensures { IfOk result (λ lines. lines.items ≡ cell_lines sites.now numbers.now cells) }
{
    let mut lines = Vec::new(alloc);
    for cell in 0..cells {
        let site = sites[numbers[cell] as usize];
        lines.push((cell as u32, site))?;
    }
    Ok(lines)
}

/// The lines of input ports, the first of which is this item.
fn inputs_on(
    alloc: Global,
    inputs: &[Name],
    sites: &[Site],
    numbers: &[u32],
    first: usize,
) -> Result<Vec<(Name, Site)>, Memory>
    requires items { first + length inputs.now ≤ length numbers.now }
    requires inside { All (λ number. number < length sites.now) numbers.now }
    ensures { IfOk result (λ lines. lines.items ≡ input_lines sites.now numbers.now first inputs.now) }
{
    let mut lines = Vec::new(alloc);
    for (number, name) in inputs.iter().enumerate() {
        let site = sites[numbers[first + number] as usize];
        lines.push((name.copy(alloc)?, site))?;
    }
    Ok(lines)
}

/// The lines of output ports, the first of which is this item.
fn outputs_on(
    alloc: Global,
    outputs: &[(Name, NetId)],
    sites: &[Site],
    numbers: &[u32],
    first: usize,
) -> Result<Vec<(Name, Site)>, Memory>
    requires items { first + length outputs.now ≤ length numbers.now }
    requires inside { All (λ number. number < length sites.now) numbers.now }
    ensures { IfOk result (λ lines. lines.items ≡ output_lines sites.now numbers.now first outputs.now) }
{
    let mut lines = Vec::new(alloc);
    for (number, output) in outputs.iter().enumerate() {
        let site = sites[numbers[first + number] as usize];
        lines.push((output.0.copy(alloc)?, site))?;
    }
    Ok(lines)
}
