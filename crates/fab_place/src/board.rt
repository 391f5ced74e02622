//! The board of a design.
ghost use Rattle.std.specs.Prelude.{◌≡◌, ◌+◌, ◌<◌, ◌≤◌, ◌^◌, ◌++◌, false, IfOk, length, map, replicate, is_some};
ghost use Rattle.fab_ways_laws.specs.fab_legal_WellMade.{IsWellMadePacked};
ghost use Rattle.fab_annealing.specs.Measured.{IsNets, net_count, item_count};
ghost use Rattle.fab_place.specs.Pins.{net_total, item_total, pins, HavePins};
ghost use Rattle.fab_place.specs.inner.BoardOf.{IsBoardOf};

use crate::nets::nets_of;
use crate::pins::pins_of;
use fab_annealing::{Board, Nets};
use fab_base::Memory;
use fab_fabric::Site;
use fab_netlist::Packed;
use std::alloc::Global;

/// The board of a design, where these are the numbers of the pads of its ports that have a constraint.
pub fn board_of(
    alloc: Global,
    packed: &Packed,
    sites: &[Site],
    luts: u32,
    constrained: &[Option<u32>],
) -> Result<Board, Memory>
    requires made { IsWellMadePacked packed.now }
    requires ports { length constrained.now ≡ length packed.now.inputs + length packed.now.outputs }
    ensures { IfOk result (λ board. IsBoardOf packed.now sites.now luts constrained.now board) }
{
    Ok(Board {
        columns: columns_of(alloc, sites)?,
        rows: rows_of(alloc, sites)?,
        second: luts,
        nets: nets_of_design(alloc, packed, constrained.len())?,
        locked: locks(alloc, packed.cells.len(), constrained)?,
    })
}

/// The columns of sites.
fn columns_of(alloc: Global, sites: &[Site]) -> Result<Vec<u32>, Memory>
    ensures { IfOk result (λ columns. columns.items ≡ map (λ site. site.x) sites.now) }
{
    Ok(sites.iter().map(|site| site.x).collect(alloc)?)
}

/// The rows of sites.
fn rows_of(alloc: Global, sites: &[Site]) -> Result<Vec<u32>, Memory>
    ensures { IfOk result (λ rows. rows.items ≡ map (λ site. site.y) sites.now) }
{
    Ok(sites.iter().map(|site| site.y).collect(alloc)?)
}

/// The nets of a design with so many ports.
fn nets_of_design(alloc: Global, packed: &Packed, ports: usize) -> Result<Nets, Memory>
    requires made { IsWellMadePacked packed.now }
    requires ports { ports ≡ length packed.now.inputs + length packed.now.outputs }
    ensures good { IfOk result (λ nets. IsNets nets) }
    ensures nets { IfOk result (λ nets. net_count nets ≡ net_total packed.now) }
    ensures items { IfOk result (λ nets. item_count nets ≡ item_total packed.now) }
    ensures pins { IfOk result (λ nets. HavePins nets (pins packed.now)) }
{
    let cells = packed.cells.len();
    let nets = packed.inputs.len() + cells;
    let items = cells + ports;
    let pins = pins_of(alloc, packed)?;
    nets_of(alloc, &pins, nets as u32, items as u32)
}

/// Which items stay: the ports that have a constraint.
fn locks(alloc: Global, cells: usize, constrained: &[Option<u32>]) -> Result<Vec<bool>, Memory>
    ensures { IfOk result (λ locked. locked.items ≡ replicate cells false ++ map is_some constrained.now) }
{
    let mut locked = vec![in alloc; false; cells]?;
    for pad in constrained {
        locked.push(pad.is_some())?;
    }
    Ok(locked)
}
