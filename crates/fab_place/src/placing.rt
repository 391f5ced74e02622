//! Placing a design on a fabric.
ghost use Rattle.std.specs.Prelude.{◌≡◌, ◌++◌, IfOk, OnOk};
ghost use Rattle.fab_kinds.specs.declared.kind.Kind.TheVariants as kinds;
ghost use Rattle.fab_implementation.specs.OnFabric.{IsOnFabric};
ghost use Rattle.fab_fabric.specs.Sites.{sites_of_kind};
ghost use Rattle.fab_ways_laws.specs.Placing.{IsGoodPlacement};
ghost use Rattle.fab_place.specs.Fixings.{AreFixed, Fits};
ghost use Rattle.fab_place.specs.inner.BoardOf.{IsSettled};

use crate::board::board_of;
use crate::constraints::constrained_pads;
use crate::implementation::implementation_of;
use crate::sites::sites_of_kind;
use crate::start::start_of;
use fab_annealing::settled;
use fab_base::Memory;
use fab_fabric::{Fabric, Site};
use fab_implementation::{Fixed, Implementation};
use fab_kinds::Kind;
use fab_netlist::Packed;
use fab_progress::{Progress, Silent};
use std::alloc::Global;

/// Places a design. No exchange of what stands on two sites of one kind within distance 4 lowers the cost, which is not
/// above that of the placement in order; constrained ports are on their pads. The same seed gives the same placement.
/// The error is `Memory` where memory was refused.
pub fn place(
    alloc: Global,
    fabric: &Fabric,
    packed: &Packed,
    fixed: &Fixed,
    seed: u64,
) -> Result<Implementation, Memory>
    requires fits { Fits fabric.now packed.now }
    requires fixed { AreFixed fabric.now packed.now fixed.now }
    ensures good { IfOk result (λ placed. IsGoodPlacement fabric.now packed.now fixed.now placed) }
    ensures on_fabric { IfOk result (λ placed. IsOnFabric fabric.now placed) }
{
    place_with_progress(alloc, &mut Silent, fabric, packed, fixed, seed)
}

/// Places a design as `place` does, and tells on the way how far it is.
pub fn place_with_progress<P: Progress>(
    alloc: Global,
    progress: &mut P,
    fabric: &Fabric,
    packed: &Packed,
    fixed: &Fixed,
    seed: u64,
) -> Result<Implementation, Memory>
    requires fits { Fits fabric.now packed.now }
    requires fixed { AreFixed fabric.now packed.now fixed.now }
    ensures good { IfOk result (λ placed. IsGoodPlacement fabric.now packed.now fixed.now placed) }
    ensures on_fabric { IfOk result (λ placed. IsOnFabric fabric.now placed) }
{
    let luts = sites_of_kind(alloc, fabric, Kind::Lut4c)?;
    let pads = sites_of_kind(alloc, fabric, Kind::Io)?;
    place_on(alloc, progress, fabric, packed, fixed, &luts, &pads, seed)
}

/// Places a design on these sites for cells and for ports.
fn place_on<P: Progress>(
    alloc: Global,
    progress: &mut P,
    fabric: &Fabric,
    packed: &Packed,
    fixed: &Fixed,
    luts: &[Site],
    pads: &[Site],
    seed: u64,
) -> Result<Implementation, Memory>
    requires fits { Fits fabric.now packed.now }
    requires fixed { AreFixed fabric.now packed.now fixed.now }
    requires luts { luts.now ≡ sites_of_kind fabric.now kinds.Lut4c }
    requires pads { pads.now ≡ sites_of_kind fabric.now kinds.Io }
    ensures good { IfOk result (λ placed. IsGoodPlacement fabric.now packed.now fixed.now placed) }
    ensures on_fabric { IfOk result (λ placed. IsOnFabric fabric.now placed) }
{
    let sites = joined(alloc, luts, pads)?;
    let numbers = numbers_of(
        alloc, progress, fabric, packed, fixed, luts, pads, &sites, seed,
    )?;
    implementation_of(alloc, packed, &sites, &numbers)
}

/// The sites of both lists.
fn joined(alloc: Global, luts: &[Site], pads: &[Site]) -> Result<Vec<Site>, Memory>
    ensures { IfOk result (λ sites. sites.items ≡ luts.now ++ pads.now) }
{
    let mut sites = Vec::new(alloc);
    put_sites(&mut sites, luts)?;
    put_sites(&mut sites, pads)?;
    Ok(sites)
}

/// Adds sites.
fn put_sites(sites: &mut Vec<Site>, more: &[Site]) -> Result<(), Memory>
    ensures { OnOk result (sites.new.items ≡ sites.old.items ++ more.now) }
{
    for site in more {
        sites.push(*site)?;
    }
    Ok(())
}

/// The numbers of the sites on which the items stand in the end.
fn numbers_of<P: Progress>(
    alloc: Global,
    progress: &mut P,
    fabric: &Fabric,
    packed: &Packed,
    fixed: &Fixed,
    luts: &[Site],
    pads: &[Site],
    sites: &[Site],
    seed: u64,
) -> Result<Vec<u32>, Memory>
    requires fits { Fits fabric.now packed.now }
    requires fixed { AreFixed fabric.now packed.now fixed.now }
    requires luts { luts.now ≡ sites_of_kind fabric.now kinds.Lut4c }
    requires pads { pads.now ≡ sites_of_kind fabric.now kinds.Io }
    requires sites { sites.now ≡ luts.now ++ pads.now }
    ensures { IfOk result (λ numbers. IsSettled packed.now fixed.now luts.now pads.now numbers.items) }
{
    fabric.is_well_made();
    let cells = packed.cells.len() as u32;
    let (first_pad, pad_count) = (luts.len() as u32, pads.len() as u32);
    let constrained = constrained_pads(alloc, packed, fixed, pads)?;
    let board = board_of(alloc, packed, sites, first_pad, &constrained)?;
    let start = start_of(alloc, cells, first_pad, pad_count, &constrained)?;
    let numbers = settled(alloc, progress, &board, &start, seed)?;
    Ok(numbers)
}
