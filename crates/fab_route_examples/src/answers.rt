//! What placing and routing answer for a design, as text.

ghost use Rattle.std.specs.Prelude.{◌≤◌, IfOk};
ghost use Rattle.fab_legal.specs.Legal.{ArePlaced};
ghost use Rattle.fab_legal.specs.WellMade.{IsWellMadePacked};
ghost use Rattle.fab_place.specs.Fixings.{Fits};

use crate::shown::{put_net, put_site, put_text, put_wire};
use fab_base::{Fault, Memory, Name};
use fab_examples::Stop;
use fab_fabric::{Fabric, Site, Wire};
use fab_implementation::{Fixed, Implementation, Tree};
use fab_kinds::Kind;
use fab_legal::packed_is_well_made;
use fab_netlist::{NetId, Netlist, Packed, pack};
use fab_place::{cost, place, sites_of_kind};
use fab_route::{RouteFault, route};
use std::alloc::Global;

fn packed_for(alloc: Global, netlist: &Netlist, luts: u32, pads: u32) -> Result<Packed, Fault>
    ensures { IfOk result IsWellMadePacked }
{
    let packed = pack(alloc, netlist, luts, pads)?;
    netlist.is_well_made();
    packed_is_well_made();
    Ok(packed)
}

// ---- the lines of an answer

fn put_cells(alloc: Global, out: &mut Vec<u8>, cells: &[(u32, Site)]) -> Result<(), Memory> {
    for (number, site) in cells {
        put_text(out, format!(in alloc; "cell {number}")?.as_str())?;
        put_site(alloc, out, *site)?;
    }
    Ok(())
}

fn put_pads(
    alloc: Global,
    out: &mut Vec<u8>,
    word: &str,
    pads: &[(Name, Site)],
) -> Result<(), Memory> {
    for pad in pads {
        put_text(out, word)?;
        out.extend_from_slice(pad.0.bytes())?;
        put_site(alloc, out, pad.1)?;
    }
    Ok(())
}

fn put_edges(
    alloc: Global,
    out: &mut Vec<u8>,
    fabric: &Fabric,
    edges: &[(Wire, Wire)],
) -> Result<(), Memory> {
    for (from, to) in edges {
        put_text(out, "edge")?;
        put_wire(alloc, out, fabric, *from)?;
        put_wire(alloc, out, fabric, *to)?;
        put_text(out, "\n")?;
    }
    Ok(())
}

/// Puts the trees that have edges.
fn put_trees(
    alloc: Global,
    out: &mut Vec<u8>,
    fabric: &Fabric,
    trees: &[Tree],
) -> Result<(), Memory> {
    for tree in trees {
        if !tree.edges.is_empty() {
            put_text(out, "net")?;
            put_net(alloc, out, tree.net)?;
            put_text(out, "\n")?;
            put_edges(alloc, out, fabric, &tree.edges)?;
        }
    }
    Ok(())
}

fn put_rounds(
    alloc: Global,
    out: &mut Vec<u8>,
    fabric: &Fabric,
    rounds: &[Vec<Tree>],
) -> Result<(), Memory> {
    for trees in rounds {
        put_text(out, "round\n")?;
        put_trees(alloc, out, fabric, trees)?;
    }
    Ok(())
}

/// Puts a word with a wire and nets.
fn put_fault(
    alloc: Global,
    out: &mut Vec<u8>,
    fabric: &Fabric,
    fault: &RouteFault,
) -> Result<(), Memory> {
    match fault {
        RouteFault::NoPath(net, wire) => {
            put_text(out, "no path")?;
            put_net(alloc, out, *net)?;
            put_wire(alloc, out, fabric, *wire)?;
            put_text(out, "\n")
        }
        RouteFault::Overused(wire, first, second, rounds) => {
            put_text(out, "overused")?;
            put_wire(alloc, out, fabric, *wire)?;
            put_net(alloc, out, *first)?;
            put_net(alloc, out, *second)?;
            put_text(out, "\n")?;
            put_rounds(alloc, out, fabric, rounds)
        }
        RouteFault::Memory => Err(Memory),
    }
}

// ---- answers

/// Puts the trees of a placed design, or why there are none.
fn put_routed(
    alloc: Global,
    out: &mut Vec<u8>,
    fabric: &Fabric,
    packed: &Packed,
    placed: &Implementation,
    rounds: u32,
) -> Result<(), Memory>
    requires made { IsWellMadePacked packed.now }
    requires placed { ArePlaced fabric.now packed.now placed.now }
    requires some { 1 ≤ rounds }
    requires few { rounds ≤ 64 }
{
    match route(alloc, fabric, packed, placed, rounds) {
        Ok(routed) => {
            put_text(out, "routed\n")?;
            put_trees(alloc, out, fabric, &routed.trees)
        }
        Err(fault) => put_fault(alloc, out, fabric, &fault),
    }
}

/// The lines of a design that fits, without constraints.
fn fitting_answer(
    alloc: Global,
    fabric: &Fabric,
    packed: &Packed,
    seed: u64,
    rounds: u32,
) -> Result<Vec<u8>, Memory>
    requires fits { Fits fabric.now packed.now }
    requires some { 1 ≤ rounds }
    requires few { rounds ≤ 64 }
{
    let fixed = Fixed {
        pads: Vec::new(alloc),
    };
    let placed = place(alloc, fabric, packed, &fixed, seed)?;
    let total = cost(fabric, packed, &placed);
    let mut out = format!(in alloc; "cost {total}\n")?.into_bytes();
    put_cells(alloc, &mut out, &placed.cells)?;
    put_pads(alloc, &mut out, "in ", &placed.ins)?;
    put_pads(alloc, &mut out, "out ", &placed.outs)?;
    put_routed(alloc, &mut out, fabric, packed, &placed, rounds)?;
    Ok(out)
}

/// What a design is packed, placed and routed to: what the placement costs, where cells and ports stand, and the trees of the nets that
/// have sinks; or else the report of the router, with the trees of all rounds.
pub fn answer(
    alloc: Global,
    fabric: &Fabric,
    netlist: &Netlist,
    seed: u64,
    rounds: u32,
) -> Result<Vec<u8>, Stop>
    requires some { 1 ≤ rounds }
    requires few { rounds ≤ 64 }
{
    let luts = sites_of_kind(alloc, fabric, Kind::Lut4c)?;
    let pads = sites_of_kind(alloc, fabric, Kind::Io)?;
    let packed = packed_for(alloc, netlist, 16_384, 16_384)?;
    if luts.len() < packed.cells.len() || pads.len() < packed.inputs.len() + packed.outputs.len() {
        return Err(Stop::Data);
    }
    Ok(fitting_answer(alloc, fabric, &packed, seed, rounds)?)
}
