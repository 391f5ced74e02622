//! What a placement costs.
ghost use Rattle.std.specs.Prelude.{◌≡◌, ◌≢◌, ◌<◌, ◌≤◌, ◌∷◌, AllPairs, fold, map, filter, length, nat_eq, sum_by};
ghost use Rattle.std.specs.List.{enumerate_from, list_any};
ghost use Rattle.std.specs.Str.{bytes_eq};
ghost use Rattle.fab_netlist.specs.declared.net_id.NetId.TheVariants as ids;
ghost use Rattle.fab_ways_laws.specs.fab_legal_WellMade.{IsWellMadePacked};
ghost use Rattle.fab_ways_laws.specs.fab_legal_Legal.{ArePlaced};
ghost use Rattle.fab_ways_laws.specs.fab_legal_Lines.{named};
ghost use Rattle.fab_ways_laws.specs.fab_legal_Sinks.{site_of};
ghost use Rattle.fab_ways_laws.specs.Placing.{same_net, half_perimeter, cell_site, reads_net, reader_sites, cost};
ghost use Rattle.fab_place.specs.inner.Boxes.{included, NamesOnce};
ghost use Rattle.fab_netlist.specs.WellMade.{most_nets};

use crate::bounding::BoundingBox;
use crate::pins::reset_net;
use fab_base::Name;
use fab_fabric::{Fabric, Site};
use fab_implementation::Implementation;
use fab_netlist::{Cell, NetId, Packed};

/// The cost of a placement: the sum, over the nets of input ports and of cells, of width plus height of the least box
/// around the tiles of source and sinks. It takes no memory.
///
/// Each line is looked for at the place that it has in the answers of `place`, and else from the first line on.
pub fn cost(fabric: &Fabric, packed: &Packed, placed: &Implementation) -> u64
    requires made { IsWellMadePacked packed.now }
    requires placed { ArePlaced fabric.now packed.now placed.now }
    ensures { result ≡ cost packed.now placed.now }
{
    inputs_cost(packed, placed) + cells_cost(packed, placed)
}

/// The part of the nets of input ports.
fn inputs_cost(packed: &Packed, placed: &Implementation) -> u64
    requires few { length packed.now.inputs ≤ most_nets }
    requires names { NamesOnce placed.now }
    ensures value { result ≡ sum_by (λ port. half_perimeter (site_of bytes_eq placed.now.ins port.1 ∷ reader_sites packed.now placed.now (ids.In port.0)))
        (enumerate_from 0 packed.now.inputs) }
    ensures small { result ≤ 140737488355328 }
{
    let mut total = 0;
    for (number, port) in packed.inputs.iter().enumerate() {
        let source = port_site(&placed.ins, number, port);
        total += half_of(packed, placed, source, NetId::In(number as u32));
    }
    total
}

/// The part of the nets of cells.
fn cells_cost(packed: &Packed, placed: &Implementation) -> u64
    requires few { length packed.now.cells ≤ most_nets }
    requires names { NamesOnce placed.now }
    ensures value { result ≡ sum_by (λ cell. half_perimeter (cell_site placed.now cell.0 ∷ reader_sites packed.now placed.now (ids.Cell cell.0)))
        (enumerate_from 0 packed.now.cells) }
    ensures small { result ≤ 140737488355328 }
{
    let mut total = 0;
    for number in 0..packed.cells.len() {
        let source = cell_site(&placed.cells, number);
        total += half_of(packed, placed, source, NetId::Cell(number as u32));
    }
    total
}

/// Width plus height of the least box around a source and what reads a net.
fn half_of(packed: &Packed, placed: &Implementation, source: Site, net: NetId) -> u64
    requires { NamesOnce placed.now }
    ensures value { result ≡ half_perimeter (source ∷ reader_sites packed.now placed.now net) }
    ensures small { result < 8589934592 }
{
    let mut area = BoundingBox::around(source);
    let reset = reset_net(packed.reset);
    add_cells(&mut area, &packed.cells, &placed.cells, reset, net);
    add_outputs(&mut area, &packed.outputs, &placed.outs, net);
    area.half()
}

/// Makes a box so large that it has the cells that read a net.
fn add_cells(
    area: &mut BoundingBox,
    cells: &[Cell],
    lines: &[(u32, Site)],
    reset: NetId,
    net: NetId,
)
    requires { AllPairs (λ first second. first ≢ second) (named lines.now) }
    ensures { area.new ≡ fold included area.old
        (map (λ cell. site_of nat_eq lines.now cell.0) (filter (λ cell. reads_net reset net cell.1) (enumerate_from 0 cells.now))) }
{
    for (number, cell) in cells.iter().enumerate() {
        if !reads_net(cell, reset, net) {
            continue;
        }
        area.include(cell_site(lines, number));
    }
}

/// Makes a box so large that it has the output ports that show a net.
fn add_outputs(
    area: &mut BoundingBox,
    outputs: &[(Name, NetId)],
    lines: &[(Name, Site)],
    net: NetId,
)
    requires { AllPairs (λ first second. first ≢ second) (named lines.now) }
    ensures { area.new ≡ fold included area.old
        (map (λ output. site_of bytes_eq lines.now output.0) (filter (λ output. same_net net output.1) outputs.now)) }
{
    for (place, output) in outputs.iter().enumerate() {
        if !is_net(net, output.1) {
            continue;
        }
        area.include(port_site(lines, place, &output.0));
    }
}

/// Whether a cell reads a net: at an input or, where it has a latch, as the one that resets.
fn reads_net(cell: &Cell, reset: NetId, net: NetId) -> bool
    ensures { result ≡ reads_net reset net cell.now }
{
    has_net(&cell.inputs, net) || (cell.latch.is_some() && is_net(net, reset))
}

/// Whether a net is among some.
fn has_net(nets: &[NetId], net: NetId) -> bool
    ensures { result ≡ list_any (same_net net) nets.now }
{
    for other in nets {
        if is_net(net, *other) {
            return true;
        }
    }
    false
}

/// Whether two nets are the same.
fn is_net(first: NetId, second: NetId) -> bool
    ensures { result ≡ same_net first second }
{
    match (first, second) {
        (NetId::Zero, NetId::Zero) | (NetId::One, NetId::One) => true,
        (NetId::In(first), NetId::In(second)) => first == second,
        (NetId::Cell(first), NetId::Cell(second)) => first == second,
        _ => false,
    }
}

/// The site of a cell, whose line may stand at the place of its number.
fn cell_site(lines: &[(u32, Site)], number: usize) -> Site
    requires { AllPairs (λ first second. first ≢ second) (named lines.now) }
    ensures { result ≡ site_of nat_eq lines.now number }
{
    if number < lines.len() && lines[number].0 as usize == number {
        return lines[number].1;
    }
    numbered_site(lines, number)
}

/// The site in the first line of a cell.
fn numbered_site(lines: &[(u32, Site)], number: usize) -> Site
    ensures { result ≡ site_of nat_eq lines.now number }
{
    for line in lines {
        if line.0 as usize == number {
            return line.1;
        }
    }
    Site { x: 0, y: 0, bel: 0 }
}

/// The site of a port, whose line may stand at this place.
fn port_site(lines: &[(Name, Site)], place: usize, port: &Name) -> Site
    requires { AllPairs (λ first second. first ≢ second) (named lines.now) }
    ensures { result ≡ site_of bytes_eq lines.now port.now }
{
    if place < lines.len() && lines[place].0.bytes() == port.bytes() {
        return lines[place].1;
    }
    named_site(lines, port)
}

/// The site in the first line of a port.
fn named_site(lines: &[(Name, Site)], port: &Name) -> Site
    ensures { result ≡ site_of bytes_eq lines.now port.now }
{
    for line in lines {
        if line.0.bytes() == port.bytes() {
            return line.1;
        }
    }
    Site { x: 0, y: 0, bel: 0 }
}
