//! Where the nets of a placed design may begin.

ghost use Rattle.std.specs.Prelude.{◌≡◌, ◌∷◌, [], IfOk, length};
ghost use Rattle.fab_legal.specs.inner.Keeping.{AreSites};
ghost use Rattle.fab_legal.specs.Legal.{ArePlaced};
ghost use Rattle.fab_legal.specs.Sinks.{packed_net};
ghost use Rattle.fab_legal.specs.Steps.{pin_wire, HasPin};
ghost use Rattle.fab_legal.specs.WellMade.{IsWellMadePacked, IsNetId};
ghost use Rattle.fab_route.specs.Over.{IsOver};
ghost use Rattle.fab_route.specs.Plain.{node_of};
ghost use Rattle.fab_route.specs.inner.Wanted.{AreSources, AreRoots};

use crate::constants::constants;
use crate::lines::input_lines;
use crate::nodes::Nodes;
use fab_base::Memory;
use fab_fabric::{Fabric, Site};
use fab_implementation::Implementation;
use fab_legal::find_pin;
use fab_netlist::{NetId, Packed};
use std::alloc::Global;

// O of a pad, and O of a LUT4c.
const PAD_OUTPUT: u32 = 2;

const LUT_OUTPUT: u32 = 7;

/// Where nets begin.
#[derive(Drop)]
pub struct Sources {
    /// The nodes that are always 0.
    pub zeros: Vec<u32>,
    /// The nodes that are always 1.
    pub ones: Vec<u32>,
    /// For each input port the number of the line that names it.
    pub lines: Vec<u32>,
    /// The site of each cell.
    pub cells: Vec<Site>,
}

impl Sources {
    /// The sources of a placed design.
    pub fn new(
        alloc: Global,
        fabric: &Fabric,
        nodes: &Nodes,
        packed: &Packed,
        placed: &Implementation,
    ) -> Result<Sources, Memory>
        requires made { IsWellMadePacked packed.now }
        requires placed { ArePlaced fabric.now packed.now placed.now }
        requires nodes { IsOver fabric.now nodes.now }
        ensures { IfOk result (AreSources fabric.now packed.now placed.now nodes.now) }
    {
        let zeros = constants(alloc, fabric, nodes, false)?;
        let ones = constants(alloc, fabric, nodes, true)?;
        let lines = input_lines(alloc, fabric, packed, placed)?;
        let cells = cell_sites(alloc, fabric, packed, placed)?;
        Ok(Sources {
            zeros,
            ones,
            lines,
            cells,
        })
    }

    /// The nodes where a net may begin, in order.
    pub fn roots(
        &self,
        alloc: Global,
        fabric: &Fabric,
        nodes: &Nodes,
        packed: &Packed,
        placed: &Implementation,
        net: NetId,
    ) -> Result<Vec<u32>, Memory>
        requires made { IsWellMadePacked packed.now }
        requires placed { ArePlaced fabric.now packed.now placed.now }
        requires nodes { IsOver fabric.now nodes.now }
        requires sources { AreSources fabric.now packed.now placed.now nodes.now self.now }
        requires known { IsNetId packed.now net }
        ensures { IfOk result (λ roots. AreRoots fabric.now placed.now nodes.now (packed_net packed.now net) roots.items) }
    {
        fabric.is_well_made();
        match net {
            NetId::Zero => Ok(Vec::from_slice(alloc, &self.zeros)?),
            NetId::One => Ok(Vec::from_slice(alloc, &self.ones)?),
            NetId::In(number) => {
                let line = self.lines[number as usize];
                let pad = &placed.ins[line as usize];
                root_at(alloc, fabric, nodes, pad.1, PAD_OUTPUT)
            }
            NetId::Cell(number) => root_at(
                alloc,
                fabric,
                nodes,
                self.cells[number as usize],
                LUT_OUTPUT,
            ),
        }
    }
}

// The node of a pin alone.
fn root_at(
    alloc: Global,
    fabric: &Fabric,
    nodes: &Nodes,
    site: Site,
    pin: u32,
) -> Result<Vec<u32>, Memory>
    requires nodes { IsOver fabric.now nodes.now }
    requires pin { HasPin fabric.now site pin }
    ensures { IfOk result (λ roots. roots.items ≡ node_of nodes.now (pin_wire fabric.now site pin) ∷ []) }
{
    let wire = find_pin(alloc, fabric, site, pin)?;
    let mut roots = Vec::new(alloc);
    roots.push(nodes.node(wire))?;
    Ok(roots)
}

// The site of each cell by its number.
fn cell_sites(
    alloc: Global,
    _fabric: &Fabric,
    packed: &Packed,
    placed: &Implementation,
) -> Result<Vec<Site>, Memory>
    requires { ArePlaced _fabric.now packed.now placed.now }
    ensures { IfOk result (λ sites. AreSites placed.now.cells (length packed.now.cells) sites.items) }
{
    let none = Site { x: 0, y: 0, bel: 0 };
    let mut sites = vec![in alloc; none; packed.cells.len()]?;
    for line in &placed.cells {
        sites[line.0 as usize] = line.1;
    }
    Ok(sites)
}
