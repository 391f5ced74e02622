//! The nodes whose wires are constant.

ghost use Rattle.std.specs.Prelude.{◌<◌, ◌↔◌, ℕ, IsTrue, IfOk, Contains};
ghost use Rattle.fab_fabric.specs.Fabric.{wire_count};
ghost use Rattle.fab_fabric.specs.Wires.{numbered_wire};
ghost use Rattle.fab_legal.specs.Steps.{IsConstant, bit_drive};
ghost use Rattle.fab_route.specs.Over.{IsOver};
ghost use Rattle.fab_route.specs.Plain.{graph_of, numbering_of};

use crate::nodes::Nodes;
use fab_base::Memory;
use fab_fabric::{Fabric, Wire};
use fab_legal::constant_at;
use std::alloc::Global;

/// The nodes whose wires have a constant value, in order.
pub(crate) fn constants(
    alloc: Global,
    fabric: &Fabric,
    nodes: &Nodes,
    value: bool,
) -> Result<Vec<u32>, Memory>
    requires { IsOver fabric.now nodes.now }
    ensures { IfOk result (λ found. (node : ℕ) → Contains found.items node ↔
        ((node < (graph_of nodes.now).nodes) × IsConstant fabric.now (bit_drive value) (numbered_wire ((numbering_of nodes.now).wire node)))) }
{
    let mut found = Vec::new(alloc);
    for node in 0..nodes.count() {
        if is_constant(fabric, nodes.wire(node), value) {
            found.push(node)?;
        }
    }
    Ok(found)
}

// Whether a wire has a constant value.
fn is_constant(fabric: &Fabric, wire: Wire, value: bool) -> bool
    requires { wire.0 < wire_count fabric.now }
    ensures { IsTrue result ↔ IsConstant fabric.now (bit_drive value) wire }
{
    match constant_at(fabric, wire) {
        Some(found) => found == value,
        None => false,
    }
}
