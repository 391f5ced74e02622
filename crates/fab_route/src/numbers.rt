//! The matrix inputs by number, in the order of wires, and the output before each.

ghost use Rattle.std.specs.Prelude.{◌≡◌, ◌<◌, ◌≤◌, ◌+◌, ◌^◌, ℕ, Bool, true, IsTrue, ◌↔◌, IfOk, OnOk, length, slice_index};
ghost use Rattle.fab_fabric.specs.Fabric.{wire_count, AreTiles};
ghost use Rattle.fab_fabric.specs.Wires.{numbered_wire};
ghost use Rattle.fab_fabric.specs.declared.wire.Wire.{Wire};
ghost use Rattle.fab_legal.specs.Steps.{IsJoined};
ghost use Rattle.fab_nodes_laws.specs.Nodes.{IsMatrixInput};
ghost use Rattle.fab_route.specs.inner.Numbers.{AreNumbered, AreBefore};

use crate::driven::{driven, is_input};
use fab_base::Memory;
use fab_fabric::{Fabric, Wire};
use std::alloc::Global;

/// The wire of each node, and for each wire the number of matrix inputs before it, which is the node of one that is such.
pub(crate) fn number_inputs(alloc: Global, fabric: &Fabric) -> Result<(Vec<u32>, Vec<u32>), Memory>
    ensures { IfOk result (λ found. AreNumbered fabric.now (wire_count fabric.now) found.0.items found.1.items) }
{
    let driven = driven(alloc, fabric)?;
    let mut wires = Vec::new(alloc);
    let mut nodes = Vec::new(alloc);
    for number in 0..fabric.wires() {
        nodes.push(wires.len() as u32)?;
        if is_input(fabric, &driven, Wire(number)) {
            wires.push(number)?;
        }
    }
    Ok((wires, nodes))
}

/// The output that is joined to the wire of each node, or 0.
pub(crate) fn outputs_before(
    alloc: Global,
    fabric: &Fabric,
    wires: &[u32],
) -> Result<Vec<u32>, Memory>
    requires { (node : ℕ) → node < length wires.now → slice_index wires.now node < wire_count fabric.now }
    ensures long { IfOk result (λ outputs. length outputs.items ≡ length wires.now) }
    ensures before { IfOk result (λ outputs. AreBefore fabric.now (length wires.now) wires.now outputs.items) }
{
    let mut outputs = Vec::with_capacity(alloc, wires.len())?;
    for wire in wires {
        outputs.push(output_before(fabric, Wire(*wire)))?;
    }
    Ok(outputs)
}

fn output_before(fabric: &Fabric, wire: Wire) -> u32
    requires { wire.0 < wire_count fabric.now }
    ensures { (output : Wire) → IsJoined fabric.now output wire → result ≡ output.0 }
{
    fabric.is_well_made();
    match fabric.join_from(wire) {
        Some(output) => output.0,
        None => 0,
    }
}
