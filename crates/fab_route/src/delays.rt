//! How long signals take for the steps between nodes, in the units of timing texts.

use crate::nodes::Nodes;
use fab_base::Memory;
use fab_fabric::{Fabric, Wire};
use fab_graph::distance;
use std::alloc::Global;

/// What a step takes beside its way: 4 for a pair, and 1 for a join.
pub(crate) const STEP: u32 = 5;

/// What a join takes for each tile that it goes on.
pub(crate) const TILE: u32 = 2;

/// For each node how long a step to it takes, by the pair and the join before it. Nothing is promised of it: it decides between walks of
/// one price.
pub(crate) fn delays_of(alloc: Global, fabric: &Fabric, nodes: &Nodes) -> Result<Vec<u32>, Memory> {
    let mut delays = Vec::with_capacity(alloc, nodes.count() as usize)?;
    for node in 0..nodes.count() {
        delays.push(step_to(fabric, nodes.wire(node), nodes.output(node)))?;
    }
    Ok(delays)
}

// How long a step to a wire takes, where this output is joined to it.
fn step_to(fabric: &Fabric, wire: Wire, output: Wire) -> u32 {
    if wire.0 >= fabric.wires() || output.0 >= fabric.wires() {
        return STEP;
    }
    STEP + TILE * distance(fabric, output, wire)
}
