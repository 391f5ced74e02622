//! The matrix inputs of a fabric as a graph in which walks are sought.

ghost use Rattle.std.specs.Prelude.{◌≡◌, ◌<◌, ℕ, IfOk, length};
ghost use Rattle.fab_route.specs.Over.{IsOver};
ghost use Rattle.fab_route.specs.Plain.{graph_of, numbering_of, node_of};

use crate::numbers::{number_inputs, outputs_before};
use crate::targets::targets;
use fab_astar::Field;
use fab_base::Memory;
use fab_fabric::{Fabric, Wire};
use std::alloc::Global;
use std::marker::Model;

/// The matrix inputs of a fabric, which are the nodes of walks, in the order of wires. Contracts see them as a graph, the
/// wire of each node with the output that is joined to it, and the node of each wire.
#[derive(Drop)]
pub struct Nodes {
    wires: Vec<u32>,
    outputs: Vec<u32>,
    nodes: Vec<u32>,
    starts: Vec<usize>,
    targets: Vec<u32>,
}

impl Model for Nodes {
    ghost use Rattle.fab_route.specs.Plain.{PlainNodes, AreReadable};

    ghost Value = { PlainNodes };

    ghost view = { λ n. record { wires = n.wires.items; outputs = n.outputs.items; nodes = n.nodes.items; starts = n.starts.items; targets = n.targets.items } };

    ghost invariant = { λ n. AreReadable (record { wires = n.wires.items; outputs = n.outputs.items; nodes = n.nodes.items; starts = n.starts.items; targets = n.targets.items }) };
}

impl Nodes {
    /// The nodes of a fabric, by a few passes over its wires.
    pub fn new(alloc: Global, fabric: &Fabric) -> Result<Nodes, Memory>
        ensures { IfOk result (IsOver fabric.now) }
    {
        fabric.is_well_made();
        let (wires, nodes) = number_inputs(alloc, fabric)?;
        let outputs = outputs_before(alloc, fabric, &wires)?;
        let (starts, targets) = targets(alloc, fabric, &wires, &nodes)?;
        Ok(Nodes {
            wires,
            outputs,
            nodes,
            starts,
            targets,
        })
    }

    /// How many they are.
    pub fn count(&self) -> u32
        ensures { result ≡ (graph_of self.now).nodes }
    {
        self.wires.len() as u32
    }

    /// The wire of a node.
    pub fn wire(&self, node: u32) -> Wire
        requires { node < (graph_of self.now).nodes }
        ensures { result.0 ≡ (numbering_of self.now).wire node }
    {
        Wire(self.wires[node as usize])
    }

    /// The output that is joined to the wire of a node, and any wire where none is.
    pub fn output(&self, node: u32) -> Wire
        requires { node < (graph_of self.now).nodes }
        ensures { result.0 ≡ (numbering_of self.now).output node }
    {
        Wire(self.outputs[node as usize])
    }

    /// The node of a wire that is a matrix input.
    pub fn node(&self, wire: Wire) -> u32
        requires { wire.0 < length self.now.nodes }
        ensures { result ≡ node_of self.now wire }
    {
        self.nodes[wire.0 as usize]
    }
}

impl Field for Nodes {
    ghost graph = { graph_of };

    ghost rest = { λ nodes aim node. 0 };

    fn ends(&self, node: u32) -> &[u32] {
        let first = self.starts[node as usize];
        let last = self.starts[node as usize + 1];
        &self.targets[first..last]
    }

    fn rest(&self, aim: u32, node: u32) -> u32 {
        let _none = (aim, node);
        0
    }

    fn delay(&self, node: u32) -> u32 {
        let _none = node;
        0
    }

    fn ahead(&self, aim: u32, node: u32) -> u32 {
        let _none = (aim, node);
        0
    }
}
