//! Nodes with bounds on what is left to pay, and with delays.

ghost use Rattle.std.specs.Prelude.{◌≡◌, ◌<◌, ℕ};
ghost use Rattle.fab_route.specs.Plain.{graph_of};

use crate::bounds::Bounds;
use crate::nodes::Nodes;
use fab_astar::Field;
use std::marker::Model;

/// Nodes with bounds and delays.
#[derive(Drop)]
pub struct Guide {
    pub nodes: Nodes,
    pub bounds: Bounds,
    /// How long a signal takes for a step to each node.
    pub delays: Vec<u32>,
}

impl Field for Guide {
    ghost use Rattle.fab_route.specs.inner.Guided.{left_from};

    ghost graph = { λ guide. graph_of guide.nodes };

    ghost rest = { λ guide aim node. left_from guide.bounds aim node };

    fn ends(&self, node: u32) -> &[u32] {
        self.nodes.ends(node)
    }

    fn rest(&self, aim: u32, node: u32) -> u32 {
        self.bounds.left(aim, node)
    }

    fn delay(&self, node: u32) -> u32 {
        self.delays.get(node as usize).copied().unwrap_or(0)
    }

    fn ahead(&self, aim: u32, node: u32) -> u32 {
        self.bounds.ahead(aim, node)
    }
}
