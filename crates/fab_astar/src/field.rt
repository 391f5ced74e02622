//! What a search asks of a graph.
ghost use Rattle.std.specs.Prelude.{◌≡◌, ℕ, ◌<◌};
ghost use Rattle.fab_astar.specs.Walks.{Graph};

/// A graph in which walks are sought, and bounds on what is left to pay.
pub trait Field {
    /// The graph, as the definitions see it.
    ghost graph: { Self → Graph };

    /// No more than what is left to pay from a node to where a bound aims, at a price of 1 for each node.
    ghost rest: { Self → ℕ → ℕ → ℕ };

    /// The nodes to which a node leads, in order.
    fn ends(&self, node: u32) -> &[u32]
        requires { node < (graph self.now).nodes }
        ensures { result.now ≡ (graph self.now).ends node };

    /// A bound on what is left to pay from a node on. The number tells where it aims.
    fn rest(&self, aim: u32, node: u32) -> u32
        requires { node < (graph self.now).nodes }
        ensures { result ≡ rest self.now aim node };

    /// How long a signal takes for a step to a node, in units of time. Of walks that pay the same, a search prefers those that arrive
    /// first, as far as it looks; nothing that is promised of it depends on this.
    fn delay(&self, node: u32) -> u32
        requires { node < (graph self.now).nodes };

    /// How long a signal takes from a node to where a bound aims, at the least, as a guess.
    fn ahead(&self, aim: u32, node: u32) -> u32
        requires { node < (graph self.now).nodes };
}
