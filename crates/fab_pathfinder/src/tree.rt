//! Trees of nets, and rounds.
ghost use Rattle.std.specs.Prelude.{◌≡◌, length, sum};

/// The walks of a tree in the order of the sinks, each with its last node first.
#[derive(Drop)]
pub struct Tree {
    /// The nodes of all walks, one walk behind the other.
    pub nodes: Vec<u32>,
    /// How many nodes each walk has.
    pub lengths: Vec<usize>,
    ghost whole: { sum lengths.items ≡ length nodes.items },
}

/// The trees of all nets after a round.
#[derive(Drop)]
pub struct Round {
    pub trees: Vec<Tree>,
}
