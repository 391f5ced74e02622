//! What nets have to reach.

/// A sink, by the nodes that stand before it, and where a bound on what is left to pay aims.
#[derive(Drop)]
pub struct Sink {
    pub goals: Vec<u32>,
    pub aim: u32,
}

/// The nodes from which a net may begin, and its sinks. Searches are shorter where the roots ascend.
#[derive(Drop)]
pub struct Net {
    pub roots: Vec<u32>,
    pub sinks: Vec<Sink>,
}

/// The first net with a sink that no walk from its roots comes to, and its first such sink.
#[derive(Clone, Copy, Debug, PartialEq, Eq)]
pub struct CutOff {
    pub net: usize,
    pub sink: usize,
}
