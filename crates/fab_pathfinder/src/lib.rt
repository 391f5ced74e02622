//! Negotiated rounds over a graph of nodes: nets grow trees by walks of least price, at prices that rise where trees share nodes.
#![tactic(auto)]

mod counts;
mod grow;
mod hope;
mod net;
mod round;
mod rounds;
mod tree;

pub use net::{CutOff, Net, Sink};
pub use rounds::{Routed, run_rounds, try_rounds};
pub use tree::{Round, Tree};
