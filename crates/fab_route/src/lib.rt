//! The router: nets of a placed design as trees of wires, found by negotiated rounds over the matrix inputs of the fabric.
#![tactic(auto)]

mod aims;
mod bounds;
mod classes;
mod constants;
mod delays;
mod driven;
mod filled;
mod goals;
mod guide;
mod hops;
mod lines;
mod nets;
mod nodes;
mod numbers;
mod order;
mod router;
mod shared;
mod sinks;
mod sources;
mod targets;
mod tested;
mod trees;
mod walks;
mod window;

pub use goals::goals_of;
pub use nodes::Nodes;
pub use router::{RouteFault, Routed, route, route_with_progress, try_route};
pub use walks::put_walk;
