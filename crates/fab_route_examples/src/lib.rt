//! Wires of small fabrics as graphs, and small designs that are placed and routed. What is to come of them stands in files beside the
//! program: it was computed by another program, which looks at all placements, and at all walks for each sink. A line is printed for
//! each comparison.
#![tactic(auto)]

mod answers;
mod cases;
mod graphs;
mod shown;
mod verdicts;

use cases::put_cases;
use fab_desk::{Desk, Sink};
use fab_examples::Stop;
use graphs::put_graph;
use std::alloc::Global;

/// Puts what is made of each case of small graphs and routed designs, in the order of their files.
///
/// `Stop` comes where a file of the cases is not there or not as it should be, and where nothing can be put.
pub fn put_route_examples<D: Desk, S: Sink>(
    alloc: Global,
    desk: &mut D,
    out: &mut S,
) -> Result<(), Stop> {
    for fabric in ["duo", "pair", "turn", "far", "six"] {
        put_graph(alloc, desk, out, fabric)?;
    }
    put_cases(alloc, desk, out, "routes.cases")
}
