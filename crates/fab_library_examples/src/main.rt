//! The libraries on small inputs: fabrics, designs, placing and routing, and the Verilog side. Each case stands in a file beside the program,
//! and what is made of it is printed. One program runs them all, since each program of the gate is linked with all that stands below it.
#![tactic(auto)]

use fab_design_examples::put_design_examples;
use fab_desk::{FileDesk, OutSink};
use fab_examples::Stop;
use fab_fabric_examples::put_fabric_examples;
use fab_route_examples::put_route_examples;
use fab_verilog_examples::put_verilog_examples;

fn main(rt: HostRuntime) -> Result<(), Stop> {
    let alloc = rt.alloc();
    let mut desk = FileDesk::new(&rt);
    let mut out = OutSink::new(&rt);
    put_fabric_examples(alloc, &mut desk, &mut out)?;
    put_design_examples(alloc, &mut desk, &mut out)?;
    put_route_examples(alloc, &mut desk, &mut out)?;
    put_verilog_examples(alloc, &mut desk, &mut out)
}
