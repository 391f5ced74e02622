//! Commands, from their words to what they store and report. Each case has files on a desk in memory, the calls of it that fail, and
//! words; and the status, the report and the files that are to come of them, which were written by hand or computed by other programs.
//! A line is printed for each case.
#![tactic(auto)]

mod cases;
mod comparing;
mod derived;
mod running;

use fab_desk::{FileDesk, OutSink};
use fab_examples::Stop;
use running::run_cases;

fn main(rt: HostRuntime) -> Result<(), Stop> {
    let alloc = rt.alloc();
    let mut desk = FileDesk::new(&rt);
    let mut out = OutSink::new(&rt);
    for file in [
        "words.cases",
        "texts.cases",
        "assemble.cases",
        "timing.cases",
        "serial.cases",
        "flow.cases",
        "search.cases",
        "reset.cases",
        "wide.cases",
        "bits.cases",
        "partial.cases",
        "chain.cases",
        "faults.cases",
        "cuts.cases",
        "refused.cases",
        "simulate.cases",
        "sample.cases",
    ] {
        run_cases(alloc, &mut desk, &mut out, file)?;
    }
    Ok(())
}
