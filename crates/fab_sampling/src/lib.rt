//! A sample that is made and run through the commands in memory: what there is to say of it.
#![tactic(auto)]

mod measuring;
mod outcome;
mod printing;
mod refusing;
mod run;
mod sampling;
mod shelf;
mod stocking;

pub use fab_sample_runs_laws::{
    do_assemble, do_bits, do_features, do_flow, do_generate, do_map, do_matrix, do_partial,
    do_serial, do_simulate, do_timing,
};
pub use sampling::summary;
