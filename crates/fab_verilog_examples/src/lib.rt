//! The Verilog side of fab on small inputs: texts that are read, judged and given equations, texts that are generated, the loader at
//! work, and the parts that they are made of. Each input stands in a file, and what is made of it is printed.
#![tactic(auto)]

mod bits;
mod cases;
mod edits;
mod equations;
mod fabrics;
mod faults;
mod judging;
mod kinds;
mod lists;
mod loading;
mod matrices;
mod modules;
mod pieces;
mod primitives;
mod reading;

use bits::put_numbers;
use equations::put_equations;
use fab_desk::{Desk, Sink};
use fab_examples::Stop;
use fabrics::put_fabrics;
use faults::put_faults;
use judging::put_verdicts;
use kinds::put_kinds;
use lists::put_lists;
use loading::put_loading;
use matrices::put_matrices;
use pieces::put_pieces;
use primitives::put_primitives;
use reading::put_readings;
use std::alloc::Global;

/// Puts what is made of each case of the Verilog side on small inputs, in the order of their files.
///
/// `Stop` comes where a file of the cases is not there or not as it should be, and where nothing can be put.
pub fn put_verilog_examples<D: Desk, S: Sink>(
    alloc: Global,
    desk: &mut D,
    out: &mut S,
) -> Result<(), Stop> {
    put_readings(alloc, desk, out)?;
    put_pieces(alloc, desk, out)?;
    put_fabrics(alloc, desk, out)?;
    put_loading(alloc, desk, out)?;
    put_faults(alloc, desk, out)?;
    put_numbers(alloc, desk, out)?;
    put_kinds(alloc, desk, out)?;
    put_primitives(alloc, out)?;
    put_matrices(alloc, desk, out)?;
    put_lists(alloc, desk, out)?;
    put_verdicts(alloc, desk, out)?;
    put_equations(alloc, desk, out)
}
