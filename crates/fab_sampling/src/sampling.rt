//! The summary of a sample.

ghost use Rattle.std.specs.Prelude.{◌≡◌, ◌≤◌, IfOk};
ghost use Rattle.fab_sampling.specs.inner.Running.{IsNew};
ghost use Rattle.fab_sampling.specs.Sampling.{IsSummary};

use crate::printing::print;
use crate::run::Run;
use fab_base::Memory;
use fab_progress::Progress;
use std::alloc::Global;
use std::mem;

/// The summary of a sample that is read.
fn summary_of<P: Progress>(
    alloc: Global,
    progress: &mut P,
    run: &mut Run,
) -> Result<Vec<u8>, Memory>
    requires { IsNew run.old }
    ensures { IfOk result (λ text. IsSummary run.old.size run.old.seed text.items) }
{
    let outcome = run.outcome(alloc, progress)?;
    print(alloc, run.size, run.seed, &run.design, &outcome)
}

/// Makes the files of a sample in memory, maps its design with the seed, simulates what `flow` stores, and sums it up: a line for
/// the sample, its fabric and its netlist, the status of `flow`, and then what the placement costs with how many edges the nets have,
/// and that the trace is that of the netlist; or, where the status is 8 or 9, the report.
///
/// No command on the way refuses anything of a sample: its files are read, the text of its fabric is small (`fab_sample_laws`), and
/// what `flow` stores is read by `simulate` (`fab_sample_runs_laws`). So memory alone may be wanted.
pub fn summary<P: Progress>(
    alloc: Global,
    progress: &mut P,
    size: usize,
    seed: u64,
) -> Result<Vec<u8>, Memory>
    requires least { 2 ≤ size }
    requires most { size ≤ 16 }
    ensures { IfOk result (λ text. IsSummary size seed text.items) }
{
    let mut run = Run::new(alloc, size, seed)?;
    let found = summary_of(alloc, progress, &mut run);
    mem::drop(run);
    found
}
