//! The commands, from the words to the status.

ghost use Rattle.std.specs.Prelude.{◌≡◌, ◌<◌, ◌≤◌, ◌⊎◌, codes, map, string_bytes, IfErr, OnOk};
ghost use Rattle.fab_base.specs.declared.fault.Fault.TheVariants as faults;
ghost use Rattle.fab_words.specs.Words.{job_of};
ghost use Rattle.fab_commands.specs.Running.{DoesJob, IsAnswered, IsReported, JobHasCause, JobLeaves, Puts, PutsSummary, SampleStands};
ghost use Rattle.fab_commands.specs.Running.{StandsBefore, WriteFailed};

use fab_base::{Fault, Memory, Name, Status};
use fab_desk::{Desk, Sink, SinkFault};
use fab_progress::Progress;
use fab_sampling::{
    do_assemble, do_bits, do_features, do_flow, do_generate, do_map, do_matrix, do_partial,
    do_serial, do_simulate, do_timing, summary,
};
use fab_words::{Job, parse};
use std::alloc::Global;

/// Puts the summary of a sample. The name for the fault of a sink that fails is made first, so that there is memory for it.
fn sum_up<P: Progress, S: Sink>(
    alloc: Global,
    progress: &mut P,
    size: usize,
    seed: u64,
    out: &mut S,
) -> Result<(), Fault>
    requires least { 2 ≤ size }
    requires most { size ≤ 16 }
    ensures put { OnOk result (PutsSummary size seed (S.so_far out.old) (S.so_far out.new)) }
    ensures stands { IfErr result (λ fault. SampleStands size seed fault (S.so_far out.old) (S.so_far out.new)) }
    ensures cause { IfErr result (λ fault. (fault ≡ faults.Memory) ⊎ ((S.faults out.old < S.faults out.new) × (fault ≡ faults.WriteFault (codes "-")))) }
    ensures faults { S.faults out.old ≤ S.faults out.new }
{
    let name = Name::of(alloc, b"-")?;
    let text = summary(alloc, progress, size, seed)?;
    match out.put(&text) {
        Ok(()) => Ok(()),
        Err(SinkFault::Failed) => Err(Fault::WriteFault(name)),
        Err(SinkFault::Memory) => Err(Fault::Memory),
    }
}

/// Does what the words ask for.
fn perform<D: Desk, P: Progress, S: Sink>(
    alloc: Global,
    words: &[String],
    desk: &mut D,
    progress: &mut P,
    out: &mut S,
) -> Result<(), Fault>
    ensures done { OnOk result (DoesJob (job_of (map string_bytes words.now)) (D.told desk.old) (D.told desk.new)) }
    ensures puts { OnOk result (Puts (job_of (map string_bytes words.now)) (S.so_far out.old) (S.so_far out.new)) }
    ensures leaves { IfErr result (JobLeaves (job_of (map string_bytes words.now)) (D.told desk.old) (D.told desk.new)) }
    ensures stands { IfErr result (λ fault. StandsBefore (job_of (map string_bytes words.now)) fault (S.so_far out.old) (S.so_far out.new)) }
    ensures cause { IfErr result (JobHasCause (job_of (map string_bytes words.now)) (D.told desk.old) (D.reads desk.old < D.reads desk.new)
        (WriteFailed (job_of (map string_bytes words.now)) (D.writes desk.old < D.writes desk.new) (S.faults out.old < S.faults out.new))) }
    ensures faults { S.faults out.old ≤ S.faults out.new }
{
    match parse(alloc, words)? {
        Job::Matrix(list, out) => do_matrix(alloc, desk, progress, &list, &out),
        Job::Generate(fabric, out) => do_generate(alloc, desk, progress, &fabric, &out),
        Job::Assemble(fabric, blif, pcf, implementation, base) => do_assemble(
            alloc,
            desk,
            progress,
            &fabric,
            &blif,
            pcf.as_ref(),
            &implementation,
            &base,
        ),
        Job::Map(fabric, blif, pcf, seed, rounds, out) => do_map(
            alloc,
            desk,
            progress,
            &fabric,
            &blif,
            pcf.as_ref(),
            seed,
            rounds,
            &out,
        ),
        Job::Flow(fabric, blif, pcf, seed, rounds, reset, base) => do_flow(
            alloc,
            desk,
            progress,
            &fabric,
            &blif,
            pcf.as_ref(),
            seed,
            rounds,
            reset.as_ref(),
            &base,
        ),
        Job::Bits(fabric, fasm, out) => do_bits(alloc, desk, progress, &fabric, &fasm, &out),
        Job::Features(fabric, bit, out) => do_features(alloc, desk, progress, &fabric, &bit, &out),
        Job::Simulate(verilog, bit, state, stimulus, order, trace) => do_simulate(
            alloc, desk, progress, &verilog, &bit, &state, &stimulus, order, &trace,
        ),
        Job::Partial(fabric, implementation, fasm, first, last, out) => do_partial(
            alloc,
            desk,
            progress,
            &fabric,
            &implementation,
            &fasm,
            first,
            last,
            &out,
        ),
        Job::Timing(fabric, blif, pcf, implementation, out) => do_timing(
            alloc,
            desk,
            progress,
            &fabric,
            &blif,
            pcf.as_ref(),
            &implementation,
            &out,
        ),
        Job::Serial(fabric, out) => do_serial(alloc, desk, progress, &fabric, &out),
        Job::Sample(size, seed) => sum_up(alloc, progress, size, seed, out),
    }
}

/// Puts the report of a fault, and gives the status with which the command ends.
fn report<S: Sink>(alloc: Global, fault: &Fault, out: &mut S) -> Status
    ensures reported { IsReported fault.now result (S.so_far out.old) (S.so_far out.new) (S.faults out.old < S.faults out.new) }
    ensures faults { S.faults out.old ≤ S.faults out.new }
{
    if matches!(fault, Fault::Memory) {
        return Status(13);
    }
    match fault.text(alloc) {
        Err(Memory) => Status(13),
        Ok(text) => match out.put(text.bytes()) {
            Err(SinkFault::Memory) => Status(13),
            _ => fault.status(),
        },
    }
}

/// Runs the command that the words, without the program's name, spell. Where it is `sample`, its summary is put to `out`, and no
/// file is read or stored.
///
/// The status is 0, or the number of the fault, whose report is put to `out`: 1 for words that spell no command, 2 and
/// 3 for a file of the words, or one that such a file names, that is absent or longer than `MAX_FILE_BYTES`, 4 to 6 for
/// the first row that is refused, 6 for a generated text that is too long, 7 for a design for which the fabric has too
/// few sites, 8 and 9 for one that is not routed, 10 for a reset port that is no data input and for an implementation that
/// breaks a rule, 11 and 12 for a device that fails, and 13 for want of memory, which may come at any time. Where `out`
/// fails at a summary, a front of it stands before the report.
pub fn run<D: Desk, P: Progress, S: Sink>(
    alloc: Global,
    words: &[String],
    desk: &mut D,
    progress: &mut P,
    out: &mut S,
) -> Status
    ensures { IsAnswered (record {
      job = job_of (map string_bytes words.now);
      told = D.told desk.old;
      told_after = D.told desk.new;
      reads = D.reads desk.old;
      reads_after = D.reads desk.new;
      writes = D.writes desk.old;
      writes_after = D.writes desk.new;
      put = S.so_far out.old;
      put_after = S.so_far out.new;
      failed = S.faults out.old;
      failed_after = S.faults out.new;
    }) result }
{
    match perform(alloc, words, desk, progress, out) {
        Ok(()) => Status(0),
        Err(fault) => report(alloc, &fault, out),
    }
}
