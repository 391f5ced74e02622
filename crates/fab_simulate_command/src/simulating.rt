//! The command `simulate`: what a text shows where a bitstream is loaded, as a trace.

ghost use Rattle.std.specs.Prelude.{◌≡◌, ◌<◌, ◌≤◌, All, Err, List, map, IfOk, IfErr, OnOk};
ghost use Rattle.std.specs.Option.{ForSome};
ghost use Rattle.std.specs.Str.{IsUtf8};
ghost use Rattle.fab_files.specs.Files.{HasReadCause};
ghost use Rattle.fab_files.specs.Stages.{ReadsFrom};
ghost use Rattle.fab_outputs.specs.Storing.{IsDone, Leaves, plain_output};
ghost use Rattle.fab_grammar_defs.specs.Grammar.{SpellsText};
ghost use Rattle.fab_sim.specs.Machine.{IsNew};
ghost use Rattle.fab_simulate_command.specs.inner.Going.{AreFull, CanStart, IsStimulated};
ghost use Rattle.fab_simulate_command.specs.Simulating.{HasSimulateCause, IsTrace, MakesTrace, MeetsBehindDevice, MeetsSimulation, MeetsStimulus, ReadsStimulus, simulation_files};
ghost use Rattle.fab_state.specs.Spelled.{AreApart, ports};
ghost use Rattle.fab_syntax.specs.Plain.{PlainModule, plain_text};

use crate::device::{read_text, read_words};
use crate::running::trace_text;
use crate::standing::read_standing;
use fab_base::{Fault, Name};
use fab_desk::Desk;
use fab_equations::{Equations, elaborate};
use fab_files::fetch;
use fab_outputs::{Output, one_output, store_all};
use fab_progress::{Progress, Step};
use fab_sim::Machine;
use fab_state::State;
use fab_stimulus::{Stimulus, read_stimulus};
use fab_syntax::Text;
use std::alloc::Global;

/// The stimulus of a file that has to be there.
fn read_lines<D: Desk>(
    alloc: Global,
    desk: &mut D,
    file: &Name,
    state: &State,
) -> Result<Stimulus, Fault>
    requires { AreApart (ports state.now) }
    ensures told { D.told desk.new ≡ D.told desk.old }
    ensures writes { D.writes desk.new ≡ D.writes desk.old }
    ensures reads { D.reads desk.old ≤ D.reads desk.new }
    ensures spelled { ForSome (D.told desk.old) (λ files. IfOk result (ReadsStimulus files file.now state.now)) }
    ensures full { IfOk result (AreFull state.now) }
    ensures cause { IfErr result (HasReadCause (D.told desk.old) (D.reads desk.old < D.reads desk.new) (λ files. MeetsStimulus files file.now state.now)) }
{
    let bytes = fetch(alloc, desk, file)?;
    read_stimulus(alloc, file, &bytes, state)
}

/// Lets a machine go, and gives the fault that ended the command.
fn refused(_machine: Machine, fault: Fault) -> Result<Vec<u8>, Fault>
    ensures { result ≡ Err fault }
{
    Err(fault)
}

/// The trace of a state, to whose machine no word has been loaded, with the stimulus of a file.
fn stimulated<D: Desk, P: Progress>(
    alloc: Global,
    desk: &mut D,
    progress: &mut P,
    state: &State,
    machine: Machine,
    words: &[u32],
    stimulus: &Name,
    order: Option<u64>,
) -> Result<Vec<u8>, Fault>
    requires apart { AreApart (ports state.now) }
    requires can_start { CanStart state.now machine }
    ensures told { D.told desk.new ≡ D.told desk.old }
    ensures writes { D.writes desk.new ≡ D.writes desk.old }
    ensures reads { D.reads desk.old ≤ D.reads desk.new }
    ensures traced { (text : List PlainModule) → IsNew text state.now machine →
        ForSome (D.told desk.old) (λ files. IfOk result (λ bytes. IsStimulated files stimulus.now text state.now order words.now bytes.items)) }
    ensures cause { IfErr result (HasReadCause (D.told desk.old) (D.reads desk.old < D.reads desk.new) (λ files. MeetsStimulus files stimulus.now state.now)) }
{
    progress.tell(Step::Reading(stimulus));
    match read_lines(alloc, desk, stimulus, state) {
        Ok(read) => Ok(trace_text(alloc, progress, machine, state, words, &read.lines, order)?),
        Err(fault) => refused(machine, fault),
    }
}

/// The trace of a text, from the files that come behind it.
fn trace_of<D: Desk, P: Progress>(
    alloc: Global,
    desk: &mut D,
    progress: &mut P,
    equations: &Equations,
    bit: &Name,
    state: &Name,
    stimulus: &Name,
    order: Option<u64>,
) -> Result<Vec<u8>, Fault>
    ensures told { D.told desk.new ≡ D.told desk.old }
    ensures writes { D.writes desk.new ≡ D.writes desk.old }
    ensures reads { D.reads desk.old ≤ D.reads desk.new }
    ensures trace { ForSome (D.told desk.old) (λ files. IfOk result (λ bytes. IsTrace files bit.now state.now stimulus.now (plain_text equations.now) order bytes.items)) }
    ensures cause { IfErr result (HasReadCause (D.told desk.old) (D.reads desk.old < D.reads desk.new)
        (λ files. MeetsBehindDevice files bit.now state.now stimulus.now (plain_text equations.now))) }
{
    progress.tell(Step::Reading(bit));
    let words = read_words(alloc, desk, bit)?;
    progress.tell(Step::Reading(state));
    let (standing, machine) = read_standing(alloc, desk, state, equations)?;
    stimulated(
        alloc, desk, progress, &standing, machine, &words, stimulus, order,
    )
}

/// What is stored of a text that a file spells.
fn outputs_of<D: Desk, P: Progress>(
    alloc: Global,
    desk: &mut D,
    progress: &mut P,
    text: &Text,
    verilog: &Name,
    bit: &Name,
    state: &Name,
    stimulus: &Name,
    order: Option<u64>,
    trace: &Name,
) -> Result<Vec<Output>, Fault>
    ensures told { D.told desk.new ≡ D.told desk.old }
    ensures writes { D.writes desk.new ≡ D.writes desk.old }
    ensures reads { D.reads desk.old ≤ D.reads desk.new }
    ensures made { ForSome (D.told desk.old) (λ files. ReadsFrom files verilog.now (SpellsText 300 128) (plain_text text.now) →
        IfOk result (λ outputs. MakesTrace files (simulation_files verilog.now bit.now state.now stimulus.now trace.now) order (map plain_output outputs.items))) }
    ensures names { IsUtf8 trace.now → IfOk result (λ outputs. All (λ output. IsUtf8 output.name) outputs.items) }
    ensures cause { IfErr result (HasReadCause (D.told desk.old) (D.reads desk.old < D.reads desk.new) (λ files event. ReadsFrom files verilog.now (SpellsText 300 128) (plain_text text.now) →
        MeetsSimulation files (simulation_files verilog.now bit.now state.now stimulus.now trace.now) event)) }
{
    let equations = elaborate(alloc, verilog, text)?;
    let bytes = trace_of(
        alloc, desk, progress, &equations, bit, state, stimulus, order,
    )?;
    Ok(one_output(alloc, trace, bytes)?)
}

/// Reads a Verilog text, a bitstream, a state with the ports at their pads, and a stimulus, and stores the trace of the output
/// ports: what they show in each cycle where the words are loaded from zeros and the flip-flops hold what the state says. With an
/// order, points begin with values that its seed draws, and are activated one by one as it draws them.
///
/// The faults of each file come before the next one is asked for; `Missing`, `TooLong` and `ReadFault` name it. The text is refused as `read` and
/// `elaborate` do, and the words as `to_words`; whose words they are is not looked at. The state is refused as `read_state` does, and then with `no port`
/// or `no register` at the first line whose port or flip-flop the text does not have; a text without `CLK`, `UserCLK`, `WriteStrobe` or a `WriteData`
/// of one bit or of 32 is refused with `no port` at the first line that holds a word. The stimulus is refused as `read_stimulus` does. `WriteFault`
/// names the trace. With any fault the files that the desk tells are as before.
pub fn do_simulate<D: Desk, P: Progress>(
    alloc: Global,
    desk: &mut D,
    progress: &mut P,
    verilog: &Name,
    bit: &Name,
    state: &Name,
    stimulus: &Name,
    order: Option<u64>,
    trace: &Name,
) -> Result<(), Fault>
    requires { IsUtf8 trace.now }
    ensures done { OnOk result (IsDone (λ files. MakesTrace files (simulation_files verilog.now bit.now state.now stimulus.now trace.now) order) (D.told desk.old) (D.told desk.new)) }
    ensures leaves { IfErr result (Leaves (λ files. MakesTrace files (simulation_files verilog.now bit.now state.now stimulus.now trace.now) order) (D.told desk.old) (D.told desk.new)) }
    ensures cause { IfErr result (HasSimulateCause (D.told desk.old) (simulation_files verilog.now bit.now state.now stimulus.now trace.now)
        (D.reads desk.old < D.reads desk.new) (D.writes desk.old < D.writes desk.new)) }
{
    progress.tell(Step::Reading(verilog));
    let text = read_text(alloc, desk, verilog)?;
    let outputs = outputs_of(
        alloc, desk, progress, &text, verilog, bit, state, stimulus, order, trace,
    )?;
    store_all(alloc, desk, progress, &outputs)
}
