//! A state where it stands in a text.

ghost use Rattle.std.specs.Prelude.{◌≡◌, ◌<◌, ◌≤◌, ◌⊎◌, IfOk, IfErr, length};
ghost use Rattle.std.specs.Option.{ForSome};
ghost use Rattle.fab_base.specs.declared.TheConstants.{MAX_FILE_BYTES};
ghost use Rattle.fab_base.specs.declared.fault.Fault.TheVariants as faults;
ghost use Rattle.fab_files.specs.Files.{HasReadCause};
ghost use Rattle.fab_sim.specs.Machine.{IsNew};
ghost use Rattle.fab_sim.specs.Once.{StandsOnce};
ghost use Rattle.fab_state.specs.Spelled.{AreApart, Says, ports};
ghost use Rattle.fab_syntax.specs.Plain.{plain_text};
ghost use Rattle.fab_texts.specs.Rows.{rows_of};
ghost use Rattle.fab_simulate_command.specs.Simulating.{MeetsState, ReadsState, RefusesState, SpellsState, at_line};

use fab_base::{Fault, MAX_FILE_BYTES, Name, Place};
use fab_desk::Desk;
use fab_equations::Equations;
use fab_files::fetch;
use fab_sim::Machine;
use fab_state::{State, read_state};
use fab_texts::entry_line;
use std::alloc::Global;

/// The fault that tells the line of a file, where the given one counts the lines that hold a word.
fn at_line(bytes: &[u8], fault: Fault) -> Fault
    requires { length bytes.now ≤ MAX_FILE_BYTES }
    ensures { result ≡ at_line (rows_of bytes.now) fault }
{
    match fault {
        Fault::Malformed(place, reason) => {
            let Place { file, line } = place;
            let line = entry_line(bytes, line);
            Fault::Malformed(Place { file, line }, reason)
        }
        other => other,
    }
}

/// The machine of a state that a file's bytes spell.
fn machine_of(
    alloc: Global,
    file: &Name,
    bytes: &[u8],
    equations: &Equations,
    state: &State,
) -> Result<Machine, Fault>
    requires size { length bytes.now ≤ MAX_FILE_BYTES }
    requires once { StandsOnce state.now }
    requires says { Says (rows_of bytes.now) state.now }
    ensures made { IfOk result (IsNew (plain_text equations.now) state.now) }
    ensures refused { IfErr result (λ fault. (fault ≡ faults.Memory) ⊎ RefusesState (plain_text equations.now) file.now bytes.now fault) }
{
    match Machine::new(alloc, file, equations, state) {
        Ok(machine) => Ok(machine),
        Err(fault) => Err(at_line(bytes, fault)),
    }
}

/// The state that a file's bytes spell, and the machine of the text with it.
fn standing_of(
    alloc: Global,
    file: &Name,
    bytes: &[u8],
    equations: &Equations,
) -> Result<(State, Machine), Fault>
    requires { length bytes.now ≤ MAX_FILE_BYTES }
    ensures spelled { IfOk result (λ it. SpellsState (plain_text equations.now) bytes.now it.0) }
    ensures apart { IfOk result (λ it. AreApart (ports it.0)) }
    ensures made { IfOk result (λ it. IsNew (plain_text equations.now) it.0 it.1) }
    ensures refused { IfErr result (λ fault. (fault ≡ faults.Memory) ⊎ RefusesState (plain_text equations.now) file.now bytes.now fault) }
{
    let state = read_state(alloc, file, bytes)?;
    let machine = machine_of(alloc, file, bytes, equations, &state)?;
    Ok((state, machine))
}

/// The state of a file that has to be there, and the machine of the text with it.
pub fn read_standing<D: Desk>(
    alloc: Global,
    desk: &mut D,
    file: &Name,
    equations: &Equations,
) -> Result<(State, Machine), Fault>
    ensures told { D.told desk.new ≡ D.told desk.old }
    ensures writes { D.writes desk.new ≡ D.writes desk.old }
    ensures reads { D.reads desk.old ≤ D.reads desk.new }
    ensures spelled { ForSome (D.told desk.old) (λ files. IfOk result (λ it. ReadsState files file.now (plain_text equations.now) it.0)) }
    ensures apart { IfOk result (λ it. AreApart (ports it.0)) }
    ensures made { IfOk result (λ it. IsNew (plain_text equations.now) it.0 it.1) }
    ensures cause { IfErr result (HasReadCause (D.told desk.old) (D.reads desk.old < D.reads desk.new) (λ files. MeetsState files file.now (plain_text equations.now))) }
{
    let bytes = fetch(alloc, desk, file)?;
    standing_of(alloc, file, &bytes, equations)
}
