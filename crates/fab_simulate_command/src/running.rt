//! What a machine shows, word by word and cycle by cycle.

ghost use Rattle.std.specs.Prelude.{◌≡◌, IfOk, List, length, map};
ghost use Rattle.fab_bits.specs.Bits.{digits};
ghost use Rattle.fab_sim.specs.Machine.{CanCycle, IsAt, IsNew};
ghost use Rattle.fab_sim.specs.fab_simulation_laws_Simulation.{IsCycle, Simulates};
ghost use Rattle.fab_state.specs.Plain.{PlainState};
ghost use Rattle.fab_syntax.specs.Plain.{PlainModule};
ghost use Rattle.fab_systems_laws.specs.Ternary.{Tern as PlainTern};
ghost use Rattle.fab_ternary_laws.specs.Shown.{Terns};
ghost use Rattle.fab_ternary.specs.Terns.{plain_tern};
ghost use Rattle.fab_simulate_command.specs.inner.Going.{CanGoThrough, CanRun, GoesThrough};
ghost use Rattle.fab_simulate_command.specs.Simulating.{Shows, Traces};

use crate::ordered::simulated_in_order;
use crate::telling::tell_cycle;
use fab_base::Memory;
use fab_progress::{Progress, Step};
use fab_sim::{Machine, simulations_exist};
use fab_state::State;
use fab_stimulus::print_trace;
use fab_ternary::Tern;
use std::alloc::Global;
use std::mem;

/// What so many output ports show in a cycle with these values at the input ports.
fn shown(
    alloc: Global,
    machine: &mut Machine,
    values: &[bool],
    ports: usize,
) -> Result<Vec<Tern>, Memory>
    requires { CanCycle machine.old (length values.now) ports }
    ensures { (text : List PlainModule) (state : PlainState) (held next : Terns) (shown : List PlainTern) → IsAt text state machine.old held →
        IsCycle text state held values.now shown next → IfOk result (λ outputs. (map plain_tern outputs.items ≡ shown) × IsAt text state machine.new next) }
{
    let mut outputs = vec![in alloc; Tern::Open; ports]?;
    machine.cycle(values, &mut outputs);
    Ok(outputs)
}

/// What they show in each cycle, where the values of each line stand at the input ports.
fn cycles<P: Progress>(
    alloc: Global,
    progress: &mut P,
    machine: &mut Machine,
    lines: &[Vec<bool>],
    ports: usize,
) -> Result<Vec<Vec<Tern>>, Memory>
    requires { CanGoThrough machine.old (map (λ line. line.items) lines.now) ports }
    ensures { (text : List PlainModule) (state : PlainState) (shown : List (List PlainTern)) → GoesThrough text state machine.old (map (λ line. line.items) lines.now) shown →
        IfOk result (λ traced. map (λ line. map plain_tern line.items) traced.items ≡ shown) }
{
    let mut traced = Vec::new(alloc);
    for line in lines {
        let outputs = shown(alloc, machine, line, ports)?;
        traced.push(outputs)?;
        tell_cycle(progress, traced.len(), lines.len());
    }
    Ok(traced)
}

/// Loads words, and gives what the output ports of a state show in each cycle.
fn simulated<P: Progress>(
    alloc: Global,
    progress: &mut P,
    mut machine: Machine,
    state: &State,
    words: &[u32],
    lines: &[Vec<bool>],
) -> Result<Vec<Vec<Tern>>, Memory>
    requires { CanRun state.now machine (map (λ line. line.items) lines.now) }
    ensures { (text : List PlainModule) → IsNew text state.now machine →
        IfOk result (λ traced. Simulates text state.now (map (digits 32) words.now) (map (λ line. line.items) lines.now)
        (map (λ line. map plain_tern line.items) traced.items)) }
{
    simulations_exist();
    progress.tell(Step::Loading);
    machine.load(words);
    let traced = cycles(alloc, progress, &mut machine, lines, state.outs.len());
    mem::drop(machine);
    traced
}

/// What the output ports of a state show in each cycle, with an order or without one.
fn shown_cycles<P: Progress>(
    alloc: Global,
    progress: &mut P,
    machine: Machine,
    state: &State,
    words: &[u32],
    lines: &[Vec<bool>],
    order: Option<u64>,
) -> Result<Vec<Vec<Tern>>, Memory>
    requires { CanRun state.now machine (map (λ line. line.items) lines.now) }
    ensures { (text : List PlainModule) → IsNew text state.now machine →
        IfOk result (λ traced. Shows text state.now order (map (digits 32) words.now) (map (λ line. line.items) lines.now)
        (map (λ line. map plain_tern line.items) traced.items)) }
{
    match order {
        None => simulated(alloc, progress, machine, state, words, lines),
        Some(seed) => simulated_in_order(alloc, progress, machine, state, words, lines, seed),
    }
}

/// The printed trace of the output ports of a state.
pub fn trace_text<P: Progress>(
    alloc: Global,
    progress: &mut P,
    machine: Machine,
    state: &State,
    words: &[u32],
    lines: &[Vec<bool>],
    order: Option<u64>,
) -> Result<Vec<u8>, Memory>
    requires { CanRun state.now machine (map (λ line. line.items) lines.now) }
    ensures { (text : List PlainModule) → IsNew text state.now machine →
        IfOk result (λ bytes. Traces text state.now order words.now (map (λ line. line.items) lines.now) bytes.items) }
{
    let traced = shown_cycles(alloc, progress, machine, state, words, lines, order)?;
    print_trace(alloc, state, &traced)
}
