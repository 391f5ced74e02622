//! What a text shows whose points are activated one by one, block by block and cycle by cycle.

ghost use Rattle.std.specs.Prelude.{◌≡◌, ◌+◌, ℕ, Bool, IfOk, List, length, map};
ghost use Rattle.fab_bits.specs.Bits.{digits};
ghost use Rattle.fab_equations.specs.Instances.{points};
ghost use Rattle.fab_sim.specs.fab_ordering_laws_Ordered.{AreOrderedBlocks, Moment};
ghost use Rattle.fab_sim.specs.Machine.{IsNew};
ghost use Rattle.fab_sim.specs.Stepper.{CanStep, CanTell, Stands};
ghost use Rattle.fab_state.specs.Plain.{PlainState};
ghost use Rattle.fab_syntax.specs.Plain.{PlainModule};
ghost use Rattle.fab_systems_laws.specs.Ternary.{known};
ghost use Rattle.fab_ternary.specs.Terns.{plain_tern};
ghost use Rattle.fab_simulate_command.specs.inner.Going.{AreFull, CanGoInOrder, CanRun, HasCycled, HasGoneInOrder};
ghost use Rattle.fab_simulate_command.specs.Simulating.{ShowsInOrder};

use crate::telling::tell_cycle;
use fab_base::Memory;
use fab_progress::{Progress, Step};
use fab_sim::{Machine, Stepper, simulations_exist};
use fab_state::State;
use fab_ternary::Tern;
use std::alloc::Global;
use std::mem;

/// Bits as ternary values, all of them known.
fn known_terns(alloc: Global, bits: &[bool]) -> Result<Vec<Tern>, Memory>
    ensures { IfOk result (λ terns. map plain_tern terns.items ≡ map known bits.now) }
{
    let mut terns = Vec::new(alloc);
    for bit in bits {
        terns.push(Tern::known(*bit))?;
    }
    Ok(terns)
}

/// Makes blocks until one changes no point that is known in the cycle, or until there is one more of them than points.
fn settle(stepper: &mut Stepper)
    requires { CanTell stepper.old }
    ensures { (text : List PlainModule) (state : PlainState) (draws : ℕ → ℕ) (before : Moment) → Stands text state draws stepper.old before →
        (after : Moment) × AreOrderedBlocks text draws (1 + length (points text)) before after × Stands text state draws stepper.new after }
{
    let most = u64::from(stepper.points()) + 1;
    for _block in 0..most {
        if !stepper.block() {
            return;
        }
    }
}

/// What so many output ports show in a cycle with these values at the input ports.
fn shown_in_order(
    alloc: Global,
    stepper: &mut Stepper,
    values: &[bool],
    ports: usize,
) -> Result<Vec<Tern>, Memory>
    requires { CanStep stepper.old (length values.now) ports }
    ensures { (text : List PlainModule) (state : PlainState) (draws : ℕ → ℕ) (before : Moment) → Stands text state draws stepper.old before →
        length state.ins ≡ length values.now → length state.outs ≡ ports →
        IfOk result (λ outputs. HasCycled text state draws values.now (map plain_tern outputs.items) before stepper.new) }
{
    let mut outputs = vec![in alloc; false; ports]?;
    stepper.begin(values);
    settle(stepper);
    stepper.end(&mut outputs);
    known_terns(alloc, &outputs)
}

/// What they show in each cycle, where the values of each line stand at the input ports.
fn cycles_in_order<P: Progress>(
    alloc: Global,
    progress: &mut P,
    stepper: &mut Stepper,
    lines: &[Vec<bool>],
    ports: usize,
) -> Result<Vec<Vec<Tern>>, Memory>
    requires { CanGoInOrder stepper.old (map (λ line. line.items) lines.now) ports }
    ensures { (text : List PlainModule) (state : PlainState) (draws : ℕ → ℕ) (start : Moment) → Stands text state draws stepper.old start →
        AreFull state (map (λ line. line.items) lines.now) → length state.outs ≡ ports →
        IfOk result (λ traced. HasGoneInOrder text state draws start (map (λ line. line.items) lines.now) (map (λ line. map plain_tern line.items) traced.items)) }
{
    let mut traced = Vec::new(alloc);
    for line in lines {
        let outputs = shown_in_order(alloc, stepper, line, ports)?;
        traced.push(outputs)?;
        tell_cycle(progress, traced.len(), lines.len());
    }
    Ok(traced)
}

/// Loads words, and gives what the output ports of a state show in each cycle where a seed draws the order of the points.
pub fn simulated_in_order<P: Progress>(
    alloc: Global,
    progress: &mut P,
    mut machine: Machine,
    state: &State,
    words: &[u32],
    lines: &[Vec<bool>],
    seed: u64,
) -> Result<Vec<Vec<Tern>>, Memory>
    requires { CanRun state.now machine (map (λ line. line.items) lines.now) }
    ensures { (text : List PlainModule) → IsNew text state.now machine →
        IfOk result (λ traced. ShowsInOrder text state.now seed (map (digits 32) words.now) (map (λ line. line.items) lines.now)
        (map (λ line. map plain_tern line.items) traced.items)) }
{
    simulations_exist();
    progress.tell(Step::Loading);
    machine.load(words);
    let mut stepper = Stepper::new(alloc, machine, seed)?;
    let traced = cycles_in_order(alloc, progress, &mut stepper, lines, state.outs.len());
    mem::drop(stepper);
    traced
}
