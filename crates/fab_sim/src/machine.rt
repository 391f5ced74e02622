//! The machine.

ghost use Rattle.std.specs.Prelude.{◌≡◌, List, length, map, IfOk, IfErr};
ghost use Rattle.fab_bits.specs.Bits.{digits};
ghost use Rattle.fab_systems_laws.specs.Ternary.{Tern as PlainTern};
ghost use Rattle.fab_syntax.specs.Plain.{PlainModule, plain_text};
ghost use Rattle.fab_ternary.specs.Terns.{plain_tern};
ghost use Rattle.fab_ternary_laws.specs.Shown.{Terns};
ghost use Rattle.fab_state.specs.Plain.{PlainState};
ghost use Rattle.fab_state_points.specs.Standing.{IsRefusedState};
ghost use Rattle.fab_ordering_laws.specs.fab_simulation_laws_Simulation.{IsCycle, IsLoaded, with_registers};
ghost use Rattle.fab_sim.specs.Once.{StandsOnce};

use crate::forming::{begin_cycle, begin_run, cycle_in_run};
use crate::making::{clock_of, machine_of, registers_of, values_of};
use crate::starting::{load_stream, set_out};
use fab_base::{Fault, Name};
use fab_demand::Demand;
use fab_equations::Equations;
use fab_load_points::loading_points;
use fab_meaning::laws::points_of_sound_texts_have_one_driver;
use fab_network::{Form, Network};
use fab_ordering_laws::loading_is_known;
use fab_phases::{Loading, ask_for_run};
use fab_solutions_laws::least_solutions;
use fab_state::State;
use fab_state_points::{StatePoints, state_points};
use fab_ternary::Tern;
use fab_wiring::laws::{numbered_exists, numbered_kept, numbered_solutions};
use fab_wiring::network_of;
use std::alloc::Global;

/// A text that is simulated with the ports and the flip-flops of a state. All memory is taken when it is made, but that of forms and of what helps in loops
/// of wide names: where there is none for them, it goes on without.
#[derive(Drop)]
pub struct Machine {
    pub(crate) network: Network,
    /// Where the lines of the state stand.
    pub(crate) points: StatePoints,
    /// What the flip-flops of the state hold at first.
    pub(crate) values: Vec<bool>,
    /// What loading sets.
    pub(crate) loading: Loading,
    /// What has to be looked at: first for loading, then for the outputs.
    pub(crate) demand: Demand,
    /// How cycles find the points that stand for themselves, behind the first ones. Where memory is refused for a form, its point is found by its drive.
    pub(crate) forms: Vec<Form>,
    /// How many cycles are yet to go without forms. `None` where forms have been found.
    pub(crate) plain_left: Option<u32>,
    /// By the number of the point: what is given to an input, and what a flip-flop or a latch holds.
    pub(crate) given: Vec<Tern>,
    /// By the number of the point: whether it is a loading point.
    pub(crate) loads: Vec<bool>,
    /// The point of `UserCLK`.
    pub(crate) clock: Option<u32>,
}

impl Machine {
    ghost use Rattle.fab_sim.specs.Machine.{CanCycle, CanLoad, IsAt, IsFresh, IsNew};

    /// The machine of a text and a state, to which no word has been loaded.
    ///
    /// It is `Malformed` with `no port` at line 1 where the top lacks an input `CLK`, `UserCLK` or `WriteStrobe` of one bit, or an input `WriteData` of one
    /// bit, declared without a range, or of 32. Otherwise the first line of the state is refused whose port or flip-flop the text does not have, with
    /// `no port` or `no register`. Lines are counted as the state is printed, where the first is the header; so they are the entries of `entry_line`.
    pub fn new(
        alloc: Global,
        file: &Name,
        equations: &Equations,
        state: &State,
    ) -> Result<Machine, Fault>
        requires { StandsOnce state.now }
        ensures made { IfOk result (IsNew (plain_text equations.now) state.now) }
        ensures refused { IfErr result (λ fault. IsRefusedState file.now (plain_text equations.now) state.now fault) }
    {
        equations.text_is_sound();
        let points = state_points(alloc, file, equations, state)?;
        let values = values_of(alloc, &state.ffs)?;
        let network = network_of(alloc, equations)?;
        let loads = loading_points(alloc, equations)?;
        let registers = registers_of(alloc, &network, &loads)?;
        let clock = clock_of(equations);
        let count = equations.points() as usize;
        let machine = machine_of(
            alloc, network, points, values, &registers, loads, clock, count,
        )?;
        Ok(machine)
    }

    /// Loads words from zeros, and then sets the flip-flops of the state.
    pub fn load(&mut self, words: &[u32])
        requires { CanLoad self.old }
        ensures runs { (text : List PlainModule) (state : PlainState) → IsNew text state self.old → (loaded : Terns) → IsLoaded text (map (digits 32) words.now) loaded →
            IsAt text state self.new (with_registers state.ffs loaded) }
        ensures fresh { (text : List PlainModule) (state : PlainState) → IsNew text state self.old → (loaded : Terns) → IsLoaded text (map (digits 32) words.now) loaded →
            IsFresh text state loaded self.new }
    {
        points_of_sound_texts_have_one_driver();
        least_solutions();
        numbered_exists();
        numbered_solutions();
        numbered_kept();
        loading_is_known();
        load_stream(
            &self.network,
            &self.loading,
            self.points.stream.carrier,
            words,
            &mut self.demand,
            &mut self.given,
        );
        set_out(&self.points, &self.values, &mut self.given);
        ask_for_run(
            &self.network,
            &self.points.outs,
            &self.given,
            &mut self.demand,
        );
        begin_run(&mut self.plain_left, &mut self.forms);
    }

    /// A cycle: what output ports show while input ports have these values, each in the order of the state. Then `UserCLK` ticks.
    pub fn cycle(&mut self, inputs: &[bool], outputs: &mut [Tern])
        requires { CanCycle self.old (length inputs.now) (length outputs.old) }
        ensures { (text : List PlainModule) (state : PlainState) (held next : Terns) (shown : List PlainTern) → IsAt text state self.old held →
            IsCycle text state held inputs.now shown next → (map plain_tern outputs.new ≡ shown) × IsAt text state self.new next }
    {
        numbered_exists();
        numbered_solutions();
        numbered_kept();
        begin_cycle(
            &self.network,
            &mut self.plain_left,
            &mut self.demand,
            &mut self.forms,
        );
        cycle_in_run(
            &self.network,
            &self.points.ins,
            &self.points.outs,
            inputs,
            &self.forms,
            &mut self.demand,
            &mut self.given,
            outputs,
        );
    }
}
