//! The stepper: a loaded machine that runs in order.

ghost use Rattle.std.specs.Prelude.{◌≡◌, ◌↔◌, ◌<◌, ℕ, Bool, List, length, map, IfOk, IsTrue};
ghost use Rattle.fab_draws.specs.Draws.{draws_of, word_at};
ghost use Rattle.fab_syntax.specs.Plain.{PlainModule};
ghost use Rattle.fab_ternary_laws.specs.Shown.{Terns};
ghost use Rattle.fab_ordering_laws.specs.fab_simulation_laws_Simulation.{IsLoaded};
ghost use Rattle.fab_sim.specs.Machine.{IsFresh};
ghost use Rattle.fab_sim.specs.inner.Unset.{CanBeSet, IsUnset};
ghost use Rattle.fab_ternary.specs.Terns.{is_known, is_one};
ghost use Rattle.fab_network.specs.Passes.{kept_tern};
ghost use Rattle.fab_phases.specs.Running.{AreNumbers};
ghost use Rattle.fab_meaning.specs.Points.{Point};
ghost use Rattle.fab_equations.specs.Instances.{points};
ghost use Rattle.fab_equations.specs.Equations.{IsPoint};
ghost use Rattle.fab_state.specs.Plain.{PlainState};
ghost use Rattle.fab_ordering_laws.specs.Ordered.{ChangesKnown, IsBegun, IsEnd, IsOrderedBlock, IsStart, Moment};
ghost use Rattle.fab_sim.specs.Stepper.{CanStart, CanStep, CanTell, Stands};

use crate::machine::Machine;
use crate::stepping::{Unset, room_of, unset_of};
use fab_base::Memory;
use fab_draws::shuffle_order;
use fab_load_runs_laws::{loading_is_decided, loading_runs_exist};
use fab_meaning::laws::points_of_sound_texts_have_one_driver;
use fab_network::Network;
use fab_ordering_laws::loading_is_known;
use fab_phases::feed;
use fab_readers::Readers;
use fab_solutions_laws::least_solutions;
use fab_state_points::StatePoints;
use fab_stepping::{Board, draw_values, take_over};
use fab_ternary::Tern;
use rand_pcg::Lcg64Xsh32;
use std::alloc::Global;

/// A text whose points are activated one by one, in an order that a seed draws, from values that it draws too. All memory is taken when it is made.
#[derive(Drop)]
pub struct Stepper {
    pub(crate) network: Network,
    /// Where the lines of the state stand.
    pub(crate) points: StatePoints,
    /// What points have and what is held.
    pub(crate) board: Board,
    /// What is known in the cycle: the least ternary solution.
    pub(crate) solution: Vec<Tern>,
    /// The readers of the points.
    pub(crate) readers: Readers,
    /// The order in which points were activated last.
    pub(crate) order: Vec<u32>,
    /// Which inputs take a drawn value in each cycle.
    pub(crate) free: Vec<bool>,
    pub(crate) random: Lcg64Xsh32,
}

impl Stepper {
    /// The stepper of a machine to which words were loaded and which has run no cycle. Where memory is refused the machine is given up.
    pub fn new(alloc: Global, machine: Machine, seed: u64) -> Result<Stepper, Memory>
        requires { CanStart machine }
        ensures { (text : List PlainModule) (state : PlainState) (words : List (List Bool)) (loaded : Terns) → IsLoaded text words loaded →
            IsFresh text state loaded machine →
            IfOk result (λ stepper. (moment : Moment) × IsStart text state (draws_of seed) words moment × Stands text state (draws_of seed) stepper moment) }
    {
        let room = room_of(alloc, &machine)?;
        let Unset {
            mut stepper,
            loads,
            values,
        } = unset_of(machine, room, seed);
        stepper.start(&loads, &values);
        Ok(stepper)
    }

    // Draws the values of all points but the loading points, which settle on what is held.
    fn start(&mut self, loads: &[bool], values: &[bool])
        requires { CanBeSet self.old loads.now values.now }
        ensures { (text : List PlainModule) (state : PlainState) (words : List (List Bool)) (loaded : Terns) → IsLoaded text words loaded →
            IsUnset text state loaded loads.now values.now self.old →
            (moment : Moment) × IsStart text state (word_at self.old.random) words moment × Stands text state (word_at self.old.random) self.new moment }
    {
        points_of_sound_texts_have_one_driver();
        least_solutions();
        loading_is_decided();
        loading_runs_exist();
        loading_is_known();
        draw_values(&mut self.random, loads, false, &mut self.board.terns);
        take_over(loads, false, &self.board.terns, &mut self.board.held);
        feed(&self.points.ffs, values, &mut self.board.held);
        self.board
            .solve(&self.network, &mut self.readers, &mut self.solution);
        take_over(loads, true, &self.solution, &mut self.board.terns);
    }

    /// How many points the text has.
    pub fn points(&self) -> u32
        requires { CanTell self.now }
        ensures { (text : List PlainModule) (state : PlainState) (draws : ℕ → ℕ) (moment : Moment) → Stands text state draws self.now moment → result ≡ length (points text) }
    {
        self.order.len() as u32
    }

    /// The order in which points were activated last, by their numbers.
    pub fn order(&self) -> &[u32]
        ensures { (text : List PlainModule) (state : PlainState) (draws : ℕ → ℕ) (moment : Moment) → Stands text state draws self.now moment → result.now ≡ moment.order }
    {
        &self.order
    }

    /// What a point has.
    pub fn value(&self, point: u32) -> bool
        requires { (text : List PlainModule) × (state : PlainState) × (draws : ℕ → ℕ) × (moment : Moment) × Stands text state draws self.now moment × (point < length (points text)) }
        ensures { (text : List PlainModule) (state : PlainState) (draws : ℕ → ℕ) (moment : Moment) → Stands text state draws self.now moment →
            (p : Point) → IsPoint text point p → result ≡ moment.standing.now p }
    {
        self.board.terns[point as usize].is_yes()
    }

    /// Whether a point is known in the present cycle.
    pub fn known(&self, point: u32) -> bool
        requires { (text : List PlainModule) × (state : PlainState) × (draws : ℕ → ℕ) × (moment : Moment) × Stands text state draws self.now moment × (point < length (points text)) }
        ensures { (text : List PlainModule) (state : PlainState) (draws : ℕ → ℕ) (moment : Moment) → Stands text state draws self.now moment →
            (p : Point) → IsPoint text point p → result ≡ is_known (moment.solution p) }
    {
        !self.solution[point as usize].is_open()
    }

    /// Begins a cycle: input ports have these values, in the order of the state, and all other inputs drawn ones.
    pub fn begin(&mut self, inputs: &[bool])
        requires { (outputs : ℕ) × CanStep self.old (length inputs.now) outputs }
        ensures { (text : List PlainModule) (state : PlainState) (draws : ℕ → ℕ) (before : Moment) → Stands text state draws self.old before →
            length state.ins ≡ length inputs.now →
            (after : Moment) × IsBegun text state draws inputs.now before after × Stands text state draws self.new after }
    {
        points_of_sound_texts_have_one_driver();
        least_solutions();
        feed(&self.points.ins, inputs, &mut self.board.terns);
        draw_values(&mut self.random, &self.free, true, &mut self.board.terns);
        self.board
            .solve(&self.network, &mut self.readers, &mut self.solution);
    }

    /// Shuffles the order, activates each point once, and tells whether one has changed that is known in the cycle.
    pub fn block(&mut self) -> bool
        requires { CanTell self.old }
        ensures { (text : List PlainModule) (state : PlainState) (draws : ℕ → ℕ) (before : Moment) → Stands text state draws self.old before →
            (after : Moment) × IsOrderedBlock text draws before after × Stands text state draws self.new after × (IsTrue result ↔ ChangesKnown text before after) }
    {
        points_of_sound_texts_have_one_driver();
        shuffle_order(&mut self.random, &mut self.order);
        self.board
            .activate_all(&self.network, &self.order, &self.solution)
    }

    /// Ends a cycle: tells what output ports show, in the order of the state. Then `UserCLK` ticks.
    pub fn end(&mut self, outputs: &mut [bool])
        requires { (inputs : ℕ) × CanStep self.old inputs (length outputs.old) }
        ensures { (text : List PlainModule) (state : PlainState) (draws : ℕ → ℕ) (before : Moment) → Stands text state draws self.old before →
            length state.outs ≡ length outputs.old →
            (after : Moment) × IsEnd text state outputs.new before after × Stands text state draws self.new after }
    {
        points_of_sound_texts_have_one_driver();
        show(&self.points.outs, &self.board.terns, outputs);
        self.board.tick(&self.network);
    }
}

// What points have.
fn show(outs: &[u32], terns: &[Tern], outputs: &mut [bool])
    requires outs { AreNumbers (length terns.now) outs.now }
    requires outputs { length outputs.old ≡ length outs.now }
    ensures { outputs.new ≡ map (λ point. is_one (kept_tern terns.now point)) outs.now }
{
    for (place, point) in outs.iter().enumerate() {
        outputs[place] = terns[*point as usize].is_yes();
    }
}
