//! What a simulation of a Verilog text shows, that there is one, and that all show the same. Each function does nothing: its contract is a law.
#![tactic(auto)]

ghost use Rattle.fab_simulation_laws.specs.Laws.{CyclesGoOn, LoadingIsKept, LoadingIsKnown, SimulationsAgree, SimulationsExist};

use fab_load_runs_laws::{loading_is_decided, loading_runs_exist};
use fab_meaning::laws::{loading_runs_agree, points_of_sound_texts_have_one_driver};
use fab_solutions_laws::least_solutions;

/// A sound text with the two clocks can be simulated, whatever is loaded and given.
pub fn simulations_exist()
    ensures { SimulationsExist }
{
    loading_is_decided();
    loading_runs_exist();
    points_of_sound_texts_have_one_driver();
    least_solutions();
}

/// What is loaded and given decides what a simulation shows.
pub fn simulations_agree()
    ensures { SimulationsAgree }
{
    loading_is_decided();
    loading_runs_agree();
    points_of_sound_texts_have_one_driver();
    least_solutions();
}

/// Cycles can be put together one by one.
pub fn cycles_go_on()
    ensures { CyclesGoOn }
{}

/// While words are loaded, and whenever what is held at loading points is known, a solution knows them, and so they stay known at ticks.
pub fn loading_is_known()
    ensures known { LoadingIsKnown }
    ensures kept { LoadingIsKept }
{
    points_of_sound_texts_have_one_driver();
}
