//! The laws of agreement: what is loaded and given decides what a simulation shows, and with an order its seed besides. So files have one trace. Each
//! function does nothing: its contract is a law.
#![tactic(auto)]

ghost use Rattle.fab_traces_agree_laws.specs.Laws.{OrderedSimulationsAgree, ShownIsOne, TracesAreOne};

use fab_load_runs_laws::loading_is_decided;
use fab_meaning::laws::{
    loading_points_stay, loading_runs_agree, points_of_sound_texts_have_one_driver,
};
use fab_simulation_laws::simulations_agree;
use fab_solutions_laws::least_solutions;

/// Two ordered simulations over the same words show the same.
pub fn ordered_simulations_agree()
    ensures { OrderedSimulationsAgree }
{
    loading_is_decided();
    loading_points_stay();
    loading_runs_agree();
    points_of_sound_texts_have_one_driver();
    least_solutions();
}

/// Without an order, and with one of the same seed, a simulation shows one thing.
pub fn simulations_show_one_thing()
    ensures { ShownIsOne }
{
    loading_is_decided();
    loading_points_stay();
    loading_runs_agree();
    points_of_sound_texts_have_one_driver();
    least_solutions();
    simulations_agree();
}

/// What `simulate` makes of files is one trace, without an order and with one of each seed.
pub fn traces_are_one()
    ensures { TracesAreOne }
{
    loading_is_decided();
    loading_points_stay();
    loading_runs_agree();
    points_of_sound_texts_have_one_driver();
    least_solutions();
    simulations_agree();
}
