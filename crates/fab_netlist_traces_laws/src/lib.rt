//! What is simulated of the text of a fabric that is loaded with a legal implementation is what the netlist says, with and without an order, and nothing of
//! it is unknown. Each function does nothing: its contract is a law.
#![tactic(auto)]

ghost use Rattle.fab_netlist_traces_laws.specs.OrderedLaws.{LegalDesignsSimulateInOrder};
ghost use Rattle.fab_netlist_traces_laws.specs.SimulatedLaws.{LegalDesignsSimulate, LegalDesignsSimulateOnce};

use fab_meaning::laws::{loaded_points_stay, points_of_sound_texts_have_one_driver};
use fab_netlist::one_run;
pub use fab_runs_laws::{
    configuration_goes, design_is_declared, design_is_listed, design_settles_by_sources,
    loaded_is_known, ranked_design_settles_once, registers_tick, sources_are_known,
};
pub use fab_simulation_laws::loading_is_known;
use fab_simulation_laws::{simulations_agree, simulations_exist};
use fab_solutions_laws::drivers_grow;
use fab_text_loads_laws::fabric_texts_load;

/// A simulation of a legal implementation shows a run of its netlist.
pub fn legal_designs_simulate()
    ensures { LegalDesignsSimulate }
{
    fabric_texts_load();
    configuration_goes();
    design_is_declared();
    design_is_listed();
    design_settles_by_sources();
    registers_tick();
    loaded_is_known();
    ranked_design_settles_once();
    one_run();
    points_of_sound_texts_have_one_driver();
    sources_are_known();
    loading_is_known();
}

/// A legal implementation has exactly one simulation.
pub fn legal_designs_simulate_once()
    ensures { LegalDesignsSimulateOnce }
{
    simulations_exist();
    simulations_agree();
    design_is_declared();
}

/// An ordered simulation of a legal implementation shows a run of its netlist, each cycle settles, and then all points of the design stand at the
/// values of the least solution, which knows them.
pub fn legal_designs_simulate_in_order()
    ensures { LegalDesignsSimulateInOrder }
{
    fabric_texts_load();
    configuration_goes();
    design_is_declared();
    design_is_listed();
    design_settles_by_sources();
    registers_tick();
    loaded_is_known();
    ranked_design_settles_once();
    one_run();
    points_of_sound_texts_have_one_driver();
    sources_are_known();
    loading_is_known();
    loaded_points_stay();
    drivers_grow();
}
