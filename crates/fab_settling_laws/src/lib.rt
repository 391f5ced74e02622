//! A text that is loaded with a legal implementation settles under every interleaving: where its points are activated one by one, in any order,
//! and the rest of the text does what it likes, it runs its netlist. There is always a next step, both clocks may tick at once, and pads that are left
//! alone are released. Each function does nothing: its contract is the law.
#![tactic(auto)]

ghost use Rattle.fab_settling_laws.specs.Going.{LegalDesignsGoOn};
ghost use Rattle.fab_settling_laws.specs.Released.{FirstZeroReleases};
ghost use Rattle.fab_settling_laws.specs.Settling.{LegalDesignsSettle};
ghost use Rattle.fab_settling_laws.specs.Together.{LegalDesignsTakeBoth};

use fab_netlist::one_run;
pub use fab_runs_laws::legal_designs_run;
use fab_runs_laws::{
    configuration_goes, design_is_declared, design_is_listed, design_settles_by_sources,
    fabric_texts_load, loaded_is_known, ranked_design_settles_once, registers_tick,
};

/// In each text of a fabric that is loaded with the bitstream of a legal implementation, as many blocks of activations as there are design points
/// give each of them the value of the headline, and cycle by cycle the pads show what the netlist says.
pub fn legal_designs_settle()
    ensures { LegalDesignsSettle }
{
    fabric_texts_load();
    configuration_goes();
    design_is_declared();
    design_is_listed();
    design_settles_by_sources();
    registers_tick();
    loaded_is_known();
    ranked_design_settles_once();
    one_run();
}

/// In such a text each event of use leads to a next state, behind loading there is a state at rest, and whatever values are fed, and in whatever order
/// points are activated, there are cycles of blocks.
pub fn legal_designs_go_on()
    ensures { LegalDesignsGoOn }
{
    fabric_texts_load();
    configuration_goes();
    design_is_declared();
    design_is_listed();
    design_settles_by_sources();
    registers_tick();
    loaded_is_known();
    ranked_design_settles_once();
    one_run();
}

/// In such a text `CLK` and `UserCLK` may tick at once: while words come the loading points take `CLK` alone, and in use the design points `UserCLK` alone.
pub fn legal_designs_take_both()
    ensures { LegalDesignsTakeBoth }
{
    fabric_texts_load();
    configuration_goes();
    design_is_declared();
    design_is_listed();
    design_settles_by_sources();
    registers_tick();
    loaded_is_known();
    ranked_design_settles_once();
    one_run();
}

/// In such a text a pad is released for which the bits select the first input of `T`, where the tables list a constant 0 there.
pub fn first_zero_releases()
    ensures { FirstZeroReleases }
{
    fabric_texts_load();
    configuration_goes();
    design_is_declared();
    design_is_listed();
    design_settles_by_sources();
    registers_tick();
    loaded_is_known();
    ranked_design_settles_once();
    one_run();
}
