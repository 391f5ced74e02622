//! Columns that a design does not use get other configuration bits while it runs. Each function does nothing: its contract is a law.
#![tactic(auto)]

ghost use Rattle.fab_exchange_laws.specs.Exchanges.{
  ArrivedDesignsRun,
  UnusedBitsMayChange,
  UnusedColumnsExchange,
};

use fab_loading_laws::ticks_keep_machines;
use fab_netlist::one_run;
use fab_runs_laws::{
    configuration_goes, design_is_declared, design_is_listed, design_settles_by_shown_sources,
    design_settles_by_sources, fabric_texts_load, loaded_is_known, ranked_design_settles_once,
    registers_tick, shown_design_settles_once, shown_is_known,
};

/// Configuration bits of a legal implementation stay such bits, whatever stands in columns that it does not use.
pub fn unused_bits_may_change()
    ensures { UnusedBitsMayChange }
{}

/// While the words of columns come that a legal implementation does not use, its pads show what its netlist says, in every instant. So they do
/// where the words are broken off, and these may begin again. Behind the last word the columns have the new bits, and nothing else has changed.
pub fn unused_columns_exchange()
    ensures { UnusedColumnsExchange }
{
    fabric_texts_load();
    configuration_goes();
    design_is_declared();
    design_is_listed();
    design_settles_by_sources();
    registers_tick();
    loaded_is_known();
    ranked_design_settles_once();
    one_run();
    design_settles_by_shown_sources();
    shown_is_known();
    shown_design_settles_once();
    ticks_keep_machines();
}

/// A second design that stands in these columns alone runs from what their words leave, beside the first.
pub fn arrived_designs_run()
    ensures { ArrivedDesignsRun }
{
    fabric_texts_load();
    configuration_goes();
    design_is_declared();
    design_is_listed();
    design_settles_by_sources();
    registers_tick();
    loaded_is_known();
    ranked_design_settles_once();
    one_run();
}
