//! What a legal implementation does where each of its points shows its source, and that a text which is loaded with it runs its netlist. Each
//! function does nothing: its contract is a law.
#![tactic(auto)]

ghost use Rattle.fab_points_laws.specs.fab_use_defs_Headline.{LegalDesignsRun};
ghost use Rattle.fab_runs_laws.specs.Carrying.{SourcesCarry};
ghost use Rattle.fab_runs_laws.specs.Feeding.{FedDesignsRun};
ghost use Rattle.fab_runs_laws.specs.Ranking.{DesignHasOrder, DesignRanks, RulesRank};

use fab_netlist::one_run;
pub use fab_points_laws::{
    configuration_goes, design_is_declared, design_is_listed, design_settles_by_shown_sources,
    design_settles_by_sources, fabric_texts_load, loaded_is_known, ranked_design_settles_once,
    registers_tick, shown_design_settles_once, shown_is_known, sources_are_known,
};

/// Where each design point has the value of its source, bound pads show the nets of the netlist, and flip-flops take what its latches take.
pub fn sources_carry()
    ensures { SourcesCarry }
{}

/// Points with sources have rules in an order: each reads only points that come before it.
pub fn design_has_order()
    ensures { DesignHasOrder }
{}

/// Rules in an order rank the points of a set.
pub fn rules_rank()
    ensures { RulesRank }
{}

/// Points with sources have ranks, each above those of the points that a source of it reads.
pub fn design_ranks()
    ensures { DesignRanks }
{}

/// In each text of a fabric, the bitstream of configuration bits that are those of a legal implementation runs its netlist.
pub fn legal_designs_run()
    ensures { LegalDesignsRun }
{
    fabric_texts_load();
    configuration_goes();
    design_is_declared();
    design_is_listed();
    design_settles_by_sources();
    registers_tick();
    loaded_is_known();
    ranked_design_settles_once();
    one_run();
}

/// Where a design runs from a start, there is a run with whatever is fed in cycles.
pub fn fed_designs_run()
    ensures { FedDesignsRun }
{}
