//! The points of a design in the text of its fabric: what each of them shows, told from the fabric and the implementation alone, and that
//! they have one settled assignment. Each function does nothing: its contract is a law.
#![tactic(auto)]

ghost use Rattle.fab_points_laws.specs.Example.{SmallDesignSettlesOnce};
ghost use Rattle.fab_points_laws.specs.Laws.{
  ConfigurationGoes,
  DesignIsCovered,
  DesignIsDeclared,
  DesignIsListed,
  DesignSettlesByShownSources,
  DesignSettlesBySources,
  LoadedIsKnown,
  RankedDesignSettlesOnce,
  RegistersTick,
  ShownDesignSettlesOnce,
  ShownIsKnown,
  SourcesAgree,
  SourcesAreKnown,
  SourcesAreOfDesign,
  SourcesShow,
};

use fab_load_runs_laws::loading_is_decided;
use fab_meaning::laws::points_of_sound_texts_have_one_driver;
pub use fab_use_defs::fabric_texts_load;

/// Over known configuration bits a driver of each point with a source gives it what the source shows, whatever else is known.
pub fn sources_show()
    ensures { SourcesShow }
{}

/// Where loading points are settled over a configuration and known, the configuration bits are known where they are used.
pub fn loaded_is_known()
    ensures { LoadedIsKnown }
{}

/// Where loading points are settled and known, and the latches show configuration bits, these are known where they are used.
pub fn shown_is_known()
    ensures { ShownIsKnown }
{}

/// A configuration goes with what the loading points hold.
pub fn configuration_goes()
    ensures { ConfigurationGoes }
{}

/// Each named point of a design is a loading point, or has a source that reads route, cell and pad points alone.
pub fn design_is_covered()
    ensures { DesignIsCovered }
{}

/// Each point with a source is a route, cell or pad point, so sources tell exactly the named points beside the configuration.
pub fn sources_are_of_design()
    ensures { SourcesAreOfDesign }
{}

/// Each design point is declared.
pub fn design_is_declared()
    ensures { DesignIsDeclared }
{}

/// The route, cell and pad points stand on one list, each with a source.
pub fn design_is_listed()
    ensures { DesignIsListed }
{}

/// The design points are settled exactly where the loading points are and each named point has the value of its source.
pub fn design_settles_by_sources()
    ensures { DesignSettlesBySources }
{
    points_of_sound_texts_have_one_driver();
}

/// The same where the latches show configuration bits, whatever the loader does.
pub fn design_settles_by_shown_sources()
    ensures { DesignSettlesByShownSources }
{
    points_of_sound_texts_have_one_driver();
}

/// Where what a source reads is known, so is what it shows.
pub fn sources_are_known()
    ensures { SourcesAreKnown }
{}

/// All sources of one point have one value.
pub fn sources_agree()
    ensures { SourcesAgree }
{
    points_of_sound_texts_have_one_driver();
}

/// What the flip-flops of cells with latches are left with at ticks.
pub fn registers_tick()
    ensures { RegistersTick }
{}

/// A design whose points are ranked by what their sources read has exactly one settled assignment, whatever the other points have.
pub fn ranked_design_settles_once()
    ensures { RankedDesignSettlesOnce }
{
    points_of_sound_texts_have_one_driver();
    loading_is_decided();
    fabric_texts_load();
}

/// The same where the latches show configuration bits, whatever the loader does.
pub fn shown_design_settles_once()
    ensures { ShownDesignSettlesOnce }
{
    points_of_sound_texts_have_one_driver();
    loading_is_decided();
    fabric_texts_load();
}

/// A cell without inputs on the LUT of a small fabric keeps all that the laws ask for: its design has exactly one settled assignment.
pub fn small_design_settles_once()
    ensures { SmallDesignSettlesOnce }
{
    ranked_design_settles_once();
}
