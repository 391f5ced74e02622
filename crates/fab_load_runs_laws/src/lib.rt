//! Loading a sound text has a run, from whatever its flip-flops and latches hold. That there is one at most is a law of what texts mean.
#![tactic(auto)]

ghost use Rattle.fab_load_runs_laws.specs.Runs.{LedIsDecided, LedRunsExist, LoadingIsDecided, LoadsExist, RunsExist};

/// To which points the inputs with some names lead in a sound text can be told.
pub fn led_is_decided()
    ensures { LedIsDecided }
{}

/// Which points of a sound text are its loading points can be told.
pub fn loading_is_decided()
    ensures { LoadingIsDecided }
{}

/// From whatever flip-flops and latches hold there is a run over the points to which such inputs lead, if the user's clock is none of them.
pub fn led_runs_exist()
    ensures { LedRunsExist }
{}

/// From whatever flip-flops and latches hold there is a run over the loading points through any moments, and any words can be loaded.
pub fn loading_runs_exist()
    ensures runs { RunsExist }
    ensures words { LoadsExist }
{}
