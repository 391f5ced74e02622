//! Laws of what has been asked for. Each function does nothing: its contract is the law, for the proofs of crates above.

ghost use Rattle.fab_demand.specs.Laws.{GivenIsKept, KeptAgain, SourcesStayAsked, ViewIsPossible};

/// A source that has been asked for stays so when more is asked for.
pub fn sources_stay_asked()
    ensures { SourcesStayAsked }
{}

/// What is given in the next cycle is kept again, where flip-flops of other clocks and latches hold what they held.
pub fn kept_again()
    ensures { KeptAgain }
{}

/// What was given when points were asked for may be given later.
pub fn given_is_kept()
    ensures { GivenIsKept }
{}

/// What is kept for points that stand for themselves denies nothing that is known.
pub fn view_is_possible()
    ensures { ViewIsPossible }
{}
