//! What holds of a text in a chip. It may stand in a greater text as an instance of its top: what is settled of the greater text is settled of it, and
//! ticks are ticks. Two of its clocks may tick at once. Each event leads to a next state.
#![tactic(auto)]

ghost use Rattle.fab_nested_laws.specs.Events.{EventsLeadOn, EventsLeaveOne};
ghost use Rattle.fab_nested_laws.specs.Nested.{NestedTexts};
ghost use Rattle.fab_nested_laws.specs.Together.{LoadingTakesOne, NestedTicksTogether, TogetherIsInTurn};

/// What points show and keep in the greater text, they show and keep in the one that stands in it.
pub fn nested_texts()
    ensures { NestedTexts }
{}

/// Where a clock of the greater text is joined to several clocks of the one that stands in it, its tick is a tick of all of these at once.
pub fn nested_ticks_together()
    ensures { NestedTicksTogether }
{}

/// Clocks that tick at once do what they do one right after the other, in any order.
pub fn together_is_in_turn()
    ensures { TogetherIsInTurn }
{}

/// Of clocks that tick at once the loading points take `CLK` alone: moments with several clocks load what moments with one do.
pub fn loading_takes_one()
    ensures { LoadingTakesOne }
{}

/// Activations, ticks and changes of inputs lead from every state to a next one, as many one after the other and in what order one wants.
pub fn events_lead_on()
    ensures { EventsLeadOn }
{}

/// And to one alone, as far as a sound text declares its points.
pub fn events_leave_one()
    ensures { EventsLeaveOne }
{}
