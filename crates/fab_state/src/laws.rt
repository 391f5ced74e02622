//! What follows from the definitions alone.

ghost use Rattle.fab_state.specs.Constraints.{SpelledFixingsAreRead};
ghost use Rattle.fab_state.specs.Spelled.{SpelledStatesAreRead};

/// A text that spells a state or constraints is whole and says just these, so that `read_state` and `read_pcf` give them back.
pub fn spelled_texts_are_read()
    ensures states { SpelledStatesAreRead }
    ensures constraints { SpelledFixingsAreRead }
{}
