//! What follows from the definitions alone.

ghost use Rattle.fab_stimulus.specs.Spelled.{SpelledStimuliAreRead};

/// A text that spells a stimulus is whole and says just this one, so that `read_stimulus` gives it back.
pub fn spelled_stimuli_are_read()
    ensures { SpelledStimuliAreRead }
{}
