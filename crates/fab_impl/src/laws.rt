//! What follows from the definitions alone.

ghost use Rattle.fab_impl.specs.Spelled.{SpelledImplementationsAreRead};

/// A text that spells an implementation is whole and says just this one, so that `read_impl` gives it back.
pub fn spelled_implementations_are_read()
    ensures { SpelledImplementationsAreRead }
{}
