//! Laws of numbered texts.

ghost use Rattle.fab_values.specs.Agreement.{BitsAreNames};

/// Where the bits of an instance are what an assignment gives its points, each name has the bits that the meaning of the text
/// gives it. So `eval` gives the value that the meaning of the text gives an expression there.
pub fn bits_are_names()
    ensures { BitsAreNames }
{}
