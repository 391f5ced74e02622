//! What follows from the definitions alone.

ghost use Rattle.fab_fasm.specs.Spelled.{LinesAreTheirParts};

/// A line is refused exactly where it is not made of the parts that lines may have. So a text spells one list of features, or a
/// line of it is refused.
pub fn lines_are_their_parts()
    ensures { LinesAreTheirParts }
{}
