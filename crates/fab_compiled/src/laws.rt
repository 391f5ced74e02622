//! Laws of compiled expressions. Each function does nothing: its contract is the law, for the proofs of crates above.

ghost use Rattle.fab_compiled.specs.Values.{CompiledValues};

/// A compiled expression has the value that the meaning of the text gives the expression, where the points of the text have the same values by
/// their numbers.
pub fn compiled_values()
    ensures { CompiledValues }
{}
