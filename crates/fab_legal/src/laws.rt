//! What follows from the definitions alone.

ghost use Rattle.fab_legal.specs.Broken.{BrokenIsNotLegal};
ghost use Rattle.fab_legal.specs.Sinks.{SinksAreRequired};
ghost use Rattle.fab_legal.specs.WellMade.{PackedIsWellMade};

/// An implementation that breaks a rule is not legal: a legal one has no first broken rule.
pub fn broken_is_not_legal()
    ensures { BrokenIsNotLegal }
{}

/// The list of required sinks has the wires that a cell, an input port or an output port needs, in the nets in which it needs
/// them, and no others.
pub fn sinks_are_required()
    ensures { SinksAreRequired }
{}

/// What `pack` gives of a netlist is well made, as `check` and `required` ask.
pub fn packed_is_well_made()
    ensures { PackedIsWellMade }
{}
