//! What follows from the definitions alone.

ghost use Rattle.fab_ways_laws.specs.Laws.{
  EndsAreSteps,
  EndsAreThere,
  LeastBoundsWalks,
  LeastIsConsistent,
  MappingIsLegal,
  OriginsAreSteps,
  PlaceIs,
  UnsharedIsLegal,
};

/// The last trees of a run are legal on a placement that keeps the rules of sites, where no wire stands in two of them.
pub fn unshared_is_legal()
    ensures { UnsharedIsLegal }
{}

/// A mapping is legal.
pub fn mapping_is_legal()
    ensures { MappingIsLegal }
{}

/// The edges of a wire are the steps of the fabric from it.
pub fn ends_are_steps()
    ensures { EndsAreSteps }
{}

/// The edges to a wire are the steps of the fabric to it.
pub fn origins_are_steps()
    ensures { OriginsAreSteps }
{}

/// The place of a wire is found by its number.
pub fn place_is()
    ensures { PlaceIs }
{}

/// The edges of a wire are found by its number.
pub fn ends_are_there()
    ensures { EndsAreThere }
{}

/// The bound by distance falls by 1 at most over an edge.
pub fn least_is_consistent()
    ensures { LeastIsConsistent }
{}

/// No walk takes fewer edges than the bound by distance.
pub fn least_bounds_walks()
    ensures { LeastBoundsWalks }
{}
