//! Laws of the numbers of instances and points. Each function does nothing: its contract is the law, for the proofs of crates above.

ghost use Rattle.fab_equations.specs.Numbering.{ChildrenFollow, DeclaredArePoints, InstancesAreChildren, InstancesStand, NamesHavePoints, PathsAreInstances, PathsDiffer, PointsAreDeclared, PointsDiffer};

/// Each instance of a sound text has one number.
pub fn instances_are_numbered()
    ensures stand { InstancesStand }
    ensures all { PathsAreInstances }
    ensures once { PathsDiffer }
{}

/// The instances in an instance follow it, each at an offset that its module tells.
pub fn children_follow()
    ensures follow { ChildrenFollow }
    ensures all { InstancesAreChildren }
{}

/// The bits of a declared name of an instance have numbers that follow one another.
pub fn names_have_points()
    ensures { NamesHavePoints }
{}

/// Each declared bit of a sound text is a point, and has one number.
pub fn points_are_numbered()
    ensures declared { PointsAreDeclared }
    ensures all { DeclaredArePoints }
    ensures once { PointsDiffer }
{}
