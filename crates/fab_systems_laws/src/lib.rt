//! Laws of systems of equations over points of any type. Each function does nothing: its contract is the law, for the proofs of crates above.
#![tactic(auto)]

ghost use Rattle.fab_systems_laws.specs.Groups.{GroupsRank};
ghost use Rattle.fab_systems_laws.specs.Steps.{BlocksSettle, CountedBlocksSettle};
ghost use Rattle.fab_systems_laws.specs.System.{RanksByCount, SettlesOnce};
ghost use Rattle.fab_systems_laws.specs.Ternary.{LeastExists, LeastHolds, LeastIsUnique, SettledSolves};

/// The equations of a ranked set have exactly one solution for every value of the other points: there is one that leaves those as they are,
/// and any two that agree on the given points agree on the set.
pub fn settles_once<P>()
    ensures { SettlesOnce P }
{}

/// The number of ranks may be taken as the number of points, where the points of a ranked set stand on a list.
pub fn ranks_by_count<P>()
    ensures { RanksByCount P }
{}

/// Points that are groups of finer points hand on their ranks: a fine point ranks by its group, and within it by its place.
pub fn groups_rank<P, Q>()
    ensures { GroupsRank P Q }
{}

/// As many blocks of activations as there are ranks, one after another, settle a ranked set, whatever else is activated in between or changes outside,
/// and it stays settled whatever moves follow.
pub fn blocks_settle<P>()
    ensures { BlocksSettle P }
{}

/// The same where the blocks are as many as the points on a list of the set.
pub fn counted_blocks_settle<P>()
    ensures { CountedBlocksSettle P }
{}

/// A set of listed points has a least ternary solution, whatever the other points have: a solution that is below every one with the same other points.
pub fn least_exists<P>()
    ensures { LeastExists P }
{}

/// There is one least ternary solution at most.
pub fn least_is_unique<P>()
    ensures { LeastIsUnique P }
{}

/// A value that is known in the least ternary solution is the point's value in every settled assignment that the other points' ternary values approximate.
pub fn least_holds<P>()
    ensures { LeastHolds P }
{}

/// Every settled assignment is a ternary solution, where the ternary reading is exact once all is known.
pub fn settled_solves<P>()
    ensures { SettledSolves P }
{}
