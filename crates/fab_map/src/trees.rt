//! Placements with trees.

ghost use Rattle.std.specs.Prelude.{◌≡◌, ◌<◌, ◌-◌, [], length, get_or};
ghost use Rattle.fab_ways_laws.specs.Trees.{with_trees};
ghost use Rattle.fab_route.specs.Answers.{plain_rounds};

use fab_implementation::{Implementation, Tree};

/// A placement with these trees in place of its own.
pub(crate) fn with_trees(placed: Implementation, trees: Vec<Tree>) -> Implementation
    ensures { result ≡ with_trees placed trees.items }
{
    let mut placed = placed;
    placed.trees = trees;
    placed
}

/// The trees of the last of some rounds.
pub(crate) fn last_trees(rounds: Vec<Vec<Tree>>) -> Vec<Tree>
    requires { 0 < length rounds.items }
    ensures { result.items ≡ get_or (plain_rounds rounds.items) (length rounds.items - 1) [] }
{
    let mut rounds = rounds;
    let Some(last) = rounds.pop() else {
        unreachable!()
    };
    last
}
