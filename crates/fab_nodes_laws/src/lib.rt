//! Routing over the matrix inputs of a fabric, and why it is routing over its wires: definitions and laws.
#![tactic(auto)]

ghost use Rattle.fab_nodes_laws.specs.Laws.{CutOffHasNoWalk, GoalsAreLow, NodeRunsAreRuns, TestedIsConsistent, UnsharedNodesAreLegal};

/// A negotiated run over nodes is one over wires, and shares a wire in the end where it shares a node.
pub fn node_runs_are_runs()
    ensures { NodeRunsAreRuns }
{}

/// The trees of wires of a run over nodes that leaves no node shared are legal.
pub fn unshared_nodes_are_legal()
    ensures { UnsharedNodesAreLegal }
{}

/// A sink that no walk of nodes comes to from the roots of its net is one that no walk of wires comes to.
pub fn cut_off_has_no_walk()
    ensures { CutOffHasNoWalk }
{}

/// A table that was tested over all hops falls by 2 at most over an edge.
pub fn tested_is_consistent()
    ensures { TestedIsConsistent }
{}

/// A table that is low at the classes of goals is 1 at most at a goal.
pub fn goals_are_low()
    ensures { GoalsAreLow }
{}
