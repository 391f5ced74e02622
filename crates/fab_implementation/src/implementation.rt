//! The types of an implementation.

use fab_base::Name;
use fab_fabric::{Site, Wire};
use fab_netlist::NetId;
use std::marker::Model;

/// The wires of a net: each edge leads from a wire to one that it drives.
#[derive(Debug, Drop)]
pub struct Tree {
    /// The net. In the trees of an implementation `In(i)` is the net of the port that item i of `ins` names.
    pub net: NetId,
    pub edges: Vec<(Wire, Wire)>,
}

impl Model for Tree {
    ghost use Rattle.fab_implementation.specs.Plain.{PlainTree};

    ghost Value = { PlainTree };

    ghost view = { λ tree. record { net = tree.net; edges = tree.edges.items } };
}

/// A design on a fabric. Nothing says that it is legal: that is for `check` of `fab_legal`.
#[derive(Debug, Drop)]
pub struct Implementation {
    /// The LUT4c sites of cells, which are named by their numbers.
    pub cells: Vec<(u32, Site)>,
    /// The IO sites of input ports.
    pub ins: Vec<(Name, Site)>,
    /// The IO sites of output ports.
    pub outs: Vec<(Name, Site)>,
    pub trees: Vec<Tree>,
    /// The input port that resets the latches of the design, if it has such a port.
    pub reset: Option<Name>,
}

impl Model for Implementation {
    ghost use Rattle.fab_implementation.specs.Plain.{PlainImplementation};

    ghost Value = { PlainImplementation };

    ghost view = { λ it. record { cells = it.cells.items; ins = it.ins.items; outs = it.outs.items; trees = it.trees.items; reset = it.reset } };
}

/// The IO sites on which constrained ports have to stand.
#[derive(Debug, Drop)]
pub struct Fixed {
    pub pads: Vec<(Name, Site)>,
}

impl Model for Fixed {
    ghost use Rattle.std.specs.Prelude.{ℕ, List};
    ghost use Rattle.fab_fabric.specs.declared.wire.Site.{Site};

    ghost Value = { List (List ℕ × Site) };

    ghost view = { λ fixed. fixed.pads.items };
}
