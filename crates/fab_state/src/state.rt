//! States.

use fab_base::Name;
use fab_fabric::Site;
use std::marker::Model;

/// On which pads the ports of a design stand, and what its flip-flops hold at first.
#[derive(Debug, Drop)]
pub struct State {
    /// The pads of input ports.
    pub ins: Vec<(Name, Site)>,
    /// The pads of output ports.
    pub outs: Vec<(Name, Site)>,
    /// The flip-flops and their values.
    pub ffs: Vec<(Site, bool)>,
}

impl Model for State {
    ghost use Rattle.fab_state.specs.Plain.{PlainState};

    ghost Value = { PlainState };

    ghost view = { λ state. record { ins = state.ins.items; outs = state.outs.items; ffs = state.ffs.items } };
}
