//! Stimuli.

use std::marker::Model;

/// What the input ports of a state are fed.
#[derive(Debug, Drop)]
pub struct Stimulus {
    /// The values of each cycle, in the order of the state's input ports.
    pub lines: Vec<Vec<bool>>,
}

impl Model for Stimulus {
    ghost use Rattle.std.specs.Prelude.{Bool, List, map};

    ghost Value = { List (List Bool) };

    ghost view = { λ stimulus. map (λ line. line.items) stimulus.lines.items };
}
