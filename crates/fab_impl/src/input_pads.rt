//! The pads of input ports, by port.

ghost use Rattle.std.specs.Prelude.{◌≡◌, ◌++◌, ◌∷◌, [], IfOk};
ghost use Rattle.fab_impl.specs.FirstPlaces.{first_place};

use fab_base::{Memory, Name};
use fab_fabric::Site;
use fab_texts::WordSet;
use std::alloc::Global;
use std::marker::Model;

/// Input ports and their sites, in the order in which they came. A port may come more than once.
#[derive(Drop)]
pub struct InputPads {
    pads: Vec<(Name, Site)>,
    // each port once, and the place of the first pad that names it
    names: WordSet,
    firsts: Vec<u32>,
}

impl Model for InputPads {
    ghost use Rattle.std.specs.Prelude.{List};
    ghost use Rattle.fab_implementation.specs.Plain.{Pad};
    ghost use Rattle.fab_impl.specs.inner.Firsts.{HasFirsts};

    ghost Value = { List Pad };

    ghost view = { λ ins. ins.pads.items };

    ghost invariant = { λ ins. HasFirsts ins.pads.items ins.names ins.firsts.items };
}

impl InputPads {
    /// No pads.
    pub fn new(alloc: Global) -> InputPads
        ensures { result ≡ [] }
    {
        InputPads {
            pads: Vec::new(alloc),
            names: WordSet::new(alloc),
            firsts: Vec::new(alloc),
        }
    }

    /// The place of the first pad of a port, if there is one.
    pub fn place_of(&self, port: &[u8]) -> Option<u32>
        ensures { result ≡ first_place self.now port.now }
    {
        let known = self.names.place_of(port)?;
        Some(self.firsts[known])
    }

    /// These pads with one more. Want of memory is also the answer where its place does not fit 32 bits.
    pub fn with(self, alloc: Global, port: &[u8], site: Site) -> Result<InputPads, Memory>
        ensures { IfOk result (λ ins. ins ≡ self ++ (port.now, site) ∷ []) }
    {
        let InputPads {
            mut pads,
            mut names,
            mut firsts,
        } = self;
        let count = pads.as_slice().len();
        if count > u32::MAX as usize {
            return Err(Memory);
        }
        if !names.contains(port) {
            names.add(alloc, port)?;
            firsts.push(count as u32)?;
        }
        pads.push((Name::of(alloc, port)?, site))?;
        Ok(InputPads {
            pads,
            names,
            firsts,
        })
    }

    /// The pads.
    pub fn into_vec(self) -> Vec<(Name, Site)>
        ensures { result.items ≡ self }
    {
        let InputPads { pads, .. } = self;
        pads
    }
}
