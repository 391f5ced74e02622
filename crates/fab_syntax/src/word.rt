//! A list of bits.

ghost use Rattle.std.specs.Prelude.{◌≡◌};

use std::marker::Model;

/// The bits of a constant, the least significant first. Contracts see it as their list.
#[derive(Debug, Drop)]
pub struct Word {
    bits: Vec<bool>,
}

impl Model for Word {
    ghost use Rattle.std.specs.Prelude.{Bool, List};

    ghost Value = { List Bool };

    ghost view = { λ word. word.bits.items };
}

impl Word {
    /// Its bits, the least significant first.
    pub fn bits(&self) -> &[bool]
        ensures { result.now ≡ self.now }
    {
        &self.bits
    }

    /// The vector of its bits, given back without a copy.
    pub fn into_vec(self) -> Vec<bool>
        ensures { result.items ≡ self }
    {
        let Word { bits } = self;
        bits
    }
}

impl From<Vec<bool>> for Word {
    ghost from_gives = { λ bits word. word ≡ bits.items };

    fn from(bits: Vec<bool>) -> Word {
        Word { bits }
    }
}
