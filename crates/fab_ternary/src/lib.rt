//! A bit that may be unknown.
#![tactic(auto)]

ghost use Rattle.std.specs.Prelude.{◌≡◌, not};
ghost use Rattle.fab_systems_laws.specs.Ternary.{known as known_tern};
ghost use Rattle.fab_ternary.specs.Terns.{is_known, is_one, plain_tern};

/// A bit that is 0, 1 or not known.
#[derive(Clone, Copy, Debug, PartialEq, Eq)]
pub enum Tern {
    /// 0.
    No,
    /// 1.
    Yes,
    /// Not known.
    Open,
}

impl Tern {
    /// A known bit.
    pub fn known(bit: bool) -> Tern
        ensures { plain_tern result ≡ known_tern bit }
    {
        if bit { Tern::Yes } else { Tern::No }
    }

    /// Whether it is 1.
    pub fn is_yes(self) -> bool
        ensures { result ≡ is_one (plain_tern self) }
    {
        match self {
            Tern::Yes => true,
            Tern::No | Tern::Open => false,
        }
    }

    /// Whether it is not known.
    pub fn is_open(self) -> bool
        ensures { result ≡ not (is_known (plain_tern self)) }
    {
        match self {
            Tern::Open => true,
            Tern::No | Tern::Yes => false,
        }
    }
}
