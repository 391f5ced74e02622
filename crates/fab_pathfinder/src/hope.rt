//! Whether a run still gets better.
ghost use Rattle.std.specs.Prelude.{◌≡◌, ◌+◌, ◌≤◌, true, false};
ghost use Rattle.fab_pathfinder.specs.declared.hope.Patience.TheVariants.{Endless};

/// Within how many rounds the count of shared nodes has to halve.
const PATIENCE: u32 = 8;

/// So few shared nodes are worth each round that is left.
const FEW: usize = 32;

/// How long a run goes on that leaves nodes shared.
#[derive(Clone, Copy)]
pub(crate) enum Patience {
    /// Up to the limit of its rounds.
    Endless,
    /// Up to that limit too, but only while its hope is not lost.
    WhileHopeful,
}

/// What is hoped of a run: that the count of shared nodes halves again within some rounds.
#[derive(Clone, Copy)]
pub(crate) struct Hope {
    /// The count that is to be halved.
    pub count: usize,
    /// How many rounds that may take.
    pub left: u32,
}

impl Hope {
    /// Before the first round.
    pub fn new() -> Hope
        ensures { result.left ≡ 8 }
    {
        Hope {
            count: usize::MAX,
            left: PATIENCE,
        }
    }

    /// Behind a round that leaves so many nodes shared.
    pub fn after(self, shared: usize) -> Hope
        requires few { self.left ≤ 8 }
        ensures few { result.left ≤ 8 }
        ensures slow { self.left ≤ result.left + 1 }
    {
        if shared <= FEW || shared <= self.count / 2 {
            return Hope {
                count: shared,
                left: PATIENCE,
            };
        }
        Hope {
            count: self.count,
            left: self.left.saturating_sub(1),
        }
    }

    /// Whether a run of such patience ends here, since its hope is lost.
    pub fn is_lost(self, patience: Patience) -> bool
        ensures late { result ≡ true → self.left ≡ 0 }
        ensures endless { patience ≡ Endless → result ≡ false }
    {
        match patience {
            Patience::Endless => false,
            Patience::WhileHopeful => self.left == 0,
        }
    }
}
