//! The least solution of all points.

ghost use Rattle.std.specs.Prelude.{◌≡◌, length};
ghost use Rattle.fab_network.specs.Network.{AreFit};
ghost use Rattle.fab_network.specs.Solved.{IsLeast};
ghost use Rattle.fab_ternary.specs.Terns.{plain_tern};
ghost use Rattle.fab_compiled.specs.Terns.{seen};
ghost use Rattle.fab_stepping.specs.Boards.{begun_by, given_on, AreKnown, IsBegun, IsBoardOf};

use crate::board::Board;
use fab_network::{Drive, Network};
use fab_readers::Readers;
use fab_settling::settle;
use fab_ternary::Tern;

impl Board {
    /// Writes what the least solution has, where inputs have what their points have. The readers of the points are noted once, for all calls.
    pub fn solve(&self, network: &Network, readers: &mut Readers, solution: &mut [Tern])
        requires fit { AreFit network.now.trees.items network.now.drives.items }
        requires board { IsBoardOf network.now self.now }
        requires known { AreKnown network.now self.now }
        requires solution { length solution.old ≡ length network.now.drives.items }
        ensures { IsLeast network.now.trees.items network.now.drives.items (given_on network.now self.now) (seen solution.new self.now.leads.items) }
    {
        self.begin(network, solution);
        settle(
            network,
            &self.leads,
            &self.held,
            &self.leads,
            readers,
            solution,
        );
    }

    // Inputs and flip-flops have what is given to them, and of all other points nothing is known.
    fn begin(&self, network: &Network, solution: &mut [Tern])
        requires board { IsBoardOf network.now self.now }
        requires solution { length solution.old ≡ length network.now.drives.items }
        ensures { IsBegun network.now self.now solution.new }
    {
        for (point, drive) in network.drives.iter().enumerate() {
            solution[point] = begun(*drive, self.terns[point], self.held[point]);
        }
    }
}

// What a point is known to have at first, where it has this and this is held for it.
fn begun(drive: Drive, tern: Tern, held: Tern) -> Tern
    ensures { plain_tern result ≡ begun_by drive (plain_tern tern) (plain_tern held) }
{
    match drive {
        Drive::Given => tern,
        Drive::Flop(_, _) => held,
        Drive::Same(_) | Drive::Value(_) | Drive::Hold(_, _) => Tern::Open,
    }
}
