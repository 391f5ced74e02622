//! Simulation of a Verilog text in an order that a generator draws: what it is, and that each of its cycles settles. The function does nothing: its
//! contract is the law.
#![tactic(auto)]

ghost use Rattle.fab_ordering_laws.specs.Laws.{OrderedBlocksSettle};

use fab_meaning::laws::loaded_points_stay;
pub use fab_simulation_laws::{loading_is_known, simulations_exist};
use fab_solutions_laws::drivers_grow;

/// Where loading sets all latches, some block of each cycle changes no known point, and then all known points stand at the values of the least
/// solution.
pub fn ordered_blocks_settle()
    ensures { OrderedBlocksSettle }
{
    loaded_points_stay();
    loading_is_known();
    drivers_grow();
}
