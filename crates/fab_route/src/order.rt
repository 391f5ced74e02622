//! The nets of a design by their places in order.

ghost use Rattle.std.specs.Prelude.{◌≡◌, ◌<◌, ◌≤◌, length};
ghost use Rattle.fab_netlist.specs.Plain.{IsAt};
ghost use Rattle.fab_legal.specs.WellMade.{IsWellMadePacked, IsNetId};
ghost use Rattle.fab_pathfinder.specs.Plain.{most_routed_nets};
ghost use Rattle.fab_ways_laws.specs.Routing.{nets};

use fab_netlist::{NetId, Packed};

/// How many nets there are.
pub(crate) fn net_count(packed: &Packed) -> usize
    requires { IsWellMadePacked packed.now }
    ensures count { result ≡ length (nets packed.now) }
    ensures few { result ≤ most_routed_nets }
{
    2 + packed.inputs.len() + packed.cells.len()
}

/// The place of a net.
pub(crate) fn place_of(packed: &Packed, net: NetId) -> usize
    requires made { IsWellMadePacked packed.now }
    requires known { IsNetId packed.now net }
    ensures { IsAt (nets packed.now) result net }
{
    match net {
        NetId::Zero => 0,
        NetId::One => 1,
        NetId::In(number) => 2 + number as usize,
        NetId::Cell(number) => 2 + packed.inputs.len() + number as usize,
    }
}

/// The net at a place.
pub(crate) fn net_at(packed: &Packed, place: usize) -> NetId
    requires made { IsWellMadePacked packed.now }
    requires place { place < length (nets packed.now) }
    ensures { IsAt (nets packed.now) place result }
{
    let inputs = packed.inputs.len();
    if place == 0 {
        return NetId::Zero;
    }
    if place == 1 {
        return NetId::One;
    }
    if place < 2 + inputs {
        return NetId::In((place - 2) as u32);
    }
    NetId::Cell((place - 2 - inputs) as u32)
}
