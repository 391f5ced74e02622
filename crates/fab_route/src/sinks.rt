//! The sinks of each net.

ghost use Rattle.std.specs.Prelude.{◌≡◌, ℕ, [], IfOk, All, length, map, slice_index_or};
ghost use Rattle.fab_legal.specs.WellMade.{IsWellMadePacked, IsNetId};
ghost use Rattle.fab_legal.specs.Legal.{ArePlaced};
ghost use Rattle.fab_ways_laws.specs.Routing.{nets};
ghost use Rattle.fab_nodes_laws.specs.Nets.{net_sinks};
ghost use Rattle.fab_route.specs.inner.Wanted.{wire_groups, sinks_among};

use crate::order::{net_count, place_of};
use fab_base::Memory;
use fab_fabric::{Fabric, Wire};
use fab_implementation::Implementation;
use fab_legal::required;
use fab_netlist::{NetId, Packed};
use std::alloc::Global;

/// The sinks of each net, in the order of nets, and for a net in that of `required`.
pub(crate) fn sinks_by_net(
    alloc: Global,
    fabric: &Fabric,
    packed: &Packed,
    placed: &Implementation,
) -> Result<Vec<Vec<Wire>>, Memory>
    requires made { IsWellMadePacked packed.now }
    requires placed { ArePlaced fabric.now packed.now placed.now }
    ensures { IfOk result (λ groups. wire_groups groups.items ≡ net_sinks fabric.now packed.now placed.now) }
{
    let sinks = required(alloc, fabric, packed, placed)?;
    group(alloc, packed, &sinks)
}

// The wires of sinks, net by net.
fn group(alloc: Global, packed: &Packed, sinks: &[(NetId, Wire)]) -> Result<Vec<Vec<Wire>>, Memory>
    requires made { IsWellMadePacked packed.now }
    requires known { All (λ sink. IsNetId packed.now sink.0) sinks.now }
    ensures { IfOk result (λ groups. wire_groups groups.items ≡ map (sinks_among sinks.now) (nets packed.now)) }
{
    let mut groups = no_groups(alloc, net_count(packed))?;
    for sink in sinks {
        groups[place_of(packed, sink.0)].push(sink.1)?;
    }
    Ok(groups)
}

fn no_groups(alloc: Global, count: usize) -> Result<Vec<Vec<Wire>>, Memory>
    ensures count { IfOk result (λ groups. length groups.items ≡ count) }
    ensures empty { IfOk result (λ groups. (place : ℕ) → slice_index_or (wire_groups groups.items) place [] ≡ []) }
{
    let mut groups = Vec::with_capacity(alloc, count)?;
    for _place in 0..count {
        groups.push(Vec::new(alloc))?;
    }
    Ok(groups)
}
