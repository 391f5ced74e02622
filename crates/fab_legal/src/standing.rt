//! Whether the required sinks stand in their nets: the eighth rule.

ghost use Rattle.std.specs.Prelude.{◌≡◌, ◌≤◌, ◌↔◌, IsTrue, IfOk, OnOk, IfErr, All, MatchOption, length, map};
ghost use Rattle.fab_legal.specs.Turns.{AreRight, IsFirstWrongAt};
ghost use Rattle.fab_legal.specs.WellMade.{IsWellMadePacked};
ghost use Rattle.fab_implementation.specs.Inputs.{InputsAreLines};
ghost use Rattle.fab_legal.specs.Legal.{ArePlaced, NetsBeginRight, SinksStand};
ghost use Rattle.fab_legal.specs.Broken.{IsSinkItem};
ghost use Rattle.fab_legal.specs.inner.Kept.{AreKept};
ghost use Rattle.fab_legal.specs.inner.Roots.{tree_number};
ghost use Rattle.fab_legal.specs.inner.Standing.{Stands, SinkStands};
ghost use Rattle.fab_legal.specs.inner.Tables.{key_lists, HaveWires};
ghost use Rattle.fab_legal.specs.inner.Answers.{Breaks};
ghost use Rattle.fab_implementation.specs.fab_netlist.specs.WellMade.{most_nets};

use crate::broken::{CheckFault, broken_by};
use crate::nets::{exists, net_number};
use crate::placed::Placed;
use crate::shared::wire_sets;
use crate::sinks::sinks_of;
use crate::texts::wire_text;
use fab_implementation::Implementation;
use fab_implementation::fab_fabric::{Fabric, Wire};
use fab_implementation::fab_netlist::{NetId, Packed};
use indexmap::IndexSet;
use std::alloc::Global;

// Whether a wire stands in a net, where these are the numbers of the nets and the wires of each.
fn stands(
    placed: &Placed,
    numbers: &IndexSet<u32>,
    sets: &[IndexSet<u32>],
    net: NetId,
    wire: Wire,
) -> bool
    requires few_ins { length placed.now.ins.sites.items ≤ most_nets }
    requires few_cells { length placed.now.cells.items ≤ most_nets }
    requires as_many { length sets.now ≡ length numbers.now.keys }
    ensures { IsTrue result ↔ Stands placed.now numbers.now.keys (key_lists sets.now) net wire }
{
    if !exists(placed, net) {
        return false;
    }
    match numbers.get_index_of(&net_number(placed, net)) {
        Some(place) => {
            let set = &sets[place];
            set.contains(&wire.0)
        }
        None => false,
    }
}

// The place of the first sink that does not stand in its net.
fn wrong_sink(
    placed: &Placed,
    numbers: &IndexSet<u32>,
    sets: &[IndexSet<u32>],
    sinks: &[(NetId, Wire)],
) -> Option<usize>
    requires few_ins { length placed.now.ins.sites.items ≤ most_nets }
    requires few_cells { length placed.now.cells.items ≤ most_nets }
    requires as_many { length sets.now ≡ length numbers.now.keys }
    ensures { MatchOption result (AreRight (SinkStands placed.now numbers.now.keys (key_lists sets.now)) sinks.now) (IsFirstWrongAt (SinkStands placed.now numbers.now.keys (key_lists sets.now)) sinks.now) }
{
    for (place, sink) in sinks.iter().enumerate() {
        let is_there = stands(placed, numbers, sets, sink.0, sink.1);
        if !is_there {
            return Some(place);
        }
    }
    None
}

/// The wires of each net, in each of which its required sinks stand, where these are the numbers of the nets.
pub fn check_sinks(
    alloc: Global,
    fabric: &Fabric,
    packed: &Packed,
    implementation: &Implementation,
    placed: &Placed,
    numbers: &IndexSet<u32>,
) -> Result<Vec<IndexSet<u32>>, CheckFault>
    requires made { IsWellMadePacked packed.now }
    requires lines { InputsAreLines implementation.now }
    requires sites { ArePlaced fabric.now packed.now implementation.now }
    requires kept { AreKept packed.now implementation.now placed.now }
    requires nets { NetsBeginRight fabric.now packed.now implementation.now }
    requires numbers { numbers.now.keys ≡ map (tree_number placed.now) implementation.now.trees }
    ensures ok { OnOk result (SinksStand fabric.now packed.now implementation.now) }
    ensures wires { IfOk result (λ sets. HaveWires implementation.now.trees (key_lists sets.items)) }
    ensures err { IfErr result (Breaks 8 (IsSinkItem fabric.now packed.now implementation.now)) }
{
    let sets = wire_sets(alloc, &implementation.trees)?;
    let sinks = sinks_of(alloc, fabric, packed, placed)?;
    match wrong_sink(placed, numbers, &sets, &sinks) {
        None => Ok(sets),
        Some(place) => Err(broken_by(8, wire_text(alloc, fabric, sinks[place].1)?)),
    }
}
