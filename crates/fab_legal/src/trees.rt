//! Whether the trees of a placed implementation keep the rules on edges and nets: the last five.

ghost use Rattle.std.specs.Prelude.{List, All, IfErr, OnOk};
ghost use Rattle.fab_implementation.specs.OnFabric.{IsOnFabric};
ghost use Rattle.fab_implementation.specs.Plain.{Pad};
ghost use Rattle.fab_legal.specs.WellMade.{IsWellMadePacked};
ghost use Rattle.fab_legal.specs.Lines.{ConstraintsHold};
ghost use Rattle.fab_implementation.specs.Inputs.{InputsAreLines};
ghost use Rattle.fab_legal.specs.Legal.{ArePlaced, IsLegal};
ghost use Rattle.fab_legal.specs.Broken.{Explains};
ghost use Rattle.fab_legal.specs.inner.Kept.{AreKept};

use crate::broken::CheckFault;
use crate::nets::check_nets;
use crate::placed::Placed;
use crate::reach::check_entries;
use crate::shared::check_apart;
use crate::standing::check_sinks;
use crate::steps::check_steps;
use fab_implementation::Implementation;
use fab_implementation::fab_fabric::Fabric;
use fab_implementation::fab_netlist::Packed;
use std::alloc::Global;
use std::mem;

/// Checks the last five rules where the first three hold: each edge is a pair or a join, each wire that one enters is entered once and
/// reached, each net begins where it may, the required sinks stand in their nets, and no wire stands in two. With constraints that
/// hold the implementation is legal then, and a refusal names the first rule that is broken and what breaks it first.
pub fn check_trees(
    alloc: Global,
    fabric: &Fabric,
    packed: &Packed,
    implementation: &Implementation,
    placed: &Placed,
) -> Result<(), CheckFault>
    requires made { IsWellMadePacked packed.now }
    requires on_fabric { IsOnFabric fabric.now implementation.now }
    requires lines { InputsAreLines implementation.now }
    requires sites { ArePlaced fabric.now packed.now implementation.now }
    requires kept { AreKept packed.now implementation.now placed.now }
    ensures legal { (fixed : List Pad) → ConstraintsHold fixed implementation.now → OnOk result (IsLegal fabric.now packed.now fixed implementation.now) }
    ensures err { (fixed : List Pad) → ConstraintsHold fixed implementation.now → IfErr result (Explains fabric.now packed.now fixed implementation.now) }
{
    check_steps(alloc, fabric, &implementation.trees)?;
    check_entries(alloc, fabric, &implementation.trees)?;
    let numbers = check_nets(alloc, fabric, packed, implementation, placed)?;
    let checked = check_sinks(alloc, fabric, packed, implementation, placed, &numbers);
    // let go by a call, before there is another way out
    mem::drop(numbers);
    let sets = checked?;
    check_apart(alloc, fabric, packed, implementation, sets)
}
