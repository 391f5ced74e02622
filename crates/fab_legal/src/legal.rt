//! The check of an implementation.

ghost use Rattle.std.specs.Prelude.{◌≡◌, IfOk, OnOk, IfErr, All};
ghost use Rattle.fab_implementation.specs.OnFabric.{IsOnFabric};
ghost use Rattle.fab_legal.specs.WellMade.{IsWellMadePacked};
ghost use Rattle.fab_implementation.specs.Inputs.{InputsAreLines};
ghost use Rattle.fab_legal.specs.Legal.{IsLegal};
ghost use Rattle.fab_legal.specs.Broken.{Explains};

use crate::broken::CheckFault;
use crate::placed::place;
use crate::trees::check_trees;
use fab_implementation::fab_fabric::Fabric;
use fab_implementation::fab_netlist::Packed;
use fab_implementation::{Fixed, Implementation};
use std::alloc::Global;
use std::marker::Model;
use std::mem;

/// An implementation that a check accepted. What the check promises says for which fabric, design and constraints it is legal.
#[derive(Debug, Drop)]
pub struct Legal {
    implementation: Implementation,
}

impl Model for Legal {
    ghost use Rattle.fab_implementation.specs.Plain.{PlainImplementation};

    ghost Value = { PlainImplementation };

    ghost view = { λ legal. legal.implementation };
}

impl Legal {
    /// The implementation.
    pub fn get(&self) -> &Implementation
        ensures { result.now ≡ self.now }
    {
        &self.implementation
    }
}

/// Checks the nine rules. A refusal names the first rule that is broken and what breaks it first, in the order of lines: cells,
/// input pads, output pads, and then edges.
pub fn check(
    alloc: Global,
    fabric: &Fabric,
    packed: &Packed,
    fixed: &Fixed,
    implementation: Implementation,
) -> Result<Legal, CheckFault>
    requires made { IsWellMadePacked packed.now }
    requires on_fabric { IsOnFabric fabric.now implementation }
    requires lines { InputsAreLines implementation }
    ensures same { IfOk result (λ legal. legal ≡ implementation) }
    ensures legal { OnOk result (IsLegal fabric.now packed.now fixed.now implementation) }
    ensures err { IfErr result (Explains fabric.now packed.now fixed.now implementation) }
{
    match check_rules(alloc, fabric, packed, fixed, &implementation) {
        Ok(()) => Ok(Legal { implementation }),
        Err(fault) => {
            mem::drop(implementation);
            Err(fault)
        }
    }
}

// Checks the nine rules.
fn check_rules(
    alloc: Global,
    fabric: &Fabric,
    packed: &Packed,
    fixed: &Fixed,
    implementation: &Implementation,
) -> Result<(), CheckFault>
    requires made { IsWellMadePacked packed.now }
    requires on_fabric { IsOnFabric fabric.now implementation.now }
    requires lines { InputsAreLines implementation.now }
    ensures legal { OnOk result (IsLegal fabric.now packed.now fixed.now implementation.now) }
    ensures err { IfErr result (Explains fabric.now packed.now fixed.now implementation.now) }
{
    let placed = place(alloc, fabric, packed, fixed, implementation)?;
    let checked = check_trees(alloc, fabric, packed, implementation, &placed);
    mem::drop(placed);
    checked
}
