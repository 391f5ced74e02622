//! What commands ask of the mode of a fabric.

ghost use Rattle.std.specs.Prelude.{◌≡◌, IfErr, OnOk, OnErr};
ghost use Rattle.fab_base.specs.Reading.{fault_at, IsFaultOr};
ghost use Rattle.fab_base.specs.declared.problem.Problem.TheVariants as problems;
ghost use Rattle.fab_model.specs.declared.mode.Mode.TheVariants as modes;

use fab_base::{Fault, Name, Problem};
use fab_fabric::Fabric;
use fab_model::Mode;
use std::alloc::Global;

/// Refuses a fabric whose configuration is a chain of flip-flops, by an unsupported construct at line 0 of its file.
pub fn check_frames(
    alloc: Global,
    name: &Name,
    fabric: &Fabric,
    construct: &[u8],
) -> Result<(), Fault>
    ensures frames { OnOk result (fabric.now.mode ≡ modes.Frames) }
    ensures chain { OnErr result (fabric.now.mode ≡ modes.Chain) }
    ensures refused { IfErr result (λ fault. IsFaultOr fault (fault_at name.now 0 (problems.Unsupported construct.now))) }
{
    match fabric.mode() {
        Mode::Frames => Ok(()),
        Mode::Chain => {
            let construct = Name::of(alloc, construct)?;
            Err(Problem::Unsupported(construct).at(alloc, name, 0))
        }
    }
}
