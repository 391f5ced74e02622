//! The faults that are told of models.

ghost use Rattle.std.specs.Prelude.{◌≡◌, IfOk};
ghost use Rattle.fab_base.specs.Reading.{fault_at, IsFaultOr};
ghost use Rattle.fab_base.specs.declared.problem.Problem.TheVariants as problems;
ghost use Rattle.fab_instances.specs.Order.{construct};

use fab_base::{Fault, Memory, Name, Problem, Reason};
use std::alloc::Global;

/// The fault `Malformed` at a line of a file, for a reason; `Memory` where the name of the file cannot be copied.
pub fn malformed(alloc: Global, file: &Name, line: u32, reason: Reason) -> Fault
    ensures { IsFaultOr result (fault_at file.now line (problems.Malformed reason)) }
{
    Problem::Malformed(reason).at(alloc, file, line)
}

/// `Unsupported`, where the construct is a word and the name of a model.
pub(crate) fn unsupported(alloc: Global, file: &Name, line: u32, word: &[u8], name: &Name) -> Fault
    ensures { IsFaultOr result (fault_at file.now line (problems.Unsupported (construct word.now name.now))) }
{
    match construct(alloc, word, name) {
        Ok(construct) => Problem::Unsupported(construct).at(alloc, file, line),
        Err(Memory) => Fault::Memory,
    }
}

fn construct(alloc: Global, word: &[u8], name: &Name) -> Result<Name, Memory>
    ensures { IfOk result (λ text. text ≡ construct word.now name.now) }
{
    let mut text = Vec::from_slice(alloc, word)?;
    text.push(b' ')?;
    text.extend_from_slice(name.bytes())?;
    Ok(Name::from(text))
}
