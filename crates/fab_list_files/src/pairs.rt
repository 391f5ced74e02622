//! The pairs of a switch list.

ghost use Rattle.std.specs.Prelude.{◌≡◌, ◌<◌, ◌≤◌, List, IfOk, IfErr, IsOkUnless};
ghost use Rattle.std.specs.Option.{ForSome};
ghost use Rattle.fab_base.specs.declared.fault.Fault.TheVariants as faults;
ghost use Rattle.fab_tables.specs.Lists.{Pair};
ghost use Rattle.fab_files.specs.Files.{HasReadCause, IsSupported};
ghost use Rattle.fab_list_files.specs.Sides.{SpellsPairs, MeetsPairs};

use crate::crowd::{MOST_INPUTS, find_crowd};
use crate::listing::{MOST_OPEN, take_rows};
use crate::matrix_pairs::MatrixPairs;
use fab_base::{Fault, Name, Problem, Quantity};
use fab_desk::Desk;
use fab_files::fetch;
use fab_lines::last_line;
use std::alloc::Global;

fn read<D: Desk>(alloc: Global, desk: &mut D, name: &Name) -> Result<Vec<(Name, Name)>, Fault>
    ensures told { D.told desk.new ≡ D.told desk.old }
    ensures writes { D.writes desk.new ≡ D.writes desk.old }
    ensures reads { D.reads desk.old ≤ D.reads desk.new }
    ensures spelled { ForSome (D.told desk.old) (λ files. IfOk result (λ pairs. SpellsPairs files name.now pairs.items)) }
    ensures cause { IfErr result (HasReadCause (D.told desk.old) (D.reads desk.old < D.reads desk.new) (λ files. MeetsPairs files name.now)) }
    ensures supported { IfErr result IsSupported }
{
    let bytes = fetch(alloc, desk, name)?;
    let mut matrix = MatrixPairs::new(alloc);
    take_rows(alloc, desk, &mut matrix, MOST_OPEN, name, &bytes)?;
    let pairs = matrix.into_pairs(alloc)?;
    if let Some(inputs) = find_crowd(alloc, &pairs)? {
        let problem = Problem::Limit(Quantity::InputsOfAnOutput, inputs, MOST_INPUTS);
        return Err(problem.at(alloc, name, last_line(&bytes)));
    }
    Ok(pairs)
}

/// The pairs that a switch list spells with the files that it includes, in order, each at its first place. A list that spells pairs
/// is read, unless the device fails or memory is refused.
///
/// `Missing`, `TooLong` and `ReadFault` come for the list and for the files that it includes. `Malformed` comes with the reasons of
/// `read_list_row` and `both sides`, and `Limit` with `include depth`, `expanded names`, `name bytes`, and `inputs of an output` at the list's
/// last line.
pub fn read_pairs<D: Desk>(
    alloc: Global,
    desk: &mut D,
    name: &Name,
) -> Result<Vec<(Name, Name)>, Fault>
    ensures told { D.told desk.new ≡ D.told desk.old }
    ensures writes { D.writes desk.new ≡ D.writes desk.old }
    ensures reads { D.reads desk.old ≤ D.reads desk.new }
    ensures spelled { ForSome (D.told desk.old) (λ files. IfOk result (λ pairs. SpellsPairs files name.now pairs.items)) }
    ensures complete { ForSome (D.told desk.old) (λ files. (pairs : List Pair) → SpellsPairs files name.now pairs → D.reads desk.new ≡ D.reads desk.old → IsOkUnless result faults.Memory) }
    ensures cause { IfErr result (HasReadCause (D.told desk.old) (D.reads desk.old < D.reads desk.new) (λ files. MeetsPairs files name.now)) }
    ensures supported { IfErr result IsSupported }
{
    read(alloc, desk, name)
}
