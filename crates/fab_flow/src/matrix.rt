//! The command `matrix`: the module of a switch list.

ghost use Rattle.std.specs.Prelude.{◌≡◌, ◌≢◌, ◌<◌, All, IfOk, IfErr, OnOk};
ghost use Rattle.std.specs.Str.{IsUtf8};
ghost use Rattle.fab_meaning.specs.Ports.{config_name};
ghost use Rattle.fab_flow.specs.Matrix.{module_name, IsModuleOf, MakesMatrix, HasMatrixCause};
ghost use Rattle.fab_outputs.specs.Storing.{IsDone, Leaves};

use crate::printing::printed_module;
use fab_base::{Fault, Memory, Name};
use fab_desk::Desk;
use fab_list_files::read_pairs;
use fab_matrix::list_module;
use fab_outputs::{one_output, store_all};
use fab_paths::stem;
use fab_progress::{Progress, Step};
use std::alloc::Global;

/// The name of the module that is made of a list.
fn module_name(alloc: Global, list: &Name) -> Result<Name, Memory>
    ensures { IfOk result (λ name. name ≡ module_name list.now) }
{
    let mut name = Vec::from_slice(alloc, b"matrix_")?;
    name.extend_from_slice(stem(list.bytes()))?;
    Ok(Name::from(name))
}

/// The printed module of the pairs of a list.
fn matrix_text(alloc: Global, list: &Name, pairs: &[(Name, Name)]) -> Result<Vec<u8>, Memory>
    ensures { All (λ pair. pair.1 ≢ config_name) pairs.now → IfOk result (λ text. IsModuleOf list.now pairs.now text.items) }
{
    let matrix = list_module(alloc, &module_name(alloc, list)?, pairs)?;
    printed_module(alloc, matrix)
}

/// Reads a switch list with the lists that it includes, and stores the module of its pairs under the output's name.
///
/// The faults of the list come as `read_pairs` gives them. `WriteFault` names the output. With any fault the files that the desk tells are as before.
pub fn do_matrix<D: Desk, P: Progress>(
    alloc: Global,
    desk: &mut D,
    progress: &mut P,
    list: &Name,
    out: &Name,
) -> Result<(), Fault>
    requires { IsUtf8 out.now }
    ensures done { OnOk result (IsDone (λ files. MakesMatrix files list.now out.now) (D.told desk.old) (D.told desk.new)) }
    ensures leaves { IfErr result (Leaves (λ files. MakesMatrix files list.now out.now) (D.told desk.old) (D.told desk.new)) }
    ensures cause { IfErr result (HasMatrixCause (D.told desk.old) list.now (D.reads desk.old < D.reads desk.new) (D.writes desk.old < D.writes desk.new)) }
{
    progress.tell(Step::Reading(list));
    let pairs = read_pairs(alloc, desk, list)?;
    let text = matrix_text(alloc, list, &pairs)?;
    let outputs = one_output(alloc, out, text)?;
    store_all(alloc, desk, progress, &outputs)
}
