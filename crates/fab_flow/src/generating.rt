//! The command `generate`: the text of a fabric, from the files that spell it.

ghost use Rattle.std.specs.Prelude.{◌≡◌, ◌<◌, ◌≤◌, ◌+◌, ◌⊎◌, All, length, IfOk, IfErr, OnOk};
ghost use Rattle.std.specs.Str.{IsUtf8};
ghost use Rattle.fab_base.specs.declared.TheConstants.{MAX_FILE_BYTES};
ghost use Rattle.fab_base.specs.Reading.{fault_at};
ghost use Rattle.fab_base.specs.declared.fault.Fault.TheVariants as faults;
ghost use Rattle.fab_base.specs.declared.problem.Problem.TheVariants as problems;
ghost use Rattle.fab_base.specs.declared.words.Quantity.TheVariants as quantities;
ghost use Rattle.fab_syntax.specs.Spelling.{text_bytes};
ghost use Rattle.fab_gen_tile.specs.Words.{IsNamed};
ghost use Rattle.fab_assemble.specs.fab_drives_laws_Drives.{ShowsDrives};
ghost use Rattle.fab_assemble.specs.fab_text_loads_laws_Loads.{LoadsConfigurations};
ghost use Rattle.fab_gen_top.specs.fab_fabric_text_defs_Mode.{text_mode};
ghost use Rattle.fab_assemble.specs.fab_fabric_text_defs_Texts.{loaders_of, IsFabricText};
ghost use Rattle.fab_flow.specs.Generating.{generated_text, text_length, most_text_bytes, IsTooLong, MakesFabric, HasGenerateCause};
ghost use Rattle.fab_outputs.specs.Storing.{IsDone, Leaves};

use crate::printing::{PrintedText, printed_text};
use fab_base::{Fault, Memory, Name, Problem, Quantity};
use fab_desk::Desk;
use fab_fabric::Fabric;
use fab_gen_top::{generate, text_mode};
use fab_model::Mode;
use fab_outputs::{one_output, store_all};
use fab_progress::{Progress, Step};
use fab_read::read_fabric;
use std::alloc::Global;

/// The most bytes of the text of a fabric without the module of a loader. With that module the text is no longer than a file may
/// be that is read.
const MOST_TEXT_BYTES: u64 = 67_043_328;

/// How many loaders stand in the text of a fabric, right in front of its top: one, or none where its configuration is a chain.
pub(crate) fn loader_count(fabric: &Fabric) -> usize
    ensures { result ≡ length (loaders_of (text_mode fabric.now) fabric.now.rows) }
{
    match text_mode(fabric) {
        Mode::Frames => 1,
        Mode::Chain => 0,
    }
}

/// The printed text of a fabric.
fn printed_fabric(alloc: Global, fabric: &Fabric) -> Result<PrintedText, Memory>
    ensures printed { IfOk result (λ text. text.bytes.items ≡ text_bytes (generated_text fabric.now)) }
    ensures is_text { OnOk result (All IsNamed fabric.now.types → IsFabricText fabric.now (generated_text fabric.now)) }
    ensures drives { OnOk result (ShowsDrives fabric.now (generated_text fabric.now)) }
    ensures loads { OnOk result (All IsNamed fabric.now.types → LoadsConfigurations fabric.now (generated_text fabric.now)) }
    ensures length { IfOk result (λ text. text.unloaded ≡ text_length fabric.now) }
{
    let text = generate(alloc, fabric)?;
    let top = text.modules.len() - 1;
    let first = top - loader_count(fabric);
    printed_text(alloc, text, first, top)
}

/// Refuses the text of a fabric that has too many bytes.
pub(crate) fn check_length(alloc: Global, fabric: &Name, bytes: u64) -> Result<(), Fault>
    ensures short { OnOk result (bytes ≤ most_text_bytes) }
    ensures long { IfErr result (λ fault. (fault ≡ faults.Memory) ⊎ ((most_text_bytes < bytes)
        × (fault ≡ fault_at fabric.now 0 (problems.Limit quantities.TextBytes bytes most_text_bytes)))) }
{
    if bytes > MOST_TEXT_BYTES {
        let problem = Problem::Limit(Quantity::TextBytes, bytes, MOST_TEXT_BYTES);
        return Err(problem.at(alloc, fabric, 0));
    }
    Ok(())
}

/// The printed text of a fabric, where it is not too long.
pub(crate) fn fabric_text(alloc: Global, name: &Name, fabric: &Fabric) -> Result<Vec<u8>, Fault>
    ensures printed { IfOk result (λ text. text.items ≡ text_bytes (generated_text fabric.now)) }
    ensures is_text { OnOk result (All IsNamed fabric.now.types → IsFabricText fabric.now (generated_text fabric.now)) }
    ensures drives { OnOk result (ShowsDrives fabric.now (generated_text fabric.now)) }
    ensures loads { OnOk result (All IsNamed fabric.now.types → LoadsConfigurations fabric.now (generated_text fabric.now)) }
    ensures short { OnOk result (text_length fabric.now ≤ most_text_bytes) }
    ensures readable { IfOk result (λ text. length text.items ≤ MAX_FILE_BYTES) }
    ensures long { IfErr result (λ fault. (fault ≡ faults.Memory) ⊎ IsTooLong name.now fabric.now fault) }
{
    fabric.is_well_made();
    let text = printed_fabric(alloc, fabric)?;
    check_length(alloc, name, text.unloaded)?;
    Ok(text.bytes)
}

/// Reads a fabric with all files that its file names, and stores its text under the output's name: the primitives, the modules of
/// its tiles, the loader where the configuration is kept in frames, and the top.
///
/// The faults of the fabric's files come as `read_fabric` gives them. A text that has more than 67043328 bytes without a loader is refused behind them,
/// by the limit of `text bytes` at line 0 of the fabric file. `WriteFault` names the output. With any fault the files that the desk tells are as before.
pub fn do_generate<D: Desk, P: Progress>(
    alloc: Global,
    desk: &mut D,
    progress: &mut P,
    fabric: &Name,
    out: &Name,
) -> Result<(), Fault>
    requires { IsUtf8 out.now }
    ensures done { OnOk result (IsDone (λ files. MakesFabric files fabric.now out.now) (D.told desk.old) (D.told desk.new)) }
    ensures leaves { IfErr result (Leaves (λ files. MakesFabric files fabric.now out.now) (D.told desk.old) (D.told desk.new)) }
    ensures cause { IfErr result (HasGenerateCause (D.told desk.old) fabric.now (D.reads desk.old < D.reads desk.new) (D.writes desk.old < D.writes desk.new)) }
{
    progress.tell(Step::Reading(fabric));
    let read = read_fabric(alloc, desk, fabric)?;
    let text = fabric_text(alloc, fabric, &read)?;
    let outputs = one_output(alloc, out, text)?;
    store_all(alloc, desk, progress, &outputs)
}
