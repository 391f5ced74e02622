//! The command `serial`: the text of a fabric that is loaded bit by bit.

ghost use Rattle.std.specs.Prelude.{◌≡◌, ◌<◌, ◌≤◌, ◌+◌, ◌⊎◌, All, length, IfOk, IfErr, OnOk};
ghost use Rattle.std.specs.Str.{IsUtf8};
ghost use Rattle.fab_base.specs.declared.TheConstants.{MAX_FILE_BYTES};
ghost use Rattle.fab_base.specs.declared.fault.Fault.TheVariants as faults;
ghost use Rattle.fab_model.specs.declared.mode.Mode.TheVariants as modes;
ghost use Rattle.fab_syntax.specs.Sound.{IsSound};
ghost use Rattle.fab_syntax.specs.Spelling.{text_bytes};
ghost use Rattle.fab_gen_tile.specs.Words.{IsNamed};
ghost use Rattle.fab_assemble.specs.fab_fabric_text_defs_Texts.{IsFabricText};
ghost use Rattle.fab_serial.specs.Delivery.{DeliversSerially};
ghost use Rattle.fab_serial_laws.specs.Loads.{LoadsSerially};
ghost use Rattle.fab_flow.specs.Generating.{generated_text, most_text_bytes};
ghost use Rattle.fab_flow.specs.Serial.{text_with_port, serial_length, RefusesSerial, MakesSerial, HasSerialCause};
ghost use Rattle.fab_outputs.specs.Storing.{IsDone, Leaves};

use crate::generating::{check_length, loader_count};
use crate::modes::check_frames;
use crate::printing::{PrintedText, printed_text};
use fab_base::{Fault, Memory, Name};
use fab_desk::Desk;
use fab_fabric::Fabric;
use fab_gen_top::generate;
use fab_outputs::{one_output, store_all};
use fab_progress::{Progress, Step};
use fab_read::read_fabric;
use fab_serial::serial_text;
use fab_serial_laws::{fabric_texts_take_ports, serial_texts_load};
use std::alloc::Global;

/// The printed text of a fabric in frames with a serial port. Behind its loaders stand the top, the port and the new top.
fn printed_with_port(alloc: Global, fabric: &Fabric) -> Result<PrintedText, Memory>
    requires { fabric.now.mode ≡ modes.Frames }
    ensures printed { IfOk result (λ text. text.bytes.items ≡ text_bytes (text_with_port fabric.now)) }
    ensures is_text { OnOk result (All IsNamed fabric.now.types → IsFabricText fabric.now (generated_text fabric.now)) }
    ensures sound { OnOk result (All IsNamed fabric.now.types → IsSound (text_with_port fabric.now)) }
    ensures delivers { OnOk result (All IsNamed fabric.now.types → DeliversSerially (text_with_port fabric.now)) }
    ensures loads { OnOk result (All IsNamed fabric.now.types → LoadsSerially fabric.now (text_with_port fabric.now)) }
    ensures length { IfOk result (λ text. text.unloaded ≡ serial_length fabric.now) }
{
    fabric.is_well_made();
    fabric_texts_take_ports();
    serial_texts_load();
    let text = generate(alloc, fabric)?;
    let top = text.modules.len() - 1;
    let first = top - loader_count(fabric);
    let text = serial_text(alloc, text)?;
    printed_text(alloc, text, first, top)
}

/// The printed text of a fabric with a serial port, where the fabric is none with a chain and the text is not too long.
fn text_with_port(alloc: Global, name: &Name, fabric: &Fabric) -> Result<Vec<u8>, Fault>
    ensures frames { OnOk result (fabric.now.mode ≡ modes.Frames) }
    ensures printed { IfOk result (λ text. text.items ≡ text_bytes (text_with_port fabric.now)) }
    ensures is_text { OnOk result (All IsNamed fabric.now.types → IsFabricText fabric.now (generated_text fabric.now)) }
    ensures sound { OnOk result (All IsNamed fabric.now.types → IsSound (text_with_port fabric.now)) }
    ensures delivers { OnOk result (All IsNamed fabric.now.types → DeliversSerially (text_with_port fabric.now)) }
    ensures loads { OnOk result (All IsNamed fabric.now.types → LoadsSerially fabric.now (text_with_port fabric.now)) }
    ensures short { OnOk result (serial_length fabric.now ≤ most_text_bytes) }
    ensures readable { IfOk result (λ text. length text.items ≤ MAX_FILE_BYTES) }
    ensures refused { IfErr result (λ fault. (fault ≡ faults.Memory) ⊎ RefusesSerial name.now fabric.now fault) }
{
    fabric.is_well_made();
    check_frames(alloc, name, fabric, b"serial FlipFlopChain")?;
    let text = printed_with_port(alloc, fabric)?;
    check_length(alloc, name, text.unloaded)?;
    Ok(text.bytes)
}

/// Reads a fabric with all files that its file names, and stores its text with a serial port under the output's name: the text of `do_generate`, the module
/// of the port, and a top that joins the port to the fabric's own top.
///
/// The faults of the fabric's files come as `read_fabric` gives them. Behind them, at line 0 of the fabric file, comes `Unsupported` where the configuration is
/// a chain of flip-flops; or the limit of `text bytes` where the text has more than 67043328 bytes without its loader. `WriteFault` names the output.
/// With any fault the files that the desk tells are as before.
pub fn do_serial<D: Desk, P: Progress>(
    alloc: Global,
    desk: &mut D,
    progress: &mut P,
    fabric: &Name,
    out: &Name,
) -> Result<(), Fault>
    requires { IsUtf8 out.now }
    ensures done { OnOk result (IsDone (λ files. MakesSerial files fabric.now out.now) (D.told desk.old) (D.told desk.new)) }
    ensures leaves { IfErr result (Leaves (λ files. MakesSerial files fabric.now out.now) (D.told desk.old) (D.told desk.new)) }
    ensures cause { IfErr result (HasSerialCause (D.told desk.old) fabric.now (D.reads desk.old < D.reads desk.new) (D.writes desk.old < D.writes desk.new)) }
{
    progress.tell(Step::Reading(fabric));
    let read = read_fabric(alloc, desk, fabric)?;
    let text = text_with_port(alloc, fabric, &read)?;
    let outputs = one_output(alloc, out, text)?;
    store_all(alloc, desk, progress, &outputs)
}
