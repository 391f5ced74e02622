//! The command `features`: the features that a bitstream spells.

ghost use Rattle.std.specs.Prelude.{◌≡◌, ◌<◌, ◌≤◌, ◌⊎◌, ◌^◌, All, IfOk, IfErr, OnOk, length};
ghost use Rattle.std.specs.Option.{ForSome};
ghost use Rattle.std.specs.Str.{IsUtf8};
ghost use Rattle.fab_base.specs.declared.TheConstants.{MAX_FILE_BYTES};
ghost use Rattle.fab_base.specs.declared.fault.Fault.TheVariants as faults;
ghost use Rattle.fab_files.specs.Files.{HasReadCause};
ghost use Rattle.fab_fabric.specs.Bits.{AreBitsOf, plain_bits};
ghost use Rattle.fab_fasm.specs.Printing.{printed};
ghost use Rattle.fab_frames.specs.Refusals.{IsStreamRefusal};
ghost use Rattle.fab_frames.specs.Stream.{stream};
ghost use Rattle.fab_assemble.specs.fab_features_Spelled.{features_in};
ghost use Rattle.fab_flow.specs.BitFeatures.{HasFeaturesCause, MakesFeatures, MeetsBitstream, ReadsBits, RefusesBitstream, SpellsBits, features_files};
ghost use Rattle.fab_outputs.specs.Storing.{IsDone, Leaves};

use fab_assemble::features_of_bits;
use fab_base::{Fault, MAX_FILE_BYTES, Memory, Name};
use fab_desk::Desk;
use fab_fabric::{Bits, Fabric};
use fab_fasm::print_fasm;
use fab_files::fetch;
use fab_frames::{bits_of, to_words};
use fab_outputs::{one_output, store_all};
use fab_progress::{Progress, Step};
use fab_read::read_fabric;
use std::alloc::Global;

/// The configuration bits that the words of a file spell.
fn bits_of_words(alloc: Global, fabric: &Fabric, file: &Name, words: &[u32]) -> Result<Bits, Fault>
    requires { length words.now ≤ 16777216 }
    ensures fit { All (λ word. word < 2 ^ 32) words.now }
    ensures are { IfOk result (AreBitsOf fabric.now) }
    ensures stream { IfOk result (λ bits. words.now ≡ stream fabric.now (plain_bits bits)) }
    ensures refused { IfErr result (λ fault. (fault ≡ faults.Memory) ⊎ IsStreamRefusal fabric.now file.now words.now fault) }
{
    bits_of(alloc, fabric, file, words)
}

/// The configuration bits that the bytes of a file spell.
fn bits_of_bytes(alloc: Global, fabric: &Fabric, file: &Name, bytes: &[u8]) -> Result<Bits, Fault>
    requires { length bytes.now ≤ MAX_FILE_BYTES }
    ensures spelled { IfOk result (SpellsBits fabric.now bytes.now) }
    ensures refused { IfErr result (λ fault. (fault ≡ faults.Memory) ⊎ RefusesBitstream fabric.now file.now bytes.now fault) }
{
    let words = to_words(alloc, file, bytes)?;
    bits_of_words(alloc, fabric, file, &words)
}

/// The configuration bits of a bitstream file that has to be there.
fn read_bits<D: Desk>(
    alloc: Global,
    desk: &mut D,
    fabric: &Fabric,
    file: &Name,
) -> Result<Bits, Fault>
    ensures told { D.told desk.new ≡ D.told desk.old }
    ensures writes { D.writes desk.new ≡ D.writes desk.old }
    ensures reads { D.reads desk.old ≤ D.reads desk.new }
    ensures spelled { ForSome (D.told desk.old) (λ files. IfOk result (ReadsBits files file.now fabric.now)) }
    ensures cause { IfErr result (HasReadCause (D.told desk.old) (D.reads desk.old < D.reads desk.new) (λ files. MeetsBitstream files file.now fabric.now)) }
{
    let bytes = fetch(alloc, desk, file)?;
    bits_of_bytes(alloc, fabric, file, &bytes)
}

/// The printed features that configuration bits spell.
fn features_text(alloc: Global, fabric: &Fabric, bits: &Bits) -> Result<Vec<u8>, Memory>
    ensures { IfOk result (λ text. text.items ≡ printed (features_in fabric.now (plain_bits bits.now))) }
{
    let features = features_of_bits(alloc, fabric, bits)?;
    print_fasm(alloc, &features)
}

/// Reads a fabric with all files that its file names, and a bitstream of it, and stores the features that its configuration bits
/// spell under the output's name.
///
/// The faults of the fabric's files come as `read_fabric` gives them, and those of the bitstream file as `to_words` and then `bits_of` do; `Missing`,
/// `TooLong` and `ReadFault` name it. `WriteFault` names the output. With any fault the files that the desk tells are as before.
pub fn do_features<D: Desk, P: Progress>(
    alloc: Global,
    desk: &mut D,
    progress: &mut P,
    fabric: &Name,
    bit: &Name,
    out: &Name,
) -> Result<(), Fault>
    requires { IsUtf8 out.now }
    ensures done { OnOk result (IsDone (λ files. MakesFeatures files (features_files fabric.now bit.now out.now)) (D.told desk.old) (D.told desk.new)) }
    ensures leaves { IfErr result (Leaves (λ files. MakesFeatures files (features_files fabric.now bit.now out.now)) (D.told desk.old) (D.told desk.new)) }
    ensures cause { IfErr result (HasFeaturesCause (D.told desk.old) (features_files fabric.now bit.now out.now) (D.reads desk.old < D.reads desk.new) (D.writes desk.old < D.writes desk.new)) }
{
    progress.tell(Step::Reading(fabric));
    let read = read_fabric(alloc, desk, fabric)?;
    progress.tell(Step::Reading(bit));
    let bits = read_bits(alloc, desk, &read, bit)?;
    let text = features_text(alloc, &read, &bits)?;
    let outputs = one_output(alloc, out, text)?;
    store_all(alloc, desk, progress, &outputs)
}
