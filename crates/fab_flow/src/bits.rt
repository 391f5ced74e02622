//! The command `bits`: the bitstream of a list of features.

ghost use Rattle.std.specs.Prelude.{◌≡◌, ◌<◌, ◌≤◌, ◌⊎◌, IfOk, IfErr, OnOk};
ghost use Rattle.std.specs.Option.{ForSome};
ghost use Rattle.std.specs.Str.{IsUtf8};
ghost use Rattle.fab_base.specs.declared.fault.Fault.TheVariants as faults;
ghost use Rattle.fab_files.specs.Files.{HasReadCause};
ghost use Rattle.fab_fabric.specs.Bits.{AreBitsOf, plain_bits};
ghost use Rattle.fab_legal.specs.Turns.{AreRight};
ghost use Rattle.fab_assemble.specs.fab_features_Features.{IsBitMapOf};
ghost use Rattle.fab_assemble.specs.fab_features_Wrong.{IsRightFeature};
ghost use Rattle.fab_flow.specs.Bits.{HasBitsCause, IsBitstreamOf, MakesBits, MeetsFeatures, ReadsFeatures, RefusesBits, bits_files};
ghost use Rattle.fab_outputs.specs.Storing.{IsDone, Leaves};

use fab_assemble::bits_of_features;
use fab_base::{Fault, Name};
use fab_desk::Desk;
use fab_fabric::{Bits, Fabric};
use fab_fasm::{Feature, read_fasm};
use fab_files::fetch;
use fab_frames::{frames, to_bytes};
use fab_outputs::{one_output, store_all};
use fab_progress::{Progress, Step};
use fab_read::read_fabric;
use std::alloc::Global;

/// The features of a FASM file that has to be there.
pub(crate) fn read_features<D: Desk>(
    alloc: Global,
    desk: &mut D,
    file: &Name,
) -> Result<Vec<Feature>, Fault>
    ensures told { D.told desk.new ≡ D.told desk.old }
    ensures writes { D.writes desk.new ≡ D.writes desk.old }
    ensures reads { D.reads desk.old ≤ D.reads desk.new }
    ensures spelled { ForSome (D.told desk.old) (λ files. IfOk result (λ features. ReadsFeatures files file.now features.items)) }
    ensures cause { IfErr result (HasReadCause (D.told desk.old) (D.reads desk.old < D.reads desk.new) (λ files. MeetsFeatures files file.now)) }
{
    let bytes = fetch(alloc, desk, file)?;
    read_fasm(alloc, file, &bytes)
}

/// The configuration bits that features set, where none of them is wrong.
pub(crate) fn right_bits(
    alloc: Global,
    fabric: &Fabric,
    features: &[Feature],
) -> Result<Bits, Fault>
    ensures are { IfOk result (AreBitsOf fabric.now) }
    ensures bits { IfOk result (λ bits. IsBitMapOf fabric.now features.now (plain_bits bits)) }
    ensures right { OnOk result (AreRight (IsRightFeature fabric.now) features.now) }
    ensures refused { IfErr result (λ fault. (fault ≡ faults.Memory) ⊎ RefusesBits fabric.now features.now fault) }
{
    match bits_of_features(alloc, fabric, features) {
        Ok(bits) => Ok(bits),
        Err(fault) => Err(Fault::from(fault)),
    }
}

/// The bitstream of features, where none of them is wrong.
fn bitstream(alloc: Global, fabric: &Fabric, features: &[Feature]) -> Result<Vec<u8>, Fault>
    ensures made { IfOk result (λ bytes. IsBitstreamOf fabric.now features.now bytes.items) }
    ensures right { OnOk result (AreRight (IsRightFeature fabric.now) features.now) }
    ensures refused { IfErr result (λ fault. (fault ≡ faults.Memory) ⊎ RefusesBits fabric.now features.now fault) }
{
    let bits = right_bits(alloc, fabric, features)?;
    let words = frames(alloc, fabric, &bits)?;
    Ok(to_bytes(alloc, &words)?)
}

/// Reads a fabric with all files that its file names, and a list of features, and stores the bitstream of the configuration bits that
/// these set under the output's name.
///
/// The faults of the fabric's files come as `read_fabric` gives them, and those of the FASM file as `read_fasm` does; `Missing`, `TooLong` and `ReadFault`
/// name it. Behind them comes `Illegal` for the first wrong line: rule 10 with the line's feature, which the fabric lacks or has fewer bits of; rule 11
/// with an output for which a line before it chooses another input. `WriteFault` names the output. With any fault the files that the desk tells are as
/// before.
pub fn do_bits<D: Desk, P: Progress>(
    alloc: Global,
    desk: &mut D,
    progress: &mut P,
    fabric: &Name,
    fasm: &Name,
    out: &Name,
) -> Result<(), Fault>
    requires { IsUtf8 out.now }
    ensures done { OnOk result (IsDone (λ files. MakesBits files (bits_files fabric.now fasm.now out.now)) (D.told desk.old) (D.told desk.new)) }
    ensures leaves { IfErr result (Leaves (λ files. MakesBits files (bits_files fabric.now fasm.now out.now)) (D.told desk.old) (D.told desk.new)) }
    ensures cause { IfErr result (HasBitsCause (D.told desk.old) (bits_files fabric.now fasm.now out.now) (D.reads desk.old < D.reads desk.new) (D.writes desk.old < D.writes desk.new)) }
{
    progress.tell(Step::Reading(fabric));
    let read = read_fabric(alloc, desk, fabric)?;
    progress.tell(Step::Reading(fasm));
    let features = read_features(alloc, desk, fasm)?;
    let bytes = bitstream(alloc, &read, &features)?;
    let outputs = one_output(alloc, out, bytes)?;
    store_all(alloc, desk, progress, &outputs)
}
