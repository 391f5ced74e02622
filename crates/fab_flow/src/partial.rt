//! The command `partial`: the bitstream that exchanges some columns while a design runs in the others.

ghost use Rattle.std.specs.Prelude.{◌≡◌, ◌<◌, ◌≤◌, ◌⊎◌, List, decimal, IfOk, IfErr, OnOk};
ghost use Rattle.std.specs.Str.{IsUtf8};
ghost use Rattle.fab_base.specs.declared.fault.Fault.TheVariants as faults;
ghost use Rattle.fab_model.specs.declared.mode.Mode.TheVariants as modes;
ghost use Rattle.fab_fabric.specs.Fabric.{wire_count};
ghost use Rattle.fab_fabric.specs.declared.wire.Site.{Site};
ghost use Rattle.fab_fabric.specs.declared.wire.Wire.{Wire};
ghost use Rattle.fab_implementation.specs.OnFabric.{IsOnFabric};
ghost use Rattle.fab_legal.specs.Turns.{AreRight};
ghost use Rattle.fab_fasm.specs.declared.feature.Feature.{Feature};
ghost use Rattle.fab_partial.specs.Columns.{lies_within};
ghost use Rattle.fab_partial.specs.Use.{AreUnused};
ghost use Rattle.fab_partial.specs.declared.uses.Use.TheVariants as uses;
ghost use Rattle.fab_assemble.specs.fab_features_Wrong.{IsRightFeature};
ghost use Rattle.fab_flow.specs.Partial.{HasPartialCause, IsExchange, IsUseText, MakesPartial, RefusesPartial, partial_files};
ghost use Rattle.fab_outputs.specs.Storing.{IsDone, Leaves};

use crate::bits::{read_features, right_bits};
use crate::modes::check_frames;
use fab_base::{Fault, Memory, Name};
use fab_designs::read_implementation;
use fab_desk::Desk;
use fab_exchange_laws::unused_columns_exchange;
use fab_fabric::Fabric;
use fab_fasm::Feature;
use fab_frames::to_bytes;
use fab_legal::{Implementation, wire_text};
use fab_outputs::{one_output, store_all};
use fab_partial::{Use, partial, used};
use fab_progress::{Progress, Step};
use fab_read::read_fabric;
use itoa::Buffer;
use std::alloc::Global;

/// The fabric has the last of the columns, and the implementation uses none of them.
fn free_columns(
    alloc: Global,
    fabric: &Fabric,
    implementation: &Implementation,
    first: u32,
    last: u32,
) -> Result<(), Fault>
    requires on_fabric { IsOnFabric fabric.now implementation.now }
    requires order { first ≤ last }
    ensures within { OnOk result (last < fabric.now.columns) }
    ensures unused { OnOk result (AreUnused fabric.now implementation.now (lies_within first last)) }
    ensures refused { IfErr result (λ fault. (fault ≡ faults.Memory) ⊎ ((features : List Feature) → RefusesPartial fabric.now implementation.now features first last fault)) }
{
    fabric.is_well_made();
    if last >= fabric.columns() {
        return Err(Fault::Illegal(14, column_text(alloc, last)?));
    }
    match used(fabric, implementation, first, last) {
        Some(found) => Err(Fault::Illegal(13, use_text(alloc, fabric, found)?)),
        None => Ok(()),
    }
}

/// How a column is written.
fn column_text(alloc: Global, column: u32) -> Result<Name, Memory>
    ensures { IfOk result (λ text. text ≡ decimal column) }
{
    Name::of(alloc, Buffer::new().format(column).as_bytes())
}

/// How a use is written: a cell as its site, an edge as the wire that it enters.
fn use_text(alloc: Global, fabric: &Fabric, found: Use) -> Result<Name, Memory>
    requires site { (site : Site) → found ≡ uses.Cell site → site.bel < 26 }
    requires wire { (wire : Wire) → found ≡ uses.Edge wire → wire.0 < wire_count fabric.now }
    ensures { IfOk result (IsUseText fabric.now found) }
{
    match found {
        Use::Cell(site) => site.name(alloc),
        Use::Edge(wire) => wire_text(alloc, fabric, wire),
    }
}

/// The bitstream of the columns with what features set there, if the columns are free and no feature is wrong.
fn exchange(
    alloc: Global,
    fabric: &Fabric,
    implementation: &Implementation,
    features: &[Feature],
    first: u32,
    last: u32,
) -> Result<Vec<u8>, Fault>
    requires frames { fabric.now.mode ≡ modes.Frames }
    requires on_fabric { IsOnFabric fabric.now implementation.now }
    requires order { first ≤ last }
    ensures within { OnOk result (last < fabric.now.columns) }
    ensures unused { OnOk result (AreUnused fabric.now implementation.now (lies_within first last)) }
    ensures right { OnOk result (AreRight (IsRightFeature fabric.now) features.now) }
    ensures made { IfOk result (λ bytes. IsExchange fabric.now implementation.now features.now first last bytes.items) }
    ensures refused { IfErr result (λ fault. (fault ≡ faults.Memory) ⊎ RefusesPartial fabric.now implementation.now features.now first last fault) }
{
    fabric.is_well_made();
    unused_columns_exchange();
    free_columns(alloc, fabric, implementation, first, last)?;
    let bits = right_bits(alloc, fabric, features)?;
    let words = partial(alloc, fabric, &bits, first, last)?;
    Ok(to_bytes(alloc, &words)?)
}

/// Reads a fabric with all files that its file names, the implementation that runs on it, and a list of features, and stores the bitstream
/// of the columns from the first to the last under the output's name. What the features set in other columns has no effect.
///
/// The faults of the files come as `read_fabric`, `read_implementation` and `read_fasm` give them, in this order; right behind the fabric, at line 0 of its
/// file, comes `Unsupported` where its configuration is a chain of flip-flops. Behind them comes `Illegal`: rule 14 with
/// the last column, which the fabric lacks; rule 13 with what the implementation uses of the columns, a site or a wire; or rule 10 or 11 with a feature or
/// an output, as for `do_bits`. `WriteFault` names the output. With any fault the files that the desk tells are as before.
pub fn do_partial<D: Desk, P: Progress>(
    alloc: Global,
    desk: &mut D,
    progress: &mut P,
    fabric: &Name,
    implementation: &Name,
    fasm: &Name,
    first: u32,
    last: u32,
    out: &Name,
) -> Result<(), Fault>
    requires text { IsUtf8 out.now }
    requires order { first ≤ last }
    ensures done { OnOk result (IsDone (λ files. MakesPartial files (partial_files fabric.now implementation.now fasm.now first last out.now)) (D.told desk.old) (D.told desk.new)) }
    ensures leaves { IfErr result (Leaves (λ files. MakesPartial files (partial_files fabric.now implementation.now fasm.now first last out.now)) (D.told desk.old) (D.told desk.new)) }
    ensures cause { IfErr result (HasPartialCause (D.told desk.old) (partial_files fabric.now implementation.now fasm.now first last out.now)
        (D.reads desk.old < D.reads desk.new) (D.writes desk.old < D.writes desk.new)) }
{
    progress.tell(Step::Reading(fabric));
    let read = read_fabric(alloc, desk, fabric)?;
    check_frames(alloc, fabric, &read, b"partial FlipFlopChain")?;
    progress.tell(Step::Reading(implementation));
    let running = read_implementation(alloc, desk, implementation, &read)?;
    progress.tell(Step::Reading(fasm));
    let features = read_features(alloc, desk, fasm)?;
    let bytes = exchange(alloc, &read, &running, &features, first, last)?;
    let outputs = one_output(alloc, out, bytes)?;
    store_all(alloc, desk, progress, &outputs)
}
