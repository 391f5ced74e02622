//! An implementation, from its file.

ghost use Rattle.std.specs.Prelude.{◌≡◌, ◌<◌, ◌≤◌, All, IfOk, IfErr, IsOkUnless};
ghost use Rattle.std.specs.Option.{ForSome};
ghost use Rattle.fab_base.specs.declared.fault.Fault.TheVariants as faults;
ghost use Rattle.fab_files.specs.Files.{HasReadCause};
ghost use Rattle.fab_files.specs.Stages.{ReadsFrom};
ghost use Rattle.fab_implementation.specs.Plain.{PlainImplementation};
ghost use Rattle.fab_implementation.specs.OnFabric.{IsOnFabric};
ghost use Rattle.fab_implementation.specs.Inputs.{InputsAreLines};
ghost use Rattle.fab_texts.specs.Rows.{rows_of};
ghost use Rattle.fab_impl.specs.Spelled.{Spells};
ghost use Rattle.fab_designs.specs.Implementations.{ReadsImplementation, MeetsImplementation};

use fab_base::{Fault, Name};
use fab_desk::Desk;
use fab_fabric::Fabric;
use fab_files::fetch;
use fab_impl::read_impl;
use fab_implementation::Implementation;
use std::alloc::Global;

fn read<D: Desk>(
    alloc: Global,
    desk: &mut D,
    file: &Name,
    fabric: &Fabric,
) -> Result<Implementation, Fault>
    ensures told { D.told desk.new ≡ D.told desk.old }
    ensures writes { D.writes desk.new ≡ D.writes desk.old }
    ensures reads { D.reads desk.old ≤ D.reads desk.new }
    ensures spelled { ForSome (D.told desk.old) (λ files. IfOk result (ReadsImplementation files file.now fabric.now)) }
    ensures on_fabric { IfOk result (IsOnFabric fabric.now) }
    ensures lines { IfOk result (λ it. InputsAreLines it) }
    ensures cause { IfErr result (HasReadCause (D.told desk.old) (D.reads desk.old < D.reads desk.new) (λ files. MeetsImplementation files file.now fabric.now)) }
{
    let bytes = fetch(alloc, desk, file)?;
    read_impl(alloc, file, &bytes, fabric)
}

/// The implementation on a fabric that a file spells. A file that spells one is read, unless the device fails or memory
/// is refused.
///
/// `Missing`, `TooLong` and `ReadFault` name the file. `Malformed` comes as `read_impl` gives it.
pub fn read_implementation<D: Desk>(
    alloc: Global,
    desk: &mut D,
    file: &Name,
    fabric: &Fabric,
) -> Result<Implementation, Fault>
    ensures told { D.told desk.new ≡ D.told desk.old }
    ensures writes { D.writes desk.new ≡ D.writes desk.old }
    ensures reads { D.reads desk.old ≤ D.reads desk.new }
    ensures spelled { ForSome (D.told desk.old) (λ files. IfOk result (ReadsImplementation files file.now fabric.now)) }
    ensures complete { ForSome (D.told desk.old) (λ files. (it : PlainImplementation) → ReadsFrom files file.now (λ bytes. Spells fabric.now (rows_of bytes)) it
        → D.reads desk.new ≡ D.reads desk.old → IsOkUnless result faults.Memory) }
    ensures on_fabric { IfOk result (IsOnFabric fabric.now) }
    ensures lines { IfOk result (λ it. InputsAreLines it) }
    ensures cause { IfErr result (HasReadCause (D.told desk.old) (D.reads desk.old < D.reads desk.new) (λ files. MeetsImplementation files file.now fabric.now)) }
{
    fabric.is_well_made();
    read(alloc, desk, file, fabric)
}
