//! The command `timing`: the longest timed walk of an implementation.

ghost use Rattle.std.specs.Prelude.{◌≡◌, ◌<◌, ◌⊎◌, List, All, map, option_copied, IfOk, IfErr, OnOk};
ghost use Rattle.std.specs.Str.{IsUtf8};
ghost use Rattle.fab_base.specs.declared.fault.Fault.TheVariants as faults;
ghost use Rattle.fab_netlist.specs.Cycles.{HasNoCycle};
ghost use Rattle.fab_netlist.specs.Packing.{packed as packed_of};
ghost use Rattle.fab_netlist.specs.Resets.{netlist_with};
ghost use Rattle.fab_implementation.specs.Inputs.{InputsAreLines};
ghost use Rattle.fab_implementation.specs.OnFabric.{IsOnFabric};
ghost use Rattle.fab_legal.specs.Legal.{IsLegal};
ghost use Rattle.fab_timing.specs.Text.{timing_text};
ghost use Rattle.fab_timing.specs.Walks.{IsLongest, PlainPath};
ghost use Rattle.fab_flow.specs.Assembling.{Fits, HasAssembleCause, RefusesAssembly, RefusesImplementation, assembly_files};
ghost use Rattle.fab_flow.specs.Resetting.{HasReset};
ghost use Rattle.fab_flow.specs.Timing.{IsTimed, MakesTiming};
ghost use Rattle.fab_outputs.specs.Storing.{IsDone, Leaves, plain_output};

use crate::assembling::packed_design;
use crate::resetting::take_reset;
use fab_base::{Fault, Name};
use fab_designs::{Design, read_design, read_implementation};
use fab_desk::Desk;
use fab_legal::{Implementation, Legal, check};
use fab_netlist::Packed;
use fab_outputs::{Output, one_output, store_all};
use fab_progress::{Progress, Step};
use fab_timing::{longest, print_timing};
use std::alloc::Global;

/// An implementation of a packed design, once it is found legal.
fn checked(
    alloc: Global,
    design: &Design,
    packed: &Packed,
    implementation: Implementation,
) -> Result<Legal, Fault>
    requires packed { packed.now ≡ packed_of design.now.netlist }
    requires fits { Fits design.now.fabric design.now.netlist }
    requires on_fabric { IsOnFabric design.now.fabric implementation }
    requires lines { InputsAreLines implementation }
    ensures same { IfOk result (λ legal. legal ≡ implementation) }
    ensures legal { OnOk result (IsLegal design.now.fabric (packed_of design.now.netlist) design.now.fixed implementation) }
    ensures refused { IfErr result (λ fault. (fault ≡ faults.Memory) ⊎ RefusesImplementation design.now.fabric design.now.netlist design.now.fixed implementation fault) }
{
    // what holds of every netlist is a clause of this call
    design.netlist.is_well_made();
    match check(alloc, &design.fabric, packed, &design.fixed, implementation) {
        Ok(legal) => Ok(legal),
        Err(fault) => Err(Fault::from(fault)),
    }
}

/// The text of a longest walk of a legal implementation of a packed design.
fn walk_text(
    alloc: Global,
    design: &Design,
    packed: &Packed,
    legal: &Legal,
) -> Result<Vec<u8>, Fault>
    requires packed { packed.now ≡ packed_of design.now.netlist }
    requires no_cycle { HasNoCycle design.now.netlist }
    requires on_fabric { IsOnFabric design.now.fabric legal.now }
    requires legal { IsLegal design.now.fabric (packed_of design.now.netlist) design.now.fixed legal.now }
    ensures text { IfOk result (λ text. (path : PlainPath) × IsLongest design.now.fabric (packed_of design.now.netlist) legal.now path
        × (text.items ≡ timing_text design.now.fabric path)) }
    ensures memory { IfErr result (λ fault. fault ≡ faults.Memory) }
{
    design.netlist.is_well_made();
    let path = longest(alloc, &design.fabric, packed, legal)?;
    Ok(print_timing(alloc, &design.fabric, &path)?)
}

/// What is stored of an implementation of a design, where it is legal and its fabric has sites enough.
fn timed(
    alloc: Global,
    design: &Design,
    implementation: Implementation,
    out: &Name,
) -> Result<Vec<Output>, Fault>
    requires no_cycle { HasNoCycle design.now.netlist }
    requires on_fabric { IsOnFabric design.now.fabric implementation }
    requires lines { InputsAreLines implementation }
    ensures fits { OnOk result (Fits design.now.fabric design.now.netlist) }
    ensures legal { OnOk result (IsLegal design.now.fabric (packed_of design.now.netlist) design.now.fixed implementation) }
    ensures made { IfOk result (λ outputs. IsTimed design.now.fabric design.now.netlist implementation out.now (map plain_output outputs.items)) }
    ensures names { IsUtf8 out.now → IfOk result (λ outputs. All (λ output. IsUtf8 output.name) outputs.items) }
    ensures refused { IfErr result (λ fault. (fault ≡ faults.Memory) ⊎ RefusesImplementation design.now.fabric design.now.netlist design.now.fixed implementation fault) }
{
    let packed = packed_design(alloc, design)?;
    let legal = checked(alloc, design, &packed, implementation)?;
    let text = walk_text(alloc, design, &packed, &legal)?;
    Ok(one_output(alloc, out, text)?)
}

/// The same of a design that takes the reset port of the implementation, where this names one.
fn reset_timing(
    alloc: Global,
    mut design: Design,
    implementation: Implementation,
    out: &Name,
) -> Result<Vec<Output>, Fault>
    requires no_cycle { HasNoCycle design.netlist }
    requires on_fabric { IsOnFabric design.fabric implementation }
    requires lines { InputsAreLines implementation }
    ensures resets { OnOk result (HasReset implementation.reset design.netlist) }
    ensures fits { OnOk result (Fits design.fabric (netlist_with implementation.reset design.netlist)) }
    ensures legal { OnOk result (IsLegal design.fabric (packed_of (netlist_with implementation.reset design.netlist)) design.fixed implementation) }
    ensures made { IfOk result (λ outputs. IsTimed design.fabric (netlist_with implementation.reset design.netlist) implementation out.now (map plain_output outputs.items)) }
    ensures names { IsUtf8 out.now → IfOk result (λ outputs. All (λ output. IsUtf8 output.name) outputs.items) }
    ensures refused { IfErr result (λ fault. (fault ≡ faults.Memory) ⊎ RefusesAssembly design implementation fault) }
{
    take_reset(alloc, &mut design.netlist, implementation.reset.as_ref())?;
    timed(alloc, &design, implementation, out)
}

/// Reads a design and an implementation of it, and stores in OUT a longest walk of a signal through it: its delay, and the
/// wires on its way, each with the units up to it.
///
/// The faults come as `do_assemble` gives them, and `WriteFault` names OUT. With any fault but want of memory the files that
/// the desk tells are as before.
pub fn do_timing<D: Desk, P: Progress>(
    alloc: Global,
    desk: &mut D,
    progress: &mut P,
    fabric: &Name,
    blif: &Name,
    pcf: Option<&Name>,
    implementation: &Name,
    out: &Name,
) -> Result<(), Fault>
    requires { IsUtf8 out.now }
    ensures done { OnOk result (IsDone (λ files. MakesTiming files (assembly_files fabric.now blif.now (option_copied pcf.entry) implementation.now out.now)) (D.told desk.old) (D.told desk.new)) }
    ensures leaves { IfErr result (Leaves (λ files. MakesTiming files (assembly_files fabric.now blif.now (option_copied pcf.entry) implementation.now out.now)) (D.told desk.old) (D.told desk.new)) }
    ensures cause { IfErr result (HasAssembleCause (D.told desk.old) (assembly_files fabric.now blif.now (option_copied pcf.entry) implementation.now out.now)
        (D.reads desk.old < D.reads desk.new) (D.writes desk.old < D.writes desk.new)) }
{
    let design = read_design(alloc, desk, progress, fabric, blif, pcf)?;
    progress.tell(Step::Reading(implementation));
    let read = read_implementation(alloc, desk, implementation, &design.fabric)?;
    let outputs = reset_timing(alloc, design, read, out)?;
    store_all(alloc, desk, progress, &outputs)
}
