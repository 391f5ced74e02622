//! The command `assemble`: a bitstream with its features and its state, from the files of a design and of an
//! implementation of it.

ghost use Rattle.std.specs.Prelude.{◌≡◌, ◌<◌, ◌⊎◌, ◌++◌, [], ◌∷◌, Err, List, All, map, option_copied, IfOk, IfErr, OnOk};
ghost use Rattle.std.specs.Str.{IsUtf8};
ghost use Rattle.fab_base.specs.declared.fault.Fault.TheVariants as faults;
ghost use Rattle.fab_syntax.specs.Plain.{PlainModule};
ghost use Rattle.fab_fabric.specs.Bits.{plain_bits};
ghost use Rattle.fab_netlist.specs.Cycles.{HasNoCycle};
ghost use Rattle.fab_netlist.specs.Packing.{packed as packed_of};
ghost use Rattle.fab_implementation.specs.OnFabric.{IsOnFabric};
ghost use Rattle.fab_implementation.specs.Inputs.{InputsAreLines};
ghost use Rattle.fab_legal.specs.Legal.{IsLegal};
ghost use Rattle.fab_frames.specs.Stream.{stream};
ghost use Rattle.fab_state.specs.Spelled.{HasLetters};
ghost use Rattle.fab_assemble.specs.fab_fabric_text_defs_Texts.{IsFabricText};
ghost use Rattle.fab_assemble.specs.fab_use_defs_Configuring.{Configures};
ghost use Rattle.fab_assemble.specs.fab_use_defs_Headline.{RunsDesign};
ghost use Rattle.fab_assemble.specs.fab_use_defs_Registers.{design_state};
ghost use Rattle.fab_assemble.specs.fab_settling_laws_Settling.{SettlesDesign};
ghost use Rattle.fab_gen_tile.specs.Words.{IsNamed};
ghost use Rattle.fab_assemble.specs.fab_features_Design.{design_features};
ghost use Rattle.fab_assemble.specs.fab_features_Features.{IsBitMapOf};
ghost use Rattle.fab_assemble.specs.fab_features_Naming.{HasPrefixes};
ghost use Rattle.fab_netlist.specs.Resets.{netlist_with};
ghost use Rattle.fab_flow.specs.Resetting.{HasReset};
ghost use Rattle.fab_flow.specs.Assembling.{Fits, HasAssembleCause, IsAssembly, MakesAssembly, RefusesAssembly, RefusesImplementation, assembly_files, assembly_outputs, packing_for};
ghost use Rattle.fab_outputs.specs.Storing.{IsDone, Leaves, output, plain_output};

use crate::resetting::take_reset;
use fab_assemble::{Assembled, assemble};
use fab_base::{Fault, Memory, Name};
use fab_designs::{Design, read_design, read_implementation};
use fab_desk::Desk;
use fab_fasm::print_fasm;
use fab_frames::to_bytes;
use fab_kinds::Kind;
use fab_legal::Implementation;
use fab_netlist::{Packed, pack};
use fab_outputs::{Output, put_output, store_all};
use fab_progress::{Progress, Step};
use fab_state::print_state;
use std::alloc::Global;

/// Packs the netlist of a design for its fabric.
pub(crate) fn packed_design(alloc: Global, design: &Design) -> Result<Packed, Fault>
    ensures packed { IfOk result (λ packed. packed ≡ packed_of design.now.netlist) }
    ensures fits { OnOk result (Fits design.now.fabric design.now.netlist) }
    ensures short { IfErr result (λ fault. (fault ≡ faults.Memory) ⊎ (packing_for design.now.fabric design.now.netlist ≡ Err fault)) }
{
    let luts = design.fabric.sites(Kind::Lut4c);
    let pads = design.fabric.sites(Kind::Io);
    pack(alloc, &design.netlist, luts, pads)
}

/// Assembles an implementation of a packed design.
fn assembled(
    alloc: Global,
    design: &Design,
    packed: &Packed,
    implementation: Implementation,
) -> Result<Assembled, Fault>
    requires packed { packed.now ≡ packed_of design.now.netlist }
    requires fits { Fits design.now.fabric design.now.netlist }
    requires no_cycle { HasNoCycle design.now.netlist }
    requires on_fabric { IsOnFabric design.now.fabric implementation }
    requires lines { InputsAreLines implementation }
    ensures legal { OnOk result (IsLegal design.now.fabric (packed_of design.now.netlist) design.now.fixed implementation) }
    ensures features { IfOk result (λ it. it.features.items ≡ design_features design.now.fabric (packed_of design.now.netlist) implementation) }
    ensures configures { IfOk result (λ it. Configures design.now.fabric (packed_of design.now.netlist) implementation (plain_bits it.bits)) }
    ensures map { IfOk result (λ it. All IsNamed design.now.fabric.types → All HasPrefixes design.now.fabric.types → IsBitMapOf design.now.fabric it.features.items (plain_bits it.bits)) }
    ensures words { IfOk result (λ it. it.words.items ≡ stream design.now.fabric (plain_bits it.bits)) }
    ensures state { IfOk result (λ it. it.state ≡ design_state (packed_of design.now.netlist) implementation) }
    ensures runs { IfOk result (λ it. (text : List PlainModule) → IsFabricText design.now.fabric text → RunsDesign design.now.fabric text design.now.netlist design.now.netlist implementation it.words.items it.state) }
    ensures settles { IfOk result (λ it. (text : List PlainModule) → IsFabricText design.now.fabric text → SettlesDesign design.now.fabric text design.now.netlist design.now.netlist implementation it.words.items) }
    ensures refused { IfErr result (λ fault. (fault ≡ faults.Memory) ⊎ RefusesImplementation design.now.fabric design.now.netlist design.now.fixed implementation fault) }
{
    let made = assemble(
        alloc,
        &design.fabric,
        &design.netlist,
        packed,
        &design.fixed,
        implementation,
    );
    match made {
        Ok(assembled) => Ok(assembled),
        Err(fault) => Err(Fault::from(fault)),
    }
}

/// The outputs of an assembled design.
fn outputs_of(alloc: Global, assembled: &Assembled, base: &Name) -> Result<Vec<Output>, Memory>
    requires { HasLetters assembled.now.state }
    ensures are { IfOk result (λ outputs. map plain_output outputs.items ≡ assembly_outputs base.now assembled.now.features.items assembled.now.words.items assembled.now.state) }
    ensures names { IsUtf8 base.now → IfOk result (λ outputs. All (λ output. IsUtf8 output.name) outputs.items) }
{
    let mut outputs = Vec::new(alloc);
    let fasm = print_fasm(alloc, &assembled.features)?;
    put_output(alloc, &mut outputs, base, b".fasm", fasm)?;
    let bits = to_bytes(alloc, &assembled.words)?;
    put_output(alloc, &mut outputs, base, b".bit", bits)?;
    let state = print_state(alloc, &assembled.state)?;
    put_output(alloc, &mut outputs, base, b".state", state)?;
    Ok(outputs)
}

/// What is stored of an implementation of a packed design, where it is legal.
pub(crate) fn assembly(
    alloc: Global,
    design: &Design,
    packed: &Packed,
    implementation: Implementation,
    base: &Name,
) -> Result<Vec<Output>, Fault>
    requires packed { packed.now ≡ packed_of design.now.netlist }
    requires fits { Fits design.now.fabric design.now.netlist }
    requires no_cycle { HasNoCycle design.now.netlist }
    requires on_fabric { IsOnFabric design.now.fabric implementation }
    requires lines { InputsAreLines implementation }
    ensures legal { OnOk result (IsLegal design.now.fabric (packed_of design.now.netlist) design.now.fixed implementation) }
    ensures made { IfOk result (λ outputs. All IsNamed design.now.fabric.types → All HasPrefixes design.now.fabric.types
        → IsAssembly design.now.fabric design.now.netlist design.now.netlist implementation base.now (map plain_output outputs.items)) }
    ensures names { IsUtf8 base.now → IfOk result (λ outputs. All (λ output. IsUtf8 output.name) outputs.items) }
    ensures refused { IfErr result (λ fault. (fault ≡ faults.Memory) ⊎ RefusesImplementation design.now.fabric design.now.netlist design.now.fixed implementation fault) }
{
    design.fabric.is_well_made();
    let assembled = assembled(alloc, design, packed, implementation)?;
    Ok(outputs_of(alloc, &assembled, base)?)
}

/// What is stored of an implementation of a design, where it is legal and its fabric has sites enough.
fn packed_assembly(
    alloc: Global,
    design: &Design,
    implementation: Implementation,
    base: &Name,
) -> Result<Vec<Output>, Fault>
    requires no_cycle { HasNoCycle design.now.netlist }
    requires on_fabric { IsOnFabric design.now.fabric implementation }
    requires lines { InputsAreLines implementation }
    ensures fits { OnOk result (Fits design.now.fabric design.now.netlist) }
    ensures legal { OnOk result (IsLegal design.now.fabric (packed_of design.now.netlist) design.now.fixed implementation) }
    ensures made { IfOk result (λ outputs. All IsNamed design.now.fabric.types → All HasPrefixes design.now.fabric.types
        → IsAssembly design.now.fabric design.now.netlist design.now.netlist implementation base.now (map plain_output outputs.items)) }
    ensures names { IsUtf8 base.now → IfOk result (λ outputs. All (λ output. IsUtf8 output.name) outputs.items) }
    ensures refused { IfErr result (λ fault. (fault ≡ faults.Memory) ⊎ RefusesImplementation design.now.fabric design.now.netlist design.now.fixed implementation fault) }
{
    let packed = packed_design(alloc, design)?;
    assembly(alloc, design, &packed, implementation, base)
}

/// The same of a design that takes the reset port of the implementation, where this names one.
fn reset_assembly(
    alloc: Global,
    mut design: Design,
    implementation: Implementation,
    base: &Name,
) -> Result<Vec<Output>, Fault>
    requires no_cycle { HasNoCycle design.netlist }
    requires on_fabric { IsOnFabric design.fabric implementation }
    requires lines { InputsAreLines implementation }
    ensures resets { OnOk result (HasReset implementation.reset design.netlist) }
    ensures fits { OnOk result (Fits design.fabric (netlist_with implementation.reset design.netlist)) }
    ensures legal { OnOk result (IsLegal design.fabric (packed_of (netlist_with implementation.reset design.netlist)) design.fixed implementation) }
    ensures made { IfOk result (λ outputs. All IsNamed design.fabric.types → All HasPrefixes design.fabric.types
        → IsAssembly design.fabric (netlist_with implementation.reset design.netlist) (netlist_with implementation.reset design.netlist) implementation base.now (map plain_output outputs.items)) }
    ensures names { IsUtf8 base.now → IfOk result (λ outputs. All (λ output. IsUtf8 output.name) outputs.items) }
    ensures refused { IfErr result (λ fault. (fault ≡ faults.Memory) ⊎ RefusesAssembly design implementation fault) }
{
    take_reset(alloc, &mut design.netlist, implementation.reset.as_ref())?;
    packed_assembly(alloc, &design, implementation, base)
}

/// Reads a design and an implementation of it, and stores what a device is given: the features in BASE.fasm, the
/// bitstream in BASE.bit, and in BASE.state the ports at their pads with what the flip-flops hold at first.
///
/// The netlist takes the reset port that the implementation names, if it names one. Its wide covers are split before it is packed.
///
/// The faults of the files come as `read_design` and `read_implementation` give them. Behind them come `Illegal` with rule 12, where the reset port is no
/// data input of the netlist, `Short`, where the fabric has fewer LUT4c than the packed netlist has cells, or fewer IO pads than it has data ports, and
/// `Illegal`, with the first rule that the implementation breaks and what breaks it first. `WriteFault` names an output; those before it are stored. With any
/// other fault but want of memory the files that the desk tells are as before.
pub fn do_assemble<D: Desk, P: Progress>(
    alloc: Global,
    desk: &mut D,
    progress: &mut P,
    fabric: &Name,
    blif: &Name,
    pcf: Option<&Name>,
    implementation: &Name,
    base: &Name,
) -> Result<(), Fault>
    requires { IsUtf8 base.now }
    ensures done { OnOk result (IsDone (λ files. MakesAssembly files (assembly_files fabric.now blif.now (option_copied pcf.entry) implementation.now base.now)) (D.told desk.old) (D.told desk.new)) }
    ensures leaves { IfErr result (Leaves (λ files. MakesAssembly files (assembly_files fabric.now blif.now (option_copied pcf.entry) implementation.now base.now)) (D.told desk.old) (D.told desk.new)) }
    ensures cause { IfErr result (HasAssembleCause (D.told desk.old) (assembly_files fabric.now blif.now (option_copied pcf.entry) implementation.now base.now)
        (D.reads desk.old < D.reads desk.new) (D.writes desk.old < D.writes desk.new)) }
{
    let design = read_design(alloc, desk, progress, fabric, blif, pcf)?;
    progress.tell(Step::Reading(implementation));
    let read = read_implementation(alloc, desk, implementation, &design.fabric)?;
    let outputs = reset_assembly(alloc, design, read, base)?;
    store_all(alloc, desk, progress, &outputs)
}
