//! The command `flow`: the text of a fabric, and a design placed, routed and assembled for it.

ghost use Rattle.std.specs.Prelude.{◌≡◌, ◌<◌, ◌≤◌, List, All, map, option_copied, IfOk, IfErr, OnOk};
ghost use Rattle.std.specs.Str.{IsUtf8};
ghost use Rattle.fab_base.specs.declared.fault.Fault.TheVariants as faults;
ghost use Rattle.fab_gen_tile.specs.Words.{IsNamed};
ghost use Rattle.fab_netlist.specs.Cycles.{HasNoCycle};
ghost use Rattle.fab_netlist.specs.Packing.{packed as packed_of};
ghost use Rattle.fab_netlist.specs.Resets.{netlist_with};
ghost use Rattle.fab_implementation.specs.Plain.{PlainImplementation};
ghost use Rattle.fab_implementation.specs.OnFabric.{IsOnFabric};
ghost use Rattle.fab_legal.specs.Legal.{IsLegal};
ghost use Rattle.fab_ways_laws.specs.Mapping.{IsMapping};
ghost use Rattle.fab_state.specs.Constraints.{AreFixings, data_ports};
ghost use Rattle.fab_implementation.specs.Inputs.{InputsAreLines};
ghost use Rattle.fab_impl.specs.Spelled.{implementation_text};
ghost use Rattle.fab_assemble.specs.fab_features_Naming.{HasPrefixes};
ghost use Rattle.fab_flow.specs.Assembling.{Fits, IsAssembly};
ghost use Rattle.fab_flow.specs.Flowing.{EndsFlow, HasFlowCause, IsFlow, MakesFlow, flow_files, flow_outputs};
ghost use Rattle.fab_flow.specs.Generating.{text_length, most_text_bytes};
ghost use Rattle.fab_flow.specs.Mapping.{EndsUnmapped};
ghost use Rattle.fab_flow.specs.Resetting.{HasReset};
ghost use Rattle.fab_outputs.specs.Storing.{IsDone, Leaves, PlainOutput, plain_output};

use crate::assembling::{assembly, packed_design};
use crate::generating::fabric_text;
use crate::mapping::mapped_design;
use crate::resetting::take_reset;
use fab_base::{Fault, Memory, Name};
use fab_designs::{Design, read_design};
use fab_desk::Desk;
use fab_impl::print_impl;
use fab_legal::Implementation;
use fab_netlist::Packed;
use fab_outputs::{Output, put_output, store_all};
use fab_progress::Progress;
use std::alloc::Global;

/// The outputs for a text and an implementation, with others behind them.
fn with_sources(
    alloc: Global,
    text: Vec<u8>,
    implementation: Vec<u8>,
    mut assembled: Vec<Output>,
    base: &Name,
) -> Result<Vec<Output>, Memory>
    ensures are { IfOk result (λ outputs. map plain_output outputs.items ≡ flow_outputs base.now text.items implementation.items (map plain_output assembled.items)) }
    ensures names { IsUtf8 base.now → All (λ output. IsUtf8 output.name) assembled.items → IfOk result (λ outputs. All (λ output. IsUtf8 output.name) outputs.items) }
{
    let mut outputs = Vec::new(alloc);
    put_output(alloc, &mut outputs, base, b".v", text)?;
    put_output(alloc, &mut outputs, base, b".impl", implementation)?;
    outputs.append(&mut assembled)?;
    Ok(outputs)
}

/// All outputs of a design that is mapped, with the text of its fabric. Only want of memory comes: what is legal is
/// assembled.
fn all_outputs(
    alloc: Global,
    design: &Design,
    packed: &Packed,
    text: Vec<u8>,
    implementation: Implementation,
    base: &Name,
) -> Result<Vec<Output>, Fault>
    requires packed { packed.now ≡ packed_of design.now.netlist }
    requires no_cycle { HasNoCycle design.now.netlist }
    requires fits { Fits design.now.fabric design.now.netlist }
    requires legal { IsLegal design.now.fabric (packed_of design.now.netlist) design.now.fixed implementation }
    requires on_fabric { IsOnFabric design.now.fabric implementation }
    requires inputs { InputsAreLines implementation }
    ensures made { IfOk result (λ outputs. All IsNamed design.now.fabric.types → All HasPrefixes design.now.fabric.types
        → (assembled : List PlainOutput) × IsAssembly design.now.fabric design.now.netlist design.now.netlist implementation base.now assembled
        × (map plain_output outputs.items ≡ flow_outputs base.now text.items (implementation_text design.now.fabric implementation) assembled)) }
    ensures names { IsUtf8 base.now → IfOk result (λ outputs. All (λ output. IsUtf8 output.name) outputs.items) }
    ensures memory { IfErr result (λ fault. fault ≡ faults.Memory) }
{
    // what holds of every netlist is a clause of this call
    design.netlist.is_well_made();
    let printed = print_impl(alloc, &design.fabric, &implementation)?;
    let assembled = assembly(alloc, design, packed, implementation, base)?;
    Ok(with_sources(alloc, text, printed, assembled, base)?)
}

/// Maps a design, and gives all that is stored of it and of the text of its fabric.
fn mapped_outputs<P: Progress>(
    alloc: Global,
    progress: &mut P,
    design: &Design,
    text: Vec<u8>,
    seed: u64,
    rounds: u32,
    base: &Name,
) -> Result<Vec<Output>, Fault>
    requires no_cycle { HasNoCycle design.now.netlist }
    requires fixings { AreFixings design.now.fabric (data_ports design.now.netlist) design.now.fixed }
    requires some { 1 ≤ rounds }
    requires few { rounds ≤ 64 }
    ensures fits { OnOk result (Fits design.now.fabric design.now.netlist) }
    ensures made { IfOk result (λ outputs. All IsNamed design.now.fabric.types → All HasPrefixes design.now.fabric.types
        → (implementation : PlainImplementation) × IsMapping design.now.fabric (packed_of design.now.netlist) design.now.fixed rounds implementation
        × IsLegal design.now.fabric (packed_of design.now.netlist) design.now.fixed implementation
        × ((assembled : List PlainOutput) × IsAssembly design.now.fabric design.now.netlist design.now.netlist implementation base.now assembled
        × (map plain_output outputs.items ≡ flow_outputs base.now text.items (implementation_text design.now.fabric implementation) assembled))) }
    ensures names { IsUtf8 base.now → IfOk result (λ outputs. All (λ output. IsUtf8 output.name) outputs.items) }
    ensures ends { IfErr result (EndsUnmapped design.now rounds) }
{
    let packed = packed_design(alloc, design)?;
    let implementation = mapped_design(alloc, progress, design, &packed, seed, rounds)?;
    all_outputs(alloc, design, &packed, text, implementation, base)
}

/// Makes the text of a design's fabric, maps the design with the reset port that is named, and gives all that is stored of
/// both.
fn flowed<P: Progress>(
    alloc: Global,
    progress: &mut P,
    name: &Name,
    mut design: Design,
    seed: u64,
    rounds: u32,
    reset: Option<&Name>,
    base: &Name,
) -> Result<Vec<Output>, Fault>
    requires no_cycle { HasNoCycle design.netlist }
    requires fixings { AreFixings design.fabric (data_ports design.netlist) design.fixed }
    requires some { 1 ≤ rounds }
    requires few { rounds ≤ 64 }
    ensures short { OnOk result (text_length design.fabric ≤ most_text_bytes) }
    ensures resets { OnOk result (HasReset (option_copied reset.entry) design.netlist) }
    ensures fits { OnOk result (Fits design.fabric (netlist_with (option_copied reset.entry) design.netlist)) }
    ensures made { IfOk result (λ outputs. All IsNamed design.fabric.types → All HasPrefixes design.fabric.types
        → IsFlow design.fabric (netlist_with (option_copied reset.entry) design.netlist) (netlist_with (option_copied reset.entry) design.netlist) design.fixed rounds
        base.now (map plain_output outputs.items)) }
    ensures names { IsUtf8 base.now → IfOk result (λ outputs. All (λ output. IsUtf8 output.name) outputs.items) }
    ensures ends { IfErr result (EndsFlow name.now (option_copied reset.entry) design rounds) }
{
    let text = fabric_text(alloc, name, &design.fabric)?;
    take_reset(alloc, &mut design.netlist, reset)?;
    mapped_outputs(alloc, progress, &design, text, seed, rounds, base)
}

/// Reads a design, places and routes it in at most so many rounds, and stores all that it comes to: the text of the
/// fabric in BASE.v, the implementation in BASE.impl, its features in BASE.fasm, the bitstream in BASE.bit, and in
/// BASE.state the ports at their pads with what the flip-flops hold at first. The search begins with the seed. Where a reset
/// port is named, the netlist takes it: it goes to the resets of all flip-flops that hold a latch.
///
/// The faults of the files come as `read_design` gives them. Behind them come the limit of `text bytes`, as of `do_generate`, then `Illegal` with rule 12,
/// where the reset port is no data input of the netlist, and then `Short`, where the fabric has fewer LUT4c than the packed netlist has cells, or fewer IO
/// pads than it has data ports. `NoPath` and `Overused` come as `map` of `fab_map` gives them. All outputs are made before the first is stored.
/// `WriteFault` names an output; those before it are stored. With any other fault but want of memory the files that the desk tells are as before.
pub fn do_flow<D: Desk, P: Progress>(
    alloc: Global,
    desk: &mut D,
    progress: &mut P,
    fabric: &Name,
    blif: &Name,
    pcf: Option<&Name>,
    seed: u64,
    rounds: u32,
    reset: Option<&Name>,
    base: &Name,
) -> Result<(), Fault>
    requires text { IsUtf8 base.now }
    requires some { 1 ≤ rounds }
    requires few { rounds ≤ 64 }
    ensures done { OnOk result (IsDone (λ files. MakesFlow files (flow_files fabric.now blif.now (option_copied pcf.entry) (option_copied reset.entry) base.now) rounds) (D.told desk.old) (D.told desk.new)) }
    ensures leaves { IfErr result (Leaves (λ files. MakesFlow files (flow_files fabric.now blif.now (option_copied pcf.entry) (option_copied reset.entry) base.now) rounds) (D.told desk.old) (D.told desk.new)) }
    ensures cause { IfErr result (HasFlowCause (D.told desk.old) (flow_files fabric.now blif.now (option_copied pcf.entry) (option_copied reset.entry) base.now) rounds
        (D.reads desk.old < D.reads desk.new) (D.writes desk.old < D.writes desk.new)) }
{
    let design = read_design(alloc, desk, progress, fabric, blif, pcf)?;
    let outputs = flowed(alloc, progress, fabric, design, seed, rounds, reset, base)?;
    store_all(alloc, desk, progress, &outputs)
}
