//! The command `map`: an implementation of a design, placed and routed.

ghost use Rattle.std.specs.Prelude.{◌≡◌, ◌<◌, ◌≤◌, ◌⊎◌, [], ◌∷◌, All, Err, map, option_copied, IfOk, IfErr, OnOk};
ghost use Rattle.std.specs.Str.{IsUtf8};
ghost use Rattle.fab_base.specs.declared.fault.Fault.TheVariants as faults;
ghost use Rattle.fab_netlist.specs.Packing.{packed as packed_of};
ghost use Rattle.fab_implementation.specs.OnFabric.{IsOnFabric};
ghost use Rattle.fab_legal.specs.Legal.{IsLegal};
ghost use Rattle.fab_ways_laws.specs.Mapping.{IsMapping};
ghost use Rattle.fab_state.specs.Constraints.{AreFixings, data_ports};
ghost use Rattle.fab_implementation.specs.Inputs.{InputsAreLines};
ghost use Rattle.fab_designs.specs.Designs.{design_files};
ghost use Rattle.fab_flow.specs.Assembling.{Fits, packing_for};
ghost use Rattle.fab_flow.specs.Mapping.{IsMapped, MakesMapping, mapping_files, HasMappingCause, EndsUnmapped};
ghost use Rattle.fab_outputs.specs.Storing.{IsDone, Leaves, plain_output};

use crate::assembling::packed_design;
use fab_base::{Fault, Name};
use fab_designs::{Design, read_design};
use fab_desk::Desk;
use fab_impl::print_impl;
use fab_implementation::Implementation;
use fab_map::map_with_progress;
use fab_netlist::Packed;
use fab_outputs::{Output, one_output, store_all};
use fab_progress::Progress;
use std::alloc::Global;

/// Maps a packed design.
pub(crate) fn mapped_design<P: Progress>(
    alloc: Global,
    progress: &mut P,
    design: &Design,
    packed: &Packed,
    seed: u64,
    rounds: u32,
) -> Result<Implementation, Fault>
    requires packed { packed.now ≡ packed_of design.now.netlist }
    requires fits { Fits design.now.fabric design.now.netlist }
    requires fixings { AreFixings design.now.fabric (data_ports design.now.netlist) design.now.fixed }
    requires some { 1 ≤ rounds }
    requires few { rounds ≤ 64 }
    ensures mapping { IfOk result (IsMapping design.now.fabric (packed_of design.now.netlist) design.now.fixed rounds) }
    ensures legal { IfOk result (IsLegal design.now.fabric (packed_of design.now.netlist) design.now.fixed) }
    ensures on_fabric { IfOk result (IsOnFabric design.now.fabric) }
    ensures inputs { IfOk result InputsAreLines }
    ensures cause { IfErr result (EndsUnmapped design.now rounds) }
{
    // what holds of every netlist is a clause of this call
    design.netlist.is_well_made();
    map_with_progress(
        alloc,
        progress,
        &design.fabric,
        packed,
        &design.fixed,
        seed,
        rounds,
    )
}

/// What is stored of a mapping of a design.
fn mapping<P: Progress>(
    alloc: Global,
    progress: &mut P,
    design: &Design,
    seed: u64,
    rounds: u32,
    out: &Name,
) -> Result<Vec<Output>, Fault>
    requires fixings { AreFixings design.now.fabric (data_ports design.now.netlist) design.now.fixed }
    requires some { 1 ≤ rounds }
    requires few { rounds ≤ 64 }
    ensures fits { OnOk result (Fits design.now.fabric design.now.netlist) }
    ensures made { IfOk result (λ outputs. IsMapped design.now rounds out.now (map plain_output outputs.items)) }
    ensures names { IsUtf8 out.now → IfOk result (λ outputs. All (λ output. IsUtf8 output.name) outputs.items) }
    ensures cause { IfErr result (EndsUnmapped design.now rounds) }
{
    let packed = packed_design(alloc, design)?;
    let implementation = mapped_design(alloc, progress, design, &packed, seed, rounds)?;
    let text = print_impl(alloc, &design.fabric, &implementation)?;
    Ok(one_output(alloc, out, text)?)
}

/// Reads a design, places and routes it in at most so many rounds, and stores the implementation in OUT.
///
/// The faults of the files come as `read_design` gives them. Behind them comes `Short`, where the fabric has fewer LUT4c than the packed netlist has cells,
/// or fewer IO pads than it has data ports. `NoPath` and `Overused` come as `map` of `fab_map` gives them. `WriteFault` names OUT. With any fault but want
/// of memory the files that the desk tells are as before.
pub fn do_map<D: Desk, P: Progress>(
    alloc: Global,
    desk: &mut D,
    progress: &mut P,
    fabric: &Name,
    blif: &Name,
    pcf: Option<&Name>,
    seed: u64,
    rounds: u32,
    out: &Name,
) -> Result<(), Fault>
    requires text { IsUtf8 out.now }
    requires some { 1 ≤ rounds }
    requires few { rounds ≤ 64 }
    ensures done { OnOk result (IsDone (λ files. MakesMapping files (mapping_files (design_files fabric.now blif.now (option_copied pcf.entry)) out.now) rounds) (D.told desk.old) (D.told desk.new)) }
    ensures leaves { IfErr result (Leaves (λ files. MakesMapping files (mapping_files (design_files fabric.now blif.now (option_copied pcf.entry)) out.now) rounds) (D.told desk.old) (D.told desk.new)) }
    ensures cause { IfErr result (HasMappingCause (D.told desk.old) (mapping_files (design_files fabric.now blif.now (option_copied pcf.entry)) out.now) rounds
        (D.reads desk.old < D.reads desk.new) (D.writes desk.old < D.writes desk.new)) }
{
    let design = read_design(alloc, desk, progress, fabric, blif, pcf)?;
    let outputs = mapping(alloc, progress, &design, seed, rounds, out)?;
    store_all(alloc, desk, progress, &outputs)
}
