//! The files of a design, one behind the other.

ghost use Rattle.std.specs.Prelude.{◌≡◌, ◌<◌, ◌≤◌, length, IfOk, IfErr, IsOkUnless, option_copied};
ghost use Rattle.std.specs.Option.{ForSome};
ghost use Rattle.fab_base.specs.declared.fault.Fault.TheVariants as faults;
ghost use Rattle.fab_files.specs.Files.{HasReadCause};
ghost use Rattle.fab_netlist.specs.Cycles.{HasNoCycle};
ghost use Rattle.fab_state.specs.Constraints.{AreFixings, data_ports};
ghost use Rattle.fab_designs.specs.Designs.{PlainDesign, design_files, SpellsDesign, MeetsDesign};
ghost use Rattle.fab_netlist.specs.WellMade.{most_nets};

use crate::constraints::read_constraints;
use crate::netlist::read_netlist;
use fab_base::{Fault, Name};
use fab_desk::Desk;
use fab_fabric::Fabric;
use fab_implementation::Fixed;
use fab_netlist::Netlist;
use fab_progress::{Progress, Step};
use fab_read::read_fabric;
use std::alloc::Global;
use std::marker::Model;

/// What a command places, routes or assembles. Contracts see it as a record of these three.
#[derive(Debug, Drop)]
pub struct Design {
    /// The fabric that it is for.
    pub fabric: Fabric,
    /// Its netlist, in which wide covers are split.
    pub netlist: Netlist,
    /// The sites on which some of its ports have to stand.
    pub fixed: Fixed,
}

impl Model for Design {
    ghost use Rattle.fab_designs.specs.Designs.{PlainDesign};

    ghost Value = { PlainDesign };

    ghost view = { λ design. record { fabric = design.fabric; netlist = design.netlist; fixed = design.fixed } };
}

fn read<D: Desk, P: Progress>(
    alloc: Global,
    desk: &mut D,
    progress: &mut P,
    fabric: &Name,
    blif: &Name,
    pcf: Option<&Name>,
) -> Result<Design, Fault>
    ensures told { D.told desk.new ≡ D.told desk.old }
    ensures writes { D.writes desk.new ≡ D.writes desk.old }
    ensures reads { D.reads desk.old ≤ D.reads desk.new }
    ensures spelled { ForSome (D.told desk.old) (λ files. IfOk result (SpellsDesign files (design_files fabric.now blif.now (option_copied pcf.entry)))) }
    ensures acyclic { IfOk result (λ design. HasNoCycle design.netlist) }
    ensures small { IfOk result (λ design. length design.netlist.nets ≤ most_nets) }
    ensures fixings { IfOk result (λ design. AreFixings design.fabric (data_ports design.netlist) design.fixed) }
    ensures cause { IfErr result (HasReadCause (D.told desk.old) (D.reads desk.old < D.reads desk.new) (λ files. MeetsDesign files (design_files fabric.now blif.now (option_copied pcf.entry)))) }
{
    progress.tell(Step::Reading(fabric));
    let fabric = read_fabric(alloc, desk, fabric)?;
    progress.tell(Step::Reading(blif));
    let netlist = read_netlist(alloc, desk, blif)?;
    let fixed = read_constraints(alloc, desk, progress, pcf, &fabric, &netlist)?;
    Ok(Design {
        fabric,
        netlist,
        fixed,
    })
}

/// Reads a design: the fabric with all files that its file names, then the BLIF file, and then the pcf file, if one is
/// named. Files that spell a design are read, unless the device fails or memory is refused.
///
/// The faults of each file come as `read_fabric`, `read_wide` and `read_pcf` give them, those of an earlier file before
/// those of a later one, which is then not asked for. Behind those of `read_wide` comes that of `split`. `Missing`, `TooLong`
/// and `ReadFault` name the file.
pub fn read_design<D: Desk, P: Progress>(
    alloc: Global,
    desk: &mut D,
    progress: &mut P,
    fabric: &Name,
    blif: &Name,
    pcf: Option<&Name>,
) -> Result<Design, Fault>
    ensures told { D.told desk.new ≡ D.told desk.old }
    ensures writes { D.writes desk.new ≡ D.writes desk.old }
    ensures reads { D.reads desk.old ≤ D.reads desk.new }
    ensures spelled { ForSome (D.told desk.old) (λ files. IfOk result (SpellsDesign files (design_files fabric.now blif.now (option_copied pcf.entry)))) }
    ensures complete { ForSome (D.told desk.old) (λ files. (design : PlainDesign) → SpellsDesign files (design_files fabric.now blif.now (option_copied pcf.entry)) design
        → D.reads desk.new ≡ D.reads desk.old → IsOkUnless result faults.Memory) }
    ensures acyclic { IfOk result (λ design. HasNoCycle design.netlist) }
    ensures small { IfOk result (λ design. length design.netlist.nets ≤ most_nets) }
    ensures fixings { IfOk result (λ design. AreFixings design.fabric (data_ports design.netlist) design.fixed) }
    ensures cause { IfErr result (HasReadCause (D.told desk.old) (D.reads desk.old < D.reads desk.new) (λ files. MeetsDesign files (design_files fabric.now blif.now (option_copied pcf.entry)))) }
{
    read(alloc, desk, progress, fabric, blif, pcf)
}
