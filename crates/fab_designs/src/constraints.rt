//! The constraints of a design, from its pcf file where one is named.

ghost use Rattle.std.specs.Prelude.{◌≡◌, ◌<◌, ◌≤◌, [], Some, IfOk, IfErr, option_copied};
ghost use Rattle.std.specs.Option.{ForSome};
ghost use Rattle.fab_files.specs.Files.{HasReadCause};
ghost use Rattle.fab_files.specs.Stages.{ReadsFrom, ReadsIfNamed};
ghost use Rattle.fab_state.specs.Constraints.{AreFixings, data_ports};
ghost use Rattle.fab_designs.specs.Designs.{SpellsConstraints, MeetsConstraints};

use fab_base::{Fault, Name};
use fab_desk::Desk;
use fab_fabric::Fabric;
use fab_files::fetch;
use fab_implementation::Fixed;
use fab_netlist::Netlist;
use fab_progress::{Progress, Step};
use fab_state::read_pcf;
use std::alloc::Global;

fn read_file<D: Desk, P: Progress>(
    alloc: Global,
    desk: &mut D,
    progress: &mut P,
    file: &Name,
    fabric: &Fabric,
    netlist: &Netlist,
) -> Result<Fixed, Fault>
    ensures told { D.told desk.new ≡ D.told desk.old }
    ensures writes { D.writes desk.new ≡ D.writes desk.old }
    ensures reads { D.reads desk.old ≤ D.reads desk.new }
    ensures spelled { ForSome (D.told desk.old) (λ files. IfOk result (ReadsFrom files file.now (SpellsConstraints fabric.now netlist.now))) }
    ensures fixings { IfOk result (AreFixings fabric.now (data_ports netlist.now)) }
    ensures cause { IfErr result (HasReadCause (D.told desk.old) (D.reads desk.old < D.reads desk.new) (λ files. MeetsConstraints files (Some file.now) fabric.now netlist.now)) }
{
    progress.tell(Step::Reading(file));
    let bytes = fetch(alloc, desk, file)?;
    read_pcf(alloc, file, &bytes, fabric, netlist)
}

/// The sites on which a pcf file fixes the ports of a netlist; none where no file is named. Its faults come as `fetch` and
/// `read_pcf` give them.
pub fn read_constraints<D: Desk, P: Progress>(
    alloc: Global,
    desk: &mut D,
    progress: &mut P,
    pcf: Option<&Name>,
    fabric: &Fabric,
    netlist: &Netlist,
) -> Result<Fixed, Fault>
    ensures told { D.told desk.new ≡ D.told desk.old }
    ensures writes { D.writes desk.new ≡ D.writes desk.old }
    ensures reads { D.reads desk.old ≤ D.reads desk.new }
    ensures spelled { ForSome (D.told desk.old) (λ files. IfOk result (ReadsIfNamed files (option_copied pcf.entry) (SpellsConstraints fabric.now netlist.now) [])) }
    ensures fixings { IfOk result (AreFixings fabric.now (data_ports netlist.now)) }
    ensures cause { IfErr result (HasReadCause (D.told desk.old) (D.reads desk.old < D.reads desk.new) (λ files. MeetsConstraints files (option_copied pcf.entry) fabric.now netlist.now)) }
{
    match pcf {
        None => Ok(Fixed {
            pads: Vec::new(alloc),
        }),
        Some(file) => read_file(alloc, desk, progress, file, fabric, netlist),
    }
}
