//! The reset port of a design, where a command is given one.

ghost use Rattle.std.specs.Prelude.{◌≡◌, ◌⊎◌, option_copied, OnOk, IfErr};
ghost use Rattle.fab_base.specs.declared.fault.Fault.TheVariants as faults;
ghost use Rattle.fab_netlist.specs.Cycles.{HasNoCycle};
ghost use Rattle.fab_netlist.specs.Resets.{netlist_with};
ghost use Rattle.fab_flow.specs.Resetting.{HasReset, LacksReset};

use fab_base::{Fault, Name};
use fab_netlist::Netlist;
use std::alloc::Global;

/// Chooses the data input of this name as the reset port of a netlist, where a name is given.
///
/// `Illegal` comes with rule 12 and the name exactly where no data input has it.
pub(crate) fn take_reset(
    alloc: Global,
    netlist: &mut Netlist,
    port: Option<&Name>,
) -> Result<(), Fault>
    ensures has { OnOk result (HasReset (option_copied port.entry) netlist.old) }
    ensures set { OnOk result (netlist.new ≡ netlist_with (option_copied port.entry) netlist.old) }
    ensures acyclic { HasNoCycle netlist.old → HasNoCycle netlist.new }
    ensures refused { IfErr result (λ fault. (fault ≡ faults.Memory) ⊎ LacksReset (option_copied port.entry) netlist.old fault) }
{
    let Some(port) = port else {
        return Ok(());
    };
    if netlist.set_reset(port.bytes()) {
        return Ok(());
    }
    Err(Fault::Illegal(12, port.copy(alloc)?))
}
