//! The netlist of a design, from its BLIF file.

ghost use Rattle.std.specs.Prelude.{◌≡◌, ◌≢◌, ◌<◌, ◌≤◌, length, IfOk, IfErr};
ghost use Rattle.std.specs.Option.{ForSome};
ghost use Rattle.fab_base.specs.declared.fault.Fault.TheVariants as faults;
ghost use Rattle.fab_files.specs.Files.{HasReadCause};
ghost use Rattle.fab_files.specs.Stages.{ReadsFrom};
ghost use Rattle.fab_netlist.specs.Cycles.{HasNoCycle};
ghost use Rattle.fab_designs.specs.Designs.{SpellsNetlist, RefusesNetlist, MeetsNetlist};
ghost use Rattle.fab_netlist.specs.WellMade.{most_nets};

use fab_base::{Fault, MAX_FILE_BYTES, Name};
use fab_blif::read_wide;
use fab_desk::Desk;
use fab_files::fetch;
use fab_lines::last_line;
use fab_netlist::Netlist;
use fab_wide::split;
use std::alloc::Global;

/// The netlist that the bytes of a BLIF file spell, with its wide covers split.
fn split_netlist(alloc: Global, blif: &Name, bytes: &[u8]) -> Result<Netlist, Fault>
    requires { length bytes.now ≤ MAX_FILE_BYTES }
    ensures spelled { IfOk result (SpellsNetlist bytes.now) }
    ensures acyclic { IfOk result HasNoCycle }
    ensures small { IfOk result (λ netlist. length netlist.nets ≤ most_nets) }
    ensures refused { IfErr result (λ fault. fault ≢ faults.Memory → RefusesNetlist blif.now bytes.now fault) }
{
    let netlist = read_wide(alloc, blif, bytes)?;
    split(alloc, blif, last_line(bytes), &netlist)
}

/// The netlist that a BLIF file spells, with its wide covers split. Its faults come as `fetch`, `read_wide` and `split` give
/// them, in this order.
pub fn read_netlist<D: Desk>(alloc: Global, desk: &mut D, blif: &Name) -> Result<Netlist, Fault>
    ensures told { D.told desk.new ≡ D.told desk.old }
    ensures writes { D.writes desk.new ≡ D.writes desk.old }
    ensures reads { D.reads desk.old ≤ D.reads desk.new }
    ensures spelled { ForSome (D.told desk.old) (λ files. IfOk result (ReadsFrom files blif.now SpellsNetlist)) }
    ensures acyclic { IfOk result HasNoCycle }
    ensures small { IfOk result (λ netlist. length netlist.nets ≤ most_nets) }
    ensures cause { IfErr result (HasReadCause (D.told desk.old) (D.reads desk.old < D.reads desk.new) (λ files. MeetsNetlist files blif.now)) }
{
    let bytes = fetch(alloc, desk, blif)?;
    split_netlist(alloc, blif, &bytes)
}
