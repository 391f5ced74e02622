//! The reader of BLIF files.

ghost use Rattle.std.specs.Prelude.{◌≡◌, ◌≢◌, ◌≤◌, length, IfErr, IfOk, IsErr, IsOkUnless, OnOk};
ghost use Rattle.fab_base.specs.declared.fault.Fault.{Fault as PlainFault};
ghost use Rattle.fab_base.specs.declared.fault.Fault.TheVariants as faults;
ghost use Rattle.fab_netlist.specs.Cycles.{HasNoCycle};
ghost use Rattle.fab_netlist.specs.Wide.{IsWideMade, tabled};
ghost use Rattle.fab_blif.specs.Blif.{IsBlif, RefusesBlif, netlist_in, wide_in};
ghost use Rattle.fab_netlist.specs.WellMade.{most_nets};

use crate::flattening::flatten;
use crate::tables::with_tables;
use fab_base::{Fault, MAX_FILE_BYTES, Name};
use fab_blif_models::read_models;
use fab_lines::last_line;
use fab_netlist::{Netlist, WideNetlist, check_acyclic_wide};
use std::alloc::Global;

/// The netlist of a file of which no cover has more than `most` inputs.
fn read(alloc: Global, file: &Name, bytes: &[u8], most: usize) -> Result<WideNetlist, Fault>
    requires bytes { length bytes.now ≤ MAX_FILE_BYTES }
    requires most { (1 ≤ most) × (most ≤ 16) }
    ensures fine { OnOk result (IsBlif most bytes.now) }
    ensures netlist { IfOk result (λ netlist. netlist ≡ wide_in bytes.now) }
    ensures refused { IfErr result (λ fault. fault ≢ faults.Memory → RefusesBlif most file.now bytes.now fault) }
{
    let models = read_models(alloc, file, bytes, most)?;
    let netlist = flatten(alloc, file, last_line(bytes), &models)?;
    check_acyclic_wide(alloc, file, &netlist)?;
    Ok(netlist)
}

/// The netlist that a BLIF file spells: that of its first model, with a copy of a model's covers and latches for each
/// instance of it. Nets are numbered as the flattened text first names them. At most 16,384 nets are read, and covers of at
/// most 16 inputs. Their rows stand in the order of the file.
///
/// What breaks a rule is refused in the order of the rules. `Malformed` and `Unsupported` come with the least line that is
/// refused by itself or by the lines before it, as `read_models` says, in whichever model it stands. Where no line is, the
/// models are judged as `flatten` says: no model, two of one name, unknown models, recursive ones, formals, instances above
/// the limit, drivers, undriven nets, nets above the limit, and clocks. The last refusal is a cycle of covers, as
/// `check_acyclic_wide` says. A limit, and a file without a model, are refused at the file's last line. `Memory` comes where
/// memory was refused. So a file with a netlist is read unless memory is refused, and a file with something to refuse is never
/// read.
pub fn read_wide(alloc: Global, file: &Name, bytes: &[u8]) -> Result<WideNetlist, Fault>
    requires { length bytes.now ≤ MAX_FILE_BYTES }
    ensures fine { OnOk result (IsBlif 16 bytes.now) }
    ensures netlist { IfOk result (λ netlist. netlist ≡ wide_in bytes.now) }
    ensures made { IfOk result IsWideMade }
    ensures acyclic { IfOk result (λ netlist. HasNoCycle (tabled netlist)) }
    ensures refused { IfErr result (λ fault. fault ≢ faults.Memory → RefusesBlif 16 file.now bytes.now fault) }
    ensures reads { IsBlif 16 bytes.now → IsOkUnless result faults.Memory }
    ensures refuses { (fault : PlainFault) → RefusesBlif 16 file.now bytes.now fault → IsErr result }
{
    read(alloc, file, bytes, 16)
}

/// The same of a file of which no cover has more than four inputs: its covers get tables.
pub fn read_blif(alloc: Global, file: &Name, bytes: &[u8]) -> Result<Netlist, Fault>
    requires { length bytes.now ≤ MAX_FILE_BYTES }
    ensures fine { OnOk result (IsBlif 4 bytes.now) }
    ensures netlist { IfOk result (λ netlist. netlist ≡ netlist_in bytes.now) }
    ensures acyclic { IfOk result HasNoCycle }
    ensures small { IfOk result (λ netlist. length netlist.nets ≤ most_nets) }
    ensures refused { IfErr result (λ fault. fault ≢ faults.Memory → RefusesBlif 4 file.now bytes.now fault) }
    ensures reads { IsBlif 4 bytes.now → IsOkUnless result faults.Memory }
    ensures refuses { (fault : PlainFault) → RefusesBlif 4 file.now bytes.now fault → IsErr result }
{
    let netlist = read(alloc, file, bytes, 4)?;
    Ok(with_tables(alloc, netlist)?)
}
