//! A netlist with wide covers becomes one without.

ghost use Rattle.std.specs.Prelude.{◌≡◌, ◌⊎◌, ◌-◌, ◌++◌, ◌≤◌, [], IfErr, IfOk, OnOk, length, replicate};
ghost use Rattle.fab_base.specs.declared.fault.Fault.TheVariants as faults;
ghost use Rattle.fab_netlist.specs.Cycles.{HasNoCycle};
ghost use Rattle.fab_netlist.specs.WellMade.{most_nets};
ghost use Rattle.fab_netlist.specs.Wide.{IsWideMade, RunsAsWith, tabled};
ghost use Rattle.fab_wide.specs.Split.{RefusesSplit, split_nets, split_of};

use crate::narrowing::narrow_all;
use crate::words::taken_by;
use fab_base::{Fault, Memory, Name, Problem, Quantity};
use fab_netlist::{MAX_NETS, Netlist, WideNetlist};
use std::alloc::Global;

/// How many nets a netlist has when it is split.
fn count_nets(alloc: Global, netlist: &WideNetlist) -> Result<u64, Memory>
    requires { IsWideMade netlist.now }
    ensures { IfOk result (λ count. count ≡ split_nets (tabled netlist.now)) }
{
    let mut count = netlist.nets.len() as u64;
    for cover in &netlist.covers {
        count += u64::from(taken_by(alloc, cover)?);
    }
    Ok(count)
}

fn copy_names(alloc: Global, names: &[Name]) -> Result<Vec<Name>, Memory>
    ensures { IfOk result (λ copies. copies.items ≡ names.now) }
{
    let mut copies = Vec::with_capacity(alloc, names.len())?;
    for name in names {
        copies.push(name.copy(alloc)?)?;
    }
    Ok(copies)
}

/// Puts empty names behind others.
fn push_empty(alloc: Global, names: &mut Vec<Name>, count: usize) -> Result<(), Memory>
    ensures { OnOk result (names.new.items ≡ names.old.items ++ replicate count []) }
{
    for _name in 0..count {
        names.push(Name::from(Vec::new(alloc)))?;
    }
    Ok(())
}

/// The names of the nets, and empty ones up to a number of nets.
fn names_to(alloc: Global, names: &[Name], count: usize) -> Result<Vec<Name>, Memory>
    requires { length names.now ≤ count }
    ensures { IfOk result (λ all. all.items ≡ names.now ++ replicate (count - length names.now) []) }
{
    let mut all = copy_names(alloc, names)?;
    push_empty(alloc, &mut all, count - names.len())?;
    Ok(all)
}

/// The split netlist of so many nets.
fn narrowed(alloc: Global, netlist: &WideNetlist, count: usize) -> Result<Netlist, Memory>
    requires made { IsWideMade netlist.now }
    requires count { count ≡ split_nets (tabled netlist.now) }
    requires fits { count ≤ most_nets }
    ensures { IfOk result (λ it. it ≡ split_of (tabled netlist.now)) }
{
    let nets = names_to(alloc, &netlist.nets, count)?;
    let inputs = Vec::from_slice(alloc, &netlist.inputs)?;
    let outputs = Vec::from_slice(alloc, &netlist.outputs)?;
    let covers = narrow_all(alloc, &netlist.covers, netlist.nets.len() as u32)?;
    let latches = Vec::from_slice(alloc, &netlist.latches)?;
    Netlist::new(alloc, nets, inputs, outputs, covers, latches)
}

/// The netlist in which each cover of more than four inputs is replaced by covers of at most four, in its place and with its line. A cover of
/// k inputs becomes at most 2^(k-3) - 1 covers; the nets between these have no name and come last. `file` and `last_line` are of the BLIF
/// file that was read. The fault is `Limit` where there would be more than `MAX_NETS` nets, which are counted before any is made, and
/// `Memory` where memory was refused. Tables are made one at a time, in at most 8 kB: once to count, and once to split. A row takes a step
/// for each word of one block of 64, and then one for each block that it has bits in, of which a table has at most 64.
pub fn split(
    alloc: Global,
    file: &Name,
    last_line: u32,
    netlist: &WideNetlist,
) -> Result<Netlist, Fault>
    requires { IsWideMade netlist.now }
    ensures split { IfOk result (λ it. it ≡ split_of (tabled netlist.now)) }
    ensures fits { OnOk result (split_nets (tabled netlist.now) ≤ most_nets) }
    ensures acyclic { IfOk result (λ it. HasNoCycle (tabled netlist.now) → HasNoCycle it) }
    ensures runs { IfOk result (λ it. RunsAsWith (tabled netlist.now) it) }
    ensures refused { IfErr result (λ fault. (fault ≡ faults.Memory) ⊎ RefusesSplit file.now last_line (tabled netlist.now) fault) }
{
    let count = count_nets(alloc, netlist)?;
    if count > MAX_NETS as u64 {
        let problem = Problem::Limit(Quantity::Nets, count, MAX_NETS as u64);
        return Err(problem.at(alloc, file, last_line));
    }
    Ok(narrowed(alloc, netlist, count as usize)?)
}
