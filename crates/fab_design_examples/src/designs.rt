//! Designs that run beside the outputs of another simulator.

ghost use Rattle.std.specs.Prelude.{◌≡◌, ◌≤◌, IfOk, length};
ghost use Rattle.fab_netlist.specs.Cycles.{HasNoCycle};

use crate::table::{Table, read_table};
use fab_base::{Fault, Name, Place, Reason};
use fab_blif::read_blif;
use fab_desk::{Desk, Sink};
use fab_examples::{Stop, fetch};
use fab_netlist::{Netlist, pack, step};
use std::alloc::Global;

/// The values of some nets in each cycle: a table, and the column of each net.
#[derive(Drop)]
pub struct Signals {
    pub table: Table,
    pub columns: Vec<usize>,
}

/// The column of each of these nets; a net that the table does not name is `no port`.
fn columns(
    alloc: Global,
    file: &str,
    table: &Table,
    names: &[Name],
    nets: &[u32],
) -> Result<Vec<usize>, Fault>
    ensures { IfOk result (λ columns. length columns.items ≡ length nets.now) }
{
    let mut columns = Vec::new(alloc);
    for net in nets {
        let column = names.get(*net as usize).and_then(|name| table.column(name));
        match column {
            Some(column) => columns.push(column)?,
            None => {
                let file = Name::of(alloc, file.as_bytes())?;
                return Err(Fault::Malformed(Place { file, line: 1 }, Reason::NoPort));
            }
        }
    }
    Ok(columns)
}

/// The values that a file gives of some nets.
pub fn fetch_signals<D: Desk>(
    alloc: Global,
    desk: &mut D,
    file: &str,
    names: &[Name],
    nets: &[u32],
) -> Result<Signals, Fault>
    ensures { IfOk result (λ signals. length signals.columns.items ≡ length nets.now) }
{
    let bytes = fetch(alloc, desk, file)?;
    let table = read_table(alloc, file, &bytes)?;
    let columns = columns(alloc, file, &table, names, nets)?;
    Ok(Signals { table, columns })
}

/// Puts the values of a row into the order of the nets.
pub fn take_row(row: &[bool], columns: &[usize], bits: &mut [bool])
    requires { length bits.old ≡ length columns.now }
{
    for (place, column) in columns.iter().enumerate() {
        bits[place] = row.get(*column).copied().unwrap_or(false);
    }
}

/// Whether the nets have the values of a row.
fn agrees(row: &[bool], columns: &[usize], nets: &[u32], values: &[bool]) -> bool {
    nets.iter().zip(columns.iter()).all(|(net, column)| values.get(*net as usize)
        == row.get(*column))
}

/// The first cycle, counted from 1, in which an output differs from the trace.
fn first_difference(
    netlist: &Netlist,
    stimulus: &Signals,
    trace: &Signals,
    inputs: &mut [bool],
    held: &mut [bool],
    values: &mut [bool],
) -> Option<usize>
    requires acyclic { HasNoCycle netlist.now }
    requires columns { length stimulus.now.columns.items ≡ length netlist.now.inputs }
    requires inputs { length inputs.old ≡ length netlist.now.inputs }
    requires held { length held.old ≡ length netlist.now.latches }
    requires values { length values.old ≡ length netlist.now.nets }
{
    let rows = stimulus.table.rows.iter().zip(trace.table.rows.iter());
    for (cycle, (given, shown)) in rows.enumerate() {
        take_row(given, &stimulus.columns, inputs);
        step(netlist, inputs, held, values);
        if !agrees(shown, &trace.columns, &netlist.outputs, values) {
            return Some(cycle + 1);
        }
    }
    None
}

/// The values that the latches hold first: 0 where any will do.
pub fn initial_values(alloc: Global, netlist: &Netlist) -> Result<Vec<bool>, Fault>
    ensures { IfOk result (λ held. length held.items ≡ length netlist.now.latches) }
{
    let held = netlist
        .latches
        .iter()
        .map(|latch| latch.init == 1)
        .collect(alloc)?;
    Ok(held)
}

fn run_beside(
    alloc: Global,
    netlist: &Netlist,
    stimulus: &Signals,
    trace: &Signals,
) -> Result<Option<usize>, Fault>
    requires acyclic { HasNoCycle netlist.now }
    requires columns { length stimulus.now.columns.items ≡ length netlist.now.inputs }
{
    let mut held = initial_values(alloc, netlist)?;
    let mut inputs = vec![in alloc; false; netlist.inputs.len()]?;
    let mut values = vec![in alloc; false; netlist.nets.len()]?;
    Ok(first_difference(
        netlist,
        stimulus,
        trace,
        &mut inputs,
        &mut held,
        &mut values,
    ))
}

/// Reads a design, packs it, and runs it on its stimulus. The line that is printed says how many cells and ports it has,
/// and in how many cycles its outputs are those of its trace.
pub fn run_design<D: Desk, S: Sink>(
    alloc: Global,
    desk: &mut D,
    out: &mut S,
    name: &str,
) -> Result<(), Stop> {
    let file = format!(in alloc; "{name}.blif")?;
    let bytes = fetch(alloc, desk, &file)?;
    let netlist = read_blif(alloc, &Name::of(alloc, file.as_bytes())?, &bytes)?;
    let stimulus = format!(in alloc; "{name}.stim")?;
    let stimulus = fetch_signals(alloc, desk, &stimulus, &netlist.nets, &netlist.inputs)?;
    let trace = format!(in alloc; "{name}.trace")?;
    let trace = fetch_signals(alloc, desk, &trace, &netlist.nets, &netlist.outputs)?;
    let packed = pack(alloc, &netlist, u32::MAX, u32::MAX)?;
    let cells = packed.cells.len();
    let cycles = stimulus.table.rows.len().min(trace.table.rows.len());
    let line = match run_beside(alloc, &netlist, &stimulus, &trace)? {
        Some(cycle) => format!(in alloc; "{name}: {cells} cells, differs in cycle {cycle}\n")?,
        None => format!(in alloc; "{name}: {cells} cells, {cycles} cycles agree\n")?,
    };
    out.put(line.as_bytes())?;
    Ok(())
}
