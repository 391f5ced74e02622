//! The values of a design in each cycle.

ghost use Rattle.std.specs.Prelude.{◌≡◌, length};
ghost use Rattle.fab_netlist.specs.Cycles.{HasNoCycle};

use crate::designs::{Signals, fetch_signals, initial_values, take_row};
use fab_base::{Memory, Name};
use fab_blif::read_blif;
use fab_desk::{Desk, Sink};
use fab_examples::{Stop, fetch};
use fab_netlist::{Netlist, step};
use std::alloc::Global;

fn put_bits(out: &mut Vec<u8>, bits: &[bool]) -> Result<(), Memory> {
    out.push(b' ')?;
    for bit in bits {
        out.push(if *bit { b'1' } else { b'0' })?;
    }
    Ok(())
}

fn cycle_line(alloc: Global, held: &[bool], values: &[bool]) -> Result<Vec<u8>, Memory> {
    let mut line = Vec::from_slice(alloc, b"nets")?;
    put_bits(&mut line, values)?;
    line.extend_from_slice(b" next")?;
    put_bits(&mut line, held)?;
    line.push(b'\n')?;
    Ok(line)
}

fn print_cycles<S: Sink>(
    alloc: Global,
    out: &mut S,
    netlist: &Netlist,
    stimulus: &Signals,
    inputs: &mut [bool],
    held: &mut [bool],
    values: &mut [bool],
) -> Result<(), Stop>
    requires acyclic { HasNoCycle netlist.now }
    requires columns { length stimulus.now.columns.items ≡ length netlist.now.inputs }
    requires inputs { length inputs.old ≡ length netlist.now.inputs }
    requires held { length held.old ≡ length netlist.now.latches }
    requires values { length values.old ≡ length netlist.now.nets }
{
    for row in &stimulus.table.rows {
        take_row(row, &stimulus.columns, inputs);
        step(netlist, inputs, held, values);
        out.put(&cycle_line(alloc, held, values)?)?;
    }
    Ok(())
}

/// Prints the values of all nets of a design in each cycle of its stimulus, and what its latches hold next.
pub fn print_steps<D: Desk, S: Sink>(
    alloc: Global,
    desk: &mut D,
    out: &mut S,
    name: &str,
) -> Result<(), Stop> {
    let file = format!(in alloc; "{name}.blif")?;
    let bytes = fetch(alloc, desk, &file)?;
    let netlist = read_blif(alloc, &Name::of(alloc, file.as_bytes())?, &bytes)?;
    let stimulus = format!(in alloc; "{name}.stim")?;
    let stimulus = fetch_signals(alloc, desk, &stimulus, &netlist.nets, &netlist.inputs)?;
    let mut held = initial_values(alloc, &netlist)?;
    let mut inputs = vec![in alloc; false; netlist.inputs.len()]?;
    let mut values = vec![in alloc; false; netlist.nets.len()]?;
    print_cycles(
        alloc,
        out,
        &netlist,
        &stimulus,
        &mut inputs,
        &mut held,
        &mut values,
    )
}
