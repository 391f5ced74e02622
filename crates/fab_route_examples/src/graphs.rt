//! The wires of a fabric as a graph. Each has the wires to which its edges lead and those from which edges lead to it, in order; a digit
//! for each wire of the fabric, which is 1 where it is reached; and how many edges a walk to each takes at least, by the bound.

ghost use Rattle.std.specs.Prelude.{◌<◌};
ghost use Rattle.fab_fabric.specs.Fabric.{wire_count};
ghost use Rattle.fab_ways_laws.specs.Bounds.{IsSpan};

use crate::shown::{put_text, put_wire};
use crate::verdicts::put_verdict;
use fab_base::{Memory, Name};
use fab_desk::{Desk, Sink};
use fab_examples::{Stop, fetch};
use fab_fabric::{Fabric, Wire};
use fab_graph::{Bound, predecessors, reach, successors};
use fab_read::read_fabric;
use std::alloc::Global;

fn put_successors(
    alloc: Global,
    out: &mut Vec<u8>,
    fabric: &Fabric,
    wire: Wire,
) -> Result<(), Memory>
    requires { wire.0 < wire_count fabric.now }
{
    for index in 0..fabric.wires() {
        match successors(fabric, wire, index) {
            Some(end) => put_wire(alloc, out, fabric, end)?,
            None => return Ok(()),
        }
    }
    Ok(())
}

fn put_predecessors(
    alloc: Global,
    out: &mut Vec<u8>,
    fabric: &Fabric,
    wire: Wire,
) -> Result<(), Memory>
    requires { wire.0 < wire_count fabric.now }
{
    for index in 0..fabric.wires() {
        match predecessors(fabric, wire, index) {
            Some(origin) => put_wire(alloc, out, fabric, origin)?,
            None => return Ok(()),
        }
    }
    Ok(())
}

fn put_reached(alloc: Global, out: &mut Vec<u8>, fabric: &Fabric, wire: Wire) -> Result<(), Memory>
    requires { wire.0 < wire_count fabric.now }
{
    let marks = reach(alloc, fabric, &[wire])?;
    for mark in &marks {
        out.push(if *mark { b'1' } else { b'0' })?;
    }
    Ok(())
}

fn put_least(
    alloc: Global,
    out: &mut Vec<u8>,
    fabric: &Fabric,
    bound: &Bound,
    wire: Wire,
) -> Result<(), Memory>
    requires bound { IsSpan fabric.now bound.now }
    requires wire { wire.0 < wire_count fabric.now }
{
    for to in 0..fabric.wires() {
        let least = bound.least(fabric, wire, Wire(to));
        put_text(out, format!(in alloc; "{least}")?.as_str())?;
    }
    Ok(())
}

/// Puts the lines of a wire.
fn put_lines(
    alloc: Global,
    out: &mut Vec<u8>,
    fabric: &Fabric,
    bound: &Bound,
    wire: Wire,
) -> Result<(), Memory>
    requires bound { IsSpan fabric.now bound.now }
    requires wire { wire.0 < wire_count fabric.now }
{
    out.extend_from_slice(fabric.wire_name(alloc, wire)?.bytes())?;
    put_text(out, "\n >")?;
    put_successors(alloc, out, fabric, wire)?;
    put_text(out, "\n <")?;
    put_predecessors(alloc, out, fabric, wire)?;
    put_text(out, "\n * ")?;
    put_reached(alloc, out, fabric, wire)?;
    put_text(out, "\n . ")?;
    put_least(alloc, out, fabric, bound, wire)?;
    put_text(out, "\n")
}

/// The greatest distance that a join of the fabric spans, and the lines of each wire.
fn lines_of(alloc: Global, fabric: &Fabric) -> Result<Vec<u8>, Memory> {
    let bound = Bound::new(fabric);
    let span = bound.span();
    let mut out = format!(in alloc; "span {span}\n")?.into_bytes();
    for number in 0..fabric.wires() {
        put_lines(alloc, &mut out, fabric, &bound, Wire(number))?;
    }
    Ok(out)
}

/// Prints whether the wires of a fabric have the lines that stand in a file of the fabric's name.
pub fn put_graph<D: Desk, S: Sink>(
    alloc: Global,
    desk: &mut D,
    out: &mut S,
    name: &str,
) -> Result<(), Stop> {
    let file = format!(in alloc; "{name}.csv")?;
    let fabric = read_fabric(alloc, desk, &Name::of(alloc, file.as_bytes())?)?;
    let expected = fetch(alloc, desk, format!(in alloc; "{name}.wires")?.as_str())?;
    let lines = lines_of(alloc, &fabric)?;
    let title = format!(in alloc; "the wires of {file}")?;
    put_verdict(alloc, out, title.as_str(), lines == expected, &lines)
}
