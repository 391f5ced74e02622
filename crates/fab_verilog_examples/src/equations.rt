//! The points of texts: what drives each of them, and where a name leads.

use crate::cases::{Case, cases_of, tree_of};
use fab_base::Name;
use fab_desk::{Desk, Sink};
use fab_equations::{Driver, Equations, Source, elaborate};
use fab_examples::{Stop, fetch};
use std::alloc::{AllocError, Global};
use std::str;

// The instance, the expression and the bit of a source.
fn source_text(alloc: Global, source: Source) -> Result<String, AllocError> {
    let Source {
        instance,
        expr,
        bit,
    } = source;
    format!(in alloc; "{instance}.{expr}.{bit}")
}

// What drives a point.
fn driver_text(alloc: Global, driver: Driver) -> Result<String, AllocError> {
    match driver {
        Driver::Outside => String::from_str(alloc, "the world"),
        Driver::Same(point) => format!(in alloc; "point {point}"),
        Driver::Value(source) => {
            let source = source_text(alloc, source)?;
            format!(in alloc; "value {source}")
        }
        Driver::Flop(clock, next) => {
            let next = source_text(alloc, next)?;
            format!(in alloc; "flip-flop at {clock}, next {next}")
        }
        Driver::Hold(gate, data) => {
            let gate = source_text(alloc, gate)?;
            let data = source_text(alloc, data)?;
            format!(in alloc; "latch, gate {gate}, data {data}")
        }
    }
}

// Prints how many points and instances there are, and the driver of each point.
fn put_drivers<S: Sink>(
    alloc: Global,
    out: &mut S,
    name: &str,
    equations: &Equations,
) -> Result<(), Stop> {
    let points = equations.points();
    let instances = equations.instances();
    out.put(format!(in alloc; "{name}: {points} points, {instances} instances\n")?.as_bytes())?;
    for point in 0..points {
        let driver = driver_text(alloc, equations.driver(point))?;
        out.put(format!(in alloc; "{name} {point}: {driver}\n")?.as_bytes())?;
    }
    Ok(())
}

// Prints the points of names, each with a bit on a line of a file.
fn put_places<S: Sink>(
    alloc: Global,
    out: &mut S,
    equations: &Equations,
    lines: &str,
) -> Result<(), Stop> {
    for line in lines.lines() {
        let (name, bit) = line.split_once(' ').unwrap_or((line, "0"));
        let told = match equations.place_of(name.as_bytes(), bit.parse::<u32>()?) {
            Some(point) => format!(in alloc; "{name} {bit}: point {point}\n")?,
            None => format!(in alloc; "{name} {bit}: no point\n")?,
        };
        out.put(told.as_bytes())?;
    }
    Ok(())
}

// Prints the points of a text with three levels of instances, through which a clock is led, and where some names lead in it.
fn put_levels<D: Desk, S: Sink>(alloc: Global, desk: &mut D, out: &mut S) -> Result<(), Stop> {
    let bytes = fetch(alloc, desk, "levels.v")?;
    let names = fetch(alloc, desk, "levels.names")?;
    let case = Case {
        name: "levels",
        text: &bytes,
    };
    let text = tree_of(alloc, case)?;
    let equations = elaborate(alloc, &Name::of(alloc, case.name.as_bytes())?, &text)?;
    put_drivers(alloc, out, case.name, &equations)?;
    put_places(alloc, out, &equations, str::from_utf8(&names)?)
}

// Prints the report of a text without equations, or else what drives its points.
fn put_case<S: Sink>(alloc: Global, out: &mut S, case: Case) -> Result<(), Stop> {
    let text = tree_of(alloc, case)?;
    match elaborate(alloc, &Name::of(alloc, case.name.as_bytes())?, &text) {
        Ok(equations) => put_drivers(alloc, out, case.name, &equations),
        Err(fault) => Ok(out.put(fault.text(alloc)?.bytes())?),
    }
}

/// Prints the points of texts and what drives them, or why a text has no equations.
pub fn put_equations<D: Desk, S: Sink>(
    alloc: Global,
    desk: &mut D,
    out: &mut S,
) -> Result<(), Stop> {
    put_levels(alloc, desk, out)?;
    let bytes = fetch(alloc, desk, "points.cases")?;
    for case in cases_of(alloc, &bytes)? {
        put_case(alloc, out, case)?;
    }
    Ok(())
}
