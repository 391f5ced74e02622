//! Faults with their numbers and reports, and names.

use crate::cases::{Case, cases_of};
use fab_base::{Fault, Memory, Name, Problem, Quantity, Reason, SiteKind};
use fab_desk::{Desk, Sink};
use fab_examples::{Stop, fetch};
use std::alloc::Global;
use std::str;

/// The lines behind the name of a fault, of which the last may be several.
#[derive(Drop)]
struct Fields<'a> {
    rest: &'a str,
}

impl<'a> Fields<'a> {
    // The next line; empty where there is none.
    fn line(&mut self) -> &'a str {
        let (line, rest) = self.rest.split_once('\n').unwrap_or((self.rest, ""));
        self.rest = rest;
        line
    }

    fn name(&mut self, alloc: Global) -> Result<Name, Memory> {
        Name::of(alloc, self.line().as_bytes())
    }

    fn text(&self, alloc: Global) -> Result<Name, Memory> {
        Name::of(alloc, self.rest.as_bytes())
    }

    fn number(&mut self) -> Result<u64, Stop> {
        Ok(self.line().parse::<u64>()?)
    }
}

/// The reasons and quantities of the faults that are printed.
const REASONS: [Reason; 1] = [Reason::CountsDiffer];

const QUANTITIES: [Quantity; 2] = [Quantity::ConfigurationBits, Quantity::IncludeDepth];

fn reason_of(words: &str) -> Option<Reason> {
    REASONS
        .iter()
        .copied()
        .find(|reason| reason.words() == words.as_bytes())
}

fn quantity_of(words: &str) -> Option<Quantity> {
    QUANTITIES
        .iter()
        .copied()
        .find(|quantity| quantity.words() == words.as_bytes())
}

fn site_of(word: &str) -> SiteKind {
    if word == "IO" {
        SiteKind::Pad
    } else {
        SiteKind::Lut
    }
}

// What is wrong with a line.
fn problem_of(alloc: Global, kind: &str, fields: &mut Fields) -> Result<Problem, Stop> {
    match kind {
        "malformed" => Ok(Problem::Malformed(reason_of(fields.line()).ok_or(Stop::Data)?)),
        "unsupported" => Ok(Problem::Unsupported(fields.name(alloc)?)),
        "limit" => {
            let quantity = quantity_of(fields.line()).ok_or(Stop::Data)?;
            let value = fields.number()?;
            Ok(Problem::Limit(quantity, value, fields.number()?))
        }
        _ => Err(Stop::Data),
    }
}

// The fault of a line.
fn line_fault(alloc: Global, kind: &str, fields: &mut Fields) -> Result<Fault, Stop> {
    let file = fields.name(alloc)?;
    let line = fields.line().parse::<u32>()?;
    Ok(problem_of(alloc, kind, fields)?.at(alloc, &file, line))
}

// The fault of a design.
fn design_fault(alloc: Global, kind: &str, fields: &mut Fields) -> Result<Fault, Stop> {
    match kind {
        "short" => {
            let site = site_of(fields.line());
            let need = fields.line().parse::<u32>()?;
            Ok(Fault::Short(site, need, fields.line().parse::<u32>()?))
        }
        "no path" => {
            let net = fields.name(alloc)?;
            let wire = fields.name(alloc)?;
            Ok(Fault::NoPath(net, wire, fields.text(alloc)?))
        }
        "overused" => {
            let wire = fields.name(alloc)?;
            let first = fields.name(alloc)?;
            let second = fields.name(alloc)?;
            Ok(Fault::Overused(wire, first, second, fields.text(alloc)?))
        }
        "illegal" => {
            let rule = fields.line().parse::<u8>()?;
            Ok(Fault::Illegal(rule, fields.name(alloc)?))
        }
        _ => line_fault(alloc, kind, fields),
    }
}

// The fault that a case tells.
fn fault_of(alloc: Global, case: Case) -> Result<Fault, Stop> {
    let rest = str::from_utf8(case.text)?;
    let mut fields = Fields { rest };
    match case.name {
        "usage" => Ok(Fault::Usage),
        "missing" => Ok(Fault::Missing(fields.name(alloc)?)),
        "too long" => Ok(Fault::TooLong(fields.name(alloc)?)),
        "read fault" => Ok(Fault::ReadFault(fields.name(alloc)?)),
        "write fault" => Ok(Fault::WriteFault(fields.name(alloc)?)),
        "memory" => Ok(Fault::Memory),
        kind => design_fault(alloc, kind, &mut fields),
    }
}

// Prints whether a copy of a name is another name.
fn put_names<S: Sink>(alloc: Global, out: &mut S, first: &str, second: &str) -> Result<(), Stop> {
    let copy = Name::of(alloc, first.as_bytes())?.copy(alloc)?;
    let is_same = copy == Name::of(alloc, second.as_bytes())?;
    out.put(Name::from(copy.into_vec()).bytes())?;
    out.put(if is_same { b" is " } else { b" is not " })?;
    out.put(second.as_bytes())?;
    out.put(b"\n")?;
    Ok(())
}

// Prints the number and the report of each fault of a file.
fn put_reports<D: Desk, S: Sink>(alloc: Global, desk: &mut D, out: &mut S) -> Result<(), Stop> {
    let bytes = fetch(alloc, desk, "faults.cases")?;
    for case in cases_of(alloc, &bytes)? {
        let fault = fault_of(alloc, case)?;
        let number = fault.status().0;
        out.put(format!(in alloc; "{number}\n")?.as_bytes())?;
        out.put(fault.text(alloc)?.bytes())?;
    }
    Ok(())
}

// Prints whether the two names of each line of a file are the same.
fn put_copies<D: Desk, S: Sink>(alloc: Global, desk: &mut D, out: &mut S) -> Result<(), Stop> {
    let bytes = fetch(alloc, desk, "names.lines")?;
    for line in str::from_utf8(&bytes)?.lines() {
        let (first, second) = line.split_once(' ').unwrap_or((line, ""));
        put_names(alloc, out, first, second)?;
    }
    Ok(())
}

/// Prints faults with their numbers and reports, and names.
pub fn put_faults<D: Desk, S: Sink>(alloc: Global, desk: &mut D, out: &mut S) -> Result<(), Stop> {
    put_reports(alloc, desk, out)?;
    put_copies(alloc, desk, out)
}
