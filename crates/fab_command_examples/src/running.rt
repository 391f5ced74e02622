//! The calls of cases.

use crate::cases::{Case, Cut, case_of};
use crate::comparing::Ending;
use crate::derived::copied;
use fab_commands::run;
use fab_desk::{Desk, MemDesk, MemSink, Sink};
use fab_examples::{Stop, fetch};
use fab_lines::first_line;
use fab_progress::Silent;
use std::alloc::Global;
use std::str;

/// Words that stand between single blanks; none of an empty line.
fn words_of(alloc: Global, line: &str) -> Result<Vec<String>, Stop> {
    let mut words = Vec::new(alloc);
    if line.is_empty() {
        return Ok(words);
    }
    for word in line.split(' ') {
        words.push(String::from_str(alloc, word)?)?;
    }
    Ok(words)
}

/// How a call with these words ends.
fn ending_of(alloc: Global, case: &Case, words: &[String]) -> Result<Ending, Stop> {
    let failing = Vec::from_slice(alloc, &case.failing_calls)?;
    let mut desk = MemDesk::new(alloc, copied(alloc, &case.files)?, failing)?;
    let mut sink = MemSink::new(alloc, Vec::from_slice(alloc, &case.failing_puts)?);
    let status = run(alloc, words, &mut desk, &mut Silent, &mut sink);
    Ok(Ending { status, desk, sink })
}

// Prints how a call ended that differs from its case: the words, the name of the output that differs, and what it is.
fn put_difference<S: Sink>(
    alloc: Global,
    out: &mut S,
    line: &str,
    name: &str,
    ending: &Ending,
) -> Result<(), Stop> {
    let status = ending.status.0;
    let text = format!(in alloc; "differs: {line}: status {status}, {name}\n")?;
    out.put(text.as_bytes())?;
    out.put(ending.output(name).unwrap_or(&[]))?;
    Ok(())
}

// Runs a line of words, and tells whether it ends as the case has it.
fn ends_so<S: Sink>(alloc: Global, out: &mut S, case: &Case, line: &str) -> Result<bool, Stop> {
    let ending = ending_of(alloc, case, &words_of(alloc, line)?)?;
    match ending.difference(case) {
        None => Ok(true),
        Some(name) => {
            put_difference(alloc, out, line, name, &ending)?;
            Ok(false)
        }
    }
}

// Runs each line of words, and tells whether all end as the case has it.
fn lines_end_so<S: Sink>(
    alloc: Global,
    out: &mut S,
    lines: &[String],
    case: &Case,
) -> Result<bool, Stop> {
    let mut all = true;
    for line in lines {
        let ends = ends_so(alloc, out, case, line.as_str())?;
        all = all && ends;
    }
    Ok(all)
}

// Lets one call fail, first alone and then with the sink.
fn fault_ends_so<S: Sink>(
    alloc: Global,
    out: &mut S,
    case: &Case,
    place: usize,
) -> Result<bool, Stop> {
    let mut all = true;
    for is_told in [true, false] {
        let failing = case.with_fault(alloc, place, is_told)?;
        let ends = lines_end_so(alloc, out, &case.lines, &failing)?;
        all = all && ends;
    }
    Ok(all)
}

// Lets each of the calls of a case fail in turn.
fn faults_end_so<S: Sink>(alloc: Global, out: &mut S, case: &Case) -> Result<bool, Stop> {
    let mut all = true;
    for place in 0..case.calls.len() {
        let ends = fault_ends_so(alloc, out, case, place)?;
        all = all && ends;
    }
    Ok(all)
}

fn front_ends_so<S: Sink>(
    alloc: Global,
    out: &mut S,
    case: &Case,
    cut: &Cut,
    front: &[u8],
    behind: &[u8],
) -> Result<bool, Stop> {
    let shorter = case.with_front(alloc, cut, front, behind)?;
    lines_end_so(alloc, out, &case.lines, &shorter)
}

// Takes each front of a file that is shorter than the file.
fn fronts_end_so<S: Sink>(
    alloc: Global,
    out: &mut S,
    case: &Case,
    cut: &Cut,
) -> Result<bool, Stop> {
    let mut all = true;
    let bytes = case.file(cut.name.as_str()).ok_or(Stop::Data)?;
    for length in 0..bytes.len() {
        let (front, behind) = bytes.split_at(length);
        let ends = front_ends_so(alloc, out, case, cut, front, behind)?;
        all = all && ends;
    }
    Ok(all)
}

fn cuts_end_so<S: Sink>(alloc: Global, out: &mut S, case: &Case) -> Result<bool, Stop> {
    let mut all = true;
    for cut in &case.cuts {
        let ends = fronts_end_so(alloc, out, case, cut)?;
        all = all && ends;
    }
    Ok(all)
}

// Runs each line of words on the case, with each call that fails and on each front, and tells whether all end as they are to.
fn all_end_so<S: Sink>(alloc: Global, out: &mut S, case: &Case) -> Result<bool, Stop> {
    let lines = lines_end_so(alloc, out, &case.lines, case)?;
    let faults = faults_end_so(alloc, out, case)?;
    let cuts = cuts_end_so(alloc, out, case)?;
    Ok(lines && faults && cuts)
}

fn put_case<S: Sink>(alloc: Global, out: &mut S, title: &str, case: &Case) -> Result<(), Stop> {
    let verdict = if all_end_so(alloc, out, case)? {
        "ok"
    } else {
        "differs"
    };
    out.put(format!(in alloc; "{verdict} {title}\n")?.as_bytes())?;
    Ok(())
}

/// Runs the cases that stand in one file, and prints a line for each.
pub fn run_cases<D: Desk, S: Sink>(
    alloc: Global,
    desk: &mut D,
    out: &mut S,
    file: &str,
) -> Result<(), Stop> {
    let bytes = fetch(alloc, desk, file)?;
    for text in bytes.split(|byte| *byte == b'%') {
        if !text.is_empty() {
            let (title, behind) = first_line(text);
            let case = case_of(alloc, desk, behind)?;
            put_case(alloc, out, str::from_utf8(title)?, &case)?;
        }
    }
    Ok(())
}
