//! Modules of a text beside those that were written out.

use fab_desk::Sink;
use fab_examples::Stop;
use std::alloc::{AllocError, Global};

/// What ends a module.
const LAST_LINE: &str = "endmodule\n";

/// What ends a written line of which the rest is open, as the expressions of the loader are.
const OPEN_END: &str = " ..\n";

/// A line of a module that is not as it was written out. Lines count from 1, and one that is not there is empty.
struct Difference<'a> {
    line: usize,
    written: &'a str,
    found: &'a str,
}

/// The word behind `module`.
fn name_of(module: &str) -> &str {
    module.split(' ').nth(1).unwrap_or("")
}

/// Whether a line is as it was written out, each with what ends it.
fn agrees(written: &str, found: &str) -> bool {
    match written.strip_suffix(OPEN_END) {
        Some(front) => found.starts_with(front),
        None => written == found,
    }
}

/// The first line of a module that is not as it was written out. `endmodule` is the last line of both, and no other line.
fn first_difference<'a>(written: &'a str, found: &'a str) -> Option<Difference<'a>> {
    let mut lines = written.split_inclusive('\n');
    for (before, found) in found.split_inclusive('\n').enumerate() {
        let written = lines.next().unwrap_or("");
        if !agrees(written, found) {
            let line = before + 1;
            return Some(Difference {
                line,
                written,
                found,
            });
        }
    }
    None
}

/// What is told of a module that was written out.
fn comparison(alloc: Global, written: &str, found: &str) -> Result<String, AllocError> {
    if let Some(difference) = first_difference(written, found) {
        let Difference {
            line,
            written,
            found,
        } = difference;
        return format!(in alloc; "differs at its line {line}, written:\n{written}found:\n{found}");
    }
    if written.contains(OPEN_END) {
        return String::from_str(alloc, "as written, with open ends\n");
    }
    String::from_str(alloc, "as written\n")
}

/// Prints a line for each module of a text: whether it is as it was written out. Modules that were written out stand in their order.
pub fn put_modules<S: Sink>(
    alloc: Global,
    out: &mut S,
    fabric: &str,
    written: &str,
    text: &str,
) -> Result<(), Stop> {
    let mut written = written.split_inclusive(LAST_LINE);
    let mut next = written.next();
    for found in text.split_inclusive(LAST_LINE) {
        let name = name_of(found);
        let told = match next {
            Some(module) if name_of(module) == name => {
                next = written.next();
                comparison(alloc, module, found)?
            }
            _ => String::from_str(alloc, "not written out\n")?,
        };
        out.put(format!(in alloc; "{fabric} {name} {told}")?.as_bytes())?;
    }
    if let Some(module) = next {
        let name = name_of(module);
        out.put(format!(in alloc; "{fabric} {name} is missing in its place\n")?.as_bytes())?;
    }
    Ok(())
}
