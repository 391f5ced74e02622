//! Small texts, many in one file: each begins with `@` and its name, and goes on up to the next `@`. Behind the name words may
//! stand, each after a blank.

ghost use Rattle.std.specs.Prelude.{◌<◌, ◌≤◌, length};

use fab_base::{Fault, MAX_FILE_BYTES, Name};
use fab_desk::{Desk, Sink};
use fab_examples::{Stop, fetch};
use fab_lines::{first_line, place_or_end};
use std::alloc::Global;

/// A text of a file.
#[derive(Drop)]
pub struct Case<'a> {
    /// The name, as that of a file of its own.
    pub file: Name,
    /// The words behind the name, parted by blanks.
    pub words: &'a [u8],
    pub text: &'a [u8],
}

/// What is done with each text of a file.
pub trait Subject {
    /// What is printed of a text; where it is refused, its report is printed instead.
    fn shown(&self, alloc: Global, case: &Case) -> Result<Vec<u8>, Fault>
        requires { length case.now.text.now ≤ MAX_FILE_BYTES };
}

/// The part of a file behind an `@`, which is not empty.
fn case_of(alloc: Global, part: &[u8]) -> Result<Case, Fault>
    requires { 0 < length part.now }
{
    let (header, text) = first_line(part);
    let (name, words) = header.split_at(place_or_end(header, b' '));
    let file = Name::of(alloc, name)?;
    let words = words.get(1..).unwrap_or(&[]);
    Ok(Case { file, words, text })
}

fn lines_of<P: Subject>(alloc: Global, subject: &P, case: &Case) -> Result<Vec<u8>, Fault> {
    if case.text.len() > MAX_FILE_BYTES {
        return Err(Fault::TooLong(case.file.copy(alloc)?));
    }
    match subject.shown(alloc, case) {
        Ok(lines) => Ok(lines),
        Err(fault) => Ok(fault.text(alloc)?.into_vec()),
    }
}

/// Prints what is shown of each of the texts that stand in a file.
pub fn print_cases<D: Desk, S: Sink, P: Subject>(
    alloc: Global,
    desk: &mut D,
    out: &mut S,
    subject: &P,
    file: &str,
) -> Result<(), Stop> {
    let bytes = fetch(alloc, desk, file)?;
    for part in bytes.split(|byte| *byte == b'@') {
        if !part.is_empty() {
            let case = case_of(alloc, part)?;
            out.put(&lines_of(alloc, subject, &case)?)?;
        }
    }
    Ok(())
}
