//! Small files of one kind, many in one: each begins with `%` and its name, and goes on up to the next `%`.

use fab_base::{Fault, MAX_FILE_BYTES, Name};
use fab_examples::Stop;
use fab_lines::first_line;
use fab_syntax::Text;
use fab_vread::read;
use std::alloc::Global;
use std::str;

/// One of the files: its name, which ends with its line, and what stands behind that line.
#[derive(Clone, Copy)]
pub struct Case<'a> {
    pub name: &'a str,
    pub text: &'a [u8],
}

/// The files that stand in one.
pub fn cases_of(alloc: Global, bytes: &[u8]) -> Result<Vec<Case<'_>>, Stop> {
    let mut cases = Vec::new(alloc);
    for piece in bytes.split(|byte| *byte == b'%') {
        if !piece.is_empty() {
            let (name, text) = first_line(piece);
            let name = str::from_utf8(name)?;
            cases.push(Case { name, text })?;
        }
    }
    Ok(cases)
}

/// The tree of a case that is a Verilog text.
pub fn tree_of(alloc: Global, case: Case) -> Result<Text, Fault> {
    let file = Name::of(alloc, case.name.as_bytes())?;
    if case.text.len() > MAX_FILE_BYTES {
        return Err(Fault::TooLong(file));
    }
    read(alloc, &file, case.text)
}
