//! The texts of small fabrics, beside modules that were written out by hand from the rules: what `generate` stores is compared line by
//! line, read back and judged. All files of a fabric stand in one, as cases do.

ghost use Rattle.std.specs.Prelude.{◌≤◌, IfOk, length};

use crate::cases::{Case, cases_of};
use crate::judging::put_again;
use crate::modules::put_modules;
use fab_base::{MAX_FILE_BYTES, Name};
use fab_desk::{Desk, MemDesk, Sink};
use fab_examples::{Stop, fetch};
use fab_flow::do_generate;
use fab_progress::Silent;
use std::alloc::Global;
use std::str;

/// Where the text of a fabric is stored.
const OUTPUT: &str = "text.v";

/// The files that stand in one.
fn files_of(alloc: Global, bytes: &[u8]) -> Result<Vec<(String, Vec<u8>)>, Stop> {
    let mut files = Vec::new(alloc);
    for Case { name, text } in cases_of(alloc, bytes)? {
        files.push((
            String::from_str(alloc, name)?,
            Vec::from_slice(alloc, text)?,
        ))?;
    }
    Ok(files)
}

/// What stands in the file of a name with this ending.
fn beside<D: Desk>(alloc: Global, desk: &mut D, name: &str, ending: &str) -> Result<Vec<u8>, Stop>
    ensures { IfOk result (λ bytes. length bytes.items ≤ MAX_FILE_BYTES) }
{
    let file = format!(in alloc; "{name}.{ending}")?;
    Ok(fetch(alloc, desk, &file)?)
}

/// The text that `generate` stores of a fabric, over a desk that has the fabric's files alone.
pub fn stored_text<D: Desk>(alloc: Global, desk: &mut D, name: &str) -> Result<Vec<u8>, Stop>
    ensures { IfOk result (λ bytes. length bytes.items ≤ MAX_FILE_BYTES) }
{
    let files = beside(alloc, desk, name, "files")?;
    let mut memory = MemDesk::new(alloc, files_of(alloc, &files)?, Vec::new(alloc))?;
    let fabric = format!(in alloc; "{name}.csv")?;
    let fabric = Name::of(alloc, fabric.as_bytes())?;
    let output = Name::of(alloc, OUTPUT.as_bytes())?;
    do_generate(alloc, &mut memory, &mut Silent, &fabric, &output)?;
    Ok(fetch(alloc, &mut memory, OUTPUT)?)
}

// Prints how the text of a fabric compares with the modules that were written out, whether it reads back, and whether it is sound.
fn put_fabric<D: Desk, S: Sink>(
    alloc: Global,
    desk: &mut D,
    out: &mut S,
    name: &str,
) -> Result<(), Stop> {
    let text = stored_text(alloc, desk, name)?;
    let written = beside(alloc, desk, name, "v")?;
    put_modules(
        alloc,
        out,
        name,
        str::from_utf8(&written)?,
        str::from_utf8(&text)?,
    )?;
    put_again(alloc, out, name, &text)
}

// Prints whether the module of a switch matrix, as the README shows it, reads back and is sound, and how it compares with two modules
// that it does not have.
fn put_demo<D: Desk, S: Sink>(alloc: Global, desk: &mut D, out: &mut S) -> Result<(), Stop> {
    let text = beside(alloc, desk, "demo", "v")?;
    let other = beside(alloc, desk, "other", "v")?;
    put_again(alloc, out, "demo", &text)?;
    put_modules(
        alloc,
        out,
        "demo",
        str::from_utf8(&other)?,
        str::from_utf8(&text)?,
    )
}

/// Prints how the text of each fabric compares with what was written out, and whether it reads back and is sound; and the same of the
/// module of a switch matrix.
pub fn put_fabrics<D: Desk, S: Sink>(alloc: Global, desk: &mut D, out: &mut S) -> Result<(), Stop> {
    for name in ["duo", "pair", "span", "edge", "far", "tower"] {
        put_fabric(alloc, desk, out, name)?;
    }
    put_demo(alloc, desk, out)
}
