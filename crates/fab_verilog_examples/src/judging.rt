//! Whether texts read back, and whether they are sound.

ghost use Rattle.std.specs.Prelude.{◌≤◌, length};

use crate::cases::{Case, cases_of, tree_of};
use crate::edits::{Edit, edit_last};
use fab_base::{MAX_FILE_BYTES, Name};
use fab_desk::{Desk, Sink};
use fab_examples::{Stop, fetch};
use fab_sound::check_widths;
use fab_syntax::{Text, print};
use fab_vread::read;
use std::alloc::Global;
use std::str;

/// Prints whether a text is read as a tree of which it is the printed text, and whether it keeps the rules of sound texts.
pub fn put_again<S: Sink>(alloc: Global, out: &mut S, name: &str, text: &[u8]) -> Result<(), Stop>
    requires { length text.now ≤ MAX_FILE_BYTES }
{
    let tree = read(alloc, &Name::of(alloc, name.as_bytes())?, text)?;
    let printed = print(alloc, &tree)?;
    let reading = if printed.as_slice() == text {
        "reads back"
    } else {
        "reads back as another text"
    };
    let judgement = match check_widths(alloc, &tree)? {
        None => "is sound",
        Some(_) => "is not sound",
    };
    out.put(format!(in alloc; "{name} {reading}\n{name} {judgement}\n")?.as_bytes())?;
    Ok(())
}

// Prints the rule that a text breaks first, or that it is sound.
fn put_verdict<S: Sink>(alloc: Global, out: &mut S, name: &str, text: &Text) -> Result<(), Stop> {
    let verdict = match check_widths(alloc, text)? {
        None => "sound",
        Some(reason) => str::from_utf8(reason.words())?,
    };
    out.put(format!(in alloc; "{name}: {verdict}\n")?.as_bytes())?;
    Ok(())
}

// Prints the verdict on a text of which the last value is too deep for a file.
fn put_deep_verdict<D: Desk, S: Sink>(
    alloc: Global,
    desk: &mut D,
    out: &mut S,
) -> Result<(), Stop> {
    let bytes = fetch(alloc, desk, "deep.v")?;
    let case = Case {
        name: "deep",
        text: &bytes,
    };
    let mut text = tree_of(alloc, case)?;
    edit_last(alloc, &mut text, Edit::Deep)?;
    put_verdict(alloc, out, case.name, &text)
}

/// Prints the rule that each of some texts breaks first, or that it is sound.
pub fn put_verdicts<D: Desk, S: Sink>(
    alloc: Global,
    desk: &mut D,
    out: &mut S,
) -> Result<(), Stop> {
    let bytes = fetch(alloc, desk, "sound.cases")?;
    for case in cases_of(alloc, &bytes)? {
        put_verdict(alloc, out, case.name, &tree_of(alloc, case)?)?;
    }
    put_deep_verdict(alloc, desk, out)
}
