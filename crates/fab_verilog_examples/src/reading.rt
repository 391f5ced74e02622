//! Verilog texts as a user has them: those that are read are printed back, and of the others the report is printed.

use crate::cases::{Case, cases_of, tree_of};
use crate::edits::{Edit, edit_last};
use fab_base::{Fault, Memory};
use fab_desk::{Desk, Sink};
use fab_examples::{Stop, fetch};
use fab_syntax::{Text, print};
use std::alloc::Global;

// The name of a text, and the text as it is printed.
fn again(alloc: Global, name: &str, text: &Text) -> Result<Vec<u8>, Memory> {
    let mut out = Vec::from_slice(alloc, name.as_bytes())?;
    out.extend_from_slice(b":\n")?;
    out.extend_from_slice(&print(alloc, text)?)?;
    Ok(out)
}

/// What was read of a text of this name, or the report of its refusal.
pub fn shown(alloc: Global, name: &str, found: Result<Text, Fault>) -> Result<Vec<u8>, Fault> {
    match found {
        Ok(tree) => Ok(again(alloc, name, &tree)?),
        Err(fault) => Ok(fault.text(alloc)?.into_vec()),
    }
}

// Prints what is read of each of the texts that stand in one file.
fn put_texts<D: Desk, S: Sink>(
    alloc: Global,
    desk: &mut D,
    out: &mut S,
    file: &str,
) -> Result<(), Stop> {
    let bytes = fetch(alloc, desk, file)?;
    for case in cases_of(alloc, &bytes)? {
        out.put(&shown(alloc, case.name, tree_of(alloc, case))?)?;
    }
    Ok(())
}

// Prints the report of a line of a million brackets that open, a text that is too large to lie beside the program.
fn put_deep_line<S: Sink>(alloc: Global, out: &mut S) -> Result<(), Stop> {
    let mut text = Vec::from_slice(alloc, b"module m ();\nassign a =\n")?;
    text.extend_from_slice(&vec![in alloc; b'('; 1_000_000]?)?;
    text.extend_from_slice(b"\nb")?;
    let case = Case {
        name: "a_million_brackets",
        text: &text,
    };
    out.put(&shown(alloc, case.name, tree_of(alloc, case))?)?;
    Ok(())
}

// Prints a text with a concatenation of nothing, which no text spells.
fn put_empty<D: Desk, S: Sink>(alloc: Global, desk: &mut D, out: &mut S) -> Result<(), Stop> {
    let bytes = fetch(alloc, desk, "empty.v")?;
    let case = Case {
        name: "empty_concatenation",
        text: &bytes,
    };
    let mut text = tree_of(alloc, case)?;
    edit_last(alloc, &mut text, Edit::Empty)?;
    out.put(&again(alloc, case.name, &text)?)?;
    Ok(())
}

/// Prints what is read of texts, or why they are refused.
pub fn put_readings<D: Desk, S: Sink>(
    alloc: Global,
    desk: &mut D,
    out: &mut S,
) -> Result<(), Stop> {
    put_texts(alloc, desk, out, "again.cases")?;
    put_texts(alloc, desk, out, "refused.cases")?;
    put_deep_line(alloc, out)?;
    put_empty(alloc, desk, out)
}
