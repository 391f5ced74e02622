//! What the command `matrix` stores of small switch lists.

use crate::cases::{Case, cases_of};
use fab_base::Name;
use fab_desk::{Desk, MemDesk, Sink};
use fab_examples::{Stop, fetch};
use fab_flow::do_matrix;
use fab_progress::Silent;
use std::alloc::Global;

/// Where the module of a list is stored.
const OUTPUT: &str = "module.v";

// Prints the name of a list and the module that is stored of it, over a desk that has this list alone.
fn put_list<S: Sink>(alloc: Global, out: &mut S, case: Case) -> Result<(), Stop> {
    let mut files = Vec::new(alloc);
    files.push((
        String::from_str(alloc, case.name)?,
        Vec::from_slice(alloc, case.text)?,
    ))?;
    let mut memory = MemDesk::new(alloc, files, Vec::new(alloc))?;
    let list = Name::of(alloc, case.name.as_bytes())?;
    let output = Name::of(alloc, OUTPUT.as_bytes())?;
    do_matrix(alloc, &mut memory, &mut Silent, &list, &output)?;
    out.put(list.bytes())?;
    out.put(b":\n")?;
    out.put(&fetch(alloc, &mut memory, OUTPUT)?)?;
    Ok(())
}

/// Prints the modules that are stored of small lists.
pub fn put_lists<D: Desk, S: Sink>(alloc: Global, desk: &mut D, out: &mut S) -> Result<(), Stop> {
    let bytes = fetch(alloc, desk, "lists.cases")?;
    for case in cases_of(alloc, &bytes)? {
        put_list(alloc, out, case)?;
    }
    Ok(())
}
