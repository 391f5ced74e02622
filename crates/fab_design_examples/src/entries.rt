//! On which line each entry of a text stands.

use crate::words::put_number;
use fab_desk::{Desk, Sink};
use fab_examples::{Stop, fetch};
use fab_impl::entry_line;
use std::alloc::Global;

/// Prints of the entries from 0 up to this one on which line of a file each stands.
pub fn print_entries<D: Desk, S: Sink>(
    alloc: Global,
    desk: &mut D,
    out: &mut S,
    file: &str,
    last: u32,
) -> Result<(), Stop> {
    let bytes = fetch(alloc, desk, file)?;
    for entry in 0..=last {
        let mut line = Vec::from_slice(alloc, b"entry")?;
        put_number(&mut line, u128::from(entry))?;
        put_number(&mut line, u128::from(entry_line(&bytes, entry)))?;
        line.push(b'\n')?;
        out.put(&line)?;
    }
    Ok(())
}
