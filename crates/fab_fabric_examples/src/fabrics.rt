//! Fabrics with the files that they name.

use crate::cases::Case;
use crate::summary::summary;
use fab_base::{Fault, Name};
use fab_desk::MemDesk;
use fab_examples::{Stop, shown_or_report};
use fab_read::read_fabric;
use std::alloc::Global;

fn fabric_summary(alloc: Global, desk: &mut MemDesk, file: &Name) -> Result<Vec<u8>, Fault> {
    let fabric = read_fabric(alloc, desk, file)?;
    Ok(summary(alloc, &fabric)?)
}

/// The summary of a case's fabric, or the report of its refusal.
pub fn fabric_text(alloc: Global, case: &mut Case) -> Result<Vec<u8>, Stop> {
    let mut desk = case.take_desk(alloc)?;
    let summary = fabric_summary(alloc, &mut desk, &case.front);
    Ok(shown_or_report(alloc, summary)?)
}
