//! Switch lists with the files that they include.

use crate::cases::Case;
use fab_base::{Fault, Name};
use fab_desk::MemDesk;
use fab_examples::{Stop, shown_or_report};
use fab_list_files::read_pairs;
use std::alloc::{AllocError, Global};

/// Pairs, each as its output, `<` and its input.
fn pairs_text(alloc: Global, pairs: &[(Name, Name)]) -> Result<Vec<u8>, AllocError> {
    let mut line = Vec::new(alloc);
    for pair in pairs {
        line.extend_from_slice(pair.0.bytes())?;
        line.push(b'<')?;
        line.extend_from_slice(pair.1.bytes())?;
        line.push(b' ')?;
    }
    line.push(b'\n')?;
    Ok(line)
}

fn list_pairs(alloc: Global, desk: &mut MemDesk, list: &Name) -> Result<Vec<u8>, Fault> {
    let pairs = read_pairs(alloc, desk, list)?;
    Ok(pairs_text(alloc, &pairs)?)
}

/// The pairs of a case's list, or the report of its refusal.
pub fn list_text(alloc: Global, case: &mut Case) -> Result<Vec<u8>, Stop> {
    let list = case.first_name(alloc)?;
    let mut desk = case.take_desk(alloc)?;
    let pairs = list_pairs(alloc, &mut desk, &list);
    Ok(shown_or_report(alloc, pairs)?)
}
