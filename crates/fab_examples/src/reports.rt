//! What is shown of a text, or why it is refused.

use fab_base::{Fault, Memory};
use std::alloc::Global;
use std::mem;

/// The report of a fault, which is let go.
pub fn report_of(alloc: Global, fault: Fault) -> Result<Vec<u8>, Memory> {
    let report = fault.text(alloc);
    // let go by a call, since each kind of fault would be a case of each way out of this function
    mem::drop(fault);
    Ok(report?.into_vec())
}

/// What is shown of a text, or the report of its refusal.
pub fn shown_or_report(alloc: Global, shown: Result<Vec<u8>, Fault>) -> Result<Vec<u8>, Memory> {
    match shown {
        Ok(text) => Ok(text),
        Err(fault) => report_of(alloc, fault),
    }
}
