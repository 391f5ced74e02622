//! The lines that are printed.

use fab_desk::Sink;
use fab_examples::Stop;
use std::alloc::Global;

/// Prints whether what was found is as it is to be, and else what was found.
pub fn put_verdict<S: Sink>(
    alloc: Global,
    out: &mut S,
    title: &str,
    is_right: bool,
    found: &[u8],
) -> Result<(), Stop> {
    if is_right {
        out.put(format!(in alloc; "ok {title}\n")?.as_bytes())?;
        return Ok(());
    }
    out.put(format!(in alloc; "differs: {title}\n")?.as_bytes())?;
    out.put(found)?;
    Ok(())
}
