//! The lines of a state.

ghost use Rattle.std.specs.Prelude.{◌≡◌, map, IfOk};
ghost use Rattle.fab_state_points.specs.Entries.{in_entries, out_entries, register_entries};

use fab_base::{Memory, Name};
use fab_fabric::Site;
use std::alloc::Global;

/// A line of a state that names a site.
#[derive(Clone, Copy, Debug)]
pub enum Entry {
    /// The pad of an input port.
    Input(Site),
    /// The pad of an output port.
    Output(Site),
    /// A flip-flop.
    Register(Site),
}

/// The lines of input ports.
pub fn in_entries(alloc: Global, pads: &[(Name, Site)]) -> Result<Vec<Entry>, Memory>
    ensures { IfOk result (λ entries. entries.items ≡ in_entries pads.now) }
{
    let mut entries = Vec::new(alloc);
    for (_, site) in pads {
        entries.push(Entry::Input(*site))?;
    }
    Ok(entries)
}

/// The lines of output ports.
pub fn out_entries(alloc: Global, pads: &[(Name, Site)]) -> Result<Vec<Entry>, Memory>
    ensures { IfOk result (λ entries. entries.items ≡ out_entries pads.now) }
{
    let mut entries = Vec::new(alloc);
    for (_, site) in pads {
        entries.push(Entry::Output(*site))?;
    }
    Ok(entries)
}

/// The lines of flip-flops.
pub fn register_entries(alloc: Global, ffs: &[(Site, bool)]) -> Result<Vec<Entry>, Memory>
    ensures { IfOk result (λ entries. entries.items ≡ register_entries ffs.now) }
{
    let mut entries = Vec::new(alloc);
    for (site, _) in ffs {
        entries.push(Entry::Register(*site))?;
    }
    Ok(entries)
}
