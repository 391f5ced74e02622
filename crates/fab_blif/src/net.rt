//! Nets before they have numbers.

ghost use Rattle.std.specs.Prelude.{◌≡◌, IfOk};
ghost use Rattle.fab_blif.specs.inner.Walk.{plain_net};

use fab_base::Memory;
use std::alloc::Global;

/// A net of the flattened text. Names alone do not tell nets apart: `3/a` may be the net `a` of the instance of line 3, or
/// a net of the top that is named so.
#[derive(PartialEq, Eq, Hash, Drop)]
pub(crate) struct Net {
    /// In how many instances it lies.
    pub depth: usize,
    /// Its whole name, with the lines of these instances.
    pub name: Vec<u8>,
}

pub(crate) fn copy_of(alloc: Global, net: &Net) -> Result<Net, Memory>
    ensures { IfOk result (λ copy. plain_net copy ≡ plain_net net.now) }
{
    let name = Vec::from_slice(alloc, &net.name)?;
    Ok(Net {
        depth: net.depth,
        name,
    })
}
