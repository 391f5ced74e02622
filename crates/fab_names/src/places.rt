//! Places by key.

ghost use Rattle.std.specs.Prelude.{◌≡◌, [], ℕ, OnOk, option_map, unwrap_or};
ghost use Rattle.fab_names.specs.inner.Keyed.{Adds, under};
ghost use Rattle.fab_bits.specs.Keys.{group_at};

use fab_base::Memory;
use indexmap::IndexSet;
use std::alloc::Global;

/// Places that stand under keys, which are names.
#[derive(Debug, Drop)]
pub(crate) struct Places {
    keys: IndexSet<Vec<u8>>,
    // for each key its places
    groups: Vec<Vec<usize>>,
}

/// Adds an empty group, where there is none at this slot.
fn make_group(alloc: Global, groups: &mut Vec<Vec<usize>>, slot: usize) -> Result<(), Memory>
    ensures { OnOk result ((other : ℕ) → group_at groups.new.items other ≡ group_at groups.old.items other) }
{
    if slot != groups.len() {
        return Ok(());
    }
    groups.push(Vec::new(alloc))?;
    Ok(())
}

/// Adds a place to the group at this slot.
fn add_to_group(groups: &mut Vec<Vec<usize>>, slot: usize, place: usize) -> Result<(), Memory>
    ensures { OnOk result (Adds (group_at groups.old.items) (group_at groups.new.items) slot place) }
{
    if groups.len() <= slot {
        return Err(Memory);
    }
    groups[slot].push(place)?;
    Ok(())
}

impl Places {
    /// No places.
    pub fn new(alloc: Global) -> Places {
        Places {
            keys: IndexSet::new(alloc),
            groups: Vec::new(alloc),
        }
    }

    /// The places under a key, if there are any.
    pub fn under(&self, key: &[u8]) -> Option<&Vec<usize>>
        ensures { unwrap_or (option_map (λ group. group.now.items) result) [] ≡ under self.now.keys.keys self.now.groups.items key.now }
    {
        match self.keys.get_index_of(key) {
            None => None,
            Some(slot) => self.groups.get(slot),
        }
    }

    /// Adds a place under a key.
    pub fn add(&mut self, alloc: Global, key: &[u8], place: usize) -> Result<(), Memory>
        ensures { OnOk result (Adds (under self.old.keys.keys self.old.groups.items) (under self.new.keys.keys self.new.groups.items) key.now place) }
    {
        let key = Vec::from_slice(alloc, key)?;
        let (slot, _) = self.keys.insert_full(key)?;
        make_group(alloc, &mut self.groups, slot)?;
        add_to_group(&mut self.groups, slot, place)?;
        Ok(())
    }
}
