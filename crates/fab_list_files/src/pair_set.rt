//! Pairs, each at its first place.

ghost use Rattle.std.specs.Prelude.{◌≡◌, [], IfOk, OnOk};
ghost use Rattle.fab_list_files.specs.Lists.{with_pair, with_pairs};

use fab_base::{Memory, Name};
use indexmap::IndexSet;
use std::alloc::Global;
use std::marker::Model;

/// Pairs of names, an output and an input each, in the order in which they first came. Contracts see them as a list.
#[derive(Drop)]
pub struct PairSet {
    keys: IndexSet<(Vec<u8>, Vec<u8>)>,
}

impl Model for PairSet {
    ghost use Rattle.std.specs.Prelude.{List};
    ghost use Rattle.fab_tables.specs.Lists.{Pair};
    ghost use Rattle.fab_list_files.specs.Keys.{key_pairs};

    ghost Value = { List Pair };

    ghost view = { λ set. key_pairs set.keys.keys };
}

impl PairSet {
    /// No pairs.
    pub fn new(alloc: Global) -> PairSet
        ensures { result ≡ [] }
    {
        PairSet {
            keys: IndexSet::new(alloc),
        }
    }

    fn add(&mut self, output: Name, input: Name) -> Result<(), Memory>
        ensures { OnOk result (self.new ≡ with_pair self.old (output, input)) }
    {
        self.keys.insert((output.into_vec(), input.into_vec()))?;
        Ok(())
    }

    /// Adds pairs; one that stands already counts no more.
    pub fn add_all(&mut self, new: Vec<(Name, Name)>) -> Result<(), Memory>
        ensures { OnOk result (self.new ≡ with_pairs self.old new.items) }
    {
        for (output, input) in new {
            self.add(output, input)?;
        }
        Ok(())
    }

    /// The pairs.
    pub fn into_pairs(self, alloc: Global) -> Result<Vec<(Name, Name)>, Memory>
        ensures { IfOk result (λ pairs. pairs.items ≡ self) }
    {
        Ok(
            self.keys
                .into_iter()
                .map(|(output, input)| (Name::from(output), Name::from(input)))
                .collect(alloc)?,
        )
    }
}
