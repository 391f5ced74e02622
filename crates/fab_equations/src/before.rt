//! What is known of the modules before the one that is looked at.

ghost use Rattle.std.specs.Prelude.{◌≡◌, ◌+◌, ◌++◌, ℕ, List, [], ◌∷◌, length, slice_get, OnOk, IfSome, Some};
ghost use Rattle.std.specs.Map.{lookup};
ghost use Rattle.std.specs.Str.{bytes_eq};
ghost use Rattle.fab_syntax.specs.Plain.{PlainModule, plain_module};
ghost use Rattle.fab_equations.specs.Counting.{count_or_none, AreCounts};
ghost use Rattle.fab_equations.specs.Numbers.{AreNumbers};

use crate::counts::{Count, count_in, count_module};
use crate::instances::note_number;
use crate::tables::Table;
use fab_base::Memory;
use fab_syntax::Module;
use indexmap::IndexMap;
use std::alloc::Global;

/// The modules before one: their counts and their numbers by name, and their tables by number.
#[derive(Drop)]
pub struct Before {
    pub counts: IndexMap<Vec<u8>, Count>,
    pub numbers: IndexMap<Vec<u8>, u32>,
    pub tables: Vec<Table>,
}

/// One of them.
#[derive(Clone, Copy)]
pub struct Below<'b> {
    pub number: u32,
    /// How many instances it has with itself; at most 2^64 - 1.
    pub instances: u64,
    pub table: &'b Table,
}

impl Before {
    // No modules.
    pub fn new(alloc: Global) -> Before
        ensures counts { result.counts.entries ≡ [] }
        ensures numbers { result.numbers.entries ≡ [] }
        ensures tables { result.tables.items ≡ [] }
    {
        Before {
            counts: IndexMap::new(alloc),
            numbers: IndexMap::new(alloc),
            tables: Vec::new(alloc),
        }
    }

    // One more module with its table.
    pub fn add(&mut self, alloc: Global, definition: &Module, table: Table) -> Result<(), Memory>
        ensures counts { OnOk result ((before : List PlainModule) → AreCounts before self.old.counts.entries → AreCounts (plain_module definition.now ∷ before) self.new.counts.entries) }
        ensures numbers { OnOk result ((before : List PlainModule) → length self.old.tables.items ≡ length before → AreNumbers before self.old.numbers.entries →
            AreNumbers (plain_module definition.now ∷ before) self.new.numbers.entries) }
        ensures tables { OnOk result (self.new.tables.items ≡ self.old.tables.items ++ table ∷ []) }
    {
        count_module(alloc, &mut self.counts, definition)?;
        note_number(alloc, &mut self.numbers, definition, self.tables.len())?;
        self.tables.push(table)?;
        Ok(())
    }

    // A module by its name, if it is among them.
    pub fn find(&self, name: &[u8]) -> Option<Below<'_>>
        ensures number { IfSome result (λ below. lookup (λ key. bytes_eq name.now key.items) self.now.numbers.entries ≡ Some below.number) }
        ensures instances { IfSome result (λ below. below.instances ≡ (count_or_none (lookup (λ key. bytes_eq name.now key.items) self.now.counts.entries)).instances) }
        ensures table { IfSome result (λ below. slice_get self.now.tables.items below.number ≡ Some below.table.now) }
    {
        let number = *self.numbers.get(name)?;
        let table = self.tables.get(number as usize)?;
        let count = count_in(&self.counts, name);
        Some(Below {
            number,
            instances: count.instances,
            table,
        })
    }

    // The tables alone.
    pub fn into_tables(self) -> Vec<Table>
        ensures { result ≡ self.tables }
    {
        let Before {
            counts: _,
            numbers: _,
            tables,
        } = self;
        tables
    }
}
