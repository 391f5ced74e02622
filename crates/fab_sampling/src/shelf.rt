//! Files in memory that a command makes for itself.

ghost use Rattle.std.specs.Prelude.{◌≡◌, IfOk, Some};
ghost use Rattle.fab_desk.specs.Memory.{map_of};
ghost use Rattle.fab_sampling.specs.Sampling.{no_files};

use fab_base::Memory;
use fab_desk::{Desk, DeskFault, MemDesk};
use std::alloc::Global;
use std::marker::Model;

/// Files in memory. Contracts see their names and bytes, the newest first. No read and no write fails but for want of memory.
#[derive(Drop)]
pub struct Shelf {
    desk: MemDesk,
}

impl Model for Shelf {
    ghost use Rattle.std.specs.Prelude.{ℕ, List};

    ghost Value = { List (List ℕ × List ℕ) };

    ghost view = { λ shelf. shelf.desk.files };
}

impl Shelf {
    /// No files.
    pub fn new(alloc: Global) -> Result<Shelf, Memory>
        ensures { IfOk result (λ shelf. map_of shelf ≡ no_files) }
    {
        let desk = MemDesk::new(alloc, Vec::new(alloc), Vec::new(alloc))?;
        Ok(Shelf { desk })
    }
}

impl Desk for Shelf {
    ghost told = { λ shelf. Some (map_of shelf) };

    ghost reads = { λ _. 0 };

    ghost writes = { λ _. 0 };

    fn fetch(&mut self, alloc: Global, name: &str) -> Result<Option<Vec<u8>>, DeskFault> {
        match self.desk.fetch(alloc, name) {
            // the desk was made to fail at no call
            Err(DeskFault::Failed) => Err(DeskFault::Memory),
            found => found,
        }
    }

    fn store(&mut self, name: &str, bytes: &[u8]) -> Result<(), DeskFault> {
        match self.desk.store(name, bytes) {
            Err(DeskFault::Failed) => Err(DeskFault::Memory),
            stored => stored,
        }
    }
}
