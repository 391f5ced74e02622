//! The desk in memory, for tests: its files are known, and chosen calls fail.

ghost use Rattle.std.specs.Prelude.{◌≡◌, ◌≢◌, ◌<◌, ◌≤◌, Some, Err, option_map, find, string_bytes, IfOk, IfSome, OnOk, OnErr, map, vec_len, if◌then◌else◌};
ghost use Rattle.std.specs.Bool.{OnTrue, OnFalse};
ghost use Rattle.std.specs.Option.{option_copied};
ghost use Rattle.std.specs.Str.{bytes_eq};
ghost use Rattle.fab_desk.specs.Files.{Fetches, with_file};
ghost use Rattle.fab_desk.specs.Memory.{desk_failure, is_listed, kept, map_of, newest_first, one_more};

use crate::outside::{Desk, DeskFault};
use fab_base::{MAX_FILE_BYTES, Memory};
use std::alloc::Global;
use std::marker::Model;

/// A desk whose files stand in memory, and which fails at chosen calls.
///
/// Calls of `fetch` and `store` are counted together, from 1.
#[derive(Drop)]
pub struct MemDesk {
    alloc: Global,
    // The newest file stands first, so that the first of a name is the one that counts.
    files: Vec<(String, Vec<u8>)>,
    failing: Vec<u64>,
    calls: u64,
    reads: u64,
    writes: u64,
}

impl Model for MemDesk {
    ghost use Rattle.std.specs.Prelude.{map};
    ghost use Rattle.fab_desk.specs.Memory.{MemoryDesk, kept};

    ghost Value = { MemoryDesk };

    ghost view = { λ desk. record { files = map kept desk.files.items; failing = desk.failing.items; calls = desk.calls; reads = desk.reads; writes = desk.writes } };
}

fn find_file<'a>(files: &'a [(String, Vec<u8>)], name: &str) -> Option<&'a (String, Vec<u8>)>
    ensures { option_copied result ≡ find (λ file. bytes_eq (string_bytes file.0) name.now) files.now }
{
    files.iter().find(|file| file.0.as_str() == name)
}

#[tactic(auto, using(crate::proofs::KeptFiles::kept_file_at))]
fn find_bytes<'a>(files: &'a [(String, Vec<u8>)], name: &str) -> Option<&'a [u8]>
    ensures { option_map (λ bytes. bytes.now) result ≡ map_of (map kept files.now) name.now }
{
    match find_file(files, name) {
        None => None,
        Some(file) => Some(file.1.as_slice()),
    }
}

impl MemDesk {
    /// A desk with these files, names and contents, which fails at the calls of these numbers. Of two files of one name
    /// the last counts. `Memory` never comes as long as the vectors are kept as they are given.
    pub fn new(
        alloc: Global,
        mut files: Vec<(String, Vec<u8>)>,
        failing: Vec<u64>,
    ) -> Result<MemDesk, Memory>
        ensures files { IfOk result (λ desk. desk.files ≡ newest_first files.items) }
        ensures failing { IfOk result (λ desk. desk.failing ≡ failing.items) }
        ensures calls { IfOk result (λ desk. desk.calls ≡ 0) }
        ensures reads { IfOk result (λ desk. desk.reads ≡ 0) }
        ensures writes { IfOk result (λ desk. desk.writes ≡ 0) }
    {
        files.reverse();
        Ok(MemDesk {
            alloc,
            files,
            failing,
            calls: 0,
            reads: 0,
            writes: 0,
        })
    }

    /// The bytes that stand under a name, if any do. This is no call, and never fails.
    pub fn file(&self, name: &str) -> Option<&[u8]>
        ensures { option_map (λ bytes. bytes.now) result ≡ map_of self.now.files name.now }
    {
        find_bytes(&self.files, name)
    }

    /// How many reads failed, and how many writes.
    pub fn faults(&self) -> (u64, u64)
        ensures { result ≡ (self.now.reads, self.now.writes) }
    {
        (self.reads, self.writes)
    }

    // Counts a call, and answers whether it is to fail.
    fn begin_call(&mut self) -> bool
        ensures counted { self.new ≡ record self.old { calls = one_more self.old.calls } }
        ensures listed { result ≡ is_listed self.old.failing self.new.calls }
    {
        self.calls = self.calls.saturating_add(1);
        self.failing.contains(&self.calls)
    }
}

impl Desk for MemDesk {
    ghost told = { λ desk. Some (map_of desk.files) };

    ghost reads = { λ desk. desk.reads };

    ghost writes = { λ desk. desk.writes };

    fn fetch(&mut self, alloc: Global, name: &str) -> Result<Option<Vec<u8>>, DeskFault>
        ensures files { self.new.files ≡ self.old.files }
        ensures failing { self.new.failing ≡ self.old.failing }
        ensures calls { self.new.calls ≡ one_more self.old.calls }
        ensures writes { self.new.writes ≡ self.old.writes }
        ensures reads { self.new.reads ≡ (if is_listed self.old.failing self.new.calls then one_more self.old.reads else self.old.reads) }
        ensures rises { self.old.reads ≤ self.new.reads }
        ensures failed { result ≡ Err DeskFault.Failed → self.old.reads < self.new.reads }
        ensures listed { OnTrue (is_listed self.old.failing self.new.calls) (result ≡ Err (desk_failure self.old.reads)) }
        ensures unlisted { OnFalse (is_listed self.old.failing self.new.calls) (result ≢ Err DeskFault.Failed) }
        ensures small { IfOk result (λ found. IfSome found (λ bytes. vec_len bytes ≤ MAX_FILE_BYTES)) }
        ensures answers { Fetches (map_of self.old.files name.now) result }
    {
        if self.begin_call() {
            return Err(DeskFault::counted(&mut self.reads));
        }
        let Some(bytes) = find_bytes(&self.files, name) else {
            return Ok(None);
        };
        if bytes.len() > MAX_FILE_BYTES {
            return Err(DeskFault::Long);
        }
        Ok(Some(Vec::from_slice(alloc, bytes)?))
    }

    fn store(&mut self, name: &str, bytes: &[u8]) -> Result<(), DeskFault>
        ensures failing { self.new.failing ≡ self.old.failing }
        ensures calls { self.new.calls ≡ one_more self.old.calls }
        ensures reads { self.new.reads ≡ self.old.reads }
        ensures writes { self.new.writes ≡ (if is_listed self.old.failing self.new.calls then one_more self.old.writes else self.old.writes) }
        ensures rises { self.old.writes ≤ self.new.writes }
        ensures failed { result ≡ Err DeskFault.Failed → self.old.writes < self.new.writes }
        ensures never_long { result ≢ Err DeskFault.Long }
        ensures listed { OnTrue (is_listed self.old.failing self.new.calls) (result ≡ Err (desk_failure self.old.writes)) }
        ensures unlisted { OnFalse (is_listed self.old.failing self.new.calls) (result ≢ Err DeskFault.Failed) }
        ensures ok { OnOk result (map_of self.new.files ≡ with_file name.now bytes.now (map_of self.old.files)) }
        ensures err { OnErr result (self.new.files ≡ self.old.files) }
    {
        if self.begin_call() {
            return Err(DeskFault::counted(&mut self.writes));
        }
        let name = String::from_str(self.alloc, name)?;
        let bytes = Vec::from_slice(self.alloc, bytes)?;
        self.files.insert(0, (name, bytes))?;
        Ok(())
    }
}

#[cfg(test)]
mod tests {
    use super::*;
    use std::test::Fail;

    fn desk(alloc: Global, failing: u64) -> Result<MemDesk, Fail> {
        let mut files = Vec::new(alloc);
        for (name, text) in [("chip", "old"), ("list", "rows"), ("chip", "new")] {
            let bytes = Vec::from_slice(alloc, text.as_bytes())?;
            files.push((String::from_str(alloc, name)?, bytes))?;
        }
        Ok(MemDesk::new(alloc, files, vec![in alloc; failing]?)?)
    }

    #[test]
    fn fails_at_listed_calls_alone(rt: HostRuntime) -> Result<(), Fail> {
        let alloc = rt.alloc();
        let table = [
            (0, (0, 0)),
            (1, (1, 0)),
            (2, (0, 1)),
            (3, (0, 1)),
            (4, (1, 0)),
            (5, (0, 0)),
        ];
        for (failing, faults) in table {
            let mut desk = desk(alloc, failing)?;
            let answers = [
                desk.fetch(alloc, "chip").is_err(),
                desk.store("chip", b"third").is_err(),
                desk.store("state", b"fourth").is_err(),
                desk.fetch(alloc, "state").is_err(),
            ];
            let expected = [failing == 1, failing == 2, failing == 3, failing == 4];
            assert_eq!(rt; answers, expected, "failing {failing}");
            assert_eq!(rt; desk.faults(), faults, "failing {failing}");
        }
        Ok(())
    }

    #[test]
    fn gives_back_what_was_put(rt: HostRuntime) -> Result<(), Fail> {
        let alloc = rt.alloc();
        let mut desk = desk(alloc, 0)?;
        let chip = desk.fetch(alloc, "chip")?.ok_or("no chip")?;
        assert_eq!(rt; chip.as_slice(), b"new".as_slice());
        assert!(rt; desk.fetch(alloc, "state")?.is_none());
        desk.store("state", b"made")?;
        let state = desk.fetch(alloc, "state")?.ok_or("no state")?;
        assert_eq!(rt; state.as_slice(), b"made".as_slice());
        assert_eq!(rt; desk.file("list").ok_or("no list")?, b"rows".as_slice());
        Ok(())
    }
}
