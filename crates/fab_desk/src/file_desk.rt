//! The desk over the files of the system. What they hold is not told, since other programs change it.

ghost use Rattle.std.specs.Prelude.{◌≡◌, ◌<◌, ◌≤◌, None, Err, IfOk, length, vec_len};
ghost use Rattle.std.specs.Option.{ForSome};

use crate::outside::{Desk, DeskFault};
use crate::replacing::{Replacement, replace};
use crate::write::write_whole;
use fab_base::MAX_FILE_BYTES;
use std::alloc::Global;
use std::fs;
use std::io::{ErrorKind, Read};
use std::marker::Model;
use std::rt::Files;

/// The files of the system, with counts of the reads and the writes that failed. A name is a path.
///
/// Whatever the system refuses is `Failed`, but for a file that is absent or cannot be there, since a folder of its path is a file
/// or its name is too long for the system: `fetch` answers these by `None`. `store` writes a plain file beside the old one, under its
/// name and `.part`, and renames it, so that after a `store` that failed the old one stands. Links, pipes and devices are written where
/// they are, and so is a file beside which none can be made: such a file may hold a front of the bytes then.
#[derive(Drop)]
pub struct FileDesk<'a, R: Files> {
    rt: &'a R,
    reads: u64,
    writes: u64,
}

impl<'a, R: Files> Model for FileDesk<'a, R> {
    ghost use Rattle.fab_desk.specs.Memory.{Counts};

    ghost Value = { Counts };

    ghost view = { λ desk. record { reads = desk.reads; writes = desk.writes } };
}

// Whether an error of the system says that no file stands under a name.
fn is_absence(kind: ErrorKind) -> bool {
    matches!(
        kind,
        ErrorKind::NotFound | ErrorKind::NotADirectory | ErrorKind::InvalidFilename
    )
}

// Reads to the end of the file. The caller counts a `Failed`.
fn read_all<F: Read>(alloc: Global, file: &mut F) -> Result<Vec<u8>, DeskFault>
    ensures small { IfOk result (λ bytes. vec_len bytes ≤ MAX_FILE_BYTES) }
    ensures whole { ForSome (F.remaining file.old) (λ left. IfOk result (λ bytes. bytes.items ≡ left)) }
    ensures long { ForSome (F.remaining file.old) (λ left. result ≡ Err DeskFault.Long → MAX_FILE_BYTES < length left) }
{
    let mut bytes = Vec::new(alloc);
    let mut piece = [0; 4096];
    loop {
        let Ok(count) = file.read(&mut piece) else {
            return Err(DeskFault::Failed);
        };
        if count == 0 {
            return Ok(bytes);
        }
        if count > MAX_FILE_BYTES - bytes.len() {
            return Err(DeskFault::Long);
        }
        bytes.extend_from_slice(&piece[..count])?;
    }
}

// Whether a file took all bytes where it stands.
fn overwrite<R: Files>(rt: &R, name: &str, bytes: &[u8]) -> bool {
    let Ok(mut file) = fs::create(rt, name) else {
        return false;
    };
    write_whole(&mut file, bytes)
}

impl<'a, R: Files> FileDesk<'a, R> {
    /// A desk over the files of the system. No call has failed yet.
    pub fn new(rt: &'a R) -> FileDesk<'a, R>
        ensures { result ≡ record { reads = 0; writes = 0 } }
    {
        FileDesk {
            rt,
            reads: 0,
            writes: 0,
        }
    }
}

impl<R: Files> Desk for FileDesk<'_, R> {
    ghost told = { λ _. None };

    ghost reads = { λ desk. desk.reads };

    ghost writes = { λ desk. desk.writes };

    fn fetch(&mut self, alloc: Global, name: &str) -> Result<Option<Vec<u8>>, DeskFault> {
        let mut file = match fs::open(self.rt, name) {
            Ok(file) => file,
            Err(error) => {
                if is_absence(error.kind()) {
                    return Ok(None);
                }
                return Err(DeskFault::counted(&mut self.reads));
            }
        };
        match read_all(alloc, &mut file) {
            Ok(bytes) => Ok(Some(bytes)),
            Err(DeskFault::Failed) => Err(DeskFault::counted(&mut self.reads)),
            Err(DeskFault::Long) => Err(DeskFault::Long),
            Err(DeskFault::Memory) => Err(DeskFault::Memory),
        }
    }

    fn store(&mut self, name: &str, bytes: &[u8]) -> Result<(), DeskFault> {
        let stored = match replace(self.rt, name, bytes) {
            Replacement::Done => true,
            Replacement::Failed => false,
            Replacement::Refused => overwrite(self.rt, name, bytes),
        };
        if stored {
            Ok(())
        } else {
            Err(DeskFault::counted(&mut self.writes))
        }
    }
}

#[cfg(test)]
mod tests {
    use super::*;
    use std::test::Fail;

    #[test]
    fn stores_and_fetches(rt: HostRuntime) -> Result<(), Fail> {
        let alloc = rt.alloc();
        let name = "fab_desk_test_file";
        let mut desk = FileDesk::new(&rt);
        // Longer than one read.
        let long = vec![in alloc; 7; 10_000]?;
        desk.store(name, &long)?;
        let back = desk.fetch(alloc, name)?;
        fs::remove_file(&rt, name)?;
        assert_eq!(rt; back.ok_or("absent")?.as_slice(), long.as_slice());
        assert!(rt; desk.fetch(alloc, name)?.is_none());
        // A path through a file, and a name of more bytes than a system takes.
        desk.store(name, b"text")?;
        let through = format!(in alloc; "{name}/")?;
        let absent = desk.fetch(alloc, &through)?.is_none();
        fs::remove_file(&rt, name)?;
        assert!(rt; absent);
        let letters = vec![in alloc; b'a'; 5_000]?;
        let endless = String::from_utf8(letters).ok().ok_or("no text")?;
        assert!(rt; desk.fetch(alloc, &endless)?.is_none());
        // A folder is opened, and its read fails.
        assert_eq!(rt; desk.fetch(alloc, "."), Err(DeskFault::Failed));
        assert_eq!(rt; desk.store(".", b"text"), Err(DeskFault::Failed));
        Ok(())
    }

    #[test]
    fn replaces_plain_files_alone(rt: HostRuntime) -> Result<(), Fail> {
        let alloc = rt.alloc();
        let name = "fab_desk_test_old";
        let link = "fab_desk_test_link";
        let part = "fab_desk_test_old.part";
        let mut desk = FileDesk::new(&rt);
        desk.store(name, b"old text")?;
        desk.store(name, b"text")?;
        let replaced = desk.fetch(alloc, name)?;
        let left = desk.fetch(alloc, part)?.is_none();
        // Through a link, the file that it leads to is written.
        fs::rename(&rt, name, link)?;
        rt.symlink(link, name)?;
        desk.store(name, b"new")?;
        let written = desk.fetch(alloc, link)?;
        // A file that stands under the name of the one beside is not touched.
        fs::remove_file(&rt, name)?;
        desk.store(part, b"mine")?;
        desk.store(name, b"text")?;
        let mine = desk.fetch(alloc, part)?;
        for each in [name, link, part] {
            fs::remove_file(&rt, each)?;
        }
        assert_eq!(rt; replaced.ok_or("absent")?.as_slice(), b"text".as_slice());
        assert!(rt; left);
        assert_eq!(rt; written.ok_or("absent")?.as_slice(), b"new".as_slice());
        assert_eq!(rt; mine.ok_or("absent")?.as_slice(), b"mine".as_slice());
        Ok(())
    }
}
