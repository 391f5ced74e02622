//! The files of a sample where commands find them.

ghost use Rattle.std.specs.Prelude.{◌≡◌, ◌≤◌, All, map, IfOk, OnOk};
ghost use Rattle.std.specs.Str.{IsUtf8};
ghost use Rattle.fab_desk.specs.Files.{with_file};
ghost use Rattle.fab_desk.specs.Memory.{map_of};
ghost use Rattle.fab_outputs.specs.Storing.{with_outputs};
ghost use Rattle.fab_sampling.specs.Sampling.{only, sample_map, stored_file};

use crate::shelf::Shelf;
use fab_base::{Memory, Name};
use fab_desk::Desk;
use fab_sample::{File, make};
use std::alloc::Global;
use std::str;

/// The text of a name that is UTF-8.
fn text_of(name: &Name) -> &str
    requires { IsUtf8 name.now }
    ensures { result.now ≡ name.now }
{
    match str::from_utf8(name.bytes()) {
        Ok(text) => text,
        Err(_) => unreachable!(),
    }
}

/// Puts a file on the shelf.
fn put(shelf: &mut Shelf, file: &File) -> Result<(), Memory>
    requires { IsUtf8 file.now.name }
    ensures { OnOk result (map_of shelf.new ≡ with_file file.now.name file.now.text (map_of shelf.old)) }
{
    match shelf.store(text_of(&file.name), file.text.bytes()) {
        Ok(()) => Ok(()),
        Err(_) => Err(Memory),
    }
}

/// Puts files on the shelf, one after the other.
fn put_all(shelf: &mut Shelf, files: &[File]) -> Result<(), Memory>
    requires { All (λ file. IsUtf8 file.name) files.now }
    ensures { OnOk result (map_of shelf.new ≡ with_outputs (map stored_file files.now) (map_of shelf.old)) }
{
    for file in files {
        put(shelf, file)?;
    }
    Ok(())
}

/// A shelf with these files alone.
fn shelf_of(alloc: Global, files: &[File]) -> Result<Shelf, Memory>
    requires { All (λ file. IsUtf8 file.name) files.now }
    ensures { IfOk result (λ shelf. map_of shelf ≡ only files.now) }
{
    let mut shelf = Shelf::new(alloc)?;
    put_all(&mut shelf, files)?;
    Ok(shelf)
}

/// A shelf with the files of a sample.
pub fn stocked(alloc: Global, size: usize, seed: u64) -> Result<Shelf, Memory>
    requires least { 2 ≤ size }
    requires most { size ≤ 16 }
    ensures { IfOk result (λ shelf. map_of shelf ≡ sample_map size seed) }
{
    let sample = make(alloc, size, seed)?;
    shelf_of(alloc, &sample.files)
}
