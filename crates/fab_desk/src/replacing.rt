//! A file takes the place of another as a whole: it is written beside it, and then renamed.

use crate::write::write_whole;
use std::fs;
use std::fs::{OpenFile, OpenOptions, Permissions};
use std::io::ErrorKind;
use std::rt::Files;

/// What the path of the file beside another has behind the path of that.
const ENDING: &str = ".part";

/// The path of a file is shorter than this on the system.
const PATH_ROOM: usize = 4096;

/// What came of it.
#[derive(Clone, Copy)]
pub(crate) enum Replacement {
    /// The bytes stand under the name.
    Done,
    /// The device did not take the bytes. What stood under the name stands there.
    Failed,
    /// Nothing came of it: a file under that name has to be written where it is.
    Refused,
}

// What stands under a name.
#[derive(Drop)]
enum Old {
    Nothing,
    /// A file that may be written, and is no link, no pipe and no device.
    Plain(Permissions),
    Other,
}

// What stands under a name. A file that may not be written is not replaced either.
fn old_of<R: Files>(rt: &R, name: &str) -> Old {
    match rt.symlink_metadata(name) {
        Ok(metadata) => {
            if metadata.is_file() && OpenOptions::new().write(true).open(rt, name).is_ok() {
                return Old::Plain(metadata.permissions());
            }
            Old::Other
        }
        Err(error) => {
            if error.kind() == ErrorKind::NotFound {
                return Old::Nothing;
            }
            Old::Other
        }
    }
}

// The path of the file beside another. None where it is too long for the system.
fn beside<'a>(name: &str, room: &'a mut [u8; PATH_ROOM]) -> Option<&'a str> {
    let length = name.len().saturating_add(ENDING.len());
    let path = room.get_mut(..length)?;
    let (front, back) = path.split_at_mut(name.len());
    front.copy_from_slice(name.as_bytes());
    back.copy_from_slice(ENDING.as_bytes());
    std::str::from_utf8(path).ok()
}

// Whether a file has the permissions of the one that it is to replace.
fn is_permitted<F: OpenFile>(file: &F, old: Old) -> bool {
    match old {
        Old::Nothing => true,
        Old::Plain(permissions) => file.set_permissions(permissions).is_ok(),
        Old::Other => false,
    }
}

// Writes a file that was made beside another, and gives it the name of that.
fn fill_and_rename<R: Files>(
    rt: &R,
    mut file: R::File,
    path: &str,
    old: Old,
    name: &str,
    bytes: &[u8],
) -> Replacement {
    if !write_whole(&mut file, bytes) {
        return Replacement::Failed;
    }
    if is_permitted(&file, old) && fs::rename(rt, path, name).is_ok() {
        return Replacement::Done;
    }
    Replacement::Refused
}

/// Puts bytes under a name, so that at each moment the whole of the old ones or of the new ones stands there.
pub(crate) fn replace<R: Files>(rt: &R, name: &str, bytes: &[u8]) -> Replacement {
    let old = old_of(rt, name);
    if matches!(old, Old::Other) {
        return Replacement::Refused;
    }
    let mut room = [0; PATH_ROOM];
    let Some(path) = beside(name, &mut room) else {
        return Replacement::Refused;
    };
    let made = OpenOptions::new()
        .write(true)
        .create_new(true)
        .open(rt, path);
    let Ok(file) = made else {
        return Replacement::Refused;
    };
    let replacement = fill_and_rename(rt, file, path, old, name, bytes);
    if !matches!(replacement, Replacement::Done) {
        let _removed = fs::remove_file(rt, path);
    }
    replacement
}
