//! Which file a path means that stands in another file.

ghost use Rattle.std.specs.Prelude.{◌≡◌, ◌&&◌, codes, IfOk, IfSome, OnOk, map};
ghost use Rattle.std.specs.Str.{bytes_eq, IsUtf8, is_utf8};
ghost use Rattle.fab_paths.specs.Paths.{begins_at_root, ends_upward, file_of, has_removable, is_file_name, is_root, slashed, resolved, segments, tidied, would_be_root};

use fab_base::{Memory, Name};
use std::alloc::Global;

fn segments(alloc: Global, path: &[u8]) -> Result<Vec<&[u8]>, Memory>
    ensures { IfOk result (λ found. map (λ s. s.now) found.items ≡ segments path.now) }
{
    let mut found = Vec::new(alloc);
    for segment in path.split(|byte| *byte == b'/') {
        found.push(segment)?;
    }
    Ok(found)
}

fn is_root(kept: &[&[u8]]) -> bool
    ensures { result ≡ is_root (map (λ s. s.now) kept.now) }
{
    kept.len() == 1 && kept[0].is_empty()
}

fn ends_upward(kept: &[&[u8]]) -> bool
    ensures { result ≡ ends_upward (map (λ s. s.now) kept.now) }
{
    if kept.is_empty() {
        return false;
    }
    kept[kept.len() - 1] == b"..".as_slice()
}

/// Whether `..` takes the last of these segments away.
fn has_removable(kept: &[&[u8]]) -> bool
    ensures { result ≡ has_removable (map (λ s. s.now) kept.now) }
{
    if kept.is_empty() {
        return false;
    }
    !is_root(kept) && !ends_upward(kept)
}

fn leads_upward(kept: &[&[u8]], segment: &[u8]) -> bool
    ensures { result ≡ (bytes_eq segment.now (codes "..") && has_removable (map (λ s. s.now) kept.now)) }
{
    segment == b"..".as_slice() && has_removable(kept)
}

fn begins_at_root(path: &[u8]) -> bool
    ensures { result ≡ begins_at_root path.now }
{
    !path.is_empty() && path[0] == b'/'
}

/// Whether a segment is empty and would stand first, in a path that does not lead on from the root.
fn would_be_root(from_root: bool, kept: &[&[u8]], segment: &[u8]) -> bool
    ensures { result ≡ would_be_root from_root (map (λ s. s.now) kept.now) segment.now }
{
    !from_root && kept.is_empty() && segment.is_empty()
}

/// Goes on from the segments that are kept.
fn tidy<'a>(from_root: bool, kept: &mut Vec<&'a [u8]>, more: &[&'a [u8]]) -> Result<(), Memory>
    ensures { OnOk result (map (λ s. s.now) kept.new.items ≡ tidied from_root (map (λ s. s.now) kept.old.items) (map (λ s. s.now) more.now)) }
{
    for segment in more {
        if *segment == b".".as_slice() {
            continue;
        }
        if leads_upward(kept, segment) {
            let _ = kept.pop();
            continue;
        }
        if would_be_root(from_root, kept, segment) {
            continue;
        }
        kept.push(segment)?;
    }
    Ok(())
}

fn slashed(alloc: Global, segments: &[&[u8]]) -> Result<Vec<u8>, Memory>
    ensures { IfOk result (λ path. path.items ≡ slashed (map (λ s. s.now) segments.now)) }
{
    let mut path = Vec::new(alloc);
    let [first, more @ ..] = segments else {
        return Ok(path);
    };
    path.extend_from_slice(first)?;
    for segment in more {
        path.push(b'/')?;
        path.extend_from_slice(segment)?;
    }
    Ok(path)
}

#[tactic(auto, unfolding(crate::specs::Paths::resolved))]
fn resolved(alloc: Global, holder: &[u8], path: &[u8]) -> Result<Vec<u8>, Memory>
    ensures { IfOk result (λ file. file.items ≡ resolved holder.now path.now) }
{
    if begins_at_root(path) {
        return Ok(Vec::from_slice(alloc, path)?);
    }
    let from_root = begins_at_root(holder);
    let before = segments(alloc, holder)?;
    let (directory, _) = before.split_at(before.len().saturating_sub(1));
    let mut kept = Vec::new(alloc);
    tidy(from_root, &mut kept, directory)?;
    tidy(from_root, &mut kept, &segments(alloc, path)?)?;
    slashed(alloc, &kept)
}

fn is_text(name: &[u8]) -> bool
    ensures { result ≡ is_utf8 name.now }
{
    str::from_utf8(name).is_ok()
}

#[tactic(auto, unfolding(crate::specs::Paths::is_file_name))]
fn is_file_name(name: &[u8]) -> bool
    ensures { result ≡ is_file_name name.now }
{
    is_text(name) && !name.is_empty()
}

/// The file that a path means which stands in the file `holder`: a path from the root itself, and else the one that leads on from
/// the directory of `holder`, where `.` is dropped and `..` goes with the segment before it. A path that leads on from no root stays
/// relative. It is none where the path is not UTF-8, or is empty as it is written or then. A file's name that is given out is UTF-8.
pub fn resolve(alloc: Global, holder: &Name, path: &[u8]) -> Result<Option<Name>, Memory>
    ensures file { IfOk result (λ found. found ≡ file_of holder.now path.now) }
    ensures text { IfOk result (λ found. IfSome found IsUtf8) }
{
    if !is_file_name(path) {
        return Ok(None);
    }
    let file = resolved(alloc, holder.bytes(), path)?;
    if !is_file_name(&file) {
        return Ok(None);
    }
    Ok(Some(Name::from(file)))
}
