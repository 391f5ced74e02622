//! The nodes that wait in a search, by key.
ghost use Rattle.std.specs.Prelude.{◌≡◌, ◌≢◌, ℕ, ◌+◌, ◌<◌, ◌≤◌, OnOk, IfOk, IfSome, IfNone, [], length, slice_index_or, map};

use fab_base::Memory;
use std::alloc::Global;
use std::collections::BTreeSet;

/// Buckets for the keys from 0 on, eight for each key.
const BUCKETS: usize = 65536;

/// The first key that no bucket has.
const FAR: u64 = 8192;

/// Entries of a key and a node. Of a key's entries those of a lower tie are taken first, and of these the last one first.
#[derive(Drop)]
pub(crate) struct Queue {
    pub buckets: Vec<Vec<u32>>,
    /// All buckets below are empty.
    pub now: usize,
    /// From here on all buckets are empty.
    pub top: usize,
    /// The entries of greater keys.
    pub far: BTreeSet<(u64, u32)>,
}

/// So many buckets, with nothing in them.
fn empty_buckets(alloc: Global, count: usize) -> Result<Vec<Vec<u32>>, Memory>
    ensures many { IfOk result (λ buckets. length buckets.items ≡ count) }
    ensures empty { IfOk result (λ buckets. (k : ℕ) → slice_index_or (map (λ bucket. bucket.items) buckets.items) k [] ≡ []) }
{
    let mut buckets = Vec::with_capacity(alloc, count)?;
    for _ in 0..count {
        buckets.push(Vec::new(alloc))?;
    }
    Ok(buckets)
}

impl Queue {
    ghost use Rattle.fab_astar.specs.Queue.{IsQueue, IsEmpty, IsPushed, IsPopped, size, near};

    pub fn new(alloc: Global) -> Result<Queue, Memory>
        ensures queue { IfOk result IsQueue }
        ensures empty { IfOk result IsEmpty }
    {
        Ok(Queue {
            buckets: empty_buckets(alloc, BUCKETS)?,
            now: 0,
            top: 0,
            far: BTreeSet::new(alloc),
        })
    }

    /// Adds an entry; the tie is below 8.
    pub fn push(&mut self, key: u64, tie: u32, node: u32) -> Result<(), Memory>
        requires queue { IsQueue self.old }
        requires tie { tie < 8 }
        ensures queue { OnOk result (IsQueue self.new) }
        ensures pushed { OnOk result (IsPushed self.old self.new key node) }
        ensures size { OnOk result (size self.new ≤ size self.old + 1) }
    {
        if key >= FAR {
            self.far.insert((key, node))?;
            return Ok(());
        }
        let at = 8 * key as usize + tie as usize;
        let bucket = &mut self.buckets[at];
        bucket.push(node)?;
        self.now = self.now.min(at);
        self.top = self.top.max(at + 1);
        Ok(())
    }

    /// Passes over empty buckets.
    fn advance(&mut self)
        requires queue { IsQueue self.old }
        ensures queue { IsQueue self.new }
        ensures near { near self.new ≡ near self.old }
        ensures far { self.new.far.keys ≡ self.old.far.keys }
        ensures found { self.new.now < self.new.top → slice_index_or (near self.new) self.new.now [] ≢ [] }
    {
        while self.now < self.top && self.buckets[self.now].is_empty() {
            self.now += 1;
        }
    }

    /// Takes out an entry of the least key.
    pub fn pop(&mut self) -> Option<(u64, u32)>
        requires queue { IsQueue self.old }
        ensures queue { IsQueue self.new }
        ensures popped { IfSome result (λ entry. IsPopped self.old self.new entry.0 entry.1) }
        ensures size { IfSome result (λ _. size self.new + 1 ≡ size self.old) }
        ensures none { IfNone result (IsEmpty self.old) }
    {
        self.advance();
        if self.now >= self.top {
            let Some((key, node)) = self.far.pop_first() else {
                return None;
            };
            return Some((key, node));
        }
        let at = self.now;
        let bucket = &mut self.buckets[at];
        let Some(node) = bucket.pop() else {
            unreachable!();
        };
        Some((at as u64 / 8, node))
    }

    /// Takes everything out.
    pub fn clear(&mut self)
        requires queue { IsQueue self.old }
        ensures queue { IsQueue self.new }
        ensures empty { IsEmpty self.new }
    {
        for at in self.now..self.top {
            let bucket = &mut self.buckets[at];
            bucket.clear();
        }
        self.now = BUCKETS;
        self.top = 0;
        self.far.clear();
    }
}
