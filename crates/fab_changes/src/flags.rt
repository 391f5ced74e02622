//! Flags of which few are set.

ghost use Rattle.std.specs.Prelude.{◌≡◌, ◌+◌, ◌*◌, ◌/◌, ◌^◌, ◌<◌, ◌≤◌, ℕ, true, false, length, replicate, slice_set, IfSome, MatchOption};
ghost use Rattle.fab_changes.specs.Flags.{AreUnset, IsNextSet, IsUnset};

use std::alloc::Global;
use std::marker::Model;

/// How many flags a block has.
const BLOCK: usize = 32;

/// Flags by their numbers. The next one that is set is found fast where few are, since a block that has none is passed over as a whole.
/// Contracts see the list of flags.
#[derive(Drop)]
pub struct Flags {
    flags: Vec<bool>,
    // By the number of a block: whether one of its flags is set. Where it is not, none is.
    blocks: Vec<bool>,
}

impl Model for Flags {
    ghost use Rattle.std.specs.Prelude.{Bool, List};
    ghost use Rattle.fab_changes.specs.Flags.{AreBlocks};

    ghost Value = { List Bool };

    ghost view = { λ flags. flags.flags.items };

    ghost invariant = { λ flags. AreBlocks flags.flags.items flags.blocks.items };
}

impl Flags {
    /// So many flags, which are all set. `None` where there is no memory.
    pub fn all_set(alloc: Global, count: usize) -> Option<Flags>
        ensures { IfSome result (λ flags. flags ≡ replicate count true) }
    {
        let flags = vec![in alloc; true; count].ok()?;
        let blocks = vec![in alloc; true; count / BLOCK + 1].ok()?;
        Some(Flags { flags, blocks })
    }

    /// How many flags there are.
    pub fn len(&self) -> usize
        ensures { result ≡ length self.now }
    {
        self.flags.len()
    }

    /// Sets a flag.
    pub fn set(&mut self, number: usize)
        requires within { number < length self.old }
        ensures { self.new ≡ slice_set self.old number true }
    {
        self.flags[number] = true;
        self.blocks[number / BLOCK] = true;
    }

    /// Clears a flag.
    pub fn clear(&mut self, number: usize)
        requires within { number < length self.old }
        ensures { self.new ≡ slice_set self.old number false }
    {
        self.flags[number] = false;
        let block = number / BLOCK;
        self.blocks[block] = has_set(&self.flags, block);
    }

    /// The first flag from a number on that is set.
    pub fn next_set(&self, from: usize) -> Option<usize>
        ensures { MatchOption result (AreUnset self.now from (length self.now)) (IsNextSet self.now from) }
    {
        let mut number = from;
        while number < self.flags.len() {
            if self.flags[number] {
                return Some(number);
            }
            number = behind(number, &self.blocks);
        }
        None
    }
}

// The next flag that may be set, behind one that is not: the one behind it, or the first behind its block where that has none.
fn behind(number: usize, blocks: &[bool]) -> usize
    requires within { number / 32 < length blocks.now }
    requires small { number + 32 < 2 ^ 64 }
    ensures later { number < result }
    ensures passed { (other : ℕ) → number < other → other < result → IsUnset blocks.now (other / 32) }
{
    let block = number / BLOCK;
    if blocks[block] {
        number + 1
    } else {
        (block + 1) * BLOCK
    }
}

// Whether a block has a flag that is set.
fn has_set(flags: &[bool], block: usize) -> bool
    requires within { 32 * block < length flags.now }
    ensures { result ≡ false → (number : ℕ) → number / 32 ≡ block → number < length flags.now → IsUnset flags.now number }
{
    let begin = block * BLOCK;
    let end = flags.len().min(begin + BLOCK);
    for number in begin..end {
        if flags[number] {
            return true;
        }
    }
    false
}
