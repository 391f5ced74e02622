//! What the spans of nets tell of an exchange before it is made.
ghost use Rattle.std.specs.Prelude.{◌≡◌, ◌↔◌, ℕ, ◌+◌, ◌-◌, ◌<◌, ◌≤◌, ◌^◌, IfOk, IsTrue, length, min, true, false};
ghost use Rattle.fab_annealing.specs.Measured.{IsNets, item_count, net_count};
ghost use Rattle.fab_annealing.specs.inner.Tied.{AreTies, HasOther, HasTies, IsAlone, ties_of};

use crate::nets::Nets;
use std::alloc::{AllocError, Global};

/// The nets by which each item is tied to others, each net once.
#[derive(Drop)]
pub struct Ties {
    nets: Vec<Vec<u32>>,
}

impl Ties {
    /// The ties of the items that nets have.
    pub fn of(alloc: Global, nets: &Nets) -> Result<Ties, AllocError>
        requires { IsNets nets.now }
        ensures { IfOk result (HasTies nets.now) }
    {
        let mut ties = Vec::with_capacity(alloc, nets.touching.len())?;
        for item in 0..nets.touching.len() as u32 {
            ties.push(tying(alloc, nets, item)?)?;
        }
        Ok(Ties { nets: ties })
    }

    /// The nets that tie an item.
    pub fn at(&self, item: u32) -> &[u32]
        requires { item < length self.now.nets.items }
        ensures { result.now ≡ ties_of self.now item }
    {
        &self.nets[item as usize]
    }
}

/// The nets of an item that have other items too, each once.
fn tying(alloc: Global, nets: &Nets, item: u32) -> Result<Vec<u32>, AllocError>
    requires nets { IsNets nets.now }
    requires item { item < item_count nets.now }
    ensures { IfOk result (λ ties. AreTies nets.now item ties.items) }
{
    let mut ties = Vec::new(alloc);
    for net in &nets.touching[item as usize] {
        if ties.contains(net) {
            continue;
        }
        if !has_other(nets, *net, item) {
            continue;
        }
        ties.push(*net)?;
    }
    Ok(ties)
}

/// Whether a net has another item than this one.
fn has_other(nets: &Nets, net: u32, item: u32) -> bool
    requires { net < net_count nets.now }
    ensures other { result ≡ true → HasOther nets.now item net }
    ensures alone { result ≡ false → IsAlone nets.now item net }
{
    for other in &nets.items[net as usize] {
        if *other != item {
            return true;
        }
    }
    false
}

/// The widths of some nets, and what they are at the least after a move. What it adds to the cost is the difference.
#[derive(Clone, Copy, Debug)]
pub struct Change {
    pub before: u32,
    pub after: u32,
}

impl Change {
    /// No change.
    pub const NONE: Change = Change {
        before: 0,
        after: 0,
    };

    /// This change and another.
    pub fn and(self, other: Change) -> Change
        ensures before { result.before ≡ min (self.before + other.before) (2 ^ 32 - 1) }
        ensures after { result.after ≡ min (self.after + other.after) (2 ^ 32 - 1) }
    {
        Change {
            before: self.before.saturating_add(other.before),
            after: self.after.saturating_add(other.after),
        }
    }

    /// Whether the cost may fall.
    pub fn may_fall(self) -> bool
        ensures { result ≡ false → self.before ≤ self.after }
    {
        self.after < self.before
    }

    /// Whether the cost may rise by this much at most.
    pub fn may_be_within(self, room: u64) -> bool {
        u64::from(self.after) <= room.saturating_add(u64::from(self.before))
    }
}
