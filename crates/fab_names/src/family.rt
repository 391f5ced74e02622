//! The names of the bits of one side of a row.

ghost use Rattle.std.specs.Prelude.{◌≡◌, ◌≤◌, ◌*◌, nat_lt, IfOk, true};
ghost use Rattle.fab_lines.specs.Numbers.{capped, is_number, number_of};
ghost use Rattle.fab_names.specs.Names.{has_bit, meet};

use crate::below::is_below;
use fab_base::Memory;
use fab_lines::{capped_number, is_number};
use std::alloc::Global;
use std::marker::Model;

/// The names of the bits of one side of a row: a base, and behind it each number below a count.
#[derive(Debug, Drop)]
pub struct Family {
    base: Vec<u8>,
    // the base and the number 0
    first: Vec<u8>,
    factor: u32,
    count: Vec<u8>,
}

impl Model for Family {
    ghost use Rattle.std.specs.Prelude.{◌≡◌, ◌≤◌, ◌++◌, ◌*◌, codes, true};
    ghost use Rattle.fab_lines.specs.Numbers.{is_number, number_of};
    ghost use Rattle.fab_names.specs.Names.{PlainFamily};

    ghost Value = { PlainFamily };

    ghost view = { λ f. record { base = f.base.items; bits = f.factor * number_of f.count.items } };

    ghost invariant = { λ f. (f.first.items ≡ f.base.items ++ codes "0") × (f.factor ≤ 31) × (is_number f.count.items ≡ true) };
}

impl Family {
    /// The names of so many times `count` bits.
    pub fn new(alloc: Global, base: &[u8], factor: u32, count: &[u8]) -> Result<Family, Memory>
        requires factor { factor ≤ 31 }
        requires count { is_number count.now ≡ true }
        ensures { IfOk result (λ family. family ≡ record { base = base.now; bits = factor * number_of count.now }) }
    {
        let mut first = Vec::from_slice(alloc, base)?;
        first.push(b'0')?;
        Ok(Family {
            base: Vec::from_slice(alloc, base)?,
            first,
            factor,
            count: Vec::from_slice(alloc, count)?,
        })
    }

    /// Whether one of its bits is called so.
    #[tactic(auto, unfolding(crate::specs::Names::has_bit))]
    pub fn has_bit(&self, name: &[u8]) -> bool
        ensures { result ≡ has_bit self.now name.now }
    {
        if !name.starts_with(&self.base) {
            return false;
        }
        let (_, digits) = name.split_at(self.base.len());
        if !is_number(digits) {
            return false;
        }
        is_below(digits, self.factor, &self.count)
    }

    /// How many bits it has, or the greatest number of 64 bits where that is less.
    #[tactic(auto, using(crate::proofs::Leads::capped_product))]
    pub fn count(&self) -> u64
        ensures { result ≡ capped self.now.bits }
    {
        let count = capped_number(&self.count).unwrap_or(0);
        u64::from(self.factor).saturating_mul(count)
    }

    /// What stands in front of the numbers.
    pub(crate) fn base(&self) -> &[u8]
        ensures { result.now ≡ self.now.base }
    {
        &self.base
    }

    /// Whether it has a bit.
    pub(crate) fn has_some(&self) -> bool
        ensures { result ≡ nat_lt 0 self.now.bits }
    {
        is_below(b"0", self.factor, &self.count)
    }

    /// Whether a bit of it and one of the other are called alike.
    #[tactic(auto, unfolding(crate::specs::Names::meet))]
    pub fn meets(&self, other: &Family) -> bool
        ensures { result ≡ meet self.now other.now }
    {
        if !self.has_some() {
            return false;
        }
        if !other.has_some() {
            return false;
        }
        self.has_bit(&other.first) || other.has_bit(&self.first)
    }
}
