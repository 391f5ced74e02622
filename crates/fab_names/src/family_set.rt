//! Families that are looked up by their bases.
//!
//! A base and digits behind it make a name. So of two families that share a name one has the base of the other, with digits
//! behind it or none, and only such families are compared. A new family with bits is compared at most once with each family
//! whose base is its own with digits behind it, since another one of that base shares its names. So all comparisons
//! together take time linear in the bytes of the names, but for those with the base of the new family and less digits, of
//! which there are no more than digits.

ghost use Rattle.std.specs.Prelude.{◌≡◌, ◌≤◌, ◌<◌, ◌++◌, ◌∷◌, [], ℕ, List, true, Contains, OnOk, length, option_map, unwrap_or};
ghost use Rattle.std.specs.List.{list_all, list_any};
ghost use Rattle.fab_lines.specs.Numbers.{is_digit};
ghost use Rattle.fab_names.specs.inner.Keyed.{Adds, AddsFronts, family_at, under};
ghost use Rattle.fab_names.specs.Names.{has_bit, meet};

use crate::family::Family;
use crate::places::Places;
use fab_base::Memory;
use fab_lines::is_digit;
use std::alloc::Global;
use std::marker::Model;

/// The places of families with bits, by their bases.
#[derive(Debug, Drop)]
struct Bases {
    // under each base
    whole: Places,
    // under each front of a base behind which only digits stand, and at least one
    fronts: Places,
    // the length of the longest base
    longest: usize,
}

/// Families in their order.
#[derive(Debug, Drop)]
pub(crate) struct Families {
    all: Vec<Family>,
    bases: Bases,
    // the bases lack some only after memory was refused
    is_whole: bool,
}

impl Model for Families {
    ghost use Rattle.std.specs.Prelude.{◌≡◌, List, true};
    ghost use Rattle.fab_names.specs.Names.{PlainFamily};
    ghost use Rattle.fab_names.specs.inner.Keyed.{IsKept, under};

    ghost Value = { List PlainFamily };

    ghost view = { λ f. f.all.items };

    ghost invariant = { λ f. f.is_whole ≡ true → IsKept f.all.items (under f.bases.whole.keys.keys f.bases.whole.groups.items) (under f.bases.fronts.keys.keys f.bases.fronts.groups.items) f.bases.longest };
}

/// Where the digits at the end of a base begin.
fn first_digit(base: &[u8]) -> usize
    ensures within { result ≤ length base.now }
    ensures first { (front digits : List ℕ) → base.now ≡ front ++ digits → list_all is_digit digits ≡ true → result ≤ length front }
{
    let mut first = 0;
    for (place, byte) in base.iter().enumerate() {
        if !is_digit(*byte) {
            first = place + 1;
        }
    }
    first
}

/// Adds a place under each front of a base behind which only digits stand, and at least one.
fn add_fronts(alloc: Global, fronts: &mut Places, base: &[u8], place: usize) -> Result<(), Memory>
    ensures { OnOk result (AddsFronts (under fronts.old.keys.keys fronts.old.groups.items) (under fronts.new.keys.keys fronts.new.groups.items) base.now place) }
{
    for long in first_digit(base)..base.len() {
        let (front, _) = base.split_at(long);
        fronts.add(alloc, front, place)?;
    }
    Ok(())
}

/// Whether one of all families shares a name with a new one.
fn meets_some(all: &[Family], new: &Family) -> bool
    ensures { result ≡ list_any (λ family. meet family new.now) all.now }
{
    all.iter().any(|family| family.meets(new))
}

/// Whether a family at one of these places shares a name with a new one.
fn meets_at(all: &[Family], places: Option<&Vec<usize>>, new: &Family) -> bool
    ensures some { result ≡ true → list_any (λ family. meet family new.now) all.now ≡ true }
    ensures each { (place : ℕ) → Contains (unwrap_or (option_map (λ group. group.now.items) places.entry) []) place → place < length all.now →
        meet (family_at all.now place) new.now ≡ true → result ≡ true }
{
    let Some(group) = places else {
        return false;
    };
    for place in group {
        let Some(family) = all.get(*place) else {
            continue;
        };
        if family.meets(new) {
            return true;
        }
    }
    false
}

impl Bases {
    fn new(alloc: Global) -> Bases {
        Bases {
            whole: Places::new(alloc),
            fronts: Places::new(alloc),
            longest: 0,
        }
    }

    /// Adds the place of a family of this base.
    fn add(&mut self, alloc: Global, base: &[u8], place: usize) -> Result<(), Memory>
        ensures whole { OnOk result (Adds (under self.old.whole.keys.keys self.old.whole.groups.items) (under self.new.whole.keys.keys self.new.whole.groups.items) base.now place) }
        ensures fronts { OnOk result (AddsFronts (under self.old.fronts.keys.keys self.old.fronts.groups.items) (under self.new.fronts.keys.keys self.new.fronts.groups.items) base.now place) }
        ensures longer { OnOk result (self.old.longest ≤ self.new.longest) }
        ensures fits { OnOk result (length base.now ≤ self.new.longest) }
    {
        self.whole.add(alloc, base, place)?;
        add_fronts(alloc, &mut self.fronts, base, place)?;
        self.longest = self.longest.max(base.len());
        Ok(())
    }

    /// Whether a family shares a name with a new one, whose base is that family's base with digits behind it or none.
    fn meets(&self, all: &[Family], new: &Family) -> bool
        ensures some { result ≡ true → list_any (λ family. meet family new.now) all.now ≡ true }
        ensures each { (front digits : List ℕ) (place : ℕ) → new.now.base ≡ front ++ digits → list_all is_digit digits ≡ true → length front ≤ self.now.longest →
            Contains (under self.now.whole.keys.keys self.now.whole.groups.items front) place → place < length all.now → meet (family_at all.now place) new.now ≡ true → result ≡ true }
    {
        let base = new.base();
        for long in first_digit(base)..base.len().min(self.longest) + 1 {
            let (front, _) = base.split_at(long);
            if meets_at(all, self.whole.under(front), new) {
                return true;
            }
        }
        false
    }
}

impl Families {
    /// No families.
    pub fn new(alloc: Global) -> Families
        ensures { result ≡ [] }
    {
        Families {
            all: Vec::new(alloc),
            bases: Bases::new(alloc),
            is_whole: true,
        }
    }

    /// Whether a bit of one of them is called so.
    pub fn has_bit(&self, name: &[u8]) -> bool
        ensures { result ≡ list_any (λ family. has_bit family name.now) self.now }
    {
        self.all.iter().any(|family| family.has_bit(name))
    }

    /// Whether one of them shares a name with a new one.
    pub fn meets(&self, new: &Family) -> bool
        ensures { result ≡ list_any (λ family. meet family new.now) self.now }
    {
        if !self.is_whole {
            return meets_some(&self.all, new);
        }
        if !new.has_some() {
            return false;
        }
        if meets_at(&self.all, self.bases.fronts.under(new.base()), new) {
            return true;
        }
        self.bases.meets(&self.all, new)
    }

    /// Adds a family.
    pub fn push(&mut self, alloc: Global, family: Family) -> Result<(), Memory>
        ensures { OnOk result (self.new ≡ self.old ++ family ∷ []) }
    {
        if !family.has_some() {
            self.all.push(family)?;
            return Ok(());
        }
        let was_whole = self.is_whole;
        self.is_whole = false;
        let place = self.all.len();
        self.bases.add(alloc, family.base(), place)?;
        self.all.push(family)?;
        self.is_whole = was_whole;
        Ok(())
    }
}
