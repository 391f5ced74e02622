//! Bits of names and constants, behind those of a list.

ghost use Rattle.std.specs.Prelude.{◌≡◌, ◌+◌, ◌^◌, ◌<◌, ◌≤◌, ◌++◌, ℕ, List, length, map, slice_index, IfSome, OnOk};
ghost use Rattle.fab_systems_laws.specs.Ternary.{known as known_tern};
ghost use Rattle.fab_solutions_laws.specs.fab_ternary_laws_Shown.{first_terns};
ghost use Rattle.fab_ternary.specs.declared.Tern.{Tern as KeptTern};
ghost use Rattle.fab_ternary.specs.Terns.{plain_tern};
ghost use Rattle.fab_compiled.specs.Terns.{seen, IsView};
ghost use Rattle.fab_compiled.specs.inner.Looked.{AreLookedUp};

use crate::view::View;
use fab_base::Memory;
use fab_ternary::Tern;
use std::alloc::Global;

/// From how many points on it is kept what they have: fewer are looked up again sooner than a list is made for them.
const FEWEST_KEPT: usize = 32;

/// What points have that were looked up one by one, for as long as the view stays as it is: so a name that stands in an expression many times is looked up
/// once. The longest row of points that was read is kept, and of such rows the last.
#[derive(Drop)]
pub(crate) struct LookedUp {
    /// The place of the first of these points.
    place: usize,
    bits: Vec<Tern>,
}

impl LookedUp {
    /// Nothing yet. No memory is taken for it.
    pub(crate) fn new(alloc: Global) -> LookedUp
        ensures { (terns : List KeptTern) (leads : List ℕ) (first : ℕ) → AreLookedUp terns leads first result }
    {
        LookedUp {
            place: 0,
            bits: Vec::new(alloc),
        }
    }

    // Where points begin among those that were looked up, if all of them were.
    fn find(&self, place: usize, count: usize) -> Option<usize>
        ensures { IfSome result (λ at. (self.now.place + at ≡ place) × (at + count ≤ length self.now.bits.items)) }
    {
        let at = place.checked_sub(self.place)?;
        let rest = self.bits.len().checked_sub(at)?;
        if count <= rest { Some(at) } else { None }
    }

    // Keeps what points have from a place on, unless a longer row is kept already. Where memory is refused, nothing is kept.
    fn keep(&mut self, place: usize, bits: &[Tern])
        ensures { (terns : List KeptTern) (leads : List ℕ) (first : ℕ) → AreLookedUp terns leads first self.old →
            map plain_tern bits.now ≡ first_terns (length bits.now) (λ k. seen terns leads (first + (place + k))) →
            AreLookedUp terns leads first self.new }
    {
        if bits.len() < FEWEST_KEPT || bits.len() < self.bits.len() {
            return;
        }
        self.place = place;
        self.bits.clear();
        if self.bits.extend_from_slice(bits).is_err() {
            self.bits.clear();
        }
    }
}

/// Adds the bits of a constant.
pub(crate) fn add_constant(constant: &[bool], bits: &mut Vec<Tern>) -> Result<(), Memory>
    ensures { OnOk result (map plain_tern bits.new.items ≡ map plain_tern bits.old.items ++ map known_tern constant.now) }
{
    let low = bits.len();
    bits.resize(low + constant.len(), Tern::No)?;
    write_constant(constant, &mut bits[low..]);
    Ok(())
}

// Writes the bits of a constant in the place of those of a list.
fn write_constant(constant: &[bool], bits: &mut [Tern])
    requires { length bits.old ≡ length constant.now }
    ensures { map plain_tern bits.new ≡ map known_tern constant.now }
{
    for place in 0..bits.len() {
        bits[place] = Tern::known(constant[place]);
    }
}

/// Adds what points have that follow one another: the first point of the instance is given, and the place of the first of them. Those that were looked up
/// are copied, and those that are looked up here are kept.
pub(crate) fn add_points(
    first: usize,
    place: usize,
    count: usize,
    view: &View,
    looked: &mut LookedUp,
    bits: &mut Vec<Tern>,
) -> Result<(), Memory>
    requires view { IsView view.now.terns.now view.now.leads.now }
    requires few { length view.now.leads.now ≤ 2 ^ 32 }
    requires inside { first + (place + count) ≤ length view.now.leads.now }
    requires looked { AreLookedUp view.now.terns.now view.now.leads.now first looked.old }
    ensures bits { OnOk result (map plain_tern bits.new.items ≡ map plain_tern bits.old.items ++
        first_terns count (λ k. seen view.now.terns.now view.now.leads.now (first + (place + k)))) }
    ensures looked { AreLookedUp view.now.terns.now view.now.leads.now first looked.new }
{
    if let Some(at) = looked.find(place, count) {
        bits.extend_from_slice(&looked.bits[at..at + count])?;
        return Ok(());
    }
    let low = bits.len();
    bits.resize(low + count, Tern::No)?;
    if read_points(first, place, view, &mut bits[low..]) {
        looked.keep(place, &bits[low..]);
    }
    Ok(())
}

// Writes what points have that follow one another, one in each place of a list, and tells whether each was looked up. Where they are led to points that
// follow one another too, as those of a name that stands for itself are, these are copied at once.
fn read_points(first: usize, place: usize, view: &View, bits: &mut [Tern]) -> bool
    requires view { IsView view.now.terns.now view.now.leads.now }
    requires few { length view.now.leads.now ≤ 2 ^ 32 }
    requires inside { first + (place + length bits.old) ≤ length view.now.leads.now }
    ensures { map plain_tern bits.new ≡ first_terns (length bits.old) (λ k. seen view.now.terns.now view.now.leads.now (first + (place + k))) }
{
    let begin = first + place;
    match first_in_row(&view.leads[begin..begin + bits.len()]) {
        Some(low) => {
            bits.copy_from_slice(&view.terns[low..low + bits.len()]);
            false
        }
        None => {
            read_each(first, place, view, bits);
            true
        }
    }
}

// The first of the points to which points are led, where these follow one another.
fn first_in_row(leads: &[u32]) -> Option<usize>
    ensures { IfSome result (λ low. (0 < length leads.now) × ((k : ℕ) → k < length leads.now → slice_index leads.now k ≡ low + k)) }
{
    let last = leads.len().checked_sub(1)?;
    let low = leads[0] as usize;
    if leads[last] as usize != low + last {
        return None;
    }
    let mut follow = true;
    for place in 0..leads.len() {
        if leads[place] as usize != low + place {
            follow = false;
        }
    }
    if follow { Some(low) } else { None }
}

// The same where each is looked up. The view is copied first: what is lent would be read anew for each bit, since a write might have changed it, as far as
// the compiler knows.
fn read_each(first: usize, place: usize, view: &View, bits: &mut [Tern])
    requires view { IsView view.now.terns.now view.now.leads.now }
    requires few { length view.now.leads.now ≤ 2 ^ 32 }
    requires inside { first + (place + length bits.old) ≤ length view.now.leads.now }
    ensures { map plain_tern bits.new ≡ first_terns (length bits.old) (λ k. seen view.now.terns.now view.now.leads.now (first + (place + k))) }
{
    let copy = *view;
    for next in 0..bits.len() {
        bits[next] = copy.at(first + (place + next));
    }
}
