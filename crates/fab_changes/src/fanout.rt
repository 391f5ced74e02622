//! Who reads which points.

ghost use Rattle.std.specs.Prelude.{◌≡◌, ◌+◌, ◌<◌, ◌≤◌, ℕ, true, false, length, replicate, slice_set, IfSome, MatchOption, OnSome};
ghost use Rattle.fab_compiled.specs.Evaluation.{IsWithin};
ghost use Rattle.fab_compiled.specs.Trees.{IsMade};
ghost use Rattle.fab_network.specs.Passes.{IsListed};
ghost use Rattle.fab_changes.specs.Fanout.{AreFresh, ArePlaces, IsFresh, IsNextStale, IsReader, IsWatched, ReadsMore, WatchesTree};

use crate::flags::Flags;
use crate::places::Places;
use fab_compiled::Tree;
use std::alloc::Global;

/// The readers of points that stand for themselves, and which of them are stale: a reader is stale as soon as a point that it reads has
/// changed since it was looked at. Readers are numbers from 0 on, and are stale at first.
#[derive(Drop)]
pub struct Fanout {
    /// By the place of a point among those that stand for themselves: its readers.
    pub readers: Vec<Vec<u32>>,
    /// By the number of a reader.
    pub stale: Flags,
    /// How many more points of expressions there is room to look at.
    pub room: usize,
}

impl Fanout {
    /// So many stale readers, of so many points, which read nothing yet. There is room for so many points of expressions.
    pub fn new(alloc: Global, points: usize, readers: usize, room: usize) -> Option<Fanout>
        ensures { IfSome result (λ fanout. fanout.stale ≡ replicate readers true) }
    {
        let stale = Flags::all_set(alloc, readers)?;
        let mut lists = Vec::with_capacity(alloc, points).ok()?;
        for _ in 0..points {
            lists.push(Vec::new(alloc)).ok()?;
        }
        Some(Fanout {
            readers: lists,
            stale,
            room,
        })
    }

    /// A reader reads all points of an expression. `None` where there is no room or no memory.
    pub fn note_tree(
        &mut self,
        places: &Places,
        tree: &Tree,
        first: usize,
        reader: u32,
    ) -> Option<()>
        requires places { ArePlaces places.now }
        requires made { IsMade tree.now }
        requires begins { first ≤ length places.now.leads.now }
        requires inside { IsWithin tree.now first (length places.now.leads.now) }
        ensures watched { OnSome result (WatchesTree places.now.own.now places.now.leads.now self.new.readers.items reader first tree.now) }
        ensures more { OnSome result (ReadsMore self.old.readers.items self.new.readers.items) }
        ensures stale { self.new.stale ≡ self.old.stale }
    {
        self.room = self.room.checked_sub(1)?;
        match tree {
            Tree::Const(_) => Some(()),
            Tree::Bits(place, count) => {
                self.note_points(places, first, *place as usize, *count as usize, reader)
            }
            Tree::Pick(place, width, index) => {
                let count = 2usize.pow(*width);
                self.note_points(places, first, *place as usize, count, reader)?;
                self.note_tree(places, index, first, reader)
            }
            Tree::Not(inner) => self.note_tree(places, inner, first, reader),
            Tree::Cat(left, _, right)
            | Tree::And(left, right)
            | Tree::Or(left, right)
            | Tree::Xor(left, right)
            | Tree::Equal(_, left, right)
            | Tree::Minus(_, left, right) => {
                self.note_tree(places, left, first, reader)?;
                self.note_tree(places, right, first, reader)
            }
            Tree::Cond(test, yes, no) => {
                self.note_tree(places, test, first, reader)?;
                self.note_tree(places, yes, first, reader)?;
                self.note_tree(places, no, first, reader)
            }
        }
    }

    // A reader reads points that follow one another.
    fn note_points(
        &mut self,
        places: &Places,
        first: usize,
        place: usize,
        count: usize,
        reader: u32,
    ) -> Option<()>
        requires places { ArePlaces places.now }
        requires within { first + (place + count) ≤ length places.now.leads.now }
        ensures watched { OnSome result ((k : ℕ) → k < count →
            IsWatched places.now.own.now places.now.leads.now self.new.readers.items reader (first + (place + k))) }
        ensures more { OnSome result (ReadsMore self.old.readers.items self.new.readers.items) }
        ensures stale { self.new.stale ≡ self.old.stale }
    {
        self.room = self.room.checked_sub(count)?;
        for next in 0..count {
            self.note_point(places, first + (place + next), reader)?;
        }
        Some(())
    }

    // A reader reads the point to which a point is led, if that one stands for itself.
    fn note_point(&mut self, places: &Places, point: usize, reader: u32) -> Option<()>
        requires places { ArePlaces places.now }
        requires within { point < length places.now.leads.now }
        ensures watched { OnSome result
            (IsWatched places.now.own.now places.now.leads.now self.new.readers.items reader point) }
        ensures more { OnSome result (ReadsMore self.old.readers.items self.new.readers.items) }
        ensures stale { self.new.stale ≡ self.old.stale }
    {
        match places.of_lead(point) {
            Some(place) => put(&mut self.readers, place as usize, reader),
            None => Some(()),
        }
    }

    /// The first stale reader from a number on. Where few readers are stale, it takes a small part of the time of a look at each.
    pub fn next_stale(&self, from: usize) -> Option<usize>
        ensures { MatchOption result (AreFresh self.now.stale from (length self.now.stale)) (IsNextStale self.now.stale from) }
    {
        self.stale.next_set(from)
    }

    /// A reader has been looked at.
    pub fn set_fresh(&mut self, reader: usize)
        requires within { reader < length self.old.stale }
        ensures readers { self.new.readers.items ≡ self.old.readers.items }
        ensures stale { self.new.stale ≡ slice_set self.old.stale reader false }
    {
        self.stale.clear(reader);
    }

    /// The point at a place has changed.
    pub fn touch(&mut self, place: usize)
        ensures readers { self.new.readers.items ≡ self.old.readers.items }
        ensures long { length self.new.stale ≡ length self.old.stale }
        ensures fresh { (reader : ℕ) → IsFresh self.new.stale reader → IsFresh self.old.stale reader }
        ensures touched { (reader : ℕ) → IsReader self.old.readers.items place reader → IsFresh self.new.stale reader → ⊥ }
    {
        if let Some(readers) = self.readers.get(place) {
            mark(readers, &mut self.stale);
        }
    }
}

// These readers are stale.
fn mark(readers: &[u32], stale: &mut Flags)
    ensures long { length stale.new ≡ length stale.old }
    ensures fresh { (reader : ℕ) → IsFresh stale.new reader → IsFresh stale.old reader }
    ensures marked { (reader : ℕ) → IsListed readers.now reader → IsFresh stale.new reader → ⊥ }
{
    for reader in readers {
        let reader = *reader as usize;
        if reader < stale.len() {
            stale.set(reader);
        }
    }
}

// Puts a reader at the end of the list of a place, unless it stands there.
fn put(lists: &mut Vec<Vec<u32>>, place: usize, reader: u32) -> Option<()>
    ensures reads { OnSome result (IsReader lists.new.items place reader) }
    ensures more { OnSome result (ReadsMore lists.old.items lists.new.items) }
{
    if place >= lists.len() {
        return None;
    }
    if lists[place].last().copied() == Some(reader) {
        return Some(());
    }
    lists[place].push(reader).ok()
}
