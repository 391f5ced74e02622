//! Which points read a point, for another look at them where it has come to be known.

use crate::reads::{Range, ranges_of};
use crate::runs::Runs;
use fab_base::Memory;
use fab_compiled::Tree;
use fab_network::{Drive, Network, Source};
use fab_ternary::Tern;
use std::alloc::Global;

/// Stands for the place of a note where there is none.
const NO_NOTE: u32 = u32::MAX;

/// The same for a point that is not in the order: its readers are not noted.
const UNLISTED: u32 = u32::MAX - 1;

/// Stands for a reader where none waits.
const NOBODY: u32 = u32::MAX;

/// Stands for the next one behind a reader that does not wait.
const IDLE: u32 = u32::MAX - 1;

/// How many notes there is room for, for each point: most operators have fewer operands.
const NOTES_OF_A_POINT: usize = 4;

/// The readers of points, so that `settle` of `fab_settling` looks again at those alone that read what has come to be known. A reader is the place in the
/// order of a point, or a run of points of a wide expression. They are a help for speed: what `settle` finds does not depend on them.
#[derive(Drop)]
pub struct Readers {
    /// By the number of a point: the place of the last note of a reader of it.
    last: Vec<u32>,
    notes: Vec<Note>,
    /// Readers that are bits of wide expressions.
    pub runs: Runs,
    /// Whether the notes are those of the order as it is.
    fresh: bool,
    /// By the reader: the one that waits behind it to be looked at again, `NOBODY` behind the last one, and `IDLE` where it does not wait.
    behind: Vec<u32>,
    waiting: Queue,
    /// What an expression reads, while it is noted.
    ranges: Vec<Range>,
}

/// Readers that wait, one behind the other.
#[derive(Clone, Copy, Debug)]
struct Queue {
    /// The one that has waited longest, or `NOBODY`.
    first: u32,
    /// The one that began to wait last, if any waits.
    last: u32,
}

impl Queue {
    const NONE: Queue = Queue {
        first: NOBODY,
        last: NOBODY,
    };

    // The same with one more behind the others.
    fn with(self, reader: u32, behind: &mut [u32]) -> Queue {
        match behind.get_mut(self.last as usize) {
            Some(last) if self.first != NOBODY => {
                *last = reader;
                Queue {
                    first: self.first,
                    last: reader,
                }
            }
            _ => Queue {
                first: reader,
                last: reader,
            },
        }
    }
}

/// That a point is read.
#[derive(Clone, Copy, Debug)]
struct Note {
    reader: u32,
    /// The place of the note before this one of the same point, of a reader that stands before this one.
    before: u32,
}

impl Readers {
    /// Room for the readers of so many points.
    pub fn new(alloc: Global, points: usize) -> Result<Readers, Memory> {
        Ok(Readers {
            last: vec![in alloc; UNLISTED; points]?,
            notes: Vec::with_capacity(alloc, points.saturating_mul(NOTES_OF_A_POINT))?,
            runs: Runs::new(alloc, points)?,
            fresh: false,
            behind: vec![in alloc; IDLE; points]?,
            waiting: Queue::NONE,
            ranges: Vec::new(alloc),
        })
    }

    /// Another order is settled from now on, so that readers have to be noted anew.
    pub fn forget(&mut self) {
        self.fresh = false;
    }

    /// Notes for each point of the order which others of them its drive reads, unless they are noted already. The notes do not depend on
    /// what is known in a cycle, so that they serve later cycles too. Where there is no room left no more are taken: then passes find
    /// what looks at the noted readers miss.
    pub fn note(&mut self, network: &Network, order: &[u32], leads: &[u32]) {
        if self.fresh {
            return;
        }
        self.list(order);
        self.runs.note(network, order, leads);
        for (place, point) in order.iter().enumerate() {
            if self.is_full() {
                break;
            }
            if !self.runs.has(*point) {
                self.note_point_at(network, place, *point, leads);
            }
        }
        self.fresh = true;
    }

    // Notes what a point reads that stands at this place of the order.
    fn note_point_at(&mut self, network: &Network, place: usize, point: u32, leads: &[u32]) {
        if let (Ok(reader), Some(drive)) = (
            u32::try_from(place),
            network.drives.get(point as usize),
        ) {
            self.note_drive(network, *drive, leads, reader);
        }
    }

    // Whether there is no room for one more note.
    fn is_full(&self) -> bool {
        self.notes.len() >= self.notes.capacity()
    }

    // These points are in the order, and nothing is noted of them.
    fn list(&mut self, order: &[u32]) {
        self.last.fill(UNLISTED);
        self.notes.clear();
        for point in order {
            self.set_last(*point, NO_NOTE);
        }
    }

    // Notes what a point reads by its drive.
    fn note_drive(&mut self, network: &Network, drive: Drive, leads: &[u32], reader: u32) {
        match drive {
            Drive::Given | Drive::Flop(_, _) => {}
            Drive::Same(other) => self.note_point(other as usize, leads, reader),
            Drive::Value(source) => self.note_source(&network.trees, source, leads, reader),
            Drive::Hold(gate, latched) => {
                self.note_source(&network.trees, gate, leads, reader);
                self.note_source(&network.trees, latched, leads, reader);
            }
        }
    }

    fn note_source(&mut self, trees: &[Tree], source: Source, leads: &[u32], reader: u32) {
        if let Some(tree) = trees.get(source.tree as usize) {
            self.note_bit(
                tree,
                u64::from(source.bit),
                source.first as usize,
                leads,
                reader,
            );
        }
    }

    // Notes the points on which a bit of an expression depends.
    fn note_bit(&mut self, tree: &Tree, bit: u64, first: usize, leads: &[u32], reader: u32) {
        match tree {
            Tree::Const(_) => {}
            Tree::Bits(place, _) => {
                let place = (*place as usize).saturating_add(bit as usize);
                self.note_point(first.saturating_add(place), leads, reader);
            }
            Tree::Cat(low, width, high) => {
                if bit < *width {
                    self.note_bit(low, bit, first, leads, reader);
                } else {
                    self.note_bit(high, bit - *width, first, leads, reader);
                }
            }
            Tree::Not(inner) => self.note_bit(inner, bit, first, leads, reader),
            Tree::And(left, right) | Tree::Or(left, right) | Tree::Xor(left, right) => {
                self.note_bit(left, bit, first, leads, reader);
                self.note_bit(right, bit, first, leads, reader);
            }
            Tree::Cond(test, yes, no) => {
                self.note_bit(test, 0, first, leads, reader);
                self.note_bit(yes, bit, first, leads, reader);
                self.note_bit(no, bit, first, leads, reader);
            }
            Tree::Pick(_, _, _) | Tree::Equal(_, _, _) | Tree::Minus(_, _, _) => {
                self.note_all(tree, first, leads, reader);
            }
        }
    }

    // Notes all points of an expression, as far as there is memory to list them.
    fn note_all(&mut self, tree: &Tree, first: usize, leads: &[u32], reader: u32) {
        let _ = ranges_of(tree, first, &mut self.ranges);
        for place in 0..self.ranges.len() {
            if let Some(range) = self.ranges.get(place).copied() {
                self.note_points(range, leads, reader);
            }
        }
    }

    // Notes points that follow one another.
    fn note_points(&mut self, range: Range, leads: &[u32], reader: u32) {
        for point in range.first..range.end.min(leads.len()) {
            self.note_point(point, leads, reader);
        }
    }

    // Notes the point to which a point is led, if it is in the order, and once for each reader.
    fn note_point(&mut self, point: usize, leads: &[u32], reader: u32) {
        let Some(lead) = leads.get(point) else {
            return;
        };
        let before = self.last_note(*lead);
        match self.notes.get(before as usize) {
            Some(note) if note.reader == reader => {}
            Some(_) => self.add(*lead, Note { reader, before }),
            None if before == NO_NOTE => self.add(*lead, Note { reader, before }),
            None => {}
        }
    }

    // One more note of a reader of a point, where there is room.
    fn add(&mut self, point: u32, note: Note) {
        let count = self.notes.len();
        let Ok(place) = u32::try_from(count) else {
            return;
        };
        if count < self.notes.capacity() {
            let _ = self.notes.push(note);
            self.set_last(point, place);
        }
    }

    fn set_last(&mut self, point: u32, place: u32) {
        if let Some(last) = self.last.get_mut(point as usize) {
            *last = place;
        }
    }

    // The place of the last note of a reader of a point.
    fn last_note(&self, point: u32) -> u32 {
        self.last.get(point as usize).copied().unwrap_or(UNLISTED)
    }

    /// The readers that stand before a point that is known wait, since a pass came to such a reader first. So do open bits of wide expressions that are
    /// looked at alone, since a pass that has found something does not look at all of them.
    pub fn begin(&mut self, order: &[u32], terns: &[Tern]) {
        for (place, point) in order.iter().enumerate() {
            match terns.get(*point as usize) {
                Some(Tern::No | Tern::Yes) => {
                    let note = self.before(place, self.last_note(*point));
                    self.wait_from(note);
                }
                Some(Tern::Open) if self.runs.is_alone(*point) => {
                    self.wait(u32::try_from(place).unwrap_or(NOBODY));
                }
                Some(Tern::Open) | None => {}
            }
        }
    }

    // The place of the first of a note and those before it whose reader stands before this place.
    fn before(&self, place: usize, note: u32) -> u32 {
        let mut next = note;
        for _note in 0..self.notes.len() {
            match self.note_at(next) {
                Some(note) if note.reader as usize >= place => next = note.before,
                _ => return next,
            }
        }
        NO_NOTE
    }

    // The note at this place.
    fn note_at(&self, place: u32) -> Option<Note> {
        self.notes.get(place as usize).copied()
    }

    /// A point has come to be known: its readers wait.
    pub fn find(&mut self, point: u32) {
        let last = self.last_note(point);
        self.wait_from(last);
    }

    // The readers of a note and of those before it wait.
    fn wait_from(&mut self, last: u32) {
        let mut next = last;
        for _note in 0..self.notes.len() {
            let Some(note) = self.note_at(next) else {
                return;
            };
            self.wait(note.reader);
            next = note.before;
        }
    }

    // A reader waits behind all others, unless it does already.
    fn wait(&mut self, reader: u32) {
        match self.behind.get_mut(reader as usize) {
            Some(behind) if *behind == IDLE => *behind = NOBODY,
            _ => return,
        }
        self.waiting = self.waiting.with(reader, &mut self.behind);
    }

    /// The reader that is looked at next, if one waits. It waits no more.
    pub fn next_waiting(&mut self) -> Option<u32> {
        let reader = self.waiting.first;
        self.waiting.first = self.leave(reader)?;
        Some(reader)
    }

    // A reader waits no more. Told is the one behind it.
    fn leave(&mut self, reader: u32) -> Option<u32> {
        let behind = self.behind.get_mut(reader as usize)?;
        let next = *behind;
        *behind = IDLE;
        Some(next)
    }
}
