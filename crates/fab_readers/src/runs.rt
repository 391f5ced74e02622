//! Points that are bits of one wide expression, and which of these expressions read a point.

use crate::reads::{Range, most_reads, parts, ranges_of};
use fab_base::Memory;
use fab_compiled::Tree;
use fab_network::{Drive, Network, Source};
use fab_plans::are_found_together;
use std::alloc::Global;

/// From how many bits on an expression is wide.
const WIDE: u32 = 32;

/// How many points a bit may read to be looked at alone: it is noted for each of them.
const FEW_READS: u32 = 3;

/// How many names, parts of names and constants an expression has at most whose nodes are few.
const MANY_PARTS: u32 = 64;

/// How many points have their notes in common.
const BLOCK: u32 = 64;

/// Stands for a note, a point or a place where there is none.
const NONE: u32 = u32::MAX;

/// Stands for the place of a point whose run is not one of a wide expression.
const NARROW: u32 = u32::MAX - 1;

/// The same where there are many of them, and each is looked at alone.
const ALONE: u32 = u32::MAX - 2;

/// Stands for the place of a point of a run that is not in the order, or has not been met there.
const UNPLACED: u32 = u32::MAX - 3;

/// Points that follow one another and are bits of one expression, or latches behind one gate that take such bits.
#[derive(Clone, Copy, Debug)]
pub struct Run {
    /// The first of them.
    pub first: u32,
    /// How many they are.
    pub count: u32,
}

/// That a run may read a point of a block.
#[derive(Clone, Copy, Debug)]
struct Note {
    run: u32,
    /// The note before this one of the same block, or `NONE`.
    before: u32,
}

/// The runs of wide expressions, and what they read. They are a help for speed: what `settle` of `fab_settling` finds does not depend on them.
#[derive(Drop)]
pub struct Runs {
    runs: Vec<Run>,
    /// By the number of a point of a run: its place in the order.
    places: Vec<u32>,
    /// By the number of a point: the first of the points that are led to it.
    first_copies: Vec<u32>,
    /// By the number of a point: the next one that is led to the same.
    next_copies: Vec<u32>,
    /// By the block of points: the last note of a run that reads one of them.
    last_notes: Vec<u32>,
    notes: Vec<Note>,
    /// What an expression reads, while it is noted.
    ranges: Vec<Range>,
}

impl Runs {
    /// No runs, of so many points.
    pub(crate) fn new(alloc: Global, points: usize) -> Result<Runs, Memory> {
        Ok(Runs {
            runs: Vec::new(alloc),
            places: vec![in alloc; NONE; points]?,
            first_copies: Vec::new(alloc),
            next_copies: Vec::new(alloc),
            last_notes: Vec::new(alloc),
            notes: Vec::new(alloc),
            ranges: Vec::new(alloc),
        })
    }

    /// Notes the runs of the points of an order, and what they read. Where there is no memory there are none: then points of wide expressions are found by
    /// passes alone.
    pub(crate) fn note(&mut self, network: &Network, order: &[u32], leads: &[u32]) {
        self.clear();
        let noted = self.note_all(network, order, leads);
        if noted.is_err() {
            self.clear();
        }
    }

    fn clear(&mut self) {
        self.runs.clear();
        self.notes.clear();
        self.places.fill(NONE);
    }

    fn note_all(&mut self, network: &Network, order: &[u32], leads: &[u32]) -> Result<(), Memory> {
        self.list_runs(network, order)?;
        if self.runs.is_empty() {
            return Ok(());
        }
        self.list_copies(leads)?;
        self.note_reads(network, leads.len())
    }

    // The runs that have points of the order, and the places of these.
    fn list_runs(&mut self, network: &Network, order: &[u32]) -> Result<(), Memory> {
        for (place, point) in order.iter().enumerate() {
            if self.is_new(*point) {
                self.add_run_of(network, *point)?;
            }
            self.set_place(*point, place);
        }
        Ok(())
    }

    // Whether the run of a point has not been met yet.
    fn is_new(&self, point: u32) -> bool {
        self.places.get(point as usize).copied() == Some(NONE)
    }

    /// Whether a point is one of a run.
    pub fn has(&self, point: u32) -> bool {
        self.places
            .get(point as usize)
            .is_some_and(|place| *place <= UNPLACED)
    }

    /// Whether a point is a bit of a wide expression that is looked at alone.
    pub(crate) fn is_alone(&self, point: u32) -> bool {
        self.places.get(point as usize).copied() == Some(ALONE)
    }

    // The run of a point, if it is one of a wide expression.
    fn add_run_of(&mut self, network: &Network, point: u32) -> Result<(), Memory> {
        let Some(drive) = network.drives.get(point as usize) else {
            return Ok(());
        };
        match run_of(network, point, *drive) {
            Some(run) if is_wide(network, run, *drive) => {
                self.runs.push(run)?;
                self.set_places(run, UNPLACED);
            }
            Some(run) if run.count >= WIDE => self.set_places(run, ALONE),
            Some(run) => self.set_places(run, NARROW),
            None => {}
        }
        Ok(())
    }

    // This stands for the places of the points of a run from now on.
    fn set_places(&mut self, run: Run, stand_in: u32) {
        for point in run.first..run.first.saturating_add(run.count) {
            if let Some(place) = self.places.get_mut(point as usize) {
                *place = stand_in;
            }
        }
    }

    // A point stands at this place of the order, which is kept of points of runs.
    fn set_place(&mut self, point: u32, place: usize) {
        match (self.places.get_mut(point as usize), u32::try_from(place)) {
            (Some(kept), Ok(place)) if *kept == UNPLACED => *kept = place,
            _ => {}
        }
    }

    // Which points are led to each point.
    fn list_copies(&mut self, leads: &[u32]) -> Result<(), Memory> {
        self.first_copies.clear();
        self.first_copies.resize(leads.len(), NONE)?;
        self.next_copies.clear();
        self.next_copies.resize(leads.len(), NONE)?;
        for (point, lead) in leads.iter().enumerate() {
            let (Some(first), Some(next), Ok(point)) = (
                self.first_copies.get_mut(*lead as usize),
                self.next_copies.get_mut(point),
                u32::try_from(point),
            ) else {
                continue;
            };
            *next = *first;
            *first = point;
        }
        Ok(())
    }

    // Notes for each block of points which runs read some of them.
    fn note_reads(&mut self, network: &Network, points: usize) -> Result<(), Memory> {
        let blocks = points / BLOCK as usize;
        self.last_notes.clear();
        self.last_notes.resize(blocks.saturating_add(1), NONE)?;
        for number in 0..self.runs.len() {
            self.note_run(network, number)?;
        }
        Ok(())
    }

    fn note_run(&mut self, network: &Network, number: usize) -> Result<(), Memory> {
        let (Some(run), Ok(number)) = (self.runs.get(number), u32::try_from(number)) else {
            return Ok(());
        };
        match network.drives.get(run.first as usize) {
            Some(Drive::Value(source)) => self.note_source(&network.trees, *source, number),
            Some(Drive::Hold(gate, latched)) => {
                self.note_source(&network.trees, *gate, number)?;
                self.note_source(&network.trees, *latched, number)
            }
            Some(Drive::Given | Drive::Flop(_, _) | Drive::Same(_)) | None => Ok(()),
        }
    }

    // Notes all that the expression of a source reads.
    fn note_source(&mut self, trees: &[Tree], source: Source, number: u32) -> Result<(), Memory> {
        if let Some(tree) = trees.get(source.tree as usize) {
            ranges_of(tree, source.first as usize, &mut self.ranges)?;
        }
        for place in 0..self.ranges.len() {
            if let Some(range) = self.ranges.get(place).copied() {
                self.note_range(range, number)?;
            }
        }
        Ok(())
    }

    fn note_range(&mut self, range: Range, number: u32) -> Result<(), Memory> {
        let block = BLOCK as usize;
        for place in range.first / block..range.end.div_ceil(block) {
            self.note_block(place, number)?;
        }
        Ok(())
    }

    // Notes a run for a block, once.
    fn note_block(&mut self, block: usize, run: u32) -> Result<(), Memory> {
        let count = self.notes.len();
        let (Some(last), Ok(next)) = (self.last_notes.get_mut(block), u32::try_from(count)) else {
            return Ok(());
        };
        let before = *last;
        match self.notes.get(before as usize) {
            Some(note) if note.run == run => Ok(()),
            _ => {
                self.notes.push(Note { run, before })?;
                *last = next;
                Ok(())
            }
        }
    }

    /// The run of a number, of which the first is 0.
    pub fn run(&self, number: usize) -> Option<Run> {
        self.runs.get(number).copied()
    }

    /// The place in the order of a point of a run.
    pub fn place_of(&self, point: u32) -> Option<usize> {
        match self.places.get(point as usize) {
            Some(place) if *place < UNPLACED => Some(*place as usize),
            _ => None,
        }
    }

    /// One of the points that are led to a point. The point itself is among them.
    pub fn first_copy(&self, point: u32) -> Option<u32> {
        number_at(&self.first_copies, point)
    }

    /// The one behind it of those that are led to the same.
    pub fn next_copy(&self, copy: u32) -> Option<u32> {
        number_at(&self.next_copies, copy)
    }

    /// The first note of a run that may read a point.
    pub fn first_note(&self, point: u32) -> Option<u32> {
        number_at(&self.last_notes, point / BLOCK)
    }

    /// The run of a note, and the next note of the same points.
    pub fn noted(&self, note: u32) -> Option<(usize, Option<u32>)> {
        let note = self.notes.get(note as usize)?;
        Some((note.run as usize, given(note.before)))
    }
}

// The number at a place of a list, where there is one.
fn number_at(numbers: &[u32], place: u32) -> Option<u32> {
    given(*numbers.get(place as usize)?)
}

fn given(number: u32) -> Option<u32> {
    if number == NONE { None } else { Some(number) }
}

// Whether a run of this drive is one of a wide expression: of one whose bits share work, or of many bits. Where an expression has many parts and each of its
// bits reads few points, its points are looked at alone: a walk to one of the parts would go past the others.
fn is_wide(network: &Network, run: Run, drive: Drive) -> bool {
    if are_together(network, drive) {
        return true;
    }
    run.count >= WIDE && (reads_many(network, drive) || !has_many_parts(network, drive))
}

// The points about one of this drive that are bits beside it.
fn run_of(network: &Network, point: u32, drive: Drive) -> Option<Run> {
    let bit = bit_of(drive)?;
    let first = first_of_run(network, point, bit, drive);
    let end = end_of_run(network, point, bit, drive);
    Some(Run {
        first,
        count: end.saturating_sub(first),
    })
}

fn first_of_run(network: &Network, point: u32, bit: u32, drive: Drive) -> u32 {
    for before in 1..=point.min(bit) {
        if !is_bit(network, point - before, bit - before, drive) {
            return point - before + 1;
        }
    }
    point - point.min(bit)
}

fn end_of_run(network: &Network, point: u32, bit: u32, drive: Drive) -> u32 {
    for behind in 1..u32::MAX {
        let (Some(next), Some(bit)) = (point.checked_add(behind), bit.checked_add(behind)) else {
            return point.saturating_add(behind);
        };
        if !is_bit(network, next, bit, drive) {
            return next;
        }
    }
    u32::MAX
}

// The bit that a point takes.
fn bit_of(drive: Drive) -> Option<u32> {
    match drive {
        Drive::Given | Drive::Flop(_, _) | Drive::Same(_) => None,
        Drive::Value(source) | Drive::Hold(_, source) => Some(source.bit),
    }
}

// Whether a point is this bit of the expression of a drive, behind the same gate if there is one.
fn is_bit(network: &Network, point: u32, bit: u32, drive: Drive) -> bool {
    match (drive, network.drives.get(point as usize)) {
        (Drive::Value(source), Some(Drive::Value(next))) => {
            next.bit == bit && source.is_beside(*next)
        }
        (Drive::Hold(gate, source), Some(Drive::Hold(other, next))) => {
            next.bit == bit && source.is_beside(*next) && gate == *other
        }
        _ => false,
    }
}

// Whether all bits of an expression of a drive are found together.
fn are_together(network: &Network, drive: Drive) -> bool {
    match drive {
        Drive::Given | Drive::Flop(_, _) | Drive::Same(_) => false,
        Drive::Value(source) => is_together(network, source),
        Drive::Hold(gate, latched) => is_together(network, gate) || is_together(network, latched),
    }
}

// Whether a point of this drive reads more points than there is room to note for each.
fn reads_many(network: &Network, drive: Drive) -> bool {
    let reads = match drive {
        Drive::Given | Drive::Flop(_, _) | Drive::Same(_) => 0,
        Drive::Value(source) => reads_of(network, source),
        Drive::Hold(gate, latched) => {
            reads_of(network, gate).saturating_add(reads_of(network, latched))
        }
    };
    reads > FEW_READS
}

// Whether the expression of the bits of a drive has many parts.
fn has_many_parts(network: &Network, drive: Drive) -> bool {
    match drive {
        Drive::Given | Drive::Flop(_, _) | Drive::Same(_) => false,
        Drive::Value(source) | Drive::Hold(_, source) => {
            match network.trees.get(source.tree as usize) {
                Some(tree) => parts(tree) > MANY_PARTS,
                None => false,
            }
        }
    }
}

fn reads_of(network: &Network, source: Source) -> u32 {
    match network.trees.get(source.tree as usize) {
        Some(tree) => most_reads(tree),
        None => 0,
    }
}

fn is_together(network: &Network, source: Source) -> bool {
    match network.trees.get(source.tree as usize) {
        Some(tree) => are_found_together(tree),
        None => false,
    }
}
