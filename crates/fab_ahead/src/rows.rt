//! Many points that a waiting point needs: they are asked for without a look between.

ghost use Rattle.std.specs.Prelude.{◌≡◌, true, false, slice_get, IfSome, Some};
ghost use Rattle.fab_ahead.specs.Rows.{AsksUnmarked};

use crate::lists::list_by_drive;
use crate::looks::{Looks, Subject};
use crate::names::{
    MANY, end_by_drive, is_never_led, is_ring, may_begin_row, needs_back, part_of_bit,
};
use fab_network::{Drive, Network, Source};
use fab_plans::are_found_together;
use std::alloc::Global;

/// How often the number of points is doubled at most that a point is taken to need.
const MOST_DOUBLINGS: u32 = 20;

/// Of how many names it is kept which of their points rows have passed.
const MOST_ASKED: usize = 32;

/// How many looks in vain are enough where a look goes through a whole expression.
const FEW_LOOKS: u32 = 4;

/// Points that are asked for one after the other.
#[derive(Clone, Copy, Debug)]
enum Points {
    /// They follow one another: the next of them, and behind the last.
    Between(u32, u32),
    /// The last ones in the list: where they begin there, and the place of the next.
    Listed(usize, usize),
}

/// A point that has not been asked for, and those behind it.
#[derive(Clone, Copy, Debug)]
struct Found {
    point: u32,
    rest: Points,
}

/// Points that a waiting point needs.
#[derive(Clone, Copy, Debug)]
struct Row {
    points: Points,
    /// How many points wait, up to the one that needs them.
    depth: usize,
    /// Whether each of them needs the others, through that point.
    ring: bool,
    /// How many looks there were at points of the row.
    looks: u32,
}

impl Row {
    // Whether the last of so many waiting points needs this row: it has found it, or it is itself a point of the row, in a ring.
    fn serves(self, depth: usize) -> bool {
        self.depth == depth || self.ring && self.depth.saturating_add(1) == depth
    }
}

/// Points of numbers from one up to another that have all been asked for.
#[derive(Clone, Copy, Debug)]
struct Asked {
    begin: u32,
    end: u32,
}

impl Asked {
    const NONE: Asked = Asked { begin: 0, end: 0 };

    fn is_none(self) -> bool {
        self.begin >= self.end
    }

    // Whether points from one up to another follow one another with these, or overlap.
    fn touches(self, begin: u32, end: u32) -> bool {
        begin <= self.end && self.begin <= end
    }

    // The same with more points, where they follow one another with these or overlap, and else those alone.
    fn with(self, begin: u32, end: u32) -> Asked {
        if begin >= end {
            self
        } else if self.touches(begin, end) {
            Asked {
                begin: begin.min(self.begin),
                end: end.max(self.end),
            }
        } else {
            Asked { begin, end }
        }
    }
}

/// What is done next for the last point that waits.
#[derive(Clone, Copy, Debug)]
pub enum Next {
    /// This point is asked for, which it needs by its row.
    Ask(u32),
    /// It is looked at.
    Look,
    /// The same, where it is one of the points of a row. That is told at the first look, the second, the fourth and so on: what others are known to have may
    /// be found anew each time, and that takes long.
    LookInRow,
}

/// The rows of points that wait. They are a help for speed: any point may be asked for, so what a search finds does not depend on them. Without
/// them an expression over a name of many bits would be looked at anew for each bit that is asked for. Looks at bits of expressions are counted too, where
/// others ask for them one by one.
#[derive(Drop)]
pub struct Rows {
    rows: Vec<Row>,
    /// The points of rows that do not follow one another.
    list: Vec<u32>,
    /// Points that rows have passed, those of several names where these need one another by turns. In a name each bit of which needs the one beside it every bit
    /// has a row, which would go through all behind it.
    asked: Vec<Asked>,
    /// How often points that rows have passed were forgotten for others.
    forgotten: usize,
    /// Looks that have closed a bit of an expression which is known or led to a point.
    looks: Looks,
    /// The same of a bit that stands for itself.
    closings: Looks,
    /// Looks at a point that have found one more that it needs.
    finds: Looks,
    /// Looks at a bit of an expression that have found one that needs the name of that bit.
    loops: Looks,
}

impl Rows {
    /// No point waits.
    pub fn new(alloc: Global) -> Rows {
        Rows {
            rows: Vec::new(alloc),
            list: Vec::new(alloc),
            asked: Vec::new(alloc),
            forgotten: 0,
            looks: Looks::new(alloc),
            closings: Looks::new(alloc),
            finds: Looks::new(alloc),
            loops: Looks::new(alloc),
        }
    }

    /// No point waits any more. What has been counted stays.
    pub fn end(&mut self) {
        self.rows.clear();
        self.list.clear();
    }

    /// Nothing has been counted, and no point waits.
    pub fn clear(&mut self) {
        self.end();
        self.asked.clear();
        self.forgotten = 0;
        self.looks.clear();
        self.closings.clear();
        self.finds.clear();
        self.loops.clear();
    }

    /// What a look has found that the last of so many waiting points needs, with the rest of the name that it stands in. Told is whether the point before it
    /// waits.
    pub fn add(
        &mut self,
        network: &Network,
        point: u32,
        needed: u32,
        depth: usize,
        waits: bool,
        marks: &[bool],
    ) {
        match row_of(network, point, needed, depth, waits) {
            Some(row) => {
                let ring = row.ring || self.is_in_loop(network, point, needed, waits);
                self.push(Row { ring, ..row });
            }
            None => {
                if is_never_led(network, point) && self.is_in_loop(network, point, needed, waits) {
                    self.add_ring(network, point, depth, marks);
                } else {
                    self.add_list(network, point, depth, marks);
                }
            }
        }
    }

    // The same where that name is narrow, and many bits of the expression have been found to need one another: all that the point needs is asked for, and
    // looked at when all of it waits.
    fn add_ring(&mut self, network: &Network, point: u32, depth: usize, marks: &[bool]) {
        let start = self.list.len();
        list_by_drive(network, point, marks, usize::MAX, &mut self.list);
        self.push(Row {
            points: Points::Listed(start, start),
            depth,
            ring: true,
            looks: 0,
        });
    }

    // Whether many bits of an expression have been found to need a name that needs them. Its bits may be led to others, by a test that is not known yet; but
    // with so many looks in vain each of them is taken to need all others. Few looks are enough where each goes through the whole expression.
    fn is_in_loop(&mut self, network: &Network, point: u32, needed: u32, waits: bool) -> bool {
        match network.drives.get(point as usize) {
            Some(Drive::Value(source) | Drive::Hold(_, source))
                if needs_back(network, point, needed, waits) => {
                let subject = Subject::Expression(source.tree, source.first);
                self.loops.count(subject) >= looks_in_vain(network, *source)
            }
            _ => false,
        }
    }

    // The same where that name is narrow, or the rest of it is not needed. A point that has needed many, one by one, is taken to need as many more: each look
    // goes over all that it needs, up to the first one that has not been asked for.
    fn add_list(&mut self, network: &Network, point: u32, depth: usize, marks: &[bool]) {
        let finds = self.finds.count(Subject::Point(point));
        let Some(doublings) = finds.checked_sub(MANY) else {
            return;
        };
        let start = self.list.len();
        let more = (MANY as usize) << doublings.min(MOST_DOUBLINGS);
        list_by_drive(
            network,
            point,
            marks,
            start.saturating_add(more),
            &mut self.list,
        );
        self.push(Row {
            points: Points::Listed(start, start),
            depth,
            ring: false,
            looks: 0,
        });
    }

    /// What is done next for the last of so many waiting points: its row tells which points it needs that have not been asked for.
    pub fn next(&mut self, depth: usize, marks: &[bool]) -> Next
        ensures { AsksUnmarked marks.now result }
    {
        match self.rows.pop() {
            Some(row) => self.next_by(row, depth, marks),
            None => Next::Look,
        }
    }

    // The same by the last row. It is passed over where the point that needs it does not wait any more.
    fn next_by(&mut self, row: Row, depth: usize, marks: &[bool]) -> Next
        ensures { AsksUnmarked marks.now result }
    {
        if row.serves(depth) {
            return self.next_of(row, depth, marks);
        }
        if depth < row.depth {
            self.end_list(row.points);
            return Next::Look;
        }
        let in_row = row.depth.saturating_add(1) == depth;
        let looks = row.looks.saturating_add(u32::from(in_row));
        self.push(Row { looks, ..row });
        if in_row && looks.is_power_of_two() {
            Next::LookInRow
        } else {
            Next::Look
        }
    }

    // The next point of a row, for the last of so many waiting points, or a look where there is none.
    fn next_of(&mut self, row: Row, depth: usize, marks: &[bool]) -> Next
        ensures { AsksUnmarked marks.now result }
    {
        let Some(found) = self.first_of(row.points, marks) else {
            self.end_list(row.points);
            return Next::Look;
        };
        self.push(Row {
            points: found.rest,
            depth,
            ring: row.ring,
            looks: row.looks,
        });
        Next::Ask(found.point)
    }

    // The first of some points that has not been asked for.
    fn first_of(&mut self, points: Points, marks: &[bool]) -> Option<Found>
        ensures { IfSome result (λ found. slice_get marks.now found.point ≡ Some false) }
    {
        match points {
            Points::Between(next, end) => self.first_between(next, end, marks),
            Points::Listed(start, next) => self.first_listed(start, next, marks),
        }
    }

    // The first of some points that follow one another that has not been asked for.
    fn first_between(&mut self, next: u32, end: u32, marks: &[bool]) -> Option<Found>
        ensures { IfSome result (λ found. slice_get marks.now found.point ≡ Some false) }
    {
        let number = self.number_for(next, end);
        let asked = self.asked.get(number).copied().unwrap_or(Asked::NONE);
        let before = end.min(asked.begin);
        let found = match first_unmarked(next, before, marks) {
            Some(found) => Some(found),
            None => first_unmarked(next.max(asked.end), end, marks),
        };
        let Some(point) = found else {
            self.set_asked(number, asked.with(next, end));
            return None;
        };
        let behind = point.saturating_add(1);
        if asked.is_none() || asked.touches(next, behind) {
            self.set_asked(number, asked.with(next, behind));
        }
        let rest = Points::Between(behind, end);
        Some(Found { point, rest })
    }

    // The number of points that rows have passed and that touch these: of several the first ones. Where there are none, of others that are forgotten, or of none
    // yet.
    fn number_for(&mut self, begin: u32, end: u32) -> usize {
        let mut best = None;
        for (number, asked) in self.asked.iter().enumerate() {
            if asked.touches(begin, end) {
                best = earlier(best, (number, *asked));
            }
        }
        match best {
            Some((number, _)) => number,
            None => self.new_number(),
        }
    }

    // The number of points that are kept from now on.
    fn new_number(&mut self) -> usize {
        let count = self.asked.len();
        if count < MOST_ASKED && self.asked.push(Asked::NONE).is_ok() {
            return count;
        }
        self.forgotten = self.forgotten.wrapping_add(1);
        let number = self.forgotten % MOST_ASKED;
        self.set_asked(number, Asked::NONE);
        number
    }

    fn set_asked(&mut self, number: usize, asked: Asked) {
        if let Some(kept) = self.asked.get_mut(number) {
            *kept = asked;
        }
    }

    // The same from a place of the list on.
    fn first_listed(&self, start: usize, next: usize, marks: &[bool]) -> Option<Found>
        ensures { IfSome result (λ found. slice_get marks.now found.point ≡ Some false) }
    {
        for place in next..self.list.len() {
            let point = self.list[place];
            if is_unmarked(point, marks) {
                let rest = Points::Listed(start, place.saturating_add(1));
                return Some(Found { point, rest });
            }
        }
        None
    }

    // Points of a row that is left are listed no more.
    fn end_list(&mut self, points: Points) {
        if let Points::Listed(start, _) = points {
            self.list.truncate(start);
        }
    }

    /// A look has closed this point. Told is whether bits beside it are to be closed with it, so that not each of them is looked at. Where it stands for itself
    /// that is at once, with the second such bit of its expression, the fourth and so on: bits beside it that rest on something else are gone over in vain. Where
    /// it is known or led to another, it is after as many looks as take as long.
    pub fn are_others_due(&mut self, network: &Network, point: u32, is_own: bool) -> bool {
        let Some(Drive::Value(source) | Drive::Hold(_, source)) = network.drives.get(point as usize)
        else {
            return false;
        };
        if is_own {
            let subject = Subject::Expression(source.tree, source.first);
            self.closings.count(subject).is_power_of_two()
        } else {
            self.looks.is_due(&network.trees, *source)
        }
    }

    // One more row, where there is memory.
    fn push(&mut self, row: Row) {
        let _ = self.rows.push(row);
    }
}

// The name of many bits in which the point stands that another needs, if all that follows it in that name is needed too.
fn row_of(network: &Network, point: u32, needed: u32, depth: usize, waits: bool) -> Option<Row> {
    if !may_begin_row(network, needed) {
        return None;
    }
    let end = end_by_drive(network, point, needed);
    let next = needed.saturating_add(1);
    if end.saturating_sub(next) < MANY {
        return None;
    }
    Some(Row {
        points: Points::Between(next, end),
        depth,
        ring: is_ring(network, point, needed, waits),
        looks: 0,
    })
}

// How many looks in vain tell that bits of an expression need one another, by the part in which the bit of a source stands.
fn looks_in_vain(network: &Network, source: Source) -> u32 {
    match network.trees.get(source.tree as usize) {
        Some(tree) if are_found_together(part_of_bit(tree, u64::from(source.bit))) => FEW_LOOKS,
        _ => MANY,
    }
}

// Of two, the one that begins earlier.
fn earlier(best: Option<(usize, Asked)>, other: (usize, Asked)) -> Option<(usize, Asked)> {
    match best {
        Some((_, asked)) if asked.begin <= other.1.begin => best,
        _ => Some(other),
    }
}

// The first point from one up to another that has not been asked for.
fn first_unmarked(begin: u32, end: u32, marks: &[bool]) -> Option<u32>
    ensures { IfSome result (λ found. slice_get marks.now found ≡ Some false) }
{
    for point in begin..end {
        if is_unmarked(point, marks) {
            return Some(point);
        }
    }
    None
}

/// Whether there is a point of this number and it has not been asked for.
pub fn is_unmarked(point: u32, marks: &[bool]) -> bool
    ensures { result ≡ true → slice_get marks.now point ≡ Some false }
{
    match marks.get(point as usize) {
        Some(mark) => !*mark,
        None => false,
    }
}
