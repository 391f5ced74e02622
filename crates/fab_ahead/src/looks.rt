//! How many looks there were at bits of an expression, or at a point.

use fab_compiled::Tree;
use fab_network::Source;
use fab_plans::looks_before_all;
use std::alloc::Global;

/// Of how many expressions or points looks are counted at a time: more than a text of 64 KB has wide names.
const PLACES: u32 = 1 << 11;

/// At how many looks at bits of an expression all of them are found together for the first time. Fewer looks take not much longer than that.
const FEWEST: u32 = 32;

/// What is looked at.
#[derive(Clone, Copy, Debug, PartialEq, Eq)]
pub(crate) enum Subject {
    /// Bits of the expression of this number, over the points of an instance, of which the first is given.
    Expression(u32, u32),
    /// This point.
    Point(u32),
}

impl Subject {
    // The place of its count.
    fn place(self) -> u32 {
        match self {
            Subject::Expression(tree, first) => tree.wrapping_add(first) % PLACES,
            Subject::Point(point) => point % PLACES,
        }
    }
}

/// How many looks there were.
#[derive(Clone, Copy, Debug)]
struct Count {
    subject: Subject,
    looks: u32,
}

/// Looks at some expressions and points, by places that each has for itself as long as no other needs it.
#[derive(Drop)]
pub(crate) struct Looks {
    /// None as long as nothing has been looked at.
    counts: Vec<Count>,
}

impl Looks {
    /// Nothing has been looked at. No memory is taken for it.
    pub(crate) fn new(alloc: Global) -> Looks {
        Looks {
            counts: Vec::new(alloc),
        }
    }

    /// Nothing has been looked at, as after `new`. The room stays.
    pub(crate) fn clear(&mut self) {
        self.counts.clear();
    }

    // Makes the places, where there are none yet. Where memory is refused, there are still none.
    fn make_places(&mut self) {
        if self.counts.is_empty() {
            let none = Count {
                subject: Subject::Point(0),
                looks: 0,
            };
            let _ = self.counts.resize(PLACES as usize, none);
        }
    }

    /// How many looks there were with this one, or none where there is no memory to count them.
    pub(crate) fn count(&mut self, subject: Subject) -> u32 {
        self.make_places();
        let Some(count) = self.counts.get_mut(subject.place() as usize) else {
            return 0;
        };
        let before = if count.subject == subject {
            count.looks
        } else {
            0
        };
        let looks = before.saturating_add(1);
        *count = Count { subject, looks };
        looks
    }

    /// One more look at the bit of a source. Told is whether all bits of its expression are to be found now: at the look of this number, at twice as many and
    /// so on, if so many bits alone take longer.
    pub(crate) fn is_due(&mut self, trees: &[Tree], source: Source) -> bool {
        let looks = self.count(Subject::Expression(source.tree, source.first));
        looks >= FEWEST && looks.is_power_of_two() && takes_longer(trees, source, looks)
    }
}

// Whether so many bits of the expression of a source, each alone, take longer than all of them together.
fn takes_longer(trees: &[Tree], source: Source, looks: u32) -> bool {
    match trees.get(source.tree as usize) {
        Some(tree) => looks_before_all(tree).is_some_and(|least| looks >= least),
        None => false,
    }
}
