//! When the bits of an expression are found together.

use fab_compiled::Tree;

/// When all bits of an expression are found together, and not each alone.
#[derive(Clone, Copy, Debug, PartialEq, Eq)]
pub enum Plan {
    /// It is decided at the second look: many expressions are looked at once, and are not gone through for it.
    Undecided,
    /// After so many looks at bits that are not kept.
    After(u32),
    /// The same, and each bit alone may take as long as all of them, because they rest on the same work.
    Together(u32),
    /// Not at all, because each bit alone takes no longer or because there is no memory.
    Never,
}

// How many steps a bit alone takes at least, where a narrow expression without shared work is found as a whole. A bit of fewer takes less than 200 nanoseconds.
const MANY_STEPS: u32 = 8;

// From how many bits on an expression of fewer steps is found as a whole too.
const MANY_BITS: u64 = 1 << 10;

// One of so many bits is evaluated alone, before all are found: a bit alone takes some forty times as long as one among all. Where no more than these are asked
// for, that takes some four times as long as they alone; where all are, a thirtieth of it.
const BITS_FOR_A_LOOK: u64 = 128;

// How many bits may stand in a list at once, a byte each. A long chain of operators over a wide name would take gigabytes, and bits alone take nothing.
const MOST_BITS: u64 = 1 << 26;

/// After how many looks at bits of an expression all of them are to be found together. `None` where each bit alone takes no longer.
pub fn looks_before_all(tree: &Tree) -> Option<u32> {
    plan_of(tree).looks()
}

/// Whether all bits of an expression are found together, as soon as a second one is looked at.
pub fn are_found_together(tree: &Tree) -> bool {
    shares(tree)
}

impl Plan {
    /// The plan for an expression, if there is none yet.
    pub fn decided(self, tree: Option<&Tree>) -> Plan {
        match (self, tree) {
            (Plan::Undecided, Some(tree)) => plan_of(tree),
            (Plan::Undecided, None) => Plan::Never,
            (Plan::After(_) | Plan::Together(_) | Plan::Never, _) => self,
        }
    }

    /// How many looks there are before all bits are found, if they ever are.
    pub fn looks(self) -> Option<u32> {
        match self {
            Plan::After(looks) | Plan::Together(looks) => Some(looks),
            Plan::Undecided | Plan::Never => None,
        }
    }

    /// The plan when all bits have been found: the next time that is after twice as many looks.
    pub fn doubled(self) -> Plan {
        match self {
            Plan::After(looks) => Plan::After(looks.saturating_mul(2)),
            Plan::Together(looks) => Plan::Together(looks.saturating_mul(2)),
            Plan::Undecided | Plan::Never => self,
        }
    }
}

// The plan for an expression. For each operator a bit alone takes some 25 nanoseconds, and one among all bits less than 2.
fn plan_of(tree: &Tree) -> Plan {
    if shares(tree) {
        return Plan::Together(1);
    }
    let room = room_of(tree);
    if room.most > MOST_BITS || !takes_many(room.bits, steps(tree)) {
        return Plan::Never;
    }
    let looks = room.bits / BITS_FOR_A_LOOK;
    Plan::After(u32::try_from(looks).unwrap_or(u32::MAX).max(1))
}

// Whether so many bits of so many steps each take longer alone than as a whole. A bit of none is one of a name, and is looked up.
fn takes_many(bits: u64, steps: u32) -> bool {
    steps >= MANY_STEPS || steps > 0 && bits >= MANY_BITS
}

// From how many bits of an index on a pick takes long: it goes over all entries where the index is not known.
const WIDE_INDEX: u32 = 6;

// Whether bits of an expression rest on the same work: on the operands of a difference, or on a test that is more than a point; and a bit that takes long
// and may be asked for many times, as a gate.
fn shares(tree: &Tree) -> bool {
    sharing_of(tree).shares
}

// How wide an expression is, and whether it shares work.
#[derive(Clone, Copy)]
struct Sharing {
    bits: u64,
    shares: bool,
}

impl Sharing {
    fn new(bits: u64, shares: bool) -> Sharing {
        Sharing { bits, shares }
    }
}

fn sharing_of(tree: &Tree) -> Sharing {
    match tree {
        Tree::Const(bits) => Sharing::new(bits.len() as u64, false),
        Tree::Bits(_, count) => Sharing::new(u64::from(*count), false),
        Tree::Pick(_, width, index) => {
            Sharing::new(1, *width >= WIDE_INDEX || sharing_of(index).shares)
        }
        Tree::Equal(_, _, _) => Sharing::new(1, true),
        Tree::Minus(width, _, _) => Sharing::new(*width, true),
        Tree::Not(inner) => sharing_of(inner),
        Tree::Cat(low, _, high) => beside(sharing_of(low), sharing_of(high)),
        Tree::And(left, right) | Tree::Or(left, right) | Tree::Xor(left, right) => {
            either(sharing_of(left), sharing_of(right))
        }
        Tree::Cond(test, yes, no) => {
            let branches = either(sharing_of(yes), sharing_of(no));
            Sharing::new(branches.bits, takes_long(test) || branches.shares)
        }
    }
}

// Where two values make one, bit by bit.
fn either(left: Sharing, right: Sharing) -> Sharing {
    Sharing::new(left.bits, left.shares || right.shares)
}

// Where one stands behind the other. A part of one bit shares nothing with others.
fn beside(low: Sharing, high: Sharing) -> Sharing {
    let shares = low.bits > 1 && low.shares || high.bits > 1 && high.shares;
    Sharing::new(low.bits.saturating_add(high.bits), shares)
}

// Whether a bit of an expression takes longer than a few points.
fn takes_long(tree: &Tree) -> bool {
    match tree {
        Tree::Const(_) | Tree::Bits(_, _) => false,
        Tree::Pick(_, _, _) | Tree::Equal(_, _, _) | Tree::Minus(_, _, _) => true,
        Tree::Not(inner) => takes_long(inner),
        Tree::Cat(left, _, right)
        | Tree::And(left, right)
        | Tree::Or(left, right)
        | Tree::Xor(left, right) => takes_long(left) || takes_long(right),
        Tree::Cond(test, yes, no) => takes_long(test) || takes_long(yes) || takes_long(no),
    }
}

// How many operators a bit alone passes at most: in a concatenation the parts up to its own, and behind a test one branch.
fn steps(tree: &Tree) -> u32 {
    match tree {
        Tree::Const(_) | Tree::Bits(_, _) => 0,
        Tree::Pick(_, _, inner) | Tree::Not(inner) => steps(inner).saturating_add(1),
        Tree::Cat(low, _, high) => steps(low).max(steps(high)).saturating_add(1),
        Tree::And(left, right)
        | Tree::Or(left, right)
        | Tree::Xor(left, right)
        | Tree::Equal(_, left, right)
        | Tree::Minus(_, left, right) => {
            steps(left).saturating_add(steps(right)).saturating_add(1)
        }
        Tree::Cond(test, yes, no) => {
            let branch = steps(yes).max(steps(no));
            steps(test).saturating_add(branch).saturating_add(1)
        }
    }
}

// What an expression as a whole takes of a list.
#[derive(Clone, Copy)]
struct Room {
    // How many bits it has.
    bits: u64,
    // How many stand in the list at most, while bits of left operands wait for those of right ones.
    most: u64,
}

fn room_of(tree: &Tree) -> Room {
    match tree {
        Tree::Const(bits) => filled(bits.len() as u64),
        Tree::Bits(_, count) => filled(u64::from(*count)),
        Tree::Pick(_, _, index) => one_of(room_of(index)),
        Tree::Not(inner) => room_of(inner),
        Tree::Equal(_, left, right) => one_of(joined(room_of(left), room_of(right))),
        Tree::Cat(left, _, right) => joined(room_of(left), room_of(right)),
        Tree::And(left, right)
        | Tree::Or(left, right)
        | Tree::Xor(left, right)
        | Tree::Minus(_, left, right) => paired(room_of(left), room_of(right)),
        Tree::Cond(test, yes, no) => behind(room_of(test), paired(room_of(yes), room_of(no))),
    }
}

// The room of bits that are there at once.
fn filled(bits: u64) -> Room {
    Room { bits, most: bits }
}

// The room where one bit is found out of all.
fn one_of(all: Room) -> Room {
    Room {
        bits: 1,
        most: all.most,
    }
}

// The room of a value behind another one.
fn joined(left: Room, right: Room) -> Room {
    Room {
        bits: left.bits.saturating_add(right.bits),
        most: left.most.max(left.bits.saturating_add(right.most)),
    }
}

// The room where two values make one, bit by bit.
fn paired(left: Room, right: Room) -> Room {
    Room {
        bits: left.bits,
        most: joined(left, right).most,
    }
}

// The room of a value that is found when a test has been taken out of the list.
fn behind(test: Room, value: Room) -> Room {
    Room {
        bits: value.bits,
        most: test.most.max(value.most),
    }
}
