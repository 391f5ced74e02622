//! Which points an expression reads.

use fab_base::Memory;
use fab_compiled::Tree;

/// Points that follow one another: the first, and the one behind the last.
#[derive(Clone, Copy, Debug)]
pub(crate) struct Range {
    pub first: usize,
    pub end: usize,
}

/// Lists the points that an expression reads over the points of an instance, of which the first is given, in the place of what the list has.
pub(crate) fn ranges_of(tree: &Tree, first: usize, ranges: &mut Vec<Range>) -> Result<(), Memory> {
    ranges.clear();
    add_ranges(tree, first, ranges)
}

fn add_ranges(tree: &Tree, first: usize, ranges: &mut Vec<Range>) -> Result<(), Memory> {
    match tree {
        Tree::Const(_) => Ok(()),
        Tree::Bits(place, count) => add(first, *place, *count as usize, ranges),
        Tree::Pick(place, width, index) => {
            add(first, *place, 2usize.wrapping_pow(*width), ranges)?;
            add_ranges(index, first, ranges)
        }
        Tree::Not(inner) => add_ranges(inner, first, ranges),
        Tree::Cat(left, _, right)
        | Tree::And(left, right)
        | Tree::Or(left, right)
        | Tree::Xor(left, right)
        | Tree::Equal(_, left, right)
        | Tree::Minus(_, left, right) => {
            add_ranges(left, first, ranges)?;
            add_ranges(right, first, ranges)
        }
        Tree::Cond(test, yes, no) => {
            add_ranges(test, first, ranges)?;
            add_ranges(yes, first, ranges)?;
            add_ranges(no, first, ranges)
        }
    }
}

fn add(first: usize, place: u32, count: usize, ranges: &mut Vec<Range>) -> Result<(), Memory> {
    let first = first.saturating_add(place as usize);
    let end = first.saturating_add(count);
    ranges.push(Range { first, end })?;
    Ok(())
}

/// How many names, parts of names and constants an expression has.
pub(crate) fn parts(tree: &Tree) -> u32 {
    match tree {
        Tree::Const(_) | Tree::Bits(_, _) => 1,
        Tree::Pick(_, _, inner) | Tree::Not(inner) => parts(inner),
        Tree::Cat(left, _, right)
        | Tree::And(left, right)
        | Tree::Or(left, right)
        | Tree::Xor(left, right)
        | Tree::Equal(_, left, right)
        | Tree::Minus(_, left, right) => parts(left).saturating_add(parts(right)),
        Tree::Cond(test, yes, no) => {
            let branches = parts(yes).saturating_add(parts(no));
            parts(test).saturating_add(branches)
        }
    }
}

/// How many points a bit of an expression reads at most.
pub(crate) fn most_reads(tree: &Tree) -> u32 {
    match tree {
        Tree::Const(_) => 0,
        Tree::Bits(_, _) => 1,
        Tree::Pick(_, width, index) => table_reads(*width).saturating_add(all_reads(index)),
        Tree::Not(inner) => most_reads(inner),
        Tree::Cat(low, _, high) => most_reads(low).max(most_reads(high)),
        Tree::And(left, right) | Tree::Or(left, right) | Tree::Xor(left, right) => {
            most_reads(left).saturating_add(most_reads(right))
        }
        Tree::Equal(_, left, right) | Tree::Minus(_, left, right) => {
            all_reads(left).saturating_add(all_reads(right))
        }
        Tree::Cond(test, yes, no) => {
            let branches = most_reads(yes).saturating_add(most_reads(no));
            most_reads(test).saturating_add(branches)
        }
    }
}

// How many points an expression reads, one that it names several times counted as often.
fn all_reads(tree: &Tree) -> u32 {
    match tree {
        Tree::Const(_) => 0,
        Tree::Bits(_, count) => *count,
        Tree::Pick(_, width, index) => table_reads(*width).saturating_add(all_reads(index)),
        Tree::Not(inner) => all_reads(inner),
        Tree::Cat(left, _, right)
        | Tree::And(left, right)
        | Tree::Or(left, right)
        | Tree::Xor(left, right)
        | Tree::Equal(_, left, right)
        | Tree::Minus(_, left, right) => all_reads(left).saturating_add(all_reads(right)),
        Tree::Cond(test, yes, no) => {
            let branches = all_reads(yes).saturating_add(all_reads(no));
            all_reads(test).saturating_add(branches)
        }
    }
}

// How many points a pick by so many bits may pick.
fn table_reads(width: u32) -> u32 {
    1_u32.checked_shl(width).unwrap_or(u32::MAX)
}
