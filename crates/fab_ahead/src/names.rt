//! How far the name of many bits goes in which a point stands that an expression needs.

use fab_compiled::Tree;
use fab_network::{Drive, Network, Source};

/// From how many points on they are asked for without a look between. Of fewer a look may find that no more are needed, and takes not long.
pub(crate) const MANY: u32 = 32;

/// Whether a point and those behind it may be bits of one name of many bits: they are driven alike then. Else an expression need not be gone
/// through for it. Most points stand in names of few bits.
pub(crate) fn may_begin_row(network: &Network, point: u32) -> bool {
    let last = point.saturating_add(MANY);
    match (
        network.drives.get(point as usize),
        network.drives.get(last as usize),
    ) {
        (Some(first), Some(last)) => are_alike(first, last),
        _ => false,
    }
}

// Whether two drives may be those of bits of one name.
fn are_alike(first: &Drive, last: &Drive) -> bool {
    match (first, last) {
        (Drive::Given, Drive::Given) => true,
        (Drive::Same(one), Drive::Same(other)) => one.saturating_add(MANY) == *other,
        (Drive::Value(one), Drive::Value(other))
        | (Drive::Flop(_, one), Drive::Flop(_, other))
        | (Drive::Hold(_, one), Drive::Hold(_, other)) => one.is_beside(*other),
        _ => false,
    }
}

/// Whether a point needs one that in turn needs the name in which the point stands, maybe through other names, and neither is led to the other: then each bit of
/// the one name needs all bits of both. They may be bits of one name. Where a bit of the name that is needed waits already, it waits for this point.
pub(crate) fn is_ring(network: &Network, point: u32, needed: u32, waits: bool) -> bool {
    needs_back(network, point, needed, waits)
        && !may_lead_to(network, point, needed)
        && !may_lead_to(network, needed, point)
}

/// Whether a point that another needs in turn needs the name in which that one stands, as its drive tells, or as a bit of its name waits already.
pub(crate) fn needs_back(network: &Network, point: u32, needed: u32, waits: bool) -> bool {
    end_by_drive(network, needed, point) > point || waits && follows_bit(network, needed)
}

// Whether a point and the one before it are bits of one expression.
fn follows_bit(network: &Network, point: u32) -> bool {
    let before = point.saturating_sub(1);
    match (
        network.drives.get(before as usize),
        network.drives.get(point as usize),
    ) {
        (Some(first), Some(last)) => are_alike(first, last),
        _ => false,
    }
}

// Whether the bits of the expression that drives a point may be led to another point.
fn may_lead_to(network: &Network, point: u32, other: u32) -> bool {
    match network.drives.get(point as usize) {
        Some(Drive::Value(source) | Drive::Hold(_, source)) => {
            source_leads_to(&network.trees, *source, other)
        }
        Some(Drive::Same(same)) => *same == other,
        Some(Drive::Given | Drive::Flop(_, _)) | None => false,
    }
}

// Whether a bit of the expression of a source may be led to a point.
fn source_leads_to(trees: &[Tree], source: Source, point: u32) -> bool {
    match trees.get(source.tree as usize) {
        Some(tree) => leads_to(tree, source.first, point),
        None => false,
    }
}

fn leads_to(tree: &Tree, first: u32, point: u32) -> bool {
    match tree {
        Tree::Bits(place, count) => {
            end_in_name(first.saturating_add(*place), *count, point) > point
        }
        Tree::Cat(left, _, right) | Tree::Cond(_, left, right) => {
            leads_to(left, first, point) || leads_to(right, first, point)
        }
        Tree::Const(_) | Tree::Pick(_, _, _) | Tree::Not(_) => false,
        Tree::And(_, _) | Tree::Or(_, _) | Tree::Xor(_, _) => false,
        Tree::Equal(_, _, _) | Tree::Minus(_, _, _) => false,
    }
}

/// Whether a point is never led to another: the part of its expression in which it stands makes a bit of its own.
pub(crate) fn is_never_led(network: &Network, point: u32) -> bool {
    match network.drives.get(point as usize) {
        Some(Drive::Value(source) | Drive::Hold(_, source)) => {
            match network.trees.get(source.tree as usize) {
                Some(tree) => makes_bits(part_of_bit(tree, u64::from(source.bit))),
                None => false,
            }
        }
        Some(Drive::Given | Drive::Flop(_, _) | Drive::Same(_)) | None => false,
    }
}

// Whether each bit of an expression is one that an operator makes.
fn makes_bits(tree: &Tree) -> bool {
    match tree {
        Tree::Const(_) | Tree::Bits(_, _) | Tree::Pick(_, _, _) => false,
        Tree::Cat(_, _, _) | Tree::Cond(_, _, _) => false,
        Tree::Not(_) | Tree::And(_, _) | Tree::Or(_, _) | Tree::Xor(_, _) => true,
        Tree::Equal(_, _, _) | Tree::Minus(_, _, _) => true,
    }
}

/// The part of a concatenation in which a bit stands. The other parts do not matter to it.
pub(crate) fn part_of_bit(tree: &Tree, bit: u64) -> &Tree {
    match tree {
        Tree::Cat(low, width, high) => {
            if bit < *width {
                part_of_bit(low, bit)
            } else {
                part_of_bit(high, bit - *width)
            }
        }
        Tree::Const(_) | Tree::Bits(_, _) | Tree::Pick(_, _, _) => tree,
        Tree::Not(_) | Tree::And(_, _) | Tree::Or(_, _) | Tree::Xor(_, _) => tree,
        Tree::Equal(_, _, _) | Tree::Minus(_, _, _) | Tree::Cond(_, _, _) => tree,
    }
}

/// Behind the last point of the name in which this point stands that the drive of another needs.
pub(crate) fn end_by_drive(network: &Network, point: u32, needed: u32) -> u32 {
    match network.drives.get(point as usize) {
        Some(Drive::Value(source)) => end_in_source(&network.trees, *source, needed),
        Some(Drive::Hold(gate, latched)) => {
            let end = end_in_source(&network.trees, *gate, needed);
            end.max(end_in_source(&network.trees, *latched, needed))
        }
        Some(Drive::Given | Drive::Flop(_, _) | Drive::Same(_)) | None => needed,
    }
}

/// Behind the last point of a name of many bits that the bit of an expression needs and in which this point stands, or the point itself.
pub fn end_of_rest(network: &Network, source: Source, needed: u32) -> u32 {
    if !may_begin_row(network, needed) {
        return needed;
    }
    let end = end_in_source(&network.trees, source, needed);
    if end.saturating_sub(needed) > MANY {
        end
    } else {
        needed
    }
}

// Behind the last point of the names that the bit of an expression needs and in which this point stands, or the point where it stands in none.
fn end_in_source(trees: &[Tree], source: Source, needed: u32) -> u32 {
    match trees.get(source.tree as usize) {
        Some(tree) => {
            let part = part_of_bit(tree, u64::from(source.bit));
            end_in_tree(part, source.first, needed)
        }
        None => needed,
    }
}

fn end_in_tree(tree: &Tree, first: u32, needed: u32) -> u32 {
    match tree {
        Tree::Const(_) => needed,
        Tree::Bits(place, count) => end_in_name(first.saturating_add(*place), *count, needed),
        Tree::Pick(place, width, index) => {
            let count = 1_u32.checked_shl(*width).unwrap_or(u32::MAX);
            let end = end_in_name(first.saturating_add(*place), count, needed);
            end.max(end_in_tree(index, first, needed))
        }
        Tree::Not(inner) => end_in_tree(inner, first, needed),
        Tree::Cat(left, _, right)
        | Tree::And(left, right)
        | Tree::Or(left, right)
        | Tree::Xor(left, right)
        | Tree::Equal(_, left, right)
        | Tree::Minus(_, left, right) => {
            let end = end_in_tree(left, first, needed);
            end.max(end_in_tree(right, first, needed))
        }
        Tree::Cond(test, yes, no) => {
            let end = end_in_tree(yes, first, needed).max(end_in_tree(no, first, needed));
            end.max(end_in_tree(test, first, needed))
        }
    }
}

fn end_in_name(start: u32, count: u32, needed: u32) -> u32 {
    let end = start.saturating_add(count);
    if start <= needed && needed < end {
        end
    } else {
        needed
    }
}
