//! The points that an expression needs and that have not been asked for, one after the other.

use crate::names::part_of_bit;
use crate::rows::is_unmarked;
use fab_compiled::Tree;
use fab_network::{Drive, Network, Source};

/// Adds to a list what the drive of a point needs, up to so many points in all.
pub(crate) fn list_by_drive(
    network: &Network,
    point: u32,
    marks: &[bool],
    most: usize,
    list: &mut Vec<u32>,
) {
    match network.drives.get(point as usize) {
        Some(Drive::Value(source)) => list_source(&network.trees, *source, marks, most, list),
        Some(Drive::Hold(gate, latched)) => {
            list_source(&network.trees, *gate, marks, most, list);
            list_source(&network.trees, *latched, marks, most, list);
        }
        Some(Drive::Given | Drive::Flop(_, _) | Drive::Same(_)) | None => {}
    }
}

// Adds the points that the bit of a source needs.
fn list_source(trees: &[Tree], source: Source, marks: &[bool], most: usize, list: &mut Vec<u32>) {
    if let Some(tree) = trees.get(source.tree as usize) {
        let part = part_of_bit(tree, u64::from(source.bit));
        list_tree(part, source.first, marks, most, list);
    }
}

fn list_tree(tree: &Tree, first: u32, marks: &[bool], most: usize, list: &mut Vec<u32>) {
    match tree {
        Tree::Const(_) => {}
        Tree::Bits(place, count) => {
            list_name(first.saturating_add(*place), *count, marks, most, list);
        }
        Tree::Pick(place, width, index) => {
            let count = 1_u32.checked_shl(*width).unwrap_or(u32::MAX);
            list_name(first.saturating_add(*place), count, marks, most, list);
            list_tree(index, first, marks, most, list);
        }
        Tree::Not(inner) => list_tree(inner, first, marks, most, list),
        Tree::Cat(left, _, right)
        | Tree::And(left, right)
        | Tree::Or(left, right)
        | Tree::Xor(left, right)
        | Tree::Equal(_, left, right)
        | Tree::Minus(_, left, right) => {
            list_tree(left, first, marks, most, list);
            list_tree(right, first, marks, most, list);
        }
        Tree::Cond(test, yes, no) => {
            list_tree(test, first, marks, most, list);
            list_tree(yes, first, marks, most, list);
            list_tree(no, first, marks, most, list);
        }
    }
}

// Adds points that follow one another, where there is memory.
fn list_name(start: u32, count: u32, marks: &[bool], most: usize, list: &mut Vec<u32>) {
    for point in start..start.saturating_add(count) {
        if list.len() >= most {
            return;
        }
        if is_unmarked(point, marks) {
            let _ = list.push(point);
        }
    }
}
