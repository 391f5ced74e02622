//! What an entry depends on that an index picks of a table, where some of the entries are known.

ghost use Rattle.std.specs.Prelude.{◌≡◌, ◌+◌, ◌*◌, ◌^◌, ◌<◌, ◌≤◌, true, false, length, slice_get, MatchOption, Some};
ghost use Rattle.fab_compiled.specs.Trees.{tree_width, IsMade};
ghost use Rattle.fab_compiled.specs.Terns.{IsView};
ghost use Rattle.fab_compiled.specs.Evaluation.{IsWithin};
ghost use Rattle.fab_compiled.specs.inner.Picks.{evens_of, odds_of, AreSame, IsPickedAlike, IsTableBelow};

use crate::marking::unmarked_bit;
use crate::operators::agreed;
use crate::tree::Tree;
use crate::view::View;

/// A table whose entries are points: the first, how far each is behind the one before it, and how many bits an index has.
#[derive(Clone, Copy)]
pub struct Table {
    pub first: usize,
    pub stride: usize,
    pub size: u32,
}

impl Table {
    // Every other entry, from the first on.
    fn evens(self) -> Table
        requires some { 0 < self.size }
        requires small { self.first + self.stride < 2 ^ 32 }
        ensures { result ≡ evens_of self }
    {
        Table {
            first: self.first,
            stride: 2 * self.stride,
            size: self.size - 1,
        }
    }

    // Every other entry, from the second on.
    fn odds(self) -> Table
        requires some { 0 < self.size }
        requires small { self.first + self.stride < 2 ^ 32 }
        ensures { result ≡ odds_of self }
    {
        Table {
            first: self.first + self.stride,
            stride: 2 * self.stride,
            size: self.size - 1,
        }
    }
}

// Whether all entries of two tables are known, and the same at each index.
fn same_entries(left: Table, right: Table, view: &View) -> bool
    requires sizes { left.size ≡ right.size }
    requires left { IsTableBelow (length view.now.leads.now) left }
    requires right { IsTableBelow (length view.now.leads.now) right }
    requires view { IsView view.now.terns.now view.now.leads.now }
    requires few { length view.now.leads.now ≤ 2 ^ 32 }
    ensures { result ≡ true → AreSame view.now.terns.now view.now.leads.now left right }
{
    if left.size == 0 {
        return !agreed(view.at(left.first), view.at(right.first)).is_open();
    }
    same_entries(left.evens(), right.evens(), view) && same_entries(left.odds(), right.odds(), view)
}

/// A point that is not marked and on which an entry may depend, where the bits of the index from this one on pick it, if there is such a point. A bit
/// does not matter where the entries that it chooses between are known and the same.
pub(crate) fn unmarked_index(
    table: Table,
    index: &Tree,
    bit: u64,
    first: usize,
    view: &View,
    marks: &[bool],
) -> Option<u32>
    requires table { IsTableBelow (length view.now.leads.now) table }
    requires bits { bit + table.size ≡ tree_width index.now }
    requires wide { tree_width index.now < 2 ^ 32 }
    requires made { IsMade index.now }
    requires view { IsView view.now.terns.now view.now.leads.now }
    requires few { length view.now.leads.now ≤ 2 ^ 32 }
    requires begins { first ≤ length view.now.leads.now }
    requires inside { IsWithin index.now first (length view.now.leads.now) }
    requires marks { length marks.now ≡ length view.now.leads.now }
    ensures { MatchOption result (IsPickedAlike view.now.terns.now view.now.leads.now marks.now table first index.now bit) (λ point. slice_get marks.now point ≡ Some false) }
{
    if table.size == 0 {
        return None;
    }
    let evens = table.evens();
    let odds = table.odds();
    if same_entries(evens, odds, view) {
        return unmarked_index(evens, index, bit + 1, first, view, marks);
    }
    if let Some(point) = unmarked_bit(index, bit, first, marks) {
        return Some(point);
    }
    match unmarked_index(evens, index, bit + 1, first, view, marks) {
        Some(point) => Some(point),
        None => unmarked_index(odds, index, bit + 1, first, view, marks),
    }
}
