//! What an implementation uses of some columns.

ghost use Rattle.std.specs.Prelude.{◌≡◌, ◌<◌, ◌≤◌, ◌↔◌, false, All, Contains, IsTrue, MatchOption, option_copied};
ghost use Rattle.fab_implementation.specs.fab_model.specs.Grid.{tile_at};
ghost use Rattle.fab_implementation.specs.fab_fabric.specs.Fabric.{AreTiles, IsFabric};
ghost use Rattle.fab_partial.specs.Columns.{lies_within};
ghost use Rattle.fab_partial.specs.Use.{AreUnused, IsUse, IsUsedEdge};
ghost use Rattle.fab_partial.specs.inner.Firsts.{EntersFirst, IsFirstCell};

use fab_implementation::fab_fabric::{Fabric, Site, Wire};
use fab_implementation::fab_model::{Pair, TileType};
use fab_implementation::{Implementation, Tree};

/// What an implementation uses of some columns.
#[derive(Clone, Copy, Debug, PartialEq, Eq)]
pub enum Use {
    /// A cell stands on this site.
    Cell(Site),
    /// An edge enters this wire, and configuration bits choose it among the inputs of the wire.
    Edge(Wire),
}

/// What an implementation uses of the columns from the first to the last: the site of its first cell there; if there is none, the wire
/// that is entered by the first edge whose configuration bits lie there. An implementation of which nothing is given reads no
/// configuration bit of these columns.
pub fn used(fabric: &Fabric, implementation: &Implementation, first: u32, last: u32) -> Option<Use>
    requires order { first ≤ last }
    requires within { last < fabric.now.columns }
    ensures { MatchOption result (AreUnused fabric.now implementation.now (lies_within first last))
        (IsUse fabric.now implementation.now (lies_within first last)) }
{
    if let Some(site) = used_cell(&implementation.cells, first, last) {
        return Some(Use::Cell(site));
    }
    for tree in &implementation.trees {
        if let Some(wire) = used_wire(fabric, &tree.edges, first, last) {
            return Some(Use::Edge(wire));
        }
    }
    None
}

// The site of the first cell in the columns.
fn used_cell(cells: &[(u32, Site)], first: u32, last: u32) -> Option<Site>
    ensures { MatchOption result (All (λ line. lies_within first last line.1.x ≡ false) cells.now) (IsFirstCell cells.now (lies_within first last)) }
{
    for line in cells {
        if is_within(first, last, line.1.x) {
            return Some(line.1);
        }
    }
    None
}

// The wire that the first used edge enters.
fn used_wire(fabric: &Fabric, edges: &[(Wire, Wire)], first: u32, last: u32) -> Option<Wire>
    ensures { MatchOption result (All (λ edge. IsUsedEdge fabric.now (lies_within first last) edge → ⊥) edges.now)
        (EntersFirst (IsUsedEdge fabric.now (lies_within first last)) edges.now) }
{
    for edge in edges {
        if is_used(fabric, *edge, first, last) {
            return Some(edge.1);
        }
    }
    None
}

// Whether an edge is a pair of a switch matrix in the columns, and its output takes configuration bits.
fn is_used(fabric: &Fabric, edge: (Wire, Wire), first: u32, last: u32) -> bool
    ensures { IsTrue result ↔ IsUsedEdge fabric.now (lies_within first last) edge }
{
    fabric.is_well_made();
    let (from, to) = edge;
    if from.0 >= fabric.wires() || to.0 >= fabric.wires() {
        return false;
    }
    let (x, y, input) = fabric.spot(from);
    let (to_x, to_y, output) = fabric.spot(to);
    if x != to_x || y != to_y || !is_within(first, last, x) {
        return false;
    }
    match find_tile(fabric, x, y) {
        Some(tile) => tile.field(output).1 > 0 && has_pair(tile.pairs(), output, input),
        None => false,
    }
}

// Whether one of the pairs has these numbers.
fn has_pair(pairs: &[Pair], output: u32, input: u32) -> bool
    ensures { IsTrue result ↔ Contains pairs.now (record { output = output; input = input }) }
{
    for pair in pairs {
        if pair.output == output && pair.input == input {
            return true;
        }
    }
    false
}

// The tile at a place; none where there is no tile.
fn find_tile(fabric: &Fabric, x: u32, y: u32) -> Option<&TileType>
    ensures found { option_copied result ≡ tile_at fabric.now x y }
    ensures is_fabric { IsFabric fabric.now }
    ensures are_tiles { AreTiles fabric.now }
{
    let types = fabric.types();
    if x >= fabric.columns() || y >= fabric.rows() {
        return None;
    }
    let number = fabric.type_at(x, y)?;
    Some(&types[number as usize])
}

// Whether a column is one of those from the first to the last.
fn is_within(first: u32, last: u32, x: u32) -> bool
    ensures { result ≡ lies_within first last x }
{
    first <= x && x <= last
}
