//! Whether a table falls by 2 at most over each hop.

ghost use Rattle.std.specs.Prelude.{◌≡◌, ◌+◌, ◌-◌, ◌*◌, ◌<◌, ◌≤◌, ◌^◌, ℕ, length, slice_index};
ghost use Rattle.std.specs.Bool.{OnTrue};
ghost use Rattle.std.specs.List.{All};
ghost use Rattle.fab_route.specs.inner.Guided.{IsWindow, IsHopTested, AreTested, IsLineTested};

use crate::hops::Hop;
use crate::window::Window;

/// Whether a table that begins here passes the test.
pub(crate) fn is_tested(entries: &[u8], window: Window, start: usize, hops: &Vec<Vec<Hop>>) -> bool
    requires window { IsWindow window }
    requires start { start < 2 ^ 40 }
    requires few { length hops.now.items ≤ 2 ^ 20 }
    ensures { OnTrue result (AreTested entries.now window hops.now.items start (length hops.now.items)) }
{
    for to in 0..hops.len() {
        if !are_tested(entries, window, start, to, &hops[to]) {
            return false;
        }
    }
    true
}

// Whether it passes over hops to one class.
fn are_tested(entries: &[u8], window: Window, start: usize, to: usize, hops: &[Hop]) -> bool
    requires window { IsWindow window }
    requires start { start < 2 ^ 40 }
    requires to { to < 2 ^ 20 }
    ensures { OnTrue result (All (IsHopTested entries.now window start to) hops.now) }
{
    for hop in hops {
        if !is_hop_tested(entries, window, start, to, *hop) {
            return false;
        }
    }
    true
}

// Whether it passes over one hop, from all columns.
fn is_hop_tested(entries: &[u8], window: Window, start: usize, to: usize, hop: Hop) -> bool
    requires window { IsWindow window }
    requires start { start < 2 ^ 40 }
    requires to { to < 2 ^ 20 }
    ensures { OnTrue result (IsHopTested entries.now window start to hop) }
{
    let (low, high) = overlap(window.columns, hop.across);
    for across in low..high {
        let from_line = start + hop.from as usize * 4096 + across as usize * 64;
        let to_line = start + to * 4096 + (across + 32 - hop.across) as usize * 64;
        if !is_line_tested(entries, window.rows, from_line, to_line, hop.down) {
            return false;
        }
    }
    true
}

// Whether it passes over one hop, from all rows of one column.
fn is_line_tested(entries: &[u8], rows: u32, from_line: usize, to_line: usize, down: u32) -> bool
    requires some { 1 ≤ rows }
    requires few { rows ≤ 32 }
    requires from { from_line < 2 ^ 50 }
    requires to { to_line < 2 ^ 50 }
    ensures { OnTrue result (IsLineTested entries.now rows from_line to_line down) }
{
    let (low, high) = overlap(rows, down);
    for here in low..high {
        let there = here + 32 - down;
        if entry(entries, from_line + here as usize)
            > entry(entries, to_line + there as usize) + 2
        {
            return false;
        }
    }
    true
}

// The distances from which a hop leads to another one, among those in a grid of so many columns or rows.
fn overlap(count: u32, shift: u32) -> (u32, u32)
    requires some { 1 ≤ count }
    requires few { count ≤ 32 }
    ensures all { (here there : ℕ) → 33 - count ≤ here → here < 32 + count → 33 - count ≤ there → there < 32 + count → there + shift ≡ here + 32 →
        (result.0 ≤ here) × (here < result.1) }
    ensures bounds { (here : ℕ) → result.0 ≤ here → here < result.1 → (here < 64) × (shift ≤ here + 32) × (here + 32 < shift + 64) }
{
    if shift > 95 {
        return (0, 0);
    }
    let low = (33 - count).max((shift + 33 - count).saturating_sub(32));
    let high = (32 + count).min(shift + count);
    (low, high)
}

/// An entry, and 0 past the last.
pub(crate) fn entry(entries: &[u8], at: usize) -> u32
    ensures value { result ≡ slice_index entries.now at }
    ensures small { result < 256 }
{
    match entries.get(at) {
        Some(entry) => u32::from(*entry),
        None => 0,
    }
}
