//! Tables of the least that is left to pay, found from the goals backwards. Nothing is promised of them: they are tested.

ghost use Rattle.std.specs.Prelude.{◌<◌, ◌^◌};
ghost use Rattle.fab_route.specs.inner.Guided.{IsWindow};

use crate::hops::Hop;
use crate::window::Window;
use fab_base::Memory;
use std::alloc::Global;

// What stands for a way that was not found.
const FAR: u8 = 255;

/// A class at a distance.
#[derive(Clone, Copy)]
pub struct Spot {
    pub class: u32,
    pub across: u32,
    pub down: u32,
}

/// Fills the table that begins here, from goals on.
pub(crate) fn fill(
    alloc: Global,
    entries: &mut [u8],
    window: Window,
    start: usize,
    hops: &Vec<Vec<Hop>>,
    goals: Vec<Spot>,
) -> Result<(), Memory>
    requires window { IsWindow window }
    requires start { start < 2 ^ 40 }
{
    let mut frontier = goals;
    for step in 1..127 {
        frontier = widen(alloc, entries, window, start, hops, &frontier, 1 + 2 * step)?;
    }
    Ok(())
}

// The spots that lead to others and have no entry yet, which get this one.
fn widen(
    alloc: Global,
    entries: &mut [u8],
    window: Window,
    start: usize,
    hops: &Vec<Vec<Hop>>,
    frontier: &[Spot],
    value: u8,
) -> Result<Vec<Spot>, Memory>
    requires window { IsWindow window }
    requires start { start < 2 ^ 40 }
{
    let mut next = Vec::new(alloc);
    for spot in frontier {
        if let Some(group) = hops.get(spot.class as usize) {
            widen_spot(entries, window, start, group, *spot, value, &mut next)?;
        }
    }
    Ok(next)
}

fn widen_spot(
    entries: &mut [u8],
    window: Window,
    start: usize,
    hops: &[Hop],
    spot: Spot,
    value: u8,
    next: &mut Vec<Spot>,
) -> Result<(), Memory>
    requires window { IsWindow window }
    requires start { start < 2 ^ 40 }
{
    for hop in hops {
        let before = Spot {
            class: hop.from,
            across: spot.across.saturating_add(hop.across).saturating_sub(32),
            down: spot.down.saturating_add(hop.down).saturating_sub(32),
        };
        if is_in(window, before) && set_far(entries, start, before, value) {
            next.push(before)?;
        }
    }
    Ok(())
}

// Whether a distance is one in a grid.
fn is_in(window: Window, spot: Spot) -> bool
    requires { IsWindow window }
{
    let across = 33 - window.columns..32 + window.columns;
    let down = 33 - window.rows..32 + window.rows;
    across.contains(&spot.across) && down.contains(&spot.down)
}

/// Sets an entry that is not set yet; whether it did.
pub(crate) fn set_far(entries: &mut [u8], start: usize, spot: Spot, value: u8) -> bool
    requires start { start < 2 ^ 40 }
{
    let at = start + spot.class as usize * 4096 + spot.across as usize * 64 + spot.down as usize;
    match entries.get_mut(at) {
        Some(entry) if *entry == FAR => {
            *entry = value;
            true
        }
        _ => false,
    }
}
