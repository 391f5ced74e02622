//! The configuration bits of a fabric in the order of their positions in a chain.

ghost use Rattle.std.specs.Prelude.{◌≡◌, ◌++◌, IfOk, OnOk};
ghost use Rattle.fab_frames.specs.Positions.{chain};
ghost use Rattle.fab_frames.specs.inner.Placing.{column_chain, place_chain};

use fab_base::Memory;
use fab_fabric::Fabric;
use std::alloc::Global;

/// A configuration bit of a fabric: the column and the row of its tile, and its number there.
#[derive(Clone, Copy, Debug, PartialEq, Eq)]
pub struct BitPlace {
    pub x: u32,
    pub y: u32,
    pub bit: u32,
}

/// All of them: column by column, in a column from the top, and in a tile by number.
pub fn chain(alloc: Global, fabric: &Fabric) -> Result<Vec<BitPlace>, Memory>
    ensures { IfOk result (λ places. places.items ≡ chain fabric.now) }
{
    let mut places = Vec::new(alloc);
    for x in 0..fabric.columns() {
        push_column(&mut places, fabric, x)?;
    }
    Ok(places)
}

fn push_column(places: &mut Vec<BitPlace>, fabric: &Fabric, x: u32) -> Result<(), Memory>
    ensures { OnOk result (places.new.items ≡ places.old.items ++ column_chain fabric.now x) }
{
    for y in 0..fabric.rows() {
        push_place(places, fabric, x, y)?;
    }
    Ok(())
}

fn push_place(places: &mut Vec<BitPlace>, fabric: &Fabric, x: u32, y: u32) -> Result<(), Memory>
    ensures { OnOk result (places.new.items ≡ places.old.items ++ place_chain fabric.now x y) }
{
    for bit in 0..fabric.bits_at(x, y) {
        places.push(BitPlace { x, y, bit })?;
    }
    Ok(())
}
