//! Ones of a value are added to the bits of a tile.

ghost use Rattle.std.specs.Prelude.{◌≡◌};
ghost use Rattle.fab_netlist.specs.WellMade.{table_bit};
ghost use Rattle.fab_fabric.specs.Bits.{AreBitsOf, plain_bits};
ghost use Rattle.fab_features.specs.inner.Adding.{Adds, FitsTile, IsOneOf};

use fab_fabric::{Bits, Fabric};

/// The bits of the tile at a place from `low` on, `width` in all, where a value has a 1. Its least bit is that of the bit `low`.
#[derive(Clone, Copy, Debug)]
pub struct Ones {
    pub x: u32,
    pub y: u32,
    pub low: u32,
    pub width: u32,
    pub value: u128,
}

// Whether the bit of this place is 1.
fn has_one(value: u128, place: u32) -> bool
    ensures { result ≡ table_bit value place }
{
    if place < 128 {
        value >> place & 1 == 1
    } else {
        false
    }
}

/// Sets the bits that are 1 in a value, and leaves all others.
pub fn set_ones(fabric: &Fabric, bits: &mut Bits, ones: Ones)
    requires are { AreBitsOf fabric.now bits.old }
    requires fits { FitsTile fabric.now ones }
    ensures are { AreBitsOf fabric.now bits.new }
    ensures adds { Adds (plain_bits bits.old) (plain_bits bits.new) (IsOneOf ones) }
{
    let all = fabric.bits_at(ones.x, ones.y);
    prove!(ones.low <= all && ones.width <= all - ones.low);
    for place in 0..ones.width {
        if has_one(ones.value, place) {
            bits.set(ones.x, ones.y, ones.low + place, true);
        }
    }
}
