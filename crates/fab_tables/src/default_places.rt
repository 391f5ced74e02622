//! The configuration table of a tile that has none of its own.

ghost use Rattle.std.specs.Prelude.{◌≡◌, ◌≤◌, ◌<◌, ℕ, IfOk, length, slice_index_or};
ghost use Rattle.fab_tables.specs.Frames.{default_place};

use fab_base::Memory;
use fab_model::FrameTable;
use std::alloc::Global;

/// The most configuration bits of a tile: 20 frames of 32 bits.
pub const MAX_BITS: u32 = 640;

/// The places of so many configuration bits where no table gives them: frames are filled from 0, each from bit 31 down, with
/// the bits from the highest down.
pub fn default_table(alloc: Global, bits: u32) -> Result<FrameTable, Memory>
    requires { bits ≤ MAX_BITS }
    ensures many { IfOk result (λ table. length table ≡ bits) }
    ensures places { IfOk result (λ table. (bit : ℕ) → bit < bits → slice_index_or table bit (0, 0) ≡ default_place bits bit) }
{
    let mut places: Vec<(u8, u8)> = Vec::new(alloc);
    for bit in 0..bits {
        let place = bits - 1 - bit;
        places.push(((place / 32) as u8, (31 - place % 32) as u8))?;
    }
    Ok(FrameTable::from(places))
}
