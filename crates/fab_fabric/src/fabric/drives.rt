//! What drives each wire of a fabric.

ghost use Rattle.std.specs.Prelude.{◌≡◌, ◌<◌, ◌≤◌, ◌+◌, ℕ, Bool, false, Some, length, slice_index, slice_index_or};
ghost use Rattle.fab_model.specs.fab_bits.specs.Bits.{number, first_bits};
ghost use Rattle.fab_model.specs.Grid.{PlainFabric, tile_at};
ghost use Rattle.fab_model.specs.Tiles.{PlainTile};
ghost use Rattle.fab_model.specs.Wires.{PlainWire, HasWire, dest_of, pin_of};
ghost use Rattle.fab_model.specs.Drive.{drive, matrix_drive, constant};
ghost use Rattle.fab_fabric.specs.Fabric.{wire_count};
ghost use Rattle.fab_fabric.specs.Wires.{IsIndexOf, wire_index};
ghost use Rattle.fab_fabric.specs.Bits.{plain_bits};
ghost use Rattle.fab_fabric.specs.Drive.{numbered_drive, CopiesWithin};

use super::Fabric;
use super::joins::RowAt;
use crate::bits::Bits;
use crate::index::TileWire;
use crate::wire::{Drive, Site, Wire};
use fab_base::Name;
use fab_model::Dir;

impl Fabric {
    /// What drives a wire under configuration bits. Bits that the fabric has and that are not given are false.
    pub fn drive_of(&self, wire: Wire, bits: &Bits) -> Drive
        requires { wire.0 < wire_count self.now }
        ensures drive { (x y : ℕ) (plain : PlainWire) → IsIndexOf self.now wire.0 x y plain →
            result ≡ numbered_drive self.now (drive self.now (plain_bits bits.now) x y plain) }
        ensures within { CopiesWithin self.now result }
    {
        let (x, y, number) = self.spot(wire);
        match self.tile_wire(x, y, number) {
            TileWire::Source(_, _) => self.matrix_drive(x, y, number, bits),
            TileWire::Dest(row, bit) => self.dest_drive(RowAt { x, y, row }, bit),
            TileWire::Pin(bel, pin) => self.pin_drive(x, y, number, bel, pin, bits),
        }
    }

    // What drives a pin: the switch matrix if it is an input, else its BEL.
    fn pin_drive(&self, x: u32, y: u32, number: u32, bel: usize, pin: u32, bits: &Bits) -> Drive
        requires { IsIndexOf self.now (wire_index self.now x y number) x y (pin_of bel pin) }
        ensures drive { result ≡ numbered_drive self.now (drive self.now (plain_bits bits.now) x y (pin_of bel pin)) }
        ensures within { CopiesWithin self.now result }
    {
        let Some((tile, _)) = self.tile_at(x, y) else {
            return Drive::Zero;
        };
        let kind = tile.bels()[bel].kind;
        if pin < kind.inputs() {
            return self.matrix_drive(x, y, number, bits);
        }
        let site = Site {
            x,
            y,
            bel: bel as u32,
        };
        Drive::Pin(site, pin)
    }

    // What drives a matrix output: the input that its select bits pick.
    fn matrix_drive(&self, x: u32, y: u32, output: u32, bits: &Bits) -> Drive
        ensures drive { (tile : PlainTile) → tile_at self.now x y ≡ Some tile →
            result ≡ numbered_drive self.now (matrix_drive (plain_bits bits.now x y) x y tile output) }
        ensures within { CopiesWithin self.now result }
    {
        let Some((tile, index)) = self.tile_at(x, y) else {
            return Drive::Zero;
        };
        let inputs = index.inputs_of(output);
        if inputs.is_empty() {
            return Drive::Zero;
        }
        let (low, width) = tile.field(output);
        let value = select_value(bits.tile(x, y), low, width);
        Drive::Copy(self.wire_at(x, y, picked(inputs, value)))
    }

    // What drives a destination bit: the source bit that is joined to it, if it is no constant.
    fn dest_drive(&self, there: RowAt, bit: u64) -> Drive
        requires { HasWire self.now there.x there.y (dest_of there.row bit) }
        ensures drive { (bits : ℕ → ℕ → ℕ → Bool) → result ≡ numbered_drive self.now (drive self.now bits there.x there.y (dest_of there.row bit)) }
        ensures within { CopiesWithin self.now result }
    {
        let row = self.row(there);
        if row.dir == Dir::Jump && row.source.is_none() {
            return constant(&row.dest);
        }
        match self.row_join_from(there, bit) {
            Some((from, source)) => Drive::Copy(self.source_wire(from, source)),
            None => Drive::Zero,
        }
    }
}

// The value of a jump without a source, by the name of its destination.
fn constant(dest: &Option<Name>) -> Drive
    ensures drive { (fabric : PlainFabric) → result ≡ numbered_drive fabric (constant dest.now) }
    ensures within { (fabric : PlainFabric) → CopiesWithin fabric result }
{
    match dest {
        Some(name) if name.bytes() == b"VCC".as_slice() => Drive::One,
        _ => Drive::Zero,
    }
}

// The input of a number, and the first one where there are fewer.
fn picked(inputs: &[u32], value: u64) -> u32
    requires { 0 < length inputs.now }
    ensures early { value < length inputs.now → result ≡ slice_index inputs.now value }
    ensures late { length inputs.now ≤ value → result ≡ slice_index inputs.now 0 }
{
    if value < inputs.len() as u64 {
        inputs[value as usize]
    } else {
        inputs[0]
    }
}

// The number that so many bits from one on stand for, the first the least significant.
fn select_value(bits: &[bool], low: u32, width: u32) -> u64
    requires { width ≤ 64 }
    ensures { result ≡ number (first_bits width (λ place. slice_index_or bits.now (low + place) false)) }
{
    let mut value = 0;
    for taken in 0..width {
        let place = width - 1 - taken;
        value = 2 * value + u64::from(bit_at(bits, low as usize + place as usize));
    }
    value
}

// A bit of a list, false past its end.
fn bit_at(bits: &[bool], place: usize) -> bool
    ensures { result ≡ slice_index_or bits.now place false }
{
    bits.get(place).copied().unwrap_or(false)
}
