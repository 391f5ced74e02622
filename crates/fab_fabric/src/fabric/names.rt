//! How wires and sites are written.

ghost use Rattle.std.specs.Prelude.{◌≡◌, ◌<◌, ◌++◌, ℕ, IfOk, OnOk};
ghost use Rattle.fab_fabric.specs.Fabric.{wires_at, wire_count};
ghost use Rattle.fab_fabric.specs.Wires.{wire_index};
ghost use Rattle.fab_fabric.specs.Names.{place_name, full_name, site_name, name_at};

use super::Fabric;
use crate::wire::{Site, Wire};
use fab_base::{Memory, Name};
use itoa::Buffer;
use std::alloc::Global;

impl Fabric {
    /// The name of a wire: its place and its matrix name, as `X1Y2/N1BEG0`.
    pub fn wire_name(&self, alloc: Global, wire: Wire) -> Result<Name, Memory>
        requires { wire.0 < wire_count self.now }
        ensures { IfOk result (λ name. (x y number : ℕ) → number < wires_at self.now x y → wire.0 ≡ wire_index self.now x y number →
            name ≡ full_name x y (name_at self.now x y number)) }
    {
        let (x, y, number) = self.spot(wire);
        let name = self.name_in(alloc, x, y, number)?;
        let mut text = place_name(alloc, x, y)?;
        text.push(b'/')?;
        text.extend_from_slice(name.bytes())?;
        Ok(Name::from(text))
    }

    // The matrix name of a number in the tile at a place.
    fn name_in(&self, alloc: Global, x: u32, y: u32, number: u32) -> Result<Name, Memory>
        requires { number < wires_at self.now x y }
        ensures { IfOk result (λ name. name ≡ name_at self.now x y number) }
    {
        match self.tile_at(x, y) {
            Some((tile, _)) => tile.matrix_name(alloc, number),
            None => unreachable!(),
        }
    }
}

impl Site {
    /// Its name: its place and a letter, as `X1Y2.A` for the first BEL.
    pub fn name(&self, alloc: Global) -> Result<Name, Memory>
        requires { self.now.bel < 26 }
        ensures { IfOk result (λ name. name ≡ site_name self.now.x self.now.y self.now.bel) }
    {
        let mut text = place_name(alloc, self.x, self.y)?;
        text.push(b'.')?;
        text.push(b'A' + self.bel as u8)?;
        Ok(Name::from(text))
    }
}

/// How a place is written, as `X1Y2`.
pub fn place_name(alloc: Global, x: u32, y: u32) -> Result<Vec<u8>, Memory>
    ensures { IfOk result (λ text. text.items ≡ place_name x y) }
{
    let mut text = Vec::new(alloc);
    text.push(b'X')?;
    text.extend_from_slice(Buffer::new().format(x).as_bytes())?;
    text.push(b'Y')?;
    text.extend_from_slice(Buffer::new().format(y).as_bytes())?;
    Ok(text)
}
