//! The configuration bits of a fabric.

ghost use Rattle.std.specs.Prelude.{◌≡◌, ◌<◌, ℕ, false, IfOk, length};
ghost use Rattle.fab_model.specs.Tiles.{tile_bits};
ghost use Rattle.fab_fabric.specs.Bits.{plain_bits, place_bits, column_bits, bits_at, AreBitsOf, HasBit, SetsBit, AreBlank};

use crate::fabric::Fabric;
use fab_base::Memory;
use std::alloc::Global;
use std::marker::Model;

/// One truth value for each configuration bit of each place of a fabric.
#[derive(Debug, Drop)]
pub struct Bits {
    // column by column, in a column from the top, and in a tile by number
    columns: Vec<Vec<Vec<bool>>>,
}

impl Model for Bits {
    ghost use Rattle.std.specs.Prelude.{Bool, List};
    ghost use Rattle.fab_fabric.specs.Bits.{bits_of_columns};

    ghost Value = { List (List (List Bool)) };

    ghost view = { λ bits. bits_of_columns bits.columns.items };
}

impl Bits {
    /// The bits of a fabric, all false.
    pub fn new(alloc: Global, fabric: &Fabric) -> Result<Bits, Memory>
        ensures of_fabric { IfOk result (AreBitsOf fabric.now) }
        ensures blank { IfOk result (λ bits. (x y bit : ℕ) → plain_bits bits x y bit ≡ false) }
    {
        let mut columns = Vec::new(alloc);
        for x in 0..fabric.columns() {
            columns.push(blank_column(alloc, fabric, x)?)?;
        }
        Ok(Bits { columns })
    }

    /// A bit of the tile at a place.
    pub fn get(&self, x: u32, y: u32, bit: u32) -> bool
        requires { HasBit self.now x y bit }
        ensures { result ≡ plain_bits self.now x y bit }
    {
        self.columns[x as usize][y as usize][bit as usize]
    }

    /// Sets a bit of the tile at a place.
    pub fn set(&mut self, x: u32, y: u32, bit: u32, value: bool)
        requires { HasBit self.old x y bit }
        ensures { SetsBit self.old self.new x y bit value }
    {
        self.columns[x as usize][y as usize][bit as usize] = value;
    }

    /// The bits of the tile at a place; none where there is no such place.
    pub fn tile(&self, x: u32, y: u32) -> &[bool]
        ensures { result.now ≡ place_bits self.now x y }
    {
        let Some(column) = self.columns.get(x as usize) else {
            return &[];
        };
        match column.get(y as usize) {
            Some(bits) => bits,
            None => &[],
        }
    }
}

// The bits of the tiles of a column, all false.
fn blank_column(alloc: Global, fabric: &Fabric, x: u32) -> Result<Vec<Vec<bool>>, Memory>
    requires { x < fabric.now.columns }
    ensures { IfOk result (λ column. AreBlank fabric.now x column.items) }
{
    let mut column = Vec::new(alloc);
    for y in 0..fabric.rows() {
        let bits = fabric.bits_at(x, y);
        column.push(vec![in alloc; false; bits as usize]?)?;
    }
    Ok(column)
}
