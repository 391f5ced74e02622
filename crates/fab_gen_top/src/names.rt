//! The names that the generator makes in the top module.

ghost use Rattle.std.specs.Prelude.{◌≡◌, ◌++◌, IfOk, decimal};
ghost use Rattle.fab_fabric.specs.Names.{place_name};
ghost use Rattle.fab_text_loads_laws.specs.fab_fabric_text_defs_Names.{column_strobe_name, chain_wire_name, begin_wire_name, pad_port_name};
ghost use Rattle.fab_gen_loader.specs.Loader.{row_port};

use fab_base::{Memory, Name};
use fab_fabric::place_name as text_of_place;
use fab_gen_tile::{letter, push_border_name};
use fab_model::WireRow;
use itoa::Buffer;
use std::alloc::Global;

// A number behind a name.
fn numbered(alloc: Global, name: &[u8], number: u32) -> Result<Name, Memory>
    ensures { IfOk result (λ whole. whole ≡ name.now ++ decimal number) }
{
    let mut bytes = Vec::from_slice(alloc, name)?;
    bytes.extend_from_slice(Buffer::new().format(number).as_bytes())?;
    Ok(Name::from(bytes))
}

/// The frame data of a row of tiles.
pub fn row_name(alloc: Global, y: u32) -> Result<Name, Memory>
    ensures { IfOk result (λ name. name ≡ row_port y) }
{
    numbered(alloc, b"Row", y)
}

/// The frame strobes of a column of tiles.
pub fn column_strobe_name(alloc: Global, x: u32) -> Result<Name, Memory>
    ensures { IfOk result (λ name. name ≡ column_strobe_name x) }
{
    numbered(alloc, b"fab_strobe_", x)
}

/// The instance of the tile at a place.
pub fn place_name(alloc: Global, x: u32, y: u32) -> Result<Name, Memory>
    ensures { IfOk result (λ name. name ≡ place_name x y) }
{
    Ok(Name::from(text_of_place(alloc, x, y)?))
}

/// The wire behind the bits of the tile at a place in the chain.
pub fn chain_wire_name(alloc: Global, x: u32, y: u32) -> Result<Name, Memory>
    ensures { IfOk result (λ name. name ≡ chain_wire_name x y) }
{
    let mut bytes = text_of_place(alloc, x, y)?;
    bytes.extend_from_slice(b"_fab_chain")?;
    Ok(Name::from(bytes))
}

/// The wire of a border bit that goes out of a row of the tile at a place.
pub fn begin_wire_name(
    alloc: Global,
    x: u32,
    y: u32,
    row: &WireRow,
    bit: u64,
) -> Result<Name, Memory>
    ensures { IfOk result (λ name. name ≡ begin_wire_name x y row.now bit) }
{
    let mut bytes = text_of_place(alloc, x, y)?;
    bytes.extend_from_slice(b"_")?;
    push_border_name(&mut bytes, &row.source, bit)?;
    Ok(Name::from(bytes))
}

/// The port of a pad to the outside.
pub fn pad_port_name(alloc: Global, x: u32, y: u32, bel: usize, port: &[u8]) -> Result<Name, Memory>
    ensures { IfOk result (λ name. name ≡ pad_port_name x y bel port.now) }
{
    let mut bytes = text_of_place(alloc, x, y)?;
    bytes.extend_from_slice(b"_")?;
    bytes.push(letter(bel)?)?;
    bytes.extend_from_slice(b"_")?;
    bytes.extend_from_slice(port)?;
    Ok(Name::from(bytes))
}
