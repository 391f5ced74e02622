//! Words of the lines that are printed.

use fab_base::{Memory, Name};
use fab_netlist::NetId;
use itoa::Buffer;
use std::alloc::Global;

/// A blank and a number.
pub fn put_number(out: &mut Vec<u8>, number: u128) -> Result<(), Memory> {
    out.push(b' ')?;
    out.extend_from_slice(Buffer::new().format(number).as_bytes())?;
    Ok(())
}

/// A blank and a word.
pub fn put_word(out: &mut Vec<u8>, word: &[u8]) -> Result<(), Memory> {
    out.push(b' ')?;
    out.extend_from_slice(word)?;
    Ok(())
}

/// The names, each after a blank.
pub fn put_names(out: &mut Vec<u8>, names: &[Name]) -> Result<(), Memory> {
    for name in names {
        put_word(out, name.bytes())?;
    }
    Ok(())
}

/// A name and a colon, with which lines begin.
pub fn headed(alloc: Global, name: &Name) -> Result<Vec<u8>, Memory> {
    let mut out = Vec::from_slice(alloc, name.bytes())?;
    out.push(b':')?;
    Ok(out)
}

/// A cell of a packed design by its number.
pub fn put_cell_name(out: &mut Vec<u8>, number: u64) -> Result<(), Memory> {
    out.extend_from_slice(b"cell c")?;
    out.extend_from_slice(Buffer::new().format(number).as_bytes())?;
    Ok(())
}

/// A net of a packed design, whose input ports have these names.
pub fn put_net(out: &mut Vec<u8>, inputs: &[Name], net: NetId) -> Result<(), Memory> {
    match net {
        NetId::Zero => out.extend_from_slice(b"zero")?,
        NetId::One => out.extend_from_slice(b"one")?,
        NetId::In(number) => {
            out.extend_from_slice(b"in")?;
            if let Some(port) = inputs.get(number as usize) {
                put_word(out, port.bytes())?;
            }
        }
        NetId::Cell(number) => put_cell_name(out, u64::from(number))?,
    }
    Ok(())
}
