//! What is asked of the wires of a fabric.

use crate::shown::{number_of, numbers_of, put_number, put_some};
use fab_base::{Fault, Memory};
use fab_examples::Stop;
use fab_fabric::{Bits, Drive, Fabric, Wire};
use std::alloc::Global;

/// Puts the number of a wire.
fn put_found(out: &mut Vec<u8>, wire: Option<Wire>) -> Result<(), Memory> {
    put_some(out, wire.map(|wire| u64::from(wire.0)))
}

/// Puts what drives a wire: a wire by its number, or a pin by its site and its number.
fn put_drive(alloc: Global, out: &mut Vec<u8>, drive: Drive) -> Result<(), Memory> {
    match drive {
        Drive::Zero => out.extend_from_slice(b"zero")?,
        Drive::One => out.extend_from_slice(b"one")?,
        Drive::Copy(wire) => put_number(out, u64::from(wire.0))?,
        Drive::Pin(site, pin) => {
            let text = format!(in alloc; "X{}Y{}.{}/{pin}", site.x, site.y, site.bel)?;
            out.extend_from_slice(text.as_bytes())?;
        }
    }
    Ok(())
}

/// Puts what is asked of a wire by its number.
fn put_wire(
    alloc: Global,
    out: &mut Vec<u8>,
    fabric: &Fabric,
    bits: &Bits,
    verb: &[u8],
    number: u32,
) -> Result<(), Stop> {
    if number >= fabric.wires() {
        return Err(Stop::Fault(Fault::Usage));
    }
    let wire = Wire(number);
    match verb {
        b"name" => out.extend_from_slice(fabric.wire_name(alloc, wire)?.bytes())?,
        b"to" => put_found(out, fabric.join_to(wire))?,
        b"from" => put_found(out, fabric.join_from(wire))?,
        b"drive" => put_drive(alloc, out, fabric.drive_of(wire, bits))?,
        _ => return Err(Stop::Fault(Fault::Usage)),
    }
    Ok(())
}

/// Puts what is asked of each of these wires.
fn put_each(
    alloc: Global,
    out: &mut Vec<u8>,
    fabric: &Fabric,
    bits: &Bits,
    verb: &[u8],
    numbers: &[u32],
) -> Result<(), Stop> {
    for number in numbers {
        out.push(b' ')?;
        put_wire(alloc, out, fabric, bits, verb, *number)?;
    }
    Ok(())
}

/// Puts the number of the wire of a matrix name in the tile of a column and a row.
fn put_number_of(out: &mut Vec<u8>, fabric: &Fabric, words: &[&[u8]]) -> Result<(), Stop> {
    let [x, y, name] = words else {
        return Err(Stop::Fault(Fault::Usage));
    };
    out.push(b' ')?;
    put_found(out, fabric.wire_of(number_of(x)?, number_of(y)?, name))?;
    Ok(())
}

/// Puts how many wires there are, the number of a wire, or what is asked of wires by their numbers.
pub fn put_wires(
    alloc: Global,
    out: &mut Vec<u8>,
    fabric: &Fabric,
    bits: &Bits,
    verb: &[u8],
    words: &[&[u8]],
) -> Result<(), Stop> {
    match verb {
        b"wires" => {
            out.push(b' ')?;
            Ok(put_number(out, u64::from(fabric.wires()))?)
        }
        b"wire" => put_number_of(out, fabric, words),
        _ => put_each(alloc, out, fabric, bits, verb, &numbers_of(alloc, words)?),
    }
}
