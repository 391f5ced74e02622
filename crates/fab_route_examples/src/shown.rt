//! Wires, sites and nets as words.

use fab_base::Memory;
use fab_fabric::{Fabric, Site, Wire};
use fab_netlist::NetId;
use std::alloc::Global;

/// Puts text.
pub fn put_text(out: &mut Vec<u8>, text: &str) -> Result<(), Memory> {
    out.extend_from_slice(text.as_bytes())?;
    Ok(())
}

/// Puts the name of a wire behind a blank.
pub fn put_wire(
    alloc: Global,
    out: &mut Vec<u8>,
    fabric: &Fabric,
    wire: Wire,
) -> Result<(), Memory> {
    if wire.0 < fabric.wires() {
        out.push(b' ')?;
        out.extend_from_slice(fabric.wire_name(alloc, wire)?.bytes())?;
    }
    Ok(())
}

/// Puts a site by its column, its row and the number of its BEL, and ends the line.
pub fn put_site(alloc: Global, out: &mut Vec<u8>, site: Site) -> Result<(), Memory> {
    let text = format!(in alloc; " X{}Y{}.{}\n", site.x, site.y, site.bel)?;
    put_text(out, text.as_str())
}

/// Puts a net behind a blank, that of an input and of a cell by its number.
pub fn put_net(alloc: Global, out: &mut Vec<u8>, net: NetId) -> Result<(), Memory> {
    match net {
        NetId::Zero => put_text(out, " zero"),
        NetId::One => put_text(out, " one"),
        NetId::In(number) => put_text(out, format!(in alloc; " in {number}")?.as_str()),
        NetId::Cell(number) => put_text(out, format!(in alloc; " cell {number}")?.as_str()),
    }
}
