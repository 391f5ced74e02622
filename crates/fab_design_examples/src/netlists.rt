//! A netlist as a line of text.

use crate::cases::{Case, Subject};
use crate::models::put_rows;
use crate::words::{headed, put_names, put_number};
use fab_base::{Fault, Memory, Name};
use fab_blif::{read_blif, read_wide};
use fab_netlist::{Cover, Latch, Netlist, WideNetlist};
use std::alloc::Global;

/// A netlist of more nets is shown by their number alone.
const MOST_NETS: usize = 64;

/// The netlist of each BLIF file is printed.
#[derive(Drop)]
pub struct Netlists;

impl Subject for Netlists {
    fn shown(&self, alloc: Global, case: &Case) -> Result<Vec<u8>, Fault> {
        let netlist = read_blif(alloc, &case.file, case.text)?;
        Ok(shown(alloc, &case.file, &netlist)?)
    }
}

/// The netlist of each BLIF file is printed, with covers of up to 16 inputs by their rows.
#[derive(Drop)]
pub struct WideNetlists;

impl Subject for WideNetlists {
    fn shown(&self, alloc: Global, case: &Case) -> Result<Vec<u8>, Fault> {
        let netlist = read_wide(alloc, &case.file, case.text)?;
        let mut out = headed(alloc, &case.file)?;
        put_wide(&mut out, &netlist)?;
        out.push(b'\n')?;
        Ok(out)
    }
}

fn put_nets(out: &mut Vec<u8>, nets: &[u32]) -> Result<(), Memory> {
    for net in nets {
        put_number(out, u128::from(*net))?;
    }
    Ok(())
}

fn put_edges(out: &mut Vec<u8>, inputs: &[u32], output: u32) -> Result<(), Memory> {
    out.extend_from_slice(b"; cover")?;
    put_nets(out, inputs)?;
    out.extend_from_slice(b" >")?;
    put_nets(out, &[output])
}

fn put_cover(out: &mut Vec<u8>, cover: &Cover) -> Result<(), Memory> {
    put_edges(out, &cover.inputs, cover.output)?;
    out.extend_from_slice(b" table")?;
    put_number(out, u128::from(cover.table))
}

fn put_latch(out: &mut Vec<u8>, latch: &Latch) -> Result<(), Memory> {
    out.extend_from_slice(b"; latch")?;
    put_nets(out, &[latch.input, latch.output])?;
    out.extend_from_slice(b" initial")?;
    put_number(out, u128::from(latch.init))
}

fn put_latches(out: &mut Vec<u8>, latches: &[Latch]) -> Result<(), Memory> {
    for latch in latches {
        put_latch(out, latch)?;
    }
    Ok(())
}

/// The names of nets, and those that are ports, by number.
fn put_ports(
    out: &mut Vec<u8>,
    nets: &[Name],
    inputs: &[u32],
    outputs: &[u32],
) -> Result<(), Memory> {
    put_names(out, nets)?;
    out.extend_from_slice(b"; in")?;
    put_nets(out, inputs)?;
    out.extend_from_slice(b"; out")?;
    put_nets(out, outputs)
}

fn put_whole(out: &mut Vec<u8>, netlist: &Netlist) -> Result<(), Memory> {
    put_ports(out, &netlist.nets, &netlist.inputs, &netlist.outputs)?;
    for cover in &netlist.covers {
        put_cover(out, cover)?;
    }
    put_latches(out, &netlist.latches)
}

fn put_wide(out: &mut Vec<u8>, netlist: &WideNetlist) -> Result<(), Memory> {
    put_ports(out, &netlist.nets, &netlist.inputs, &netlist.outputs)?;
    for cover in &netlist.covers {
        put_edges(out, &cover.inputs, cover.output)?;
        put_rows(out, cover.on, &cover.rows)?;
    }
    put_latches(out, &netlist.latches)
}

/// The names of the nets in their order, and the ports, covers and latches by the numbers of nets, from 0.
pub fn shown(alloc: Global, name: &Name, netlist: &Netlist) -> Result<Vec<u8>, Memory> {
    let mut out = headed(alloc, name)?;
    if netlist.nets.len() > MOST_NETS {
        put_number(&mut out, netlist.nets.len() as u128)?;
        out.extend_from_slice(b" nets")?;
    } else {
        put_whole(&mut out, netlist)?;
    }
    out.push(b'\n')?;
    Ok(out)
}
