//! What the netlist of a BLIF file is packed into.

use crate::cases::{Case, Subject};
use crate::netlists::shown;
use crate::words::{put_cell_name, put_names, put_net, put_number};
use fab_base::{Fault, Memory, Name, Place, Reason};
use fab_blif::flatten;
use fab_blif_models::read_models;
use fab_lines::{capped_number, last_line};
use fab_netlist::{Cell, NetId, Netlist, Packed, kept, pack};
use fab_wide::split;
use std::alloc::Global;

/// The netlist of each BLIF file is printed, also one with a cycle of covers, its wide covers split, with how many covers are
/// kept. Then comes what
/// it is packed into, or the report that there are too few sites. The numbers of LUT4c sites and of pads stand behind the
/// name of the case.
#[derive(Drop)]
pub struct Packing;

impl Subject for Packing {
    fn shown(&self, alloc: Global, case: &Case) -> Result<Vec<u8>, Fault> {
        let Some((luts, pads)) = sites(case.words) else {
            let file = case.file.copy(alloc)?;
            return Err(Fault::Malformed(Place { file, line: 1 }, Reason::Number));
        };
        let models = read_models(alloc, &case.file, case.text, 16)?;
        let last = last_line(case.text);
        let netlist = split(
            alloc,
            &case.file,
            last,
            &flatten(alloc, &case.file, last, &models)?,
        )?;
        let mut out = shown(alloc, &case.file, &netlist)?;
        put_kept(&mut out, &case.file, &netlist)?;
        match pack(alloc, &netlist, luts, pads) {
            Ok(packed) => put_packed(&mut out, &case.file, &packed)?,
            Err(fault) => out.extend_from_slice(fault.text(alloc)?.bytes())?,
        }
        Ok(out)
    }
}

fn number(word: &[u8]) -> Option<u32> {
    u32::try_from(capped_number(word)?).ok()
}

/// The two numbers of which the words consist.
fn sites(words: &[u8]) -> Option<(u32, u32)> {
    let mut words = words.split(|byte| *byte == b' ');
    let luts = number(words.next()?)?;
    let pads = number(words.next()?)?;
    Some((luts, pads))
}

fn put_kept(out: &mut Vec<u8>, file: &Name, netlist: &Netlist) -> Result<(), Memory> {
    out.extend_from_slice(file.bytes())?;
    out.extend_from_slice(b" keeps")?;
    put_number(out, u128::from(kept(netlist)))?;
    out.push(b'\n')?;
    Ok(())
}

fn put_cell(out: &mut Vec<u8>, packed: &Packed, place: usize, cell: &Cell) -> Result<(), Memory> {
    out.extend_from_slice(b"; ")?;
    put_cell_name(out, place as u64)?;
    out.extend_from_slice(b" table")?;
    put_number(out, u128::from(cell.table))?;
    for net in &cell.inputs {
        out.push(b' ')?;
        put_net(out, &packed.inputs, *net)?;
    }
    if let Some(initial) = cell.latch {
        out.extend_from_slice(b" latch initial")?;
        put_number(out, u128::from(initial))?;
    }
    Ok(())
}

fn put_output(out: &mut Vec<u8>, packed: &Packed, name: &Name, net: NetId) -> Result<(), Memory> {
    out.extend_from_slice(b"; out ")?;
    out.extend_from_slice(name.bytes())?;
    out.extend_from_slice(b" < ")?;
    put_net(out, &packed.inputs, net)
}

/// The names of the input ports, the cells with the nets that they read, and the output ports with those that they show.
fn put_packed(out: &mut Vec<u8>, file: &Name, packed: &Packed) -> Result<(), Memory> {
    out.extend_from_slice(file.bytes())?;
    out.extend_from_slice(b" packed: in")?;
    put_names(out, &packed.inputs)?;
    for (place, cell) in packed.cells.iter().enumerate() {
        put_cell(out, packed, place, cell)?;
    }
    for (name, net) in &packed.outputs {
        put_output(out, packed, name, *net)?;
    }
    out.push(b'\n')?;
    Ok(())
}
