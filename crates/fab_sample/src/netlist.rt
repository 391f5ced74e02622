//! The design of a sample as a netlist in BLIF.

ghost use Rattle.std.specs.Prelude.{◌≡◌, ◌<◌, ◌≤◌, ◌+◌, ◌*◌, ◌++◌, [], ◌∷◌, IfOk, OnOk, map};
ghost use Rattle.std.specs.List.{flat_map, range_with_len};
ghost use Rattle.fab_sample.specs.Lines.{text};
ghost use Rattle.fab_sample.specs.Netlists.{all_cover_lines, all_latch_lines, bit_of, cover_lines, latch_line, names, netlist_lines, on_row, on_rows, output_lines, port_lines, row_if_on, shown_lines};

use crate::design::{Cover, Latch, cover_count};
use crate::lines::{put, put_line};
use crate::net::{Net, inputs, outputs, put_names};
use crate::stimulus::digit;
use fab_base::{Memory, Name};
use std::alloc::Global;

/// Bit `place` of a number.
fn bit_of(number: u8, place: u8) -> bool
    requires { place < 8 }
    ensures { result ≡ bit_of number place }
{
    (number >> place) % 2 == 1
}

/// Adds the row in which three inputs spell a number.
fn put_on_row(out: &mut Vec<u8>, spelled: u8) -> Result<(), Memory>
    ensures { OnOk result (out.new.items ≡ out.old.items ++ text (on_row spelled ∷ [])) }
{
    out.push(digit(bit_of(spelled, 0)))?;
    out.push(digit(bit_of(spelled, 1)))?;
    out.push(digit(bit_of(spelled, 2)))?;
    put_line(out, b" 1")
}

/// Adds that row, where a table is 1 at it.
fn put_row_if_on(out: &mut Vec<u8>, table: u8, spelled: u8) -> Result<(), Memory>
    requires { spelled < 8 }
    ensures { OnOk result (out.new.items ≡ out.old.items ++ text (row_if_on table spelled)) }
{
    if bit_of(table, spelled) {
        put_on_row(out, spelled)
    } else {
        Ok(())
    }
}

/// Adds the rows at which a table is 1.
fn put_on_rows(out: &mut Vec<u8>, table: u8) -> Result<(), Memory>
    ensures { OnOk result (out.new.items ≡ out.old.items ++ text (on_rows table)) }
{
    for spelled in 0..8 {
        put_row_if_on(out, table, spelled)?;
    }
    Ok(())
}

/// Adds a line of a head and the names of nets.
fn put_net_line(out: &mut Vec<u8>, head: &[u8], nets: &[Net]) -> Result<(), Memory>
    ensures { OnOk result (out.new.items ≡ out.old.items ++ text ((head.now ++ names nets.now) ∷ [])) }
{
    put(out, head)?;
    put_names(out, nets)?;
    put(out, b"\n")
}

/// Adds the cover of a number.
fn put_cover(out: &mut Vec<u8>, number: usize, cover: &Cover) -> Result<(), Memory>
    ensures { OnOk result (out.new.items ≡ out.old.items ++ text (cover_lines number cover.now)) }
{
    put_net_line(
        out,
        b".names ",
        &[cover.first, cover.second, cover.third, Net::Cover(number)],
    )?;
    put_on_rows(out, cover.table)
}

fn put_covers(out: &mut Vec<u8>, covers: &[Cover]) -> Result<(), Memory>
    ensures { OnOk result (out.new.items ≡ out.old.items ++ text (all_cover_lines covers.now)) }
{
    for (number, cover) in covers.iter().enumerate() {
        put_cover(out, number, cover)?;
    }
    Ok(())
}

/// Adds the latch of a number.
fn put_latch(out: &mut Vec<u8>, number: usize, latch: &Latch) -> Result<(), Memory>
    ensures { OnOk result (out.new.items ≡ out.old.items ++ text (latch_line number latch.now ∷ [])) }
{
    put(out, b".latch ")?;
    put_names(out, &[Net::Cover(latch.cover), Net::Latch(number)])?;
    put(out, b" ")?;
    put_line(out, &[digit(latch.initial)])
}

fn put_latches(out: &mut Vec<u8>, latches: &[Latch]) -> Result<(), Memory>
    ensures { OnOk result (out.new.items ≡ out.old.items ++ text (all_latch_lines latches.now)) }
{
    for (number, latch) in latches.iter().enumerate() {
        put_latch(out, number, latch)?;
    }
    Ok(())
}

/// Adds the buffer of an output port.
fn put_output(out: &mut Vec<u8>, cover: usize, number: usize) -> Result<(), Memory>
    ensures { OnOk result (out.new.items ≡ out.old.items ++ text (output_lines cover number)) }
{
    put_net_line(out, b".names ", &[Net::Cover(cover), Net::Output(number)])?;
    put_line(out, b"1 1")
}

/// Adds the buffers of output ports, which show as many covers in a row.
fn put_outputs(out: &mut Vec<u8>, first: usize, count: usize) -> Result<(), Memory>
    requires first { first ≤ 256 }
    requires count { count ≤ 16 }
    ensures { OnOk result (out.new.items ≡ out.old.items ++ text (flat_map (shown_lines first) (range_with_len 0 count))) }
{
    for number in 0..count {
        put_output(out, first + number, number)?;
    }
    Ok(())
}

/// Adds the head of the netlist, with its ports.
fn put_ports(out: &mut Vec<u8>, alloc: Global, size: usize) -> Result<(), Memory>
    ensures { OnOk result (out.new.items ≡ out.old.items ++ text (port_lines size)) }
{
    let inputs = inputs(alloc, size)?;
    let outputs = outputs(alloc, size)?;
    put_line(out, b".model sample")?;
    put_net_line(out, b".inputs ", &inputs)?;
    put_net_line(out, b".outputs ", &outputs)
}

/// The netlist of a design: its ports, covers and latches, and the buffers of its outputs.
pub fn print_netlist(
    alloc: Global,
    size: usize,
    covers: &[Cover],
    latches: &[Latch],
) -> Result<Name, Memory>
    requires { size ≤ 16 }
    ensures { IfOk result (λ netlist. netlist ≡ text (netlist_lines size covers.now latches.now)) }
{
    let first = cover_count(size) - size;
    let mut out = Vec::new(alloc);
    put_ports(&mut out, alloc, size)?;
    put_covers(&mut out, covers)?;
    put_latches(&mut out, latches)?;
    put_outputs(&mut out, first, size)?;
    put_line(&mut out, b".end")?;
    Ok(Name::from(out))
}
