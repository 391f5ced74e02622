//! The table of a sample's fabric: its grid, and the blocks of its three tiles.

ghost use Rattle.std.specs.Prelude.{◌≡◌, ◌++◌, IfOk, OnOk, replicate};
ghost use Rattle.fab_sample.specs.Lines.{text};
ghost use Rattle.fab_sample.specs.Grid.{east_block, fabric_lines, grid_lines, grid_row, logic_block, west_block};

use crate::lines::{put, put_line, put_lines};
use fab_base::{Memory, Name};
use std::alloc::Global;

/// A row of the grid: pads in the west, pads in the east, and logic between them.
fn grid_row(alloc: Global, size: usize) -> Result<Name, Memory>
    ensures { IfOk result (λ row. row ≡ grid_row size) }
{
    let mut row = Vec::from_slice(alloc, b"SW")?;
    for _column in 0..size {
        put(&mut row, b",SLOG")?;
    }
    put(&mut row, b",SE")?;
    Ok(Name::from(row))
}

/// Adds so many rows that are alike.
fn put_rows(out: &mut Vec<u8>, count: usize, row: &[u8]) -> Result<(), Memory>
    ensures { OnOk result (out.new.items ≡ out.old.items ++ text (replicate count row.now)) }
{
    for _place in 0..count {
        put_line(out, row)?;
    }
    Ok(())
}

fn put_grid(out: &mut Vec<u8>, alloc: Global, size: usize) -> Result<(), Memory>
    ensures { OnOk result (out.new.items ≡ out.old.items ++ text (grid_lines size)) }
{
    let row = grid_row(alloc, size)?;
    put_line(out, b"FabricBegin")?;
    put_rows(out, size, row.bytes())?;
    put_line(out, b"FabricEnd")
}

/// The pads in the west.
fn put_west(out: &mut Vec<u8>) -> Result<(), Memory>
    ensures { OnOk result (out.new.items ≡ out.old.items ++ text west_block) }
{
    put_lines(
        out,
        &[
            b"TILE,SW",
            b"EAST,E1BEG,1,0,NULL,6",
            b"WEST,NULL,-1,0,W1END,6",
            b"JUMP,NULL,0,0,GND,1",
            b"JUMP,NULL,0,0,VCC,1",
            b"BEL,IO_1_bidirectional_frame_config_pass.v,A_",
            b"BEL,IO_1_bidirectional_frame_config_pass.v,B_",
            b"MATRIX,SW.list",
            b"EndTILE",
        ],
    )
}

/// The two look-up tables, and wires to all sides.
fn put_logic(out: &mut Vec<u8>) -> Result<(), Memory>
    ensures { OnOk result (out.new.items ≡ out.old.items ++ text logic_block) }
{
    put_lines(
        out,
        &[
            b"TILE,SLOG",
            b"NORTH,N1BEG,0,-1,N1END,6",
            b"EAST,E1BEG,1,0,E1END,6",
            b"SOUTH,S1BEG,0,1,S1END,6",
            b"WEST,W1BEG,-1,0,W1END,6",
            b"JUMP,NULL,0,0,GND,1",
            b"JUMP,NULL,0,0,VCC,1",
            b"BEL,LUT4c_frame_config.v,LA_",
            b"BEL,LUT4c_frame_config.v,LB_",
            b"MATRIX,SLOG.list",
            b"EndTILE",
        ],
    )
}

/// The pads in the east.
fn put_east(out: &mut Vec<u8>) -> Result<(), Memory>
    ensures { OnOk result (out.new.items ≡ out.old.items ++ text east_block) }
{
    put_lines(
        out,
        &[
            b"TILE,SE",
            b"WEST,W1BEG,-1,0,NULL,6",
            b"EAST,NULL,1,0,E1END,6",
            b"JUMP,NULL,0,0,GND,1",
            b"JUMP,NULL,0,0,VCC,1",
            b"BEL,IO_1_bidirectional_frame_config_pass.v,A_",
            b"BEL,IO_1_bidirectional_frame_config_pass.v,B_",
            b"MATRIX,SE.list",
            b"EndTILE",
        ],
    )
}

/// The table of the fabric of a size: its grid, and then its tiles.
pub fn print_fabric(alloc: Global, size: usize) -> Result<Name, Memory>
    ensures { IfOk result (λ table. table ≡ text (fabric_lines size)) }
{
    let mut out = Vec::new(alloc);
    put_grid(&mut out, alloc, size)?;
    put_west(&mut out)?;
    put_logic(&mut out)?;
    put_east(&mut out)?;
    Ok(Name::from(out))
}
