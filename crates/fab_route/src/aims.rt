//! Where bounds aim: at the tiles of sinks, by tables for sinks of a kind.

ghost use Rattle.std.specs.Prelude.{◌<◌, ◌^◌, IfOk};
ghost use Rattle.fab_fabric.specs.Fabric.{wire_count};
ghost use Rattle.fab_route.specs.inner.Guided.{AreAims, IsAim};

use fab_base::Memory;
use fab_fabric::{Fabric, Wire};
use fab_kinds::Kind;
use fab_model::TileType;
use std::alloc::Global;

// The table of a sink: that of the data pins of LUTs, of their other pins, or of pads.
const DATA: usize = 0;

const CONTROL: usize = 1;

const PAD: usize = 2;

// The pins of a LUT4c from this one on are no data pins.
const LUT_CONTROLS: u32 = 5;

/// For each wire where a bound to it aims, if it is a sink.
pub(crate) fn aims_of(
    alloc: Global,
    fabric: &Fabric,
    sinks: &Vec<Vec<Wire>>,
    size: usize,
) -> Result<Vec<usize>, Memory>
    requires { size < 2 ^ 50 }
    ensures { IfOk result (λ aims. AreAims fabric.now size aims.items) }
{
    fabric.is_well_made();
    let mut aims = vec![in alloc; 0; fabric.wires() as usize]?;
    for group in 0..sinks.len() {
        put_aims(&mut aims, fabric, &sinks[group], size);
    }
    Ok(aims)
}

fn put_aims(aims: &mut Vec<usize>, fabric: &Fabric, sinks: &[Wire], size: usize)
    requires size { size < 2 ^ 50 }
    requires aims { AreAims fabric.now size aims.old.items }
    ensures { AreAims fabric.now size aims.new.items }
{
    for sink in sinks {
        put_aim(aims, fabric, *sink, size);
    }
}

fn put_aim(aims: &mut Vec<usize>, fabric: &Fabric, sink: Wire, size: usize)
    requires size { size < 2 ^ 50 }
    requires aims { AreAims fabric.now size aims.old.items }
    ensures { AreAims fabric.now size aims.new.items }
{
    if sink.0 >= fabric.wires() || sink.0 as usize >= aims.len() {
        return;
    }
    aims[sink.0 as usize] = aim_at(fabric, sink, size);
}

fn aim_at(fabric: &Fabric, sink: Wire, size: usize) -> usize
    requires size { size < 2 ^ 50 }
    requires sink { sink.0 < wire_count fabric.now }
    ensures { IsAim fabric.now size result }
{
    let types = fabric.types();
    let (column, row, number) = fabric.spot(sink);
    let table = match fabric.type_at(column, row) {
        Some(place) => table_of(&types[place as usize], number),
        None => DATA,
    };
    table * size + column as usize * 64 + row as usize
}

// The table for a pin, by its matrix name number.
fn table_of(tile: &TileType, number: u32) -> usize
    ensures { result < 3 }
{
    let mut end = tile.matrix_names();
    for bel in tile.bels().iter().rev() {
        let first = end.saturating_sub(bel.kind.inputs() + bel.kind.outputs());
        if number >= first {
            return table_of_pin(bel.kind, number - first);
        }
        end = first;
    }
    DATA
}

fn table_of_pin(kind: Kind, pin: u32) -> usize
    ensures { result < 3 }
{
    match kind {
        Kind::Io => PAD,
        _ if pin < LUT_CONTROLS => DATA,
        _ => CONTROL,
    }
}
