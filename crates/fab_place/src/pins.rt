//! The pins of a packed design.
ghost use Rattle.std.specs.Prelude.{◌≡◌, ◌≤◌, ◌+◌, ◌<◌, ◌++◌, IfOk, OnOk, All, length};
ghost use Rattle.std.specs.List.{flat_map};
ghost use Rattle.fab_netlist.specs.Packed.{PlainCell};
ghost use Rattle.fab_ways_laws.specs.fab_legal_WellMade.{IsWellMadePacked};
ghost use Rattle.fab_ways_laws.specs.fab_legal_Sinks.{reset_id};
ghost use Rattle.fab_place.specs.Pins.{IsNear, pin_on, input_pins, cell_pins, reading_pins, reset_pins, output_pins, pins};
ghost use Rattle.fab_netlist.specs.WellMade.{most_nets};

use crate::nets::Pin;
use fab_base::{Memory, Name};
use fab_netlist::{Cell, NetId, Packed};
use std::alloc::Global;

/// The pins of all items.
#[tactic(auto, using(crate::proofs::Inside::near_readings, crate::proofs::Inside::near_reset, crate::proofs::Inside::near_outputs))]
pub fn pins_of(alloc: Global, packed: &Packed) -> Result<Vec<Pin>, Memory>
    requires { IsWellMadePacked packed.now }
    ensures { IfOk result (λ made. made.items ≡ pins packed.now) }
{
    let inputs = packed.inputs.len() as u32;
    let cells = packed.cells.len() as u32;
    let mut made = Vec::new(alloc);
    put_inputs(&mut made, inputs, cells)?;
    put_cells(&mut made, inputs, cells)?;
    put_readings(&mut made, inputs, &packed.cells)?;
    put_resets(&mut made, inputs, reset_net(packed.reset), &packed.cells)?;
    put_outputs(&mut made, inputs, cells + inputs, &packed.outputs)?;
    Ok(made)
}

/// The net that resets latches: that of the reset port, and that of zeros without one.
pub fn reset_net(reset: Option<u32>) -> NetId
    ensures { result ≡ reset_id reset }
{
    match reset {
        Some(place) => NetId::In(place),
        None => NetId::Zero,
    }
}

/// Adds the pins by which input ports drive their nets.
fn put_inputs(made: &mut Vec<Pin>, inputs: u32, cells: u32) -> Result<(), Memory>
    requires inputs { inputs ≤ most_nets }
    requires cells { cells ≤ most_nets }
    ensures { OnOk result (made.new.items ≡ made.old.items ++ input_pins inputs cells) }
{
    for net in 0..inputs {
        let item = cells + net;
        made.push(Pin { net, item })?;
    }
    Ok(())
}

/// Adds the pins by which cells drive their nets.
fn put_cells(made: &mut Vec<Pin>, inputs: u32, cells: u32) -> Result<(), Memory>
    requires inputs { inputs ≤ most_nets }
    requires cells { cells ≤ most_nets }
    ensures { OnOk result (made.new.items ≡ made.old.items ++ cell_pins inputs cells) }
{
    for item in 0..cells {
        let net = inputs + item;
        made.push(Pin { net, item })?;
    }
    Ok(())
}

/// Adds the pin of an item on a net.
fn put_pin(made: &mut Vec<Pin>, inputs: u32, item: u32, net: NetId) -> Result<(), Memory>
    requires inputs { inputs ≤ most_nets }
    requires net { IsNear net }
    ensures { OnOk result (made.new.items ≡ made.old.items ++ pin_on inputs item net) }
{
    match net {
        NetId::Zero | NetId::One => {}
        NetId::In(number) => made.push(Pin { net: number, item })?,
        NetId::Cell(number) => {
            let net = inputs + number;
            made.push(Pin { net, item })?;
        }
    }
    Ok(())
}

/// Adds the pins of an item on nets.
fn put_pins(made: &mut Vec<Pin>, inputs: u32, item: u32, nets: &[NetId]) -> Result<(), Memory>
    requires inputs { inputs ≤ most_nets }
    requires nets { All IsNear nets.now }
    ensures { OnOk result (made.new.items ≡ made.old.items ++ flat_map (pin_on inputs item) nets.now) }
{
    for net in nets {
        put_pin(made, inputs, item, *net)?;
    }
    Ok(())
}

/// Adds the pins by which cells read nets.
fn put_readings(made: &mut Vec<Pin>, inputs: u32, cells: &[Cell]) -> Result<(), Memory>
    requires inputs { inputs ≤ most_nets }
    requires cells { length cells.now ≤ most_nets }
    requires nets { All (λ (cell : PlainCell). All IsNear cell.inputs) cells.now }
    ensures { OnOk result (made.new.items ≡ made.old.items ++ reading_pins inputs cells.now) }
{
    for (item, cell) in cells.iter().enumerate() {
        put_pins(made, inputs, item as u32, &cell.inputs)?;
    }
    Ok(())
}

/// Adds the pins by which cells with a latch read the net that resets latches.
fn put_resets(made: &mut Vec<Pin>, inputs: u32, reset: NetId, cells: &[Cell]) -> Result<(), Memory>
    requires inputs { inputs ≤ most_nets }
    requires cells { length cells.now ≤ most_nets }
    requires reset { IsNear reset }
    ensures { OnOk result (made.new.items ≡ made.old.items ++ reset_pins inputs reset cells.now) }
{
    for (item, cell) in cells.iter().enumerate() {
        if cell.latch.is_none() {
            continue;
        }
        put_pin(made, inputs, item as u32, reset)?;
    }
    Ok(())
}

/// Adds the pins by which output ports read nets.
fn put_outputs(
    made: &mut Vec<Pin>,
    inputs: u32,
    ports: u32,
    outputs: &[(Name, NetId)],
) -> Result<(), Memory>
    requires inputs { inputs ≤ most_nets }
    requires ports { ports ≤ 32768 }
    requires outputs { length outputs.now ≤ most_nets }
    requires nets { All (λ output. IsNear output.1) outputs.now }
    ensures { OnOk result (made.new.items ≡ made.old.items ++ output_pins inputs ports outputs.now) }
{
    for (number, output) in outputs.iter().enumerate() {
        put_pin(made, inputs, ports + number as u32, output.1)?;
    }
    Ok(())
}
