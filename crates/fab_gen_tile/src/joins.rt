//! The joins of the instances of a tile.

ghost use Rattle.std.specs.Prelude.{◌≡◌, ◌++◌, ◌+◌, ◌≤◌, [], ◌∷◌, ℕ, true, false, map, IfOk, OnOk, slice_range};
ghost use Rattle.std.specs.List.{flat_map};
ghost use Rattle.fab_kinds.specs.Pins.{pin_names, input_count, output_count};
ghost use Rattle.fab_syntax.specs.Plain.{plain_expr, plain_join};
ghost use Rattle.fab_model.specs.Rows.{bit_name};
ghost use Rattle.fab_model.specs.Tiles.{tile_wires, counted, row_wires, bel_wires};
ghost use Rattle.fab_prim.specs.Ports.{clock_names, top_inputs, top_outputs};
ghost use Rattle.fab_gen_tile.specs.Names.{port_join, same_join};
ghost use Rattle.fab_gen_tile.specs.ConfigModule.{config_ports};
ghost use Rattle.fab_gen_tile.specs.TileModule.{side_names, bits_join, config_joins, pin_join, pad_join, bel_joins};

use crate::borders::bit_name;
use crate::names::{pad_name, part, sum, variable};
use fab_base::{Memory, Name};
use fab_kinds::Kind;
use fab_model::{Bel, Mode, TileType, WireRow};
use fab_syntax::{Expr, Join};
use std::alloc::Global;

/// A port and what is joined to it.
pub fn port_join(alloc: Global, port: &[u8], value: Expr) -> Result<Join, Memory>
    ensures { IfOk result (λ join. plain_join join ≡ port_join port.now (plain_expr value)) }
{
    let port = Name::of(alloc, port)?;
    Ok(Join {
        port,
        to: Some(value),
    })
}

/// A port that is joined to the name that it has itself.
pub fn same_join(alloc: Global, name: &[u8]) -> Result<Join, Memory>
    ensures { IfOk result (λ join. plain_join join ≡ same_join name.now) }
{
    let value = variable(alloc, name)?;
    port_join(alloc, name, value)
}

/// Adds the port of configuration bits, where there are any; want of memory where a number does not fit.
pub fn push_bits_join(
    alloc: Global,
    joins: &mut Vec<Join>,
    low: u32,
    bits: u32,
) -> Result<(), Memory>
    ensures { OnOk result (map plain_join joins.new.items ≡ map plain_join joins.old.items ++ bits_join low bits) }
{
    if bits == 0 {
        return Ok(());
    }
    let high = sum(low, bits - 1)?;
    let value = part(alloc, b"fab_bits", high, low)?;
    joins.push(port_join(alloc, b"ConfigBits", value)?)?;
    Ok(())
}

/// The joins of the configuration, which is kept in this mode.
pub fn config_joins(alloc: Global, mode: Mode) -> Result<Vec<Join>, Memory>
    ensures { IfOk result (λ joins. map plain_join joins.items ≡ config_joins mode) }
{
    let mut joins = Vec::new(alloc);
    push_carrying_joins(alloc, &mut joins, mode)?;
    let bits = variable(alloc, b"fab_bits")?;
    joins.push(port_join(alloc, b"ConfigBits", bits)?)?;
    Ok(joins)
}

// Adds the joins by which the bits come, each to the port of the tile with its name.
fn push_carrying_joins(alloc: Global, joins: &mut Vec<Join>, mode: Mode) -> Result<(), Memory>
    ensures { OnOk result (map plain_join joins.new.items
        ≡ map plain_join joins.old.items ++ map (λ port. same_join port.name) (config_ports mode)) }
{
    match mode {
        Mode::Frames => {
            joins.push(same_join(alloc, b"FrameData")?)?;
            joins.push(same_join(alloc, b"FrameStrobe")?)?;
        }
        Mode::Chain => {
            joins.push(same_join(alloc, b"CLK")?)?;
            joins.push(same_join(alloc, b"WriteStrobe")?)?;
            joins.push(same_join(alloc, b"fab_chain_i")?)?;
            joins.push(same_join(alloc, b"fab_chain_o")?)?;
        }
    }
    Ok(())
}

// ---- the switch matrix

/// The inputs or the outputs of the switch matrix as joins, each to its own name.
pub fn side_joins(alloc: Global, tile: &TileType, output: bool) -> Result<Vec<Join>, Memory>
    ensures { IfOk result (λ joins. map plain_join joins.items ≡ map same_join (side_names output (tile_wires tile.now))) }
{
    let mut joins = Vec::new(alloc);
    push_rows_side(alloc, &mut joins, tile.rows(), output)?;
    push_bels_side(alloc, &mut joins, tile.bels(), output)?;
    Ok(joins)
}

#[tactic(auto, using(crate::proofs::Sides::side_more))]
fn push_rows_side(
    alloc: Global,
    joins: &mut Vec<Join>,
    rows: &[WireRow],
    output: bool,
) -> Result<(), Memory>
    ensures { OnOk result (map plain_join joins.new.items
        ≡ map plain_join joins.old.items ++ map same_join (side_names output (flat_map row_wires rows.now))) }
{
    for row in rows {
        push_row_side(alloc, joins, row, output)?;
    }
    Ok(())
}

// Adds the bits of a row that are on a side of the matrix.
#[tactic(auto, using(crate::proofs::Sides::row_outputs, crate::proofs::Sides::row_inputs))]
fn push_row_side(
    alloc: Global,
    joins: &mut Vec<Join>,
    row: &WireRow,
    output: bool,
) -> Result<(), Memory>
    ensures { OnOk result (map plain_join joins.new.items
        ≡ map plain_join joins.old.items ++ map same_join (side_names output (row_wires row.now))) }
{
    if output {
        push_bits(alloc, joins, &row.source, row.source_bits())
    } else {
        push_bits(alloc, joins, &row.dest, row.dest_bits())
    }
}

// Adds so many bits of a side of a row.

fn push_bits(
    alloc: Global,
    joins: &mut Vec<Join>,
    side: &Option<Name>,
    bits: u64,
) -> Result<(), Memory>
    ensures { OnOk result (map plain_join joins.new.items
        ≡ map plain_join joins.old.items ++ counted bits (λ bit. same_join (bit_name side.now bit))) }
{
    for bit in 0..bits {
        let name = bit_name(alloc, side, bit)?;
        joins.push(same_join(alloc, name.bytes())?)?;
    }
    Ok(())
}

#[tactic(auto, using(crate::proofs::Sides::side_more))]
fn push_bels_side(
    alloc: Global,
    joins: &mut Vec<Join>,
    bels: &[Bel],
    output: bool,
) -> Result<(), Memory>
    ensures { OnOk result (map plain_join joins.new.items
        ≡ map plain_join joins.old.items ++ map same_join (side_names output (flat_map bel_wires bels.now))) }
{
    for bel in bels {
        push_bel_side(alloc, joins, bel, output)?;
    }
    Ok(())
}

// Adds the pins of a BEL that are on a side of the matrix: its input pins are outputs of the matrix.
#[tactic(auto, using(crate::proofs::Sides::bel_outputs, crate::proofs::Sides::bel_inputs))]
fn push_bel_side(
    alloc: Global,
    joins: &mut Vec<Join>,
    bel: &Bel,
    output: bool,
) -> Result<(), Memory>
    ensures { OnOk result (map plain_join joins.new.items
        ≡ map plain_join joins.old.items ++ map same_join (side_names output (bel_wires bel.now))) }
{
    let inputs = bel.kind.inputs();
    if output {
        push_pin_names(alloc, joins, bel, 0, inputs)
    } else {
        push_pin_names(alloc, joins, bel, inputs, inputs + bel.kind.outputs())
    }
}

fn push_pin_names(
    alloc: Global,
    joins: &mut Vec<Join>,
    bel: &Bel,
    from: u32,
    to: u32,
) -> Result<(), Memory>
    requires range { from ≤ to }
    requires known { to ≤ input_count bel.now.kind + output_count bel.now.kind }
    ensures { OnOk result (map plain_join joins.new.items
        ≡ map plain_join joins.old.items ++ map (λ pin. same_join (bel.now.prefix ++ pin)) (slice_range (pin_names bel.now.kind) from to)) }
{
    for pin in from..to {
        let name = pin_wire(alloc, bel, bel.kind.pin_name(pin).as_bytes())?;
        joins.push(same_join(alloc, name.bytes())?)?;
    }
    Ok(())
}

// The matrix name of a pin.
fn pin_wire(alloc: Global, bel: &Bel, pin: &[u8]) -> Result<Name, Memory>
    ensures { IfOk result (λ name. name ≡ bel.now.prefix ++ pin.now) }
{
    let mut bytes = Vec::from_slice(alloc, bel.prefix.bytes())?;
    bytes.extend_from_slice(pin)?;
    Ok(Name::from(bytes))
}

// ---- BELs

/// The joins of a BEL at a place of its tile, with the configuration bits from the bit `low` on.
pub fn bel_joins(alloc: Global, place: usize, low: u32, bel: &Bel) -> Result<Vec<Join>, Memory>
    ensures { IfOk result (λ joins. map plain_join joins.items ≡ bel_joins place low bel.now) }
{
    let mut joins = Vec::new(alloc);
    let inputs = bel.kind.inputs();
    let pins = inputs + bel.kind.outputs();
    push_pin_joins(alloc, &mut joins, bel, 0, inputs)?;
    push_clock_join(alloc, &mut joins, bel.kind)?;
    push_bits_join(alloc, &mut joins, low, bel.kind.bits())?;
    push_top_input(alloc, &mut joins, place, bel.kind)?;
    push_pin_joins(alloc, &mut joins, bel, inputs, pins)?;
    push_top_outputs(alloc, &mut joins, place, bel.kind)?;
    Ok(joins)
}

// Adds the pins of a range.
fn push_pin_joins(
    alloc: Global,
    joins: &mut Vec<Join>,
    bel: &Bel,
    from: u32,
    to: u32,
) -> Result<(), Memory>
    requires range { from ≤ to }
    requires known { to ≤ input_count bel.now.kind + output_count bel.now.kind }
    ensures { OnOk result (map plain_join joins.new.items
        ≡ map plain_join joins.old.items ++ map (pin_join bel.now) (slice_range (pin_names bel.now.kind) from to)) }
{
    for pin in from..to {
        joins.push(pin_join(alloc, bel, bel.kind.pin_name(pin).as_bytes())?)?;
    }
    Ok(())
}

// A pin and its matrix name.
fn pin_join(alloc: Global, bel: &Bel, pin: &[u8]) -> Result<Join, Memory>
    ensures { IfOk result (λ join. plain_join join ≡ pin_join bel.now pin.now) }
{
    let name = pin_wire(alloc, bel, pin)?;
    port_join(alloc, pin, Expr::Var(name))
}

fn push_clock_join(alloc: Global, joins: &mut Vec<Join>, kind: Kind) -> Result<(), Memory>
    ensures { OnOk result (map plain_join joins.new.items ≡ map plain_join joins.old.items ++ map same_join (clock_names kind)) }
{
    if kind.has_flip_flop() {
        joins.push(same_join(alloc, b"UserCLK")?)?;
    }
    Ok(())
}

// Adds a port of a pad and the port of the tile.
fn push_pad_join(
    alloc: Global,
    joins: &mut Vec<Join>,
    place: usize,
    port: &[u8],
) -> Result<(), Memory>
    ensures { OnOk result (map plain_join joins.new.items ≡ map plain_join joins.old.items ++ pad_join place port.now ∷ []) }
{
    let name = pad_name(alloc, place, port)?;
    joins.push(port_join(alloc, port, Expr::Var(name))?)?;
    Ok(())
}

fn push_top_input(
    alloc: Global,
    joins: &mut Vec<Join>,
    place: usize,
    kind: Kind,
) -> Result<(), Memory>
    ensures { OnOk result (map plain_join joins.new.items ≡ map plain_join joins.old.items ++ map (pad_join place) (top_inputs kind)) }
{
    match kind {
        Kind::Io => push_pad_join(alloc, joins, place, b"O_top"),
        Kind::Lut4c | Kind::Mux8 => Ok(()),
    }
}

fn push_top_outputs(
    alloc: Global,
    joins: &mut Vec<Join>,
    place: usize,
    kind: Kind,
) -> Result<(), Memory>
    ensures { OnOk result (map plain_join joins.new.items ≡ map plain_join joins.old.items ++ map (pad_join place) (top_outputs kind)) }
{
    match kind {
        Kind::Io => {
            push_pad_join(alloc, joins, place, b"I_top")?;
            push_pad_join(alloc, joins, place, b"T_top")
        }
        Kind::Lut4c | Kind::Mux8 => Ok(()),
    }
}
