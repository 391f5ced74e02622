//! The module of a tile.

ghost use Rattle.std.specs.Prelude.{◌≡◌, ◌++◌, [], ◌∷◌, true, false, map, IfOk, OnOk, sum_by};
ghost use Rattle.std.specs.List.{flat_map};
ghost use Rattle.fab_kinds.specs.Pins.{bit_count};
ghost use Rattle.fab_syntax.specs.declared.tree.Shape.TheVariants as shapes;
ghost use Rattle.fab_syntax.specs.Plain.{plain_module, plain_item, wire, instance};
ghost use Rattle.fab_model.specs.declared.mode.Mode.TheVariants as modes;
ghost use Rattle.fab_model.specs.Tiles.{bel_bits, tile_bits, matrix_names};
ghost use Rattle.fab_prim.specs.Modules.{module_name};
ghost use Rattle.fab_matrix.specs.fab_meaning.specs.Ports.{scalar};
ghost use Rattle.fab_gen_tile.specs.Names.{pad_name};
ghost use Rattle.fab_gen_tile.specs.Borders.{border_ports, row_assigns};
ghost use Rattle.fab_gen_tile.specs.TileModule.{pad_ports, bels_ports, tile_ports, bits_wire, no_config, config_instances, matrix_output_names, matrix_instances, bel_instance, bel_instances, tile_items, tile_module};

use crate::borders::{push_border_ports, push_row_assigns, scalar};
use crate::config::{push_chain_end, push_config_ports};
use crate::joins::{bel_joins, config_joins, push_bits_join, side_joins};
use crate::names::{bel_instance_name, pad_name, prefixed, sum};
use fab_base::{Memory, Name};
use fab_kinds::Kind;
use fab_model::{Bel, Mode, TileType, WireRow};
use fab_syntax::{Item, Module, Port, Shape};
use std::alloc::Global;

/// The module of a tile whose configuration bits are latches in frames: its matrix names as wires, the border bits of its rows, and the
/// instances of its configuration, its switch matrix and its BELs.
///
/// Want of memory is also the answer where numbers of bits are too many for 32 bits, or BELs too many to have letters.
pub fn tile_module(alloc: Global, tile: &TileType) -> Result<Module, Memory>
    ensures { IfOk result (λ m. plain_module m ≡ tile_module modes.Frames tile.now) }
{
    tile_of(alloc, tile, Mode::Frames)
}

/// The module of a tile whose configuration bits are flip-flops in a chain, which comes in by `fab_chain_i` and goes out by `fab_chain_o`.
///
/// Want of memory is the answer as for `tile_module`.
pub fn chain_tile_module(alloc: Global, tile: &TileType) -> Result<Module, Memory>
    ensures { IfOk result (λ m. plain_module m ≡ tile_module modes.Chain tile.now) }
{
    tile_of(alloc, tile, Mode::Chain)
}

/// The module of a tile whose configuration bits are kept in this mode, for a generator that has the mode as a value.
///
/// Want of memory is the answer as for `tile_module`.
pub fn tile_of(alloc: Global, tile: &TileType, mode: Mode) -> Result<Module, Memory>
    ensures { IfOk result (λ m. plain_module m ≡ tile_module mode tile.now) }
{
    let name = prefixed(alloc, b"tile_", tile.name())?;
    let ports = tile_ports(alloc, tile, mode)?;
    let items = tile_items(alloc, tile, mode)?;
    Ok(Module { name, ports, items })
}

// ---- ports

fn tile_ports(alloc: Global, tile: &TileType, mode: Mode) -> Result<Vec<Port>, Memory>
    ensures { IfOk result (λ ports. ports.items ≡ tile_ports mode tile.now) }
{
    let mut ports = Vec::new(alloc);
    ports.push(scalar(true, Name::of(alloc, b"UserCLK")?))?;
    push_config_ports(alloc, &mut ports, mode)?;
    push_rows_ports(alloc, &mut ports, tile.rows())?;
    push_bels_ports(alloc, &mut ports, tile.bels())?;
    Ok(ports)
}

fn push_rows_ports(alloc: Global, ports: &mut Vec<Port>, rows: &[WireRow]) -> Result<(), Memory>
    ensures { OnOk result (ports.new.items ≡ ports.old.items ++ flat_map border_ports rows.now) }
{
    for row in rows {
        push_border_ports(alloc, ports, row)?;
    }
    Ok(())
}

fn push_bels_ports(alloc: Global, ports: &mut Vec<Port>, bels: &[Bel]) -> Result<(), Memory>
    ensures { OnOk result (ports.new.items ≡ ports.old.items ++ bels_ports bels.now) }
{
    for (place, bel) in bels.iter().enumerate() {
        push_pad_ports(alloc, ports, place, bel.kind)?;
    }
    Ok(())
}

// Adds the ports of a BEL to the outside.
fn push_pad_ports(
    alloc: Global,
    ports: &mut Vec<Port>,
    place: usize,
    kind: Kind,
) -> Result<(), Memory>
    ensures { OnOk result (ports.new.items ≡ ports.old.items ++ pad_ports place kind) }
{
    match kind {
        Kind::Io => {
            push_pad_port(alloc, ports, place, true, b"O_top")?;
            push_pad_port(alloc, ports, place, false, b"I_top")?;
            push_pad_port(alloc, ports, place, false, b"T_top")
        }
        Kind::Lut4c | Kind::Mux8 => Ok(()),
    }
}

fn push_pad_port(
    alloc: Global,
    ports: &mut Vec<Port>,
    place: usize,
    input: bool,
    port: &[u8],
) -> Result<(), Memory>
    ensures { OnOk result (ports.new.items ≡ ports.old.items ++ scalar input (pad_name place port.now) ∷ []) }
{
    let name = pad_name(alloc, place, port)?;
    ports.push(scalar(input, name))?;
    Ok(())
}

// ---- items

fn tile_items(alloc: Global, tile: &TileType, mode: Mode) -> Result<Vec<Item>, Memory>
    ensures { IfOk result (λ items. map plain_item items.items ≡ tile_items mode tile.now) }
{
    let mut items = Vec::new(alloc);
    push_name_wires(alloc, &mut items, tile)?;
    push_bits_wire(alloc, &mut items, tile.bits())?;
    push_rows_assigns(alloc, &mut items, tile.rows())?;
    push_config_instance(alloc, &mut items, tile, mode)?;
    push_matrix_instance(alloc, &mut items, tile)?;
    push_bel_instances(alloc, &mut items, tile.bels())?;
    Ok(items)
}

// Adds the matrix names as wires.
fn push_name_wires(alloc: Global, items: &mut Vec<Item>, tile: &TileType) -> Result<(), Memory>
    ensures { OnOk result (map plain_item items.new.items
        ≡ map plain_item items.old.items ++ map (wire shapes.Scalar) (matrix_names tile.now)) }
{
    for number in 0..tile.matrix_names() {
        let name = tile.matrix_name(alloc, number)?;
        items.push(Item::Wire(Shape::Scalar, name))?;
    }
    Ok(())
}

// Adds the wire of the configuration bits, where there are any.
fn push_bits_wire(alloc: Global, items: &mut Vec<Item>, bits: u32) -> Result<(), Memory>
    ensures { OnOk result (map plain_item items.new.items ≡ map plain_item items.old.items ++ bits_wire bits) }
{
    if bits == 0 {
        return Ok(());
    }
    let name = Name::of(alloc, b"fab_bits")?;
    items.push(Item::Wire(Shape::Vector(bits), name))?;
    Ok(())
}

fn push_rows_assigns(alloc: Global, items: &mut Vec<Item>, rows: &[WireRow]) -> Result<(), Memory>
    ensures { OnOk result (map plain_item items.new.items ≡ map plain_item items.old.items ++ flat_map row_assigns rows.now) }
{
    for row in rows {
        push_row_assigns(alloc, items, row)?;
    }
    Ok(())
}

// Adds the instance of the configuration where there are bits, and else what hands a chain on.
fn push_config_instance(
    alloc: Global,
    items: &mut Vec<Item>,
    tile: &TileType,
    mode: Mode,
) -> Result<(), Memory>
    ensures { OnOk result (map plain_item items.new.items
        ≡ map plain_item items.old.items ++ config_instances mode tile.now (tile_bits tile.now)) }
{
    if tile.bits() == 0 {
        return push_no_config(alloc, items, mode);
    }
    let of = prefixed(alloc, b"config_", tile.name())?;
    let name = Name::of(alloc, b"fab_config")?;
    items.push(Item::Instance(of, name, config_joins(alloc, mode)?))?;
    Ok(())
}

// Adds what stands in a tile without configuration bits.
fn push_no_config(alloc: Global, items: &mut Vec<Item>, mode: Mode) -> Result<(), Memory>
    ensures { OnOk result (map plain_item items.new.items ≡ map plain_item items.old.items ++ no_config mode) }
{
    match mode {
        Mode::Frames => Ok(()),
        Mode::Chain => push_chain_end(alloc, items, 0),
    }
}

// Adds the instance of the switch matrix, where it has an output.
fn push_matrix_instance(alloc: Global, items: &mut Vec<Item>, tile: &TileType) -> Result<(), Memory>
    ensures { OnOk result (map plain_item items.new.items
        ≡ map plain_item items.old.items ++ matrix_instances tile.now (matrix_output_names tile.now)) }
{
    let mut outputs = side_joins(alloc, tile, true)?;
    if outputs.is_empty() {
        return Ok(());
    }
    let low = bel_bits(tile.bels())?;
    let mut joins = side_joins(alloc, tile, false)?;
    push_bits_join(alloc, &mut joins, low, tile.bits() - low)?;
    joins.append(&mut outputs)?;
    let of = prefixed(alloc, b"matrix_", tile.name())?;
    let name = Name::of(alloc, b"fab_matrix")?;
    items.push(Item::Instance(of, name, joins))?;
    Ok(())
}

// The configuration bits of BELs; want of memory where they are too many to count.
fn bel_bits(bels: &[Bel]) -> Result<u32, Memory>
    ensures { IfOk result (λ bits. bits ≡ sum_by (λ bel. bit_count bel.kind) bels.now) }
{
    let mut bits: u32 = 0;
    for bel in bels {
        bits = bits.checked_add(bel.kind.bits()).ok_or(Memory)?;
    }
    Ok(bits)
}

// Adds the instances of the BELs.
fn push_bel_instances(alloc: Global, items: &mut Vec<Item>, bels: &[Bel]) -> Result<(), Memory>
    ensures { OnOk result (map plain_item items.new.items ≡ map plain_item items.old.items ++ bel_instances bels.now) }
{
    let mut low: u32 = 0;
    for (place, bel) in bels.iter().enumerate() {
        items.push(bel_instance(alloc, place, low, bel)?)?;
        low = sum(low, bel.kind.bits())?;
    }
    Ok(())
}

// The instance of a BEL at a place, with the configuration bits from the bit `low` on.
fn bel_instance(alloc: Global, place: usize, low: u32, bel: &Bel) -> Result<Item, Memory>
    ensures { IfOk result (λ item. plain_item item ≡ bel_instance place low bel.now) }
{
    let of = Name::of(alloc, module_name(bel.kind).as_bytes())?;
    let name = bel_instance_name(alloc, place)?;
    Ok(Item::Instance(of, name, bel_joins(alloc, place, low, bel)?))
}

// The name of the module of a kind.
fn module_name(kind: Kind) -> &'static str
    ensures { result.now ≡ module_name kind }
{
    match kind {
        Kind::Lut4c => "LUT4c_frame_config",
        Kind::Io => "IO_1_bidirectional_frame_config_pass",
        Kind::Mux8 => "MUX8LUT_frame_config",
    }
}
