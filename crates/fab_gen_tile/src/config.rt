//! The module of a tile's configuration bits.

ghost use Rattle.std.specs.Prelude.{◌≡◌, ◌++◌, [], ◌∷◌, ℕ, true, false, map, reverse, IfOk, OnOk, slice_index_or};
ghost use Rattle.fab_syntax.specs.declared.tree.Shape.TheVariants as shapes;
ghost use Rattle.fab_syntax.specs.Plain.{plain_expr, plain_exprs, plain_item, plain_module, concatenation, variable, conditional, reg, assign};
ghost use Rattle.fab_matrix.specs.fab_meaning.specs.Ports.{config_name};
ghost use Rattle.fab_matrix.specs.fab_meaning.specs.Loading.{write_strobe_name};
ghost use Rattle.fab_model.specs.declared.mode.Mode.TheVariants as modes;
ghost use Rattle.fab_model.specs.Tiles.{counted};
ghost use Rattle.fab_gen_tile.specs.Names.{frame_data_name, frame_strobe_name, latch_name, vector};
ghost use Rattle.fab_gen_tile.specs.ConfigModule.{frame_ports, chain_ports, config_ports, latch_at, bit_flop, before_bit, chain_end, keeping_items, all_latches, config_items, config_module};

use crate::borders::scalar;
use crate::names::{latch_name, part, prefixed};
use fab_base::{Memory, Name};
use fab_model::{Mode, TileType};
use fab_prim::conditional;
use fab_syntax::{Expr, Item, Module, Port, Shape};
use std::alloc::Global;

/// The module of the configuration bits of a tile, which latches keep in frames.
///
/// Its ports are `FrameData`, `FrameStrobe` and `ConfigBits`. Want of memory is the only error.
pub fn config_module(alloc: Global, tile: &TileType) -> Result<Module, Memory>
    ensures { IfOk result (λ m. plain_module m ≡ config_module modes.Frames tile.now) }
{
    config_of(alloc, tile, Mode::Frames)
}

/// The module of the configuration bits of a tile, which flip-flops keep in a chain.
///
/// Its ports are `CLK`, `WriteStrobe`, `fab_chain_i`, `fab_chain_o` and `ConfigBits`. Want of memory is the only error.
pub fn chain_config_module(alloc: Global, tile: &TileType) -> Result<Module, Memory>
    ensures { IfOk result (λ m. plain_module m ≡ config_module modes.Chain tile.now) }
{
    config_of(alloc, tile, Mode::Chain)
}

/// The module of the configuration bits of a tile, which are kept in this mode, for a generator that has the mode as a value.
///
/// Its ports are those of `config_module` or of `chain_config_module`. Want of memory is the only error.
pub fn config_of(alloc: Global, tile: &TileType, mode: Mode) -> Result<Module, Memory>
    ensures { IfOk result (λ m. plain_module m ≡ config_module mode tile.now) }
{
    let name = prefixed(alloc, b"config_", tile.name())?;
    let ports = config_ports(alloc, mode, tile.bits())?;
    let items = config_items(alloc, tile, mode)?;
    Ok(Module { name, ports, items })
}

// ---- ports

// Those by which the bits come, and the configuration bits.
fn config_ports(alloc: Global, mode: Mode, bits: u32) -> Result<Vec<Port>, Memory>
    ensures { IfOk result (λ ports. ports.items ≡ config_ports mode ++ vector false bits config_name ∷ []) }
{
    let mut ports = Vec::new(alloc);
    push_config_ports(alloc, &mut ports, mode)?;
    push_vector(alloc, &mut ports, false, bits, b"ConfigBits")?;
    Ok(ports)
}

/// Adds the ports by which the bits come to a tile, and on to its configuration.
pub fn push_config_ports(alloc: Global, ports: &mut Vec<Port>, mode: Mode) -> Result<(), Memory>
    ensures { OnOk result (ports.new.items ≡ ports.old.items ++ config_ports mode) }
{
    match mode {
        Mode::Frames => push_frame_ports(alloc, ports),
        Mode::Chain => push_chain_ports(alloc, ports),
    }
}

fn push_frame_ports(alloc: Global, ports: &mut Vec<Port>) -> Result<(), Memory>
    ensures { OnOk result (ports.new.items ≡ ports.old.items ++ frame_ports) }
{
    push_vector(alloc, ports, true, 32, b"FrameData")?;
    push_vector(alloc, ports, true, 20, b"FrameStrobe")
}

fn push_chain_ports(alloc: Global, ports: &mut Vec<Port>) -> Result<(), Memory>
    ensures { OnOk result (ports.new.items ≡ ports.old.items ++ chain_ports) }
{
    ports.push(scalar(true, Name::of(alloc, b"CLK")?))?;
    ports.push(scalar(true, Name::of(alloc, b"WriteStrobe")?))?;
    ports.push(scalar(true, Name::of(alloc, b"fab_chain_i")?))?;
    ports.push(scalar(false, Name::of(alloc, b"fab_chain_o")?))?;
    Ok(())
}

/// Adds a port of several bits.
pub fn push_vector(
    alloc: Global,
    ports: &mut Vec<Port>,
    input: bool,
    width: u32,
    name: &[u8],
) -> Result<(), Memory>
    ensures { OnOk result (ports.new.items ≡ ports.old.items ++ vector input width name.now ∷ []) }
{
    let name = Name::of(alloc, name)?;
    ports.push(Port {
        input,
        shape: Shape::Vector(width),
        name,
    })?;
    Ok(())
}

// ---- items

// Registers, what keeps them, and the assignment of them all.
fn config_items(alloc: Global, tile: &TileType, mode: Mode) -> Result<Vec<Item>, Memory>
    ensures { IfOk result (λ items. map plain_item items.items ≡ config_items mode tile.now) }
{
    let bits = tile.bits();
    let mut items = Vec::new(alloc);
    push_registers(alloc, &mut items, bits)?;
    push_keeping(alloc, &mut items, tile, mode)?;
    push_all_latches(alloc, &mut items, bits)?;
    Ok(items)
}

// Adds what keeps the bits.
fn push_keeping(
    alloc: Global,
    items: &mut Vec<Item>,
    tile: &TileType,
    mode: Mode,
) -> Result<(), Memory>
    ensures { OnOk result (map plain_item items.new.items ≡ map plain_item items.old.items ++ keeping_items mode tile.now) }
{
    let bits = tile.bits();
    match mode {
        Mode::Frames => push_latches(alloc, items, bits, tile.table().places()),
        Mode::Chain => {
            push_flops(alloc, items, bits)?;
            push_chain_end(alloc, items, bits)
        }
    }
}

// Adds the assignment of all bits that are kept.
fn push_all_latches(alloc: Global, items: &mut Vec<Item>, bits: u32) -> Result<(), Memory>
    ensures { OnOk result (map plain_item items.new.items ≡ map plain_item items.old.items ++ assign config_name (all_latches bits) ∷ []) }
{
    let value = all_latches(alloc, bits)?;
    let name = Name::of(alloc, b"ConfigBits")?;
    items.push(Item::Assign(name, value))?;
    Ok(())
}

// Adds a register for each bit.
#[tactic(auto, using(crate::proofs::Counted::counted_none, fab_model::proofs::Inserts::counted_more))]
fn push_registers(alloc: Global, items: &mut Vec<Item>, bits: u32) -> Result<(), Memory>
    ensures { OnOk result (map plain_item items.new.items
        ≡ map plain_item items.old.items ++ counted bits (λ bit. reg shapes.Scalar (latch_name bit))) }
{
    for bit in 0..bits {
        items.push(Item::Reg(Shape::Scalar, latch_name(alloc, bit)?))?;
    }
    Ok(())
}

// Adds a latch for each bit.
#[tactic(auto, using(crate::proofs::Counted::counted_none, fab_model::proofs::Inserts::counted_more))]
fn push_latches(
    alloc: Global,
    items: &mut Vec<Item>,
    bits: u32,
    places: &[(u8, u8)],
) -> Result<(), Memory>
    ensures { OnOk result (map plain_item items.new.items
        ≡ map plain_item items.old.items ++ counted bits (λ bit. latch_at bit (slice_index_or places.now bit (0, 0)))) }
{
    for bit in 0..bits {
        let place = place_of(places, bit);
        items.push(latch(alloc, bit, place)?)?;
    }
    Ok(())
}

// Adds a flip-flop for each bit.
#[tactic(auto, using(crate::proofs::Counted::counted_none, fab_model::proofs::Inserts::counted_more))]
fn push_flops(alloc: Global, items: &mut Vec<Item>, bits: u32) -> Result<(), Memory>
    ensures { OnOk result (map plain_item items.new.items ≡ map plain_item items.old.items ++ counted bits bit_flop) }
{
    for bit in 0..bits {
        items.push(bit_flop(alloc, bit)?)?;
    }
    Ok(())
}

// The flip-flop of a bit, which takes the bit before it while a bit is written.
fn bit_flop(alloc: Global, bit: u32) -> Result<Item, Memory>
    ensures { IfOk result (λ item. plain_item item ≡ bit_flop bit) }
{
    let clock = Name::of(alloc, b"CLK")?;
    let target = latch_name(alloc, bit)?;
    Ok(Item::Clocked(clock, target, next_bit(alloc, bit)?))
}

// What a flip-flop takes.
fn next_bit(alloc: Global, bit: u32) -> Result<Expr, Memory>
    ensures { IfOk result (λ e. plain_expr e ≡ conditional (variable write_strobe_name) (variable (before_bit bit)) (variable (latch_name bit))) }
{
    let before = before_bit(alloc, bit)?;
    let kept = latch_name(alloc, bit)?;
    let written = Name::of(alloc, b"WriteStrobe")?;
    conditional(
        alloc,
        Expr::Var(written),
        Expr::Var(before),
        Expr::Var(kept),
    )
}

// What stands before a bit in the chain of its tile.
fn before_bit(alloc: Global, bit: u32) -> Result<Name, Memory>
    ensures { IfOk result (λ name. name ≡ before_bit bit) }
{
    match bit.checked_sub(1) {
        Some(before) => latch_name(alloc, before),
        None => Name::of(alloc, b"fab_chain_i"),
    }
}

/// Adds what goes out of a tile behind so many bits of a chain.
pub fn push_chain_end(alloc: Global, items: &mut Vec<Item>, bits: u32) -> Result<(), Memory>
    ensures { OnOk result (map plain_item items.new.items ≡ map plain_item items.old.items ++ chain_end bits ∷ []) }
{
    let name = Name::of(alloc, b"fab_chain_o")?;
    let last = before_bit(alloc, bits)?;
    items.push(Item::Assign(name, Expr::Var(last)))?;
    Ok(())
}

// The frame and the bit in it of a configuration bit.
fn place_of(places: &[(u8, u8)], bit: u32) -> (u8, u8)
    ensures { result ≡ slice_index_or places.now bit (0, 0) }
{
    places.get(bit as usize).copied().unwrap_or((0, 0))
}

// The latch of a bit.
fn latch(alloc: Global, bit: u32, place: (u8, u8)) -> Result<Item, Memory>
    ensures { IfOk result (λ item. plain_item item ≡ latch_at bit place) }
{
    let (frame, data) = (u32::from(place.0), u32::from(place.1));
    let gate = part(alloc, b"FrameStrobe", frame, frame)?;
    let value = part(alloc, b"FrameData", data, data)?;
    Ok(Item::Latch(latch_name(alloc, bit)?, gate, value))
}

// All bits that are kept, the last of them first.
fn all_latches(alloc: Global, bits: u32) -> Result<Expr, Memory>
    ensures { IfOk result (λ e. plain_expr e ≡ all_latches bits) }
{
    let latches = latches_down(alloc, bits)?;
    Ok(concatenation(latches))
}

#[tactic(auto, using(fab_syntax::proofs::Plain::plain_concatenation))]
fn concatenation(parts: Vec<Expr>) -> Expr
    ensures { plain_expr result ≡ concatenation (plain_exprs (map plain_expr parts.items)) }
{
    Expr::Cat(parts)
}

// The bits as expressions, the last of them first.
#[tactic(auto, using(crate::proofs::Counted::counted_none, fab_model::proofs::Inserts::counted_more))]
fn latches_down(alloc: Global, bits: u32) -> Result<Vec<Expr>, Memory>
    ensures { IfOk result (λ latches. map plain_expr latches.items ≡ reverse (counted bits (λ bit. variable (latch_name bit)))) }
{
    let mut latches = Vec::new(alloc);
    for bit in (0..bits).rev() {
        latches.push(Expr::Var(latch_name(alloc, bit)?))?;
    }
    Ok(latches)
}
