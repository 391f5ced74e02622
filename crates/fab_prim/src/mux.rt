//! The module of a tree of multiplexers.

ghost use Rattle.std.specs.Prelude.{◌≡◌, ◌++◌, [], ◌∷◌, map, IfOk, OnOk};
ghost use Rattle.fab_syntax.specs.Plain.{plain_expr, plain_item, variable, assign};
ghost use Rattle.fab_kinds.specs.declared.kind.Kind.TheVariants as kinds;
ghost use Rattle.fab_prim.specs.Modules.{config_bit, one_of, mux_wire_items, mux_select_items, mux_pair_items, mux_half_items, mux_whole_tree, mux_output_items, mux_items};

use crate::build::{config_bit, named, one_of, operand, push_assign, variable};
use crate::ports::module_ports;
use crate::prim::Prim;
use fab_base::{Memory, Name};
use fab_kinds::Kind;
use fab_syntax::{Expr, Item, Module, Shape};
use std::alloc::Global;

/// The primitive of a tree of multiplexers.
#[derive(Clone, Copy, Debug)]
pub struct Mux8;

impl Prim for Mux8 {
    ghost kind_of = { λ mux. kinds.Mux8 };

    fn kind(&self) -> Kind {
        Kind::Mux8
    }

    fn module(&self, alloc: Global) -> Result<Module, Memory> {
        let name = Name::of(alloc, b"MUX8LUT_frame_config")?;
        let ports = module_ports(alloc, Kind::Mux8)?;
        let items = items(alloc)?;
        Ok(Module { name, ports, items })
    }

    fn works(&self) {}
}

const WIRES: [&str; 11] = [
    "ab", "cd", "ef", "gh", "ad", "eh", "ah", "scd", "sef", "seh", "sgh",
];

// The items, in the order in which they print.
fn items(alloc: Global) -> Result<Vec<Item>, Memory>
    ensures { IfOk result (λ items. map plain_item items.items ≡ mux_items) }
{
    let mut items = Vec::new(alloc);
    push_wires(alloc, &mut items)?;
    push_selects(alloc, &mut items)?;
    push_pairs(alloc, &mut items)?;
    push_halves(alloc, &mut items)?;
    push_outputs(alloc, &mut items)?;
    Ok(items)
}

// Adds the wires.
fn push_wires(alloc: Global, items: &mut Vec<Item>) -> Result<(), Memory>
    ensures { OnOk result (map plain_item items.new.items ≡ map plain_item items.old.items ++ mux_wire_items) }
{
    for name in WIRES {
        let name = Name::of(alloc, name.as_bytes())?;
        items.push(Item::Wire(Shape::Scalar, name))?;
    }
    Ok(())
}

// Adds the choice of a name by a configuration bit.
fn push_by_bit(
    alloc: Global,
    items: &mut Vec<Item>,
    target: &[u8],
    bit: u32,
    first: &[u8],
    second: &[u8],
) -> Result<(), Memory>
    ensures { OnOk result (map plain_item items.new.items
        ≡ map plain_item items.old.items ++ assign target.now (one_of (config_bit bit) first.now second.now) ∷ []) }
{
    let chosen = one_of(alloc, config_bit(alloc, bit)?, first, second)?;
    push_assign(alloc, items, target, chosen)
}

// Adds the choice of a name by another name.
fn push_by_name(
    alloc: Global,
    items: &mut Vec<Item>,
    target: &[u8],
    test: &[u8],
    first: &[u8],
    second: &[u8],
) -> Result<(), Memory>
    ensures { OnOk result (map plain_item items.new.items
        ≡ map plain_item items.old.items ++ assign target.now (one_of (variable test.now) first.now second.now) ∷ []) }
{
    let chosen = one_of(alloc, variable(alloc, test)?, first, second)?;
    push_assign(alloc, items, target, chosen)
}

// Adds what the multiplexers select by.
fn push_selects(alloc: Global, items: &mut Vec<Item>) -> Result<(), Memory>
    ensures { OnOk result (map plain_item items.new.items ≡ map plain_item items.old.items ++ mux_select_items) }
{
    push_by_bit(alloc, items, b"scd", 0, b"S0", b"S1")?;
    push_by_bit(alloc, items, b"sef", 1, b"S0", b"S2")?;
    push_by_bit(alloc, items, b"seh", 1, b"S1", b"S3")?;
    push_by_bit(alloc, items, b"sgh", 0, b"sef", b"seh")
}

// Adds the multiplexers of two inputs of the tree.
fn push_pairs(alloc: Global, items: &mut Vec<Item>) -> Result<(), Memory>
    ensures { OnOk result (map plain_item items.new.items ≡ map plain_item items.old.items ++ mux_pair_items) }
{
    push_by_name(alloc, items, b"ab", b"S0", b"B", b"A")?;
    push_by_name(alloc, items, b"cd", b"scd", b"D", b"C")?;
    push_by_name(alloc, items, b"ef", b"sef", b"F", b"E")?;
    push_by_name(alloc, items, b"gh", b"sgh", b"H", b"G")
}

// Adds the multiplexers above them.
fn push_halves(alloc: Global, items: &mut Vec<Item>) -> Result<(), Memory>
    ensures { OnOk result (map plain_item items.new.items ≡ map plain_item items.old.items ++ mux_half_items) }
{
    push_by_name(alloc, items, b"ad", b"S1", b"cd", b"ab")?;
    push_by_name(alloc, items, b"eh", b"seh", b"gh", b"ef")?;
    push_by_name(alloc, items, b"ah", b"S3", b"eh", b"ad")
}

// Adds the output pins.
fn push_outputs(alloc: Global, items: &mut Vec<Item>) -> Result<(), Memory>
    ensures { OnOk result (map plain_item items.new.items ≡ map plain_item items.old.items ++ mux_output_items) }
{
    push_assign(alloc, items, b"M_AB", variable(alloc, b"ab")?)?;
    push_by_bit(alloc, items, b"M_AD", 0, b"ad", b"cd")?;
    push_assign(alloc, items, b"M_AH", whole_tree(alloc)?)?;
    push_assign(alloc, items, b"M_EF", variable(alloc, b"ef")?)
}

// What M_AH shows: the whole tree, or one of its parts.
fn whole_tree(alloc: Global) -> Result<Expr, Memory>
    ensures { IfOk result (λ e. plain_expr e ≡ mux_whole_tree) }
{
    let whole = operand(alloc, config_bit(alloc, 1)?)?;
    let tree = named(alloc, b"ah")?;
    let part = one_of(alloc, config_bit(alloc, 0)?, b"eh", b"gh")?;
    Ok(Expr::Cond(whole, tree, operand(alloc, part)?))
}
