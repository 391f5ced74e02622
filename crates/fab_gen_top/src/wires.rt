//! What carries the configuration bits to the tiles, and the wires between tiles.

ghost use Rattle.std.specs.Prelude.{◌≡◌, ◌++◌, ◌∷◌, [], All, map, IfOk, OnOk};
ghost use Rattle.std.specs.List.{flat_map};
ghost use Rattle.fab_syntax.specs.declared.tree.Shape.TheVariants as shapes;
ghost use Rattle.fab_syntax.specs.Plain.{plain_expr, plain_join, plain_item, wire};
ghost use Rattle.fab_model.specs.Tiles.{counted};
ghost use Rattle.fab_model.specs.Rows.{is_jump};
ghost use Rattle.fab_gen_tile.specs.Names.{same_join};
ghost use Rattle.fab_gen_tile.specs.Borders.{side_border};
ghost use Rattle.fab_text_loads_laws.specs.fab_fabric_text_defs_Mode.{text_mode};
ghost use Rattle.fab_text_loads_laws.specs.fab_fabric_text_defs_Names.{column_strobe_name, chain_wire_name, begin_wire_name};
ghost use Rattle.fab_text_loads_laws.specs.fab_fabric_text_defs_Places.{placed_tiles};
ghost use Rattle.fab_gen_loader.specs.Loader.{row_port};
ghost use Rattle.fab_text_loads_laws.specs.fab_fabric_text_defs_Top.{loader_wires, loader_joins, loader_instance, names_column, column_strobes, frame_items, carrying_items, row_begin_wires, tile_begin_wires};
ghost use Rattle.fab_gen_top.specs.inner.Standing.{placed_of, IsPlaceOf};

use crate::mode::text_mode;
use crate::names::{begin_wire_name, chain_wire_name, column_strobe_name, row_name};
use crate::places::{Place, tile_of};
use fab_base::{Memory, Name};
use fab_bits::digits;
use fab_fabric::Fabric;
use fab_gen_tile::{part, same_join, side_border};
use fab_model::{Dir, Mode, WireRow};
use fab_prim::{conditional, operation, variable};
use fab_syntax::{Expr, Item, Join, Op, Shape, Word};
use std::alloc::Global;

/// Adds what carries the configuration bits to the tiles at these places: the loader with its wires and the strobes of the columns, or
/// the wires of the chain.
pub fn push_carrying(
    alloc: Global,
    items: &mut Vec<Item>,
    fabric: &Fabric,
    places: &[Place],
) -> Result<(), Memory>
    requires { map (placed_of fabric.now) places.now ≡ placed_tiles fabric.now }
    ensures { OnOk result (map plain_item items.new.items
        ≡ map plain_item items.old.items ++ carrying_items (text_mode fabric.now) fabric.now) }
{
    match text_mode(fabric) {
        Mode::Frames => push_frame_items(alloc, items, fabric),
        Mode::Chain => push_chain_wires(alloc, items, places),
    }
}

// Adds the wires of a chain, one behind the bits of each tile.
fn push_chain_wires(alloc: Global, items: &mut Vec<Item>, places: &[Place]) -> Result<(), Memory>
    ensures { OnOk result (map plain_item items.new.items
        ≡ map plain_item items.old.items ++ map (λ place. wire shapes.Scalar (chain_wire_name place.x place.y)) places.now) }
{
    for place in places {
        let name = chain_wire_name(alloc, place.x, place.y)?;
        items.push(Item::Wire(Shape::Scalar, name))?;
    }
    Ok(())
}

fn push_frame_items(alloc: Global, items: &mut Vec<Item>, fabric: &Fabric) -> Result<(), Memory>
    ensures { OnOk result (map plain_item items.new.items ≡ map plain_item items.old.items ++ frame_items fabric.now) }
{
    push_loader_wires(alloc, items, fabric.rows())?;
    items.push(loader_instance(alloc, fabric.rows())?)?;
    push_strobe_wires(alloc, items, fabric.columns())?;
    push_strobes(alloc, items, fabric.columns())
}

// ---- the loader

// Adds the wires of the loader's outputs.
fn push_loader_wires(alloc: Global, items: &mut Vec<Item>, rows: u32) -> Result<(), Memory>
    ensures { OnOk result (map plain_item items.new.items ≡ map plain_item items.old.items ++ loader_wires rows) }
{
    items.push(Item::Wire(Shape::Vector(32), Name::of(alloc, b"Address")?))?;
    items.push(Item::Wire(Shape::Scalar, Name::of(alloc, b"Strobe")?))?;
    push_row_wires(alloc, items, rows)
}

// Adds the wires of the frame data of each row of tiles.
fn push_row_wires(alloc: Global, items: &mut Vec<Item>, rows: u32) -> Result<(), Memory>
    ensures { OnOk result (map plain_item items.new.items
        ≡ map plain_item items.old.items ++ counted rows (λ y. wire (shapes.Vector 32) (row_port y))) }
{
    for y in 0..rows {
        items.push(Item::Wire(Shape::Vector(32), row_name(alloc, y)?))?;
    }
    Ok(())
}

// The instance of the loader.
fn loader_instance(alloc: Global, rows: u32) -> Result<Item, Memory>
    ensures { IfOk result (λ item. plain_item item ≡ loader_instance rows) }
{
    let of = Name::of(alloc, b"ConfigLoader")?;
    let name = Name::of(alloc, b"fab_loader")?;
    Ok(Item::Instance(of, name, loader_joins(alloc, rows)?))
}

fn loader_joins(alloc: Global, rows: u32) -> Result<Vec<Join>, Memory>
    ensures { IfOk result (λ joins. map plain_join joins.items ≡ loader_joins rows) }
{
    let mut joins = Vec::new(alloc);
    joins.push(same_join(alloc, b"CLK")?)?;
    joins.push(same_join(alloc, b"WriteStrobe")?)?;
    joins.push(same_join(alloc, b"WriteData")?)?;
    joins.push(same_join(alloc, b"Address")?)?;
    joins.push(same_join(alloc, b"Strobe")?)?;
    push_row_joins(alloc, &mut joins, rows)?;
    Ok(joins)
}

// Adds the frame data of each row of tiles.
fn push_row_joins(alloc: Global, joins: &mut Vec<Join>, rows: u32) -> Result<(), Memory>
    ensures { OnOk result (map plain_join joins.new.items
        ≡ map plain_join joins.old.items ++ counted rows (λ y. same_join (row_port y))) }
{
    for y in 0..rows {
        let name = row_name(alloc, y)?;
        joins.push(same_join(alloc, name.bytes())?)?;
    }
    Ok(())
}

// ---- strobes

// Adds the wires of the strobes of each column.
fn push_strobe_wires(alloc: Global, items: &mut Vec<Item>, columns: u32) -> Result<(), Memory>
    ensures { OnOk result (map plain_item items.new.items
        ≡ map plain_item items.old.items ++ counted columns (λ x. wire (shapes.Vector 20) (column_strobe_name x))) }
{
    for x in 0..columns {
        items.push(Item::Wire(Shape::Vector(20), column_strobe_name(alloc, x)?))?;
    }
    Ok(())
}

// Adds the strobes of each column.
fn push_strobes(alloc: Global, items: &mut Vec<Item>, columns: u32) -> Result<(), Memory>
    ensures { OnOk result (map plain_item items.new.items ≡ map plain_item items.old.items ++ counted columns column_strobes) }
{
    for x in 0..columns {
        items.push(column_strobes(alloc, x)?)?;
    }
    Ok(())
}

// The strobes of a column: the low bits of the address, where it names the column and the strobe is 1, else 0.
fn column_strobes(alloc: Global, x: u32) -> Result<Item, Memory>
    ensures { IfOk result (λ item. plain_item item ≡ column_strobes x) }
{
    let strobe = variable(alloc, b"Strobe")?;
    let test = operation(alloc, Op::And, strobe, names_column(alloc, x)?)?;
    let frames = part(alloc, b"Address", 19, 0)?;
    let none = Expr::Const(Word::from(digits(alloc, 20, 0)?));
    let value = conditional(alloc, test, frames, none)?;
    Ok(Item::Assign(column_strobe_name(alloc, x)?, value))
}

// Whether the address names a column.
fn names_column(alloc: Global, x: u32) -> Result<Expr, Memory>
    ensures { IfOk result (λ e. plain_expr e ≡ names_column x) }
{
    let column = part(alloc, b"Address", 31, 27)?;
    let number = Expr::Const(Word::from(digits(alloc, 5, x)?));
    operation(alloc, Op::Equal, column, number)
}

// ---- wires between tiles

/// Adds the wires of the border bits that go out of the tiles at these places.
#[tactic(auto, using(crate::proofs::Steps::seen_more))]
pub fn push_begin_wires(
    alloc: Global,
    items: &mut Vec<Item>,
    fabric: &Fabric,
    places: &[Place],
) -> Result<(), Memory>
    requires { All (IsPlaceOf fabric.now) places.now }
    ensures { OnOk result (map plain_item items.new.items
        ≡ map plain_item items.old.items ++ flat_map tile_begin_wires (map (placed_of fabric.now) places.now)) }
{
    for place in places {
        push_tile_wires(alloc, items, *place, tile_of(fabric, *place).rows())?;
    }
    Ok(())
}

fn push_tile_wires(
    alloc: Global,
    items: &mut Vec<Item>,
    place: Place,
    rows: &[WireRow],
) -> Result<(), Memory>
    ensures { OnOk result (map plain_item items.new.items
        ≡ map plain_item items.old.items ++ flat_map (row_begin_wires place.x place.y) rows.now) }
{
    for row in rows {
        push_begin_bits(alloc, items, place, row)?;
    }
    Ok(())
}

// Adds those of a row; a jump has none.
fn push_begin_bits(
    alloc: Global,
    items: &mut Vec<Item>,
    place: Place,
    row: &WireRow,
) -> Result<(), Memory>
    ensures { OnOk result (map plain_item items.new.items
        ≡ map plain_item items.old.items ++ row_begin_wires place.x place.y row.now) }
{
    if row.dir == Dir::Jump {
        return Ok(());
    }
    push_bits(alloc, items, place, row)
}

fn push_bits(
    alloc: Global,
    items: &mut Vec<Item>,
    place: Place,
    row: &WireRow,
) -> Result<(), Memory>
    ensures { OnOk result (map plain_item items.new.items ≡ map plain_item items.old.items
        ++ counted (side_border row.now row.now.source) (λ bit. wire shapes.Scalar (begin_wire_name place.x place.y row.now bit))) }
{
    for bit in 0..side_border(row, &row.source) {
        let name = begin_wire_name(alloc, place.x, place.y, row, bit)?;
        items.push(Item::Wire(Shape::Scalar, name))?;
    }
    Ok(())
}
