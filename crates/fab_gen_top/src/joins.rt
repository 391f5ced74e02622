//! The instances of the tiles, and what is joined to their ports.

ghost use Rattle.std.specs.Prelude.{◌≡◌, ◌++◌, ◌∷◌, [], All, Option, map, slice_get, Some, IfOk, IfSome, OnOk};
ghost use Rattle.std.specs.List.{flat_map, enumerate_from};
ghost use Rattle.fab_syntax.specs.Plain.{plain_expr, plain_join, plain_item, variable};
ghost use Rattle.fab_model.specs.Tiles.{counted};
ghost use Rattle.fab_model.specs.Cascade.{previous_row};
ghost use Rattle.fab_prim.specs.Ports.{top_inputs, top_outputs};
ghost use Rattle.fab_fabric.specs.Walks.{placed_at, HasRow};
ghost use Rattle.fab_meaning.specs.Runs.{clock_name};
ghost use Rattle.fab_meaning.specs.Loading.{write_strobe_name};
ghost use Rattle.fab_gen_loader.specs.Loader.{row_port};
ghost use Rattle.fab_gen_tile.specs.Names.{frame_data_name, frame_strobe_name, chain_in_name, chain_out_name, begin_name, end_name, pad_name, port_join, same_join};
ghost use Rattle.fab_gen_tile.specs.Borders.{side_border};
ghost use Rattle.fab_text_loads_laws.specs.fab_fabric_text_defs_Mode.{text_mode};
ghost use Rattle.fab_text_loads_laws.specs.fab_fabric_text_defs_Names.{column_strobe_name, chain_wire_name, begin_wire_name, pad_port_name};
ghost use Rattle.fab_text_loads_laws.specs.fab_fabric_text_defs_Places.{placed_tiles};
ghost use Rattle.fab_text_loads_laws.specs.fab_fabric_text_defs_Top.{config_joins, end_value, numbered_row, row_joins, pad_joins, tile_joins, tile_instance};
ghost use Rattle.fab_gen_top.specs.inner.Standing.{type_of, placed_of, place_before, wire_behind, IsPlaceOf, IsBehind};

use crate::mode::text_mode;
use crate::names::{
    begin_wire_name, chain_wire_name, column_strobe_name, pad_port_name, place_name, row_name,
};
use crate::places::{Place, tile_of};
use fab_base::{Memory, Name};
use fab_fabric::{Fabric, RowAt};
use fab_gen_tile::{begin_name, end_name, pad_name, port_join, prefixed, same_join, side_border};
use fab_kinds::Kind;
use fab_model::{Bel, Dir, Mode, WireRow};
use fab_syntax::{Expr, Item, Join, Word};
use std::alloc::Global;

/// Adds the instances of the tiles at these places, which are all.
#[tactic(auto, using(crate::proofs::Steps::map_seen_more))]
pub fn push_instances(
    alloc: Global,
    items: &mut Vec<Item>,
    fabric: &Fabric,
    places: &[Place],
) -> Result<(), Memory>
    requires places { map (placed_of fabric.now) places.now ≡ placed_tiles fabric.now }
    requires stand { All (IsPlaceOf fabric.now) places.now }
    ensures { OnOk result (map plain_item items.new.items
        ≡ map plain_item items.old.items ++ map (tile_instance fabric.now) (map (placed_of fabric.now) places.now)) }
{
    for (number, place) in places.iter().enumerate() {
        let before = place_before(places, number);
        items.push(tile_instance(alloc, fabric, *place, before)?)?;
    }
    Ok(())
}

// The place before one, by its number.
#[tactic(auto, using(crate::proofs::Chain::none_before, crate::proofs::Chain::one_before))]
fn place_before(places: &[Place], number: usize) -> Option<Place>
    ensures { result ≡ place_before places.now number }
{
    let before = number.checked_sub(1)?;
    places.get(before).copied()
}

// The instance of the tile at a place, with the place before it in the chain.
fn tile_instance(
    alloc: Global,
    fabric: &Fabric,
    place: Place,
    before: Option<Place>,
) -> Result<Item, Memory>
    requires place { IsPlaceOf fabric.now place }
    requires behind { IsBehind fabric.now before place }
    ensures { IfOk result (λ item. plain_item item ≡ tile_instance fabric.now (placed_of fabric.now place)) }
{
    let of = prefixed(alloc, b"tile_", tile_of(fabric, place).name())?;
    let name = place_name(alloc, place.x, place.y)?;
    let joins = tile_joins(alloc, fabric, place, before)?;
    Ok(Item::Instance(of, name, joins))
}

// In the order of the ports of the tile's module.
fn tile_joins(
    alloc: Global,
    fabric: &Fabric,
    place: Place,
    before: Option<Place>,
) -> Result<Vec<Join>, Memory>
    requires place { IsPlaceOf fabric.now place }
    requires behind { IsBehind fabric.now before place }
    ensures { IfOk result (λ joins. map plain_join joins.items ≡ tile_joins fabric.now (placed_of fabric.now place)) }
{
    let mut joins = Vec::new(alloc);
    joins.push(same_join(alloc, b"UserCLK")?)?;
    push_config_joins(alloc, &mut joins, fabric, place, before)?;
    push_rows_joins(
        alloc,
        &mut joins,
        fabric,
        place,
        tile_of(fabric, place).rows(),
    )?;
    push_pads_joins(alloc, &mut joins, place, tile_of(fabric, place).bels())?;
    Ok(joins)
}

// ---- configuration bits

// Adds the ports by which the configuration bits come to a tile.
fn push_config_joins(
    alloc: Global,
    joins: &mut Vec<Join>,
    fabric: &Fabric,
    place: Place,
    before: Option<Place>,
) -> Result<(), Memory>
    requires { IsBehind fabric.now before place }
    ensures { OnOk result (map plain_join joins.new.items ≡ map plain_join joins.old.items
        ++ config_joins (text_mode fabric.now) fabric.now (placed_of fabric.now place)) }
{
    match text_mode(fabric) {
        Mode::Frames => push_frame_joins(alloc, joins, place),
        Mode::Chain => push_chain_joins(alloc, joins, place, before),
    }
}

fn push_frame_joins(alloc: Global, joins: &mut Vec<Join>, place: Place) -> Result<(), Memory>
    ensures { OnOk result (map plain_join joins.new.items ≡ map plain_join joins.old.items
        ++ port_join frame_data_name (variable (row_port place.y))
        ∷ port_join frame_strobe_name (variable (column_strobe_name place.x)) ∷ []) }
{
    let data = Expr::Var(row_name(alloc, place.y)?);
    joins.push(port_join(alloc, b"FrameData", data)?)?;
    let strobe = Expr::Var(column_strobe_name(alloc, place.x)?);
    joins.push(port_join(alloc, b"FrameStrobe", strobe)?)?;
    Ok(())
}

fn push_chain_joins(
    alloc: Global,
    joins: &mut Vec<Join>,
    place: Place,
    before: Option<Place>,
) -> Result<(), Memory>
    ensures { OnOk result (map plain_join joins.new.items ≡ map plain_join joins.old.items
        ++ same_join clock_name ∷ same_join write_strobe_name ∷ port_join chain_in_name (variable (wire_behind before))
        ∷ port_join chain_out_name (variable (chain_wire_name place.x place.y)) ∷ []) }
{
    joins.push(same_join(alloc, b"CLK")?)?;
    joins.push(same_join(alloc, b"WriteStrobe")?)?;
    let comes = Expr::Var(wire_behind(alloc, before)?);
    joins.push(port_join(alloc, b"fab_chain_i", comes)?)?;
    let goes = Expr::Var(chain_wire_name(alloc, place.x, place.y)?);
    joins.push(port_join(alloc, b"fab_chain_o", goes)?)?;
    Ok(())
}

// The wire behind the bits of the tile at a place; before the first tile it is the word's bit that is written.
fn wire_behind(alloc: Global, before: Option<Place>) -> Result<Name, Memory>
    ensures { IfOk result (λ name. name ≡ wire_behind before) }
{
    match before {
        Some(place) => chain_wire_name(alloc, place.x, place.y),
        None => Name::of(alloc, b"WriteData"),
    }
}

// ---- border bits

fn push_rows_joins(
    alloc: Global,
    joins: &mut Vec<Join>,
    fabric: &Fabric,
    place: Place,
    rows: &[WireRow],
) -> Result<(), Memory>
    requires place { IsPlaceOf fabric.now place }
    requires rows { rows.now ≡ (type_of fabric.now place.number).rows }
    ensures { OnOk result (map plain_join joins.new.items ≡ map plain_join joins.old.items
        ++ flat_map (row_joins fabric.now (placed_of fabric.now place)) (enumerate_from 0 rows.now)) }
{
    for (number, row) in rows.iter().enumerate() {
        push_row_joins(alloc, joins, fabric, place, number, row)?;
    }
    Ok(())
}

// Adds the border bits of a row; a jump has none.
fn push_row_joins(
    alloc: Global,
    joins: &mut Vec<Join>,
    fabric: &Fabric,
    place: Place,
    number: usize,
    row: &WireRow,
) -> Result<(), Memory>
    requires place { IsPlaceOf fabric.now place }
    requires row { slice_get (type_of fabric.now place.number).rows number ≡ Some row.now }
    ensures { OnOk result (map plain_join joins.new.items ≡ map plain_join joins.old.items
        ++ row_joins fabric.now (placed_of fabric.now place) (number, row.now)) }
{
    if row.dir == Dir::Jump {
        return Ok(());
    }
    push_border_joins(alloc, joins, fabric, place, number, row)
}

fn push_border_joins(
    alloc: Global,
    joins: &mut Vec<Join>,
    fabric: &Fabric,
    place: Place,
    number: usize,
    row: &WireRow,
) -> Result<(), Memory>
    requires place { IsPlaceOf fabric.now place }
    requires row { slice_get (type_of fabric.now place.number).rows number ≡ Some row.now }
    ensures { OnOk result (map plain_join joins.new.items ≡ map plain_join joins.old.items
        ++ (counted (side_border row.now row.now.source) (λ bit. port_join (begin_name row.now bit) (variable (begin_wire_name place.x place.y row.now bit)))
        ++ counted (side_border row.now row.now.dest) (λ bit. port_join (end_name row.now bit)
        (end_value (previous_row fabric.now (numbered_row (placed_of fabric.now place) number row.now)) bit)))) }
{
    push_begin_joins(alloc, joins, place, row)?;
    let here = RowAt {
        x: place.x,
        y: place.y,
        row: number,
    };
    let previous = fabric.previous_row(here);
    push_end_joins(alloc, joins, fabric, row, previous)
}

// Adds the bits that go out of a row, each with its wire.
fn push_begin_joins(
    alloc: Global,
    joins: &mut Vec<Join>,
    place: Place,
    row: &WireRow,
) -> Result<(), Memory>
    ensures { OnOk result (map plain_join joins.new.items ≡ map plain_join joins.old.items
        ++ counted (side_border row.now row.now.source) (λ bit. port_join (begin_name row.now bit) (variable (begin_wire_name place.x place.y row.now bit)))) }
{
    for bit in 0..side_border(row, &row.source) {
        let wire = begin_wire_name(alloc, place.x, place.y, row, bit)?;
        let port = begin_name(alloc, row, bit)?;
        joins.push(port_join(alloc, port.bytes(), Expr::Var(wire))?)?;
    }
    Ok(())
}

// Adds the bits that come into a row from the row next door, if there is one.
fn push_end_joins(
    alloc: Global,
    joins: &mut Vec<Join>,
    fabric: &Fabric,
    row: &WireRow,
    previous: Option<RowAt>,
) -> Result<(), Memory>
    requires { IfSome previous (HasRow fabric.now) }
    ensures { OnOk result (map plain_join joins.new.items ≡ map plain_join joins.old.items
        ++ counted (side_border row.now row.now.dest) (λ bit. port_join (end_name row.now bit) (end_value (placed_at fabric.now previous) bit))) }
{
    for bit in 0..side_border(row, &row.dest) {
        let value = end_value(alloc, fabric, previous, bit)?;
        let port = end_name(alloc, row, bit)?;
        joins.push(port_join(alloc, port.bytes(), value)?)?;
    }
    Ok(())
}

// What comes into a row: the bit of the row next door, and 0 where there is none.
fn end_value(
    alloc: Global,
    fabric: &Fabric,
    previous: Option<RowAt>,
    bit: u64,
) -> Result<Expr, Memory>
    requires { IfSome previous (HasRow fabric.now) }
    ensures { IfOk result (λ e. plain_expr e ≡ end_value (placed_at fabric.now previous) bit) }
{
    match previous {
        Some(at) => {
            let name = begin_wire_name(alloc, at.x, at.y, fabric.row(at), bit)?;
            Ok(Expr::Var(name))
        }
        None => {
            let mut zero = Vec::new(alloc);
            zero.push(false)?;
            Ok(Expr::Const(Word::from(zero)))
        }
    }
}

// ---- pads

fn push_pads_joins(
    alloc: Global,
    joins: &mut Vec<Join>,
    place: Place,
    bels: &[Bel],
) -> Result<(), Memory>
    ensures { OnOk result (map plain_join joins.new.items
        ≡ map plain_join joins.old.items ++ flat_map (pad_joins place.x place.y) (enumerate_from 0 bels.now)) }
{
    for (number, bel) in bels.iter().enumerate() {
        push_bel_joins(alloc, joins, place, number, bel.kind)?;
    }
    Ok(())
}

// Adds the ports of a BEL to the outside: a pad has some.
fn push_bel_joins(
    alloc: Global,
    joins: &mut Vec<Join>,
    place: Place,
    bel: usize,
    kind: Kind,
) -> Result<(), Memory>
    ensures { OnOk result (map plain_join joins.new.items ≡ map plain_join joins.old.items
        ++ (map (λ port. port_join (pad_name bel port) (variable (pad_port_name place.x place.y bel port))) (top_inputs kind)
        ++ map (λ port. port_join (pad_name bel port) (variable (pad_port_name place.x place.y bel port))) (top_outputs kind))) }
{
    match kind {
        Kind::Io => {
            push_pad_join(alloc, joins, place, bel, b"O_top")?;
            push_pad_join(alloc, joins, place, bel, b"I_top")?;
            push_pad_join(alloc, joins, place, bel, b"T_top")
        }
        Kind::Lut4c | Kind::Mux8 => Ok(()),
    }
}

fn push_pad_join(
    alloc: Global,
    joins: &mut Vec<Join>,
    place: Place,
    bel: usize,
    port: &[u8],
) -> Result<(), Memory>
    ensures { OnOk result (map plain_join joins.new.items ≡ map plain_join joins.old.items
        ++ port_join (pad_name bel port.now) (variable (pad_port_name place.x place.y bel port.now)) ∷ []) }
{
    let wire = Expr::Var(pad_port_name(alloc, place.x, place.y, bel, port)?);
    let name = pad_name(alloc, bel, port)?;
    joins.push(port_join(alloc, name.bytes(), wire)?)?;
    Ok(())
}
