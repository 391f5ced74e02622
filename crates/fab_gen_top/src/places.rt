//! The places where tiles stand.

ghost use Rattle.std.specs.Prelude.{◌≡◌, ◌<◌, ◌++◌, All, map, IfOk, OnOk};
ghost use Rattle.fab_fabric.specs.Fabric.{IsFabric};
ghost use Rattle.fab_text_loads_laws.specs.fab_fabric_text_defs_Places.{column_tiles, placed_tiles};
ghost use Rattle.fab_gen_top.specs.inner.Standing.{type_of, placed_of, IsPlaceOf};

use fab_base::Memory;
use fab_fabric::Fabric;
use fab_model::TileType;
use std::alloc::Global;

/// A place where a tile stands, and the number of its type.
#[derive(Clone, Copy, Debug)]
pub struct Place {
    pub x: u32,
    pub y: u32,
    pub number: u32,
}

/// The places where tiles stand, column by column, in a column from the top.
pub fn places_of(alloc: Global, fabric: &Fabric) -> Result<Vec<Place>, Memory>
    ensures places { IfOk result (λ places. map (placed_of fabric.now) places.items ≡ placed_tiles fabric.now) }
    ensures stand { IfOk result (λ places. All (IsPlaceOf fabric.now) places.items) }
{
    fabric.is_well_made();
    let mut places = Vec::new(alloc);
    for x in 0..fabric.columns() {
        push_column(&mut places, fabric, x)?;
    }
    Ok(places)
}

// Adds those of a column.
fn push_column(places: &mut Vec<Place>, fabric: &Fabric, x: u32) -> Result<(), Memory>
    requires is_fabric { IsFabric fabric.now }
    requires column { x < fabric.now.columns }
    requires stand { All (IsPlaceOf fabric.now) places.old.items }
    ensures places { OnOk result (map (placed_of fabric.now) places.new.items
        ≡ map (placed_of fabric.now) places.old.items ++ column_tiles fabric.now x) }
    ensures stand { OnOk result (All (IsPlaceOf fabric.now) places.new.items) }
{
    for y in 0..fabric.rows() {
        match fabric.type_at(x, y) {
            Some(number) => places.push(Place { x, y, number })?,
            None => {}
        }
    }
    Ok(())
}

/// The type of the tile at a place.
pub fn tile_of(fabric: &Fabric, place: Place) -> &TileType
    requires { IsPlaceOf fabric.now place }
    ensures { result.now ≡ type_of fabric.now place.number }
{
    &fabric.types()[place.number as usize]
}
