//! The sites of a fabric.

ghost use Rattle.std.specs.Prelude.{◌≡◌, ◌<◌, ◌≤◌, ◌++◌, IfOk, OnOk, map, filter, length};
ghost use Rattle.std.specs.List.{flat_map, enumerate_from};
ghost use Rattle.fab_model.specs.Tiles.{counted};
ghost use Rattle.fab_model.specs.Grid.{tile_at};
ghost use Rattle.fab_fabric.specs.Sites.{same_kind, tile_sites, sites_of_kind};

use fab_base::Memory;
use fab_fabric::{Fabric, Site};
use fab_kinds::Kind;
use fab_model::Bel;
use std::alloc::Global;

/// The sites of a fabric that have a BEL of a kind: column by column, in a column from the top, in a tile by letter.
pub fn sites_of_kind(alloc: Global, fabric: &Fabric, kind: Kind) -> Result<Vec<Site>, Memory>
    ensures { IfOk result (λ sites. sites.items ≡ sites_of_kind fabric.now kind) }
{
    let mut sites = Vec::new(alloc);
    for x in 0..fabric.columns() {
        put_column(&mut sites, fabric, kind, x)?;
    }
    Ok(sites)
}

// Adds the sites of a column.
fn put_column(sites: &mut Vec<Site>, fabric: &Fabric, kind: Kind, x: u32) -> Result<(), Memory>
    requires { x < fabric.now.columns }
    ensures { OnOk result (sites.new.items ≡ sites.old.items ++ flat_map (λ y. tile_sites kind x y (tile_at fabric.now x y)) (counted fabric.now.rows (λ y. y))) }
{
    for y in 0..fabric.rows() {
        put_tile(sites, fabric, kind, x, y)?;
    }
    Ok(())
}

// Adds the sites of a tile.
fn put_tile(
    sites: &mut Vec<Site>,
    fabric: &Fabric,
    kind: Kind,
    x: u32,
    y: u32,
) -> Result<(), Memory>
    requires x { x < fabric.now.columns }
    requires y { y < fabric.now.rows }
    ensures { OnOk result (sites.new.items ≡ sites.old.items ++ tile_sites kind x y (tile_at fabric.now x y)) }
{
    let Some(number) = fabric.type_at(x, y) else {
        return Ok(());
    };
    let Some(tile) = fabric.types().get(number as usize) else {
        return Ok(());
    };
    put_bels(sites, tile.bels(), kind, x, y)?;
    Ok(())
}

// Adds the sites of the BELs of a tile.
fn put_bels(sites: &mut Vec<Site>, bels: &[Bel], kind: Kind, x: u32, y: u32) -> Result<(), Memory>
    requires { length bels.now ≤ 26 }
    ensures { OnOk result (sites.new.items ≡ sites.old.items
        ++ map (λ bel. record { x = x; y = y; bel = bel.0 }) (filter (λ bel. same_kind bel.1.kind kind) (enumerate_from 0 bels.now))) }
{
    for (number, bel) in bels.iter().enumerate() {
        if !is_kind(bel.kind, kind) {
            continue;
        }
        let bel = number as u32;
        sites.push(Site { x, y, bel })?;
    }
    Ok(())
}

// Whether two kinds are the same.
fn is_kind(first: Kind, second: Kind) -> bool
    ensures { result ≡ same_kind first second }
{
    match (first, second) {
        (Kind::Lut4c, Kind::Lut4c) | (Kind::Io, Kind::Io) | (Kind::Mux8, Kind::Mux8) => true,
        _ => false,
    }
}
