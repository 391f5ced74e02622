//! How many sites of a kind a fabric has.

ghost use Rattle.std.specs.Prelude.{◌≡◌, ◌<◌, ◌≤◌, length};
ghost use Rattle.std.specs.List.{count_by, flat_map};
ghost use Rattle.fab_model.specs.Tiles.{counted};
ghost use Rattle.fab_model.specs.Grid.{tile_at};
ghost use Rattle.fab_fabric.specs.Sites.{same_kind, tile_sites, sites_of_kind};

use super::Fabric;
use fab_model::Bel;
use fab_model::fab_kinds::Kind;

impl Fabric {
    /// How many sites it has with a BEL of a kind.
    pub fn sites(&self, kind: Kind) -> u32
        ensures { result ≡ length (sites_of_kind self.now kind) }
    {
        self.is_well_made();
        let mut count = 0;
        for x in 0..self.columns() {
            count += self.column_sites(kind, x);
        }
        count
    }

    // How many sites of a kind a column has.
    fn column_sites(&self, kind: Kind, x: u32) -> u32
        requires { self.now.rows ≤ 31 }
        ensures count { result ≡ length (flat_map (λ y. tile_sites kind x y (tile_at self.now x y)) (counted self.now.rows (λ y. y))) }
        ensures few { result ≤ 806 }
    {
        let mut count = 0;
        for y in 0..self.rows() {
            count += self.place_sites(kind, x, y);
        }
        count
    }

    // How many sites of a kind the tile at a place has.
    fn place_sites(&self, kind: Kind, x: u32, y: u32) -> u32
        ensures count { result ≡ length (tile_sites kind x y (tile_at self.now x y)) }
        ensures few { result ≤ 26 }
    {
        match self.tile_at(x, y) {
            Some((tile, _)) => count_bels(tile.bels(), kind) as u32,
            None => 0,
        }
    }
}

// How many of the BELs of a tile are of a kind.
fn count_bels(bels: &[Bel], kind: Kind) -> usize
    ensures count { result ≡ count_by (λ bel. same_kind bel.kind kind) bels.now }
    ensures few { result ≤ length bels.now }
{
    bels.iter().filter(|bel| is_kind(bel.kind, kind)).count()
}

// Whether two kinds are the same.
fn is_kind(first: Kind, second: Kind) -> bool
    ensures { result ≡ same_kind first second }
{
    match (first, second) {
        (Kind::Lut4c, Kind::Lut4c) | (Kind::Io, Kind::Io) | (Kind::Mux8, Kind::Mux8) => true,
        _ => false,
    }
}
