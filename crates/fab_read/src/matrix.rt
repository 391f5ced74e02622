//! The switch matrix of a tile, from its file.

ghost use Rattle.std.specs.Prelude.{◌≡◌, ◌<◌, ◌≤◌, All, IfOk, IfErr, Some, true, false, option_copied};
ghost use Rattle.std.specs.Option.{ForSome};
ghost use Rattle.fab_files.specs.Files.{HasReadCause};
ghost use Rattle.fab_model.specs.Tiles.{IsPair};
ghost use Rattle.fab_read.specs.Tiles.{is_table, ReadsMatrix, MeetsMatrix};

use crate::tile_pairs::{TilePairs, pairs_by_number};
use fab_base::{Fault, Name};
use fab_desk::Desk;
use fab_files::fetch;
use fab_list_files::read_list_file;
use fab_model::{Pair, TileType};
use fab_tables::{MatrixNames, read_matrix_csv};
use std::alloc::Global;

fn is_table(file: &[u8]) -> bool
    ensures { result ≡ is_table file.now }
{
    file.ends_with(b".csv")
}

fn read_list<D: Desk>(
    alloc: Global,
    desk: &mut D,
    left: u32,
    tile: &TileType,
    file: &Name,
) -> Result<Vec<Pair>, Fault>
    requires { is_table file.now ≡ false }
    ensures told { D.told desk.new ≡ D.told desk.old }
    ensures writes { D.writes desk.new ≡ D.writes desk.old }
    ensures reads { D.reads desk.old ≤ D.reads desk.new }
    ensures pairs { IfOk result (λ pairs. All (IsPair tile.now) pairs.items) }
    ensures read { ForSome (D.told desk.old) (λ files. IfOk result (λ pairs. ReadsMatrix files left tile.now (Some file.now) pairs.items)) }
    ensures cause { IfErr result (HasReadCause (D.told desk.old) (D.reads desk.old < D.reads desk.new) (λ files. MeetsMatrix files left tile.now (Some file.now))) }
{
    let names = MatrixNames::new(alloc, tile)?;
    let mut listed = TilePairs::new(alloc, &names);
    read_list_file(alloc, desk, &mut listed, left, file)?;
    let pairs = listed.into_pairs(alloc)?;
    Ok(pairs_by_number(alloc, &names, &pairs)?)
}

fn read_table<D: Desk>(
    alloc: Global,
    desk: &mut D,
    left: u32,
    tile: &TileType,
    file: &Name,
) -> Result<Vec<Pair>, Fault>
    requires { is_table file.now ≡ true }
    ensures told { D.told desk.new ≡ D.told desk.old }
    ensures writes { D.writes desk.new ≡ D.writes desk.old }
    ensures reads { D.reads desk.old ≤ D.reads desk.new }
    ensures pairs { IfOk result (λ pairs. All (IsPair tile.now) pairs.items) }
    ensures read { ForSome (D.told desk.old) (λ files. IfOk result (λ pairs. ReadsMatrix files left tile.now (Some file.now) pairs.items)) }
    ensures cause { IfErr result (HasReadCause (D.told desk.old) (D.reads desk.old < D.reads desk.new) (λ files. MeetsMatrix files left tile.now (Some file.now))) }
{
    let _ = left;
    let bytes = fetch(alloc, desk, file)?;
    read_matrix_csv(alloc, file, &bytes, tile)
}

/// The pairs of the matrix file of a block, if it has one, where so many INCLUDE rows may be opened in it.
pub fn read_matrix<D: Desk>(
    alloc: Global,
    desk: &mut D,
    left: u32,
    tile: &TileType,
    file: Option<&Name>,
) -> Result<Vec<Pair>, Fault>
    ensures told { D.told desk.new ≡ D.told desk.old }
    ensures writes { D.writes desk.new ≡ D.writes desk.old }
    ensures reads { D.reads desk.old ≤ D.reads desk.new }
    ensures pairs { IfOk result (λ pairs. All (IsPair tile.now) pairs.items) }
    ensures read { ForSome (D.told desk.old) (λ files. IfOk result (λ pairs. ReadsMatrix files left tile.now (option_copied file.entry) pairs.items)) }
    ensures cause { IfErr result (HasReadCause (D.told desk.old) (D.reads desk.old < D.reads desk.new) (λ files. MeetsMatrix files left tile.now (option_copied file.entry))) }
{
    match file {
        None => Ok(Vec::new(alloc)),
        Some(file) => {
            if is_table(file.bytes()) {
                read_table(alloc, desk, left, tile, file)
            } else {
                read_list(alloc, desk, left, tile, file)
            }
        }
    }
}
