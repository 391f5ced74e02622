//! The places of a tile's configuration bits, from its table or by default.

ghost use Rattle.std.specs.Prelude.{◌≡◌, ◌<◌, ◌≤◌, IfOk, IfErr, Some, option_copied};
ghost use Rattle.std.specs.Option.{ForSome};
ghost use Rattle.fab_files.specs.Files.{HasReadCause};
ghost use Rattle.fab_model.specs.Tables.{HasTable};
ghost use Rattle.fab_model.specs.Tiles.{tile_bits, with_table};
ghost use Rattle.fab_read.specs.Tiles.{table_file, HasDefaultPlaces, ReadsTable, MeetsTable};

use fab_base::{Fault, Memory, Name};
use fab_desk::Desk;
use fab_files::fetch_if_there;
use fab_model::{FrameTable, TileType};
use fab_paths::resolve;
use fab_tables::{MAX_BITS, default_table, read_config_table};
use std::alloc::Global;

/// The file of a tile's table, beside the file that holds its block.
pub fn table_file(alloc: Global, file: &Name, name: &Name) -> Result<Option<Name>, Memory>
    ensures { IfOk result (λ found. found ≡ table_file file.now name.now) }
{
    let mut path = Vec::from_slice(alloc, name.bytes())?;
    path.extend_from_slice(b"_ConfigMem.csv")?;
    resolve(alloc, file, &path)
}

fn default_places(alloc: Global, tile: &TileType) -> Result<FrameTable, Memory>
    requires { tile_bits tile.now ≤ MAX_BITS }
    ensures places { IfOk result (HasDefaultPlaces (tile_bits tile.now)) }
    ensures table { IfOk result (λ table. HasTable (with_table tile.now table)) }
{
    default_table(alloc, tile.bits())
}

fn read_table<D: Desk>(
    alloc: Global,
    desk: &mut D,
    tile: &TileType,
    file: &Name,
) -> Result<FrameTable, Fault>
    requires { tile_bits tile.now ≤ MAX_BITS }
    ensures told { D.told desk.new ≡ D.told desk.old }
    ensures writes { D.writes desk.new ≡ D.writes desk.old }
    ensures reads { D.reads desk.old ≤ D.reads desk.new }
    ensures table { IfOk result (λ table. HasTable (with_table tile.now table)) }
    ensures read { ForSome (D.told desk.old) (λ files. IfOk result (ReadsTable files tile.now (Some file.now))) }
    ensures cause { IfErr result (HasReadCause (D.told desk.old) (D.reads desk.old < D.reads desk.new) (λ files. MeetsTable files tile.now (Some file.now))) }
{
    match fetch_if_there(alloc, desk, file)? {
        None => Ok(default_places(alloc, tile)?),
        Some(bytes) => read_config_table(alloc, file, &bytes, tile),
    }
}

/// The places of a tile's configuration bits, by the table of this file where there is one.
pub fn read_places<D: Desk>(
    alloc: Global,
    desk: &mut D,
    tile: &TileType,
    file: Option<&Name>,
) -> Result<FrameTable, Fault>
    requires { tile_bits tile.now ≤ MAX_BITS }
    ensures told { D.told desk.new ≡ D.told desk.old }
    ensures writes { D.writes desk.new ≡ D.writes desk.old }
    ensures reads { D.reads desk.old ≤ D.reads desk.new }
    ensures table { IfOk result (λ table. HasTable (with_table tile.now table)) }
    ensures read { ForSome (D.told desk.old) (λ files. IfOk result (ReadsTable files tile.now (option_copied file.entry))) }
    ensures cause { IfErr result (HasReadCause (D.told desk.old) (D.reads desk.old < D.reads desk.new) (λ files. MeetsTable files tile.now (option_copied file.entry))) }
{
    match file {
        None => Ok(default_places(alloc, tile)?),
        Some(file) => read_table(alloc, desk, tile, file),
    }
}
