//! A fabric from its file.

ghost use Rattle.std.specs.Prelude.{◌≡◌, ◌<◌, ◌≤◌, None, All, IfOk, IfErr, IsOkUnless};
ghost use Rattle.std.specs.Option.{ForSome};
ghost use Rattle.fab_base.specs.declared.fault.Fault.TheVariants as faults;
ghost use Rattle.fab_blocks.specs.Reading.{IsGrid, IsReading};
ghost use Rattle.fab_files.specs.Files.{HasReadCause};
ghost use Rattle.fab_model.specs.Grid.{PlainFabric};
ghost use Rattle.fab_model.specs.Tables.{HasTable};
ghost use Rattle.fab_read.specs.Fabrics.{column_count, grid_fabric, strange_line, SpellsFabric, MeetsFabric};

use crate::grid::{count_wires, places, strange_line};
use crate::rows::take_file;
use fab_base::{Fault, Name, Problem, Quantity, Reason};
use fab_blocks::{GridLine, Holder, Reading};
use fab_desk::Desk;
use fab_fabric::Fabric;
use fab_list_files::MOST_OPEN;
use fab_model::TileType;
use std::alloc::Global;

/// How many columns the lines of a grid have.
fn column_count(lines: &[GridLine]) -> u32
    requires { IsGrid lines.now }
    ensures { result ≡ column_count lines.now }
{
    match lines {
        [] => 0,
        [first, ..] => first.cells.len() as u32,
    }
}

/// The most wires of a fabric.
const MOST_WIRES: u64 = 1_048_576;

fn read<D: Desk>(alloc: Global, desk: &mut D, name: &Name) -> Result<Fabric, Fault>
    ensures told { D.told desk.new ≡ D.told desk.old }
    ensures writes { D.writes desk.new ≡ D.writes desk.old }
    ensures reads { D.reads desk.old ≤ D.reads desk.new }
    ensures spelled { ForSome (D.told desk.old) (λ files. IfOk result (SpellsFabric files name.now)) }
    ensures cause { IfErr result (HasReadCause (D.told desk.old) (D.reads desk.old < D.reads desk.new) (λ files. MeetsFabric files name.now)) }
{
    let mut reading = Reading::new(alloc);
    let holder = Holder {
        file: name,
        is_fabric: true,
        is_own: true,
        left: MOST_OPEN,
    };
    let last = take_file(alloc, desk, &mut reading, &holder)?;
    let mode = reading.configuration();
    let (types, grid) = reading.into_parts();
    let Some(lines) = grid else {
        return Err(Problem::Malformed(Reason::Grid).at(alloc, name, last));
    };
    if let Some(line) = strange_line(&types, &lines) {
        return Err(Problem::Malformed(Reason::Tile).at(alloc, &line.file, line.line));
    }
    let columns = column_count(&lines);
    let grid = places(alloc, &types, &lines)?;
    let wires = count_wires(&types, columns, lines.len() as u32, &grid)?;
    if wires > MOST_WIRES {
        return Err(Problem::Limit(Quantity::Wires, wires, MOST_WIRES).at(alloc, name, last));
    }
    Ok(Fabric::with_mode(alloc, types, columns, grid, mode)?)
}

/// The fabric that a fabric file spells with all files that it names. A file that spells a fabric is read, unless the device fails or
/// memory is refused.
///
/// `Missing`, `TooLong` and `ReadFault` come for each file that is asked for: the fabric file, those that INCLUDE and `Tile` rows name, and at
/// the end of a tile's block its matrix file and its configuration table, of which the table may be absent. `Malformed`, `Unsupported` and
/// `Limit` come with the first row that is refused. Behind all rows come `grid`, `tile` at the line of the grid, and the limit of `wires`.
pub fn read_fabric<D: Desk>(alloc: Global, desk: &mut D, name: &Name) -> Result<Fabric, Fault>
    ensures told { D.told desk.new ≡ D.told desk.old }
    ensures writes { D.writes desk.new ≡ D.writes desk.old }
    ensures reads { D.reads desk.old ≤ D.reads desk.new }
    ensures spelled { ForSome (D.told desk.old) (λ files. IfOk result (SpellsFabric files name.now)) }
    ensures complete { ForSome (D.told desk.old) (λ files. (fabric : PlainFabric) → SpellsFabric files name.now fabric → D.reads desk.new ≡ D.reads desk.old → IsOkUnless result faults.Memory) }
    ensures cause { IfErr result (HasReadCause (D.told desk.old) (D.reads desk.old < D.reads desk.new) (λ files. MeetsFabric files name.now)) }
{
    read(alloc, desk, name)
}
