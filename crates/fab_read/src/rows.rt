//! The rows of a fabric file, with those of the files that it names.

ghost use Rattle.std.specs.Prelude.{◌≡◌, ◌<◌, ◌≤◌, false, All, IfOk, IfErr, OnOk, length};
ghost use Rattle.std.specs.Option.{ForSome};
ghost use Rattle.fab_base.specs.Reading.{Answers};
ghost use Rattle.fab_blocks.specs.Reading.{HasRoom};
ghost use Rattle.fab_blocks.specs.Saying.{said_of};
ghost use Rattle.fab_blocks.specs.declared.standing.OpenBlock.TheVariants as blocks;
ghost use Rattle.fab_files.specs.Files.{HasReadCause};
ghost use Rattle.fab_model.specs.Tables.{HasTable};
ghost use Rattle.fab_rows.specs.Rows.{rows_of};
ghost use Rattle.fab_read.specs.Rows.{is_left_open, ReadsRows, MeetsRows, MeetsRowsFile};
ghost use Rattle.fab_read.specs.Tiles.{MeetsTile};
ghost use Rattle.fab_read.specs.inner.Following.{EndsTile, IsSaid, RowLeads, MeetsRow, ReadsFileTo};

use crate::tile::{End, read_tile};
use fab_base::{Fault, MAX_FILE_BYTES, Problem, Reason};
use fab_blocks::{Block, Holder, Reading, Said};
use fab_desk::Desk;
use fab_files::fetch;
use fab_lines::last_line;
use fab_rows::{Row, next_row};
use std::alloc::Global;

/// Whether a block that began in the file is open.
fn is_left_open(reading: &Reading, holder: &Holder) -> bool
    ensures { result ≡ is_left_open holder.now reading.now }
{
    holder.is_own && reading.is_open(holder.is_fabric)
}

/// What the next row says.
fn take(alloc: Global, reading: &mut Reading, holder: &Holder, row: &Row) -> Result<Said, Problem>
    ensures said { Answers (λ says. (reading.new, says)) result (said_of reading.old holder.now row.now) }
    ensures fine { IfOk result (IsSaid reading.old holder.now reading.new) }
{
    reading.take_row(alloc, holder, row)
}

/// Adds the tile of a block that has ended.
fn end_tile<D: Desk>(
    alloc: Global,
    desk: &mut D,
    reading: &mut Reading,
    end: &End,
    block: Block,
) -> Result<(), Fault>
    requires outside { reading.old.begun ≡ blocks.Outside }
    requires room { HasRoom reading.old.types block.name block.bels }
    ensures told { D.told desk.new ≡ D.told desk.old }
    ensures writes { D.writes desk.new ≡ D.writes desk.old }
    ensures reads { D.reads desk.old ≤ D.reads desk.new }
    ensures tables { OnOk result (All HasTable reading.old.types → All HasTable reading.new.types) }
    ensures read { ForSome (D.told desk.old) (λ files. OnOk result (EndsTile files end.now block reading.old reading.new)) }
    ensures cause { IfErr result (HasReadCause (D.told desk.old) (D.reads desk.old < D.reads desk.new) (λ files. MeetsTile files end.now block)) }
{
    let tile = read_tile(alloc, desk, end, block)?;
    reading.push_tile(tile)?;
    Ok(())
}

/// Takes the next row.
#[cycle(rows)]
fn take_row<D: Desk>(
    alloc: Global,
    desk: &mut D,
    reading: &mut Reading,
    holder: &Holder,
    row: &Row,
) -> Result<(), Fault>
    ensures told { D.told desk.new ≡ D.told desk.old }
    ensures writes { D.writes desk.new ≡ D.writes desk.old }
    ensures reads { D.reads desk.old ≤ D.reads desk.new }
    ensures tables { OnOk result (All HasTable reading.old.types → All HasTable reading.new.types) }
    ensures read { ForSome (D.told desk.old) (λ files. OnOk result (RowLeads files holder.now reading.old row.now reading.new)) }
    ensures cause { IfErr result (HasReadCause (D.told desk.old) (D.reads desk.old < D.reads desk.new) (λ files. MeetsRow files holder.now reading.old row.now)) }
{
    match take(alloc, reading, holder, row) {
        Ok(says) => match says {
            Said::Taken => Ok(()),
            Said::Includes(file) => {
                let other = Holder {
                    file: &file,
                    is_fabric: holder.is_fabric,
                    is_own: !reading.is_open(holder.is_fabric),
                    left: holder.left - 1,
                };
                take_file(alloc, desk, reading, &other)?;
                Ok(())
            }
            Said::NamesTiles(file) => {
                let other = Holder {
                    file: &file,
                    is_fabric: false,
                    is_own: !reading.is_open(false),
                    left: holder.left,
                };
                take_file(alloc, desk, reading, &other)?;
                Ok(())
            }
            Said::EndsTile(block) => {
                let end = End {
                    file: holder.file,
                    line: row.line,
                    left: holder.left,
                };
                end_tile(alloc, desk, reading, &end, block)
            }
        },
        Err(problem) => Err(problem.at(alloc, holder.file, row.line)),
    }
}

/// Takes the rows of a file.
#[cycle(rows)]
fn take_rows<D: Desk>(
    alloc: Global,
    desk: &mut D,
    reading: &mut Reading,
    holder: &Holder,
    bytes: &[u8],
) -> Result<(), Fault>
    requires { length bytes.now ≤ MAX_FILE_BYTES }
    ensures told { D.told desk.new ≡ D.told desk.old }
    ensures writes { D.writes desk.new ≡ D.writes desk.old }
    ensures reads { D.reads desk.old ≤ D.reads desk.new }
    ensures tables { OnOk result (All HasTable reading.old.types → All HasTable reading.new.types) }
    ensures read { ForSome (D.told desk.old) (λ files. OnOk result (ReadsRows files holder.now reading.old (rows_of bytes.now) reading.new)) }
    ensures cause { IfErr result (HasReadCause (D.told desk.old) (D.reads desk.old < D.reads desk.new) (λ files. MeetsRows files holder.now reading.old (rows_of bytes.now))) }
{
    let mut rest = bytes;
    let mut line: u32 = 1;
    while let Some((row, after)) = next_row(alloc, rest, line)? {
        take_row(alloc, desk, reading, holder, &row)?;
        rest = after;
        line = row.line + 1;
    }
    Ok(())
}

/// Takes a file, and gives the number of its last line.
#[cycle(rows)]
pub fn take_file<D: Desk>(
    alloc: Global,
    desk: &mut D,
    reading: &mut Reading,
    holder: &Holder,
) -> Result<u32, Fault>
    ensures told { D.told desk.new ≡ D.told desk.old }
    ensures writes { D.writes desk.new ≡ D.writes desk.old }
    ensures reads { D.reads desk.old ≤ D.reads desk.new }
    ensures tables { OnOk result (All HasTable reading.old.types → All HasTable reading.new.types) }
    ensures closed { OnOk result (is_left_open holder.now reading.new ≡ false) }
    ensures read { ForSome (D.told desk.old) (λ files. IfOk result (ReadsFileTo files holder.now reading.old reading.new)) }
    ensures cause { IfErr result (HasReadCause (D.told desk.old) (D.reads desk.old < D.reads desk.new) (λ files. MeetsRowsFile files holder.now reading.old)) }
{
    let bytes = fetch(alloc, desk, holder.file)?;
    take_rows(alloc, desk, reading, holder, &bytes)?;
    let last = last_line(&bytes);
    if is_left_open(reading, holder) {
        let problem = Problem::Malformed(Reason::EndOfFile);
        return Err(problem.at(alloc, holder.file, last));
    }
    Ok(last)
}
