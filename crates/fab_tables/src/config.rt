//! The rows of a configuration table, judged one after the other.

ghost use Rattle.std.specs.Prelude.{◌≡◌, ◌≢◌, ◌≤◌, ◌++◌, IfErr, IfOk, IsOkUnless, length, map, max, nat_eq, option_map, true};
ghost use Rattle.std.specs.List.{list_any};
ghost use Rattle.std.specs.Str.Lines.{lines};
ghost use Rattle.fab_base.specs.declared.fault.Fault.TheVariants as faults;
ghost use Rattle.fab_base.specs.declared.problem.Problem.TheVariants as problems;
ghost use Rattle.fab_base.specs.Reading.{Answers, Gives};
ghost use Rattle.fab_lines.specs.Numbers.{capped, is_number, number_of};
ghost use Rattle.fab_lines.specs.Order.{judged, IsTextFault, IsWhole};
ghost use Rattle.fab_model.specs.Tables.{HasTable};
ghost use Rattle.fab_model.specs.Tiles.{tile_bits, with_table};
ghost use Rattle.fab_rows.specs.Rows.{rows_of};
ghost use Rattle.fab_tables.specs.Config.{
  bits_twice,
  cell_at,
  config_format,
  entries_with,
  entry_bits,
  frame_reason,
  header_problem,
  is_header,
  items,
  listed_bits,
  mask_reason,
  or_else,
  outside_reason,
  place_of,
  range_reason,
  shape_reason,
  twice_reason,
  used_bits,
  SpellsTable,
};
ghost use Rattle.fab_tables.specs.inner.FollowingConfig.{after_cells, behind_first, config_of, table_end, table_of, unless_placed};

use crate::entry::Entry;
use crate::mask::{is_mask, used_bits};
use crate::ranges::{are_items, items, listed_bits, listed_count};
use fab_base::{Fault, MAX_FILE_BYTES, Memory, Name, Problem, Reason};
use fab_lines::{capped_number, last_line};
use fab_model::{FrameTable, TileType};
use fab_rows::{Row, RowReader, read_rows, rows};
use std::alloc::Global;
use std::marker::Model;

/// How many frames there are.
const FRAMES: u64 = 20;

/// A cell of a row; an absent one is empty.
fn cell_at(cells: &[Name], place: usize) -> &[u8]
    ensures { result.now ≡ cell_at cells.now place }
{
    match cells.get(place) {
        Some(cell) => cell.bytes(),
        None => &[],
    }
}

fn is_header(cells: &[Name]) -> bool
    ensures { result ≡ is_header cells.now }
{
    cell_at(cells, 0) == b"frame_name".as_slice()
        && cell_at(cells, 1) == b"frame_index".as_slice()
        && cell_at(cells, 2) == b"bits_used_in_frame".as_slice()
        && cell_at(cells, 3) == b"used_bits_mask".as_slice()
        && cell_at(cells, 4) == b"ConfigBits_ranges".as_slice()
}

fn header_problem(cells: &[Name]) -> Option<Problem>
    ensures { result ≡ header_problem cells.now }
{
    if cells.len() != 5 {
        return Some(Problem::Malformed(Reason::Row));
    }
    if !is_header(cells) {
        return Some(Problem::Malformed(Reason::Header));
    }
    None
}

fn is_number(word: &[u8]) -> bool
    ensures { result ≡ is_number word.now }
{
    capped_number(word).is_some()
}

/// The number that a word writes, up to the greatest number of 64 bits.
fn number(word: &[u8]) -> u64
    requires { is_number word.now ≡ true }
    ensures { result ≡ capped (number_of word.now) }
{
    capped_number(word).unwrap_or(0)
}

fn shape_reason(cells: &[Name]) -> Option<Reason>
    ensures { result ≡ shape_reason cells.now }
{
    if cells.len() != 4 && cells.len() != 5 {
        return Some(Reason::Row);
    }
    if !(is_number(cell_at(cells, 1)) && is_number(cell_at(cells, 2))) {
        return Some(Reason::Number);
    }
    None
}

/// Whether a frame stands among those that have a row. There are at most 20.
fn is_named(frames: &[u8], frame: u64) -> bool
    ensures { result ≡ list_any (nat_eq frame) frames.now }
{
    frames.iter().any(|other| frame == u64::from(*other))
}

/// The frame of a row, where it is one that no row before has named.
fn frame_in(frames: &[u8], word: &[u8]) -> Result<u8, Problem>
    requires { is_number word.now ≡ true }
    ensures { Answers (λ frame. frame) result (judged (option_map problems.Malformed (frame_reason frames.now (number_of word.now))) (number_of word.now)) }
{
    let frame = number(word);
    if frame >= FRAMES || is_named(frames, frame) {
        return Err(Problem::Malformed(Reason::Frame));
    }
    Ok(frame as u8)
}

/// The used bits of a row's frame, from the left, which are as many as the word says.
fn ones_in(alloc: Global, mask: &[u8], count: &[u8]) -> Result<Vec<u8>, Problem>
    requires { is_number count.now ≡ true }
    ensures { Answers (λ ones. ones.items) result (judged (option_map problems.Malformed (mask_reason mask.now (number_of count.now))) (used_bits mask.now)) }
{
    if !is_mask(mask) {
        return Err(Problem::Malformed(Reason::Mask));
    }
    let ones = used_bits(alloc, mask)?;
    if ones.len() as u64 != number(count) {
        return Err(Problem::Malformed(Reason::Mask));
    }
    Ok(ones)
}

/// The items of a row's ranges, which list so many bits.
fn items_in(alloc: Global, ranges: &[u8], count: usize) -> Result<Vec<&[u8]>, Problem>
    requires { count ≤ 32 }
    ensures { Answers (λ found. map (λ item. item.now) found.items) result (judged (option_map problems.Malformed (range_reason ranges.now count)) (items ranges.now)) }
{
    let items = items(alloc, ranges)?;
    if !are_items(&items) {
        return Err(Problem::Malformed(Reason::Range));
    }
    if listed_count(&items) != count as u64 {
        return Err(Problem::Malformed(Reason::Range));
    }
    Ok(items)
}

/// The configuration bits that a row lists, so many of those of the tile. They are counted before they are listed.
fn bits_in(alloc: Global, ranges: &[u8], count: usize, tile_bits: u32) -> Result<Vec<u32>, Problem>
    requires { count ≤ 32 }
    ensures { Answers (λ bits. bits.items) result
        (judged (option_map problems.Malformed (or_else (range_reason ranges.now count) (outside_reason tile_bits (listed_bits ranges.now)))) (listed_bits ranges.now)) }
{
    let items = items_in(alloc, ranges, count)?;
    match listed_bits(alloc, &items, tile_bits)? {
        Some(bits) => Ok(bits),
        None => Err(Problem::Malformed(Reason::Bit)),
    }
}

/// Whether a bit has a place. There are at most 640 places.
fn is_placed(entries: &[Entry], bit: u32) -> bool
    ensures { result ≡ list_any (λ entry. nat_eq bit entry.bit) entries.now }
{
    entries.iter().any(|entry| bit == entry.bit)
}

/// Gives configuration bits their places in a frame.
fn push_entries(
    entries: &mut Vec<Entry>,
    frame: u8,
    bits: &[u32],
    ones: &[u8],
) -> Result<(), Problem>
    requires { length bits.now ≡ length ones.now }
    ensures { Answers (λ _. entries.new.items) result
        (judged (option_map problems.Malformed (twice_reason (entry_bits entries.old.items) bits.now)) (entries.old.items ++ entries_with frame bits.now ones.now)) }
{
    for place in 0..bits.len() {
        let bit = bits[place];
        if is_placed(entries, bit) {
            return Err(Problem::Malformed(Reason::Bit));
        }
        let place = (frame, ones[place]);
        entries.push(Entry { bit, place })?;
    }
    Ok(())
}

/// Takes a row behind the first one.
fn take_behind(
    alloc: Global,
    tile_bits: u32,
    frames: &mut Vec<u8>,
    entries: &mut Vec<Entry>,
    cells: &[Name],
) -> Result<(), Problem>
    ensures { Answers (λ _. record { bits = tile_bits; begun = true; frames = frames.new.items; entries = entries.new.items }) result
        (behind_first (record { bits = tile_bits; begun = true; frames = frames.old.items; entries = entries.old.items }) cells.now) }
{
    if let Some(reason) = shape_reason(cells) {
        return Err(Problem::Malformed(reason));
    }
    let frame = frame_in(frames, cell_at(cells, 1))?;
    let ones = ones_in(alloc, cell_at(cells, 3), cell_at(cells, 2))?;
    let bits = bits_in(alloc, cell_at(cells, 4), ones.len(), tile_bits)?;
    push_entries(entries, frame, &bits, &ones)?;
    frames.push(frame)?;
    Ok(())
}

fn take_cells(
    alloc: Global,
    tile_bits: u32,
    begun: &mut bool,
    frames: &mut Vec<u8>,
    entries: &mut Vec<Entry>,
    cells: &[Name],
) -> Result<(), Problem>
    ensures { Answers (λ _. record { bits = tile_bits; begun = begun.new; frames = frames.new.items; entries = entries.new.items }) result
        (after_cells (record { bits = tile_bits; begun = begun.old; frames = frames.old.items; entries = entries.old.items }) cells.now) }
{
    if *begun {
        return take_behind(alloc, tile_bits, frames, entries, cells);
    }
    if let Some(problem) = header_problem(cells) {
        return Err(problem);
    }
    *begun = true;
    Ok(())
}

fn place_of(entries: &[Entry], bit: u32) -> Option<(u8, u8)>
    ensures { result ≡ place_of entries.now bit }
{
    let entry = entries.iter().find(|entry| entry.bit == bit)?;
    Some(entry.place)
}

/// The places of so many configuration bits, where entries give one to each.
fn table_from(alloc: Global, tile_bits: u32, entries: &[Entry]) -> Result<FrameTable, Problem>
    ensures { Answers (λ table. table) result (judged (unless_placed tile_bits entries.now) (table_of tile_bits entries.now)) }
{
    let mut places = Vec::new(alloc);
    for bit in 0..tile_bits {
        let Some(place) = place_of(entries, bit) else {
            return Err(Problem::Malformed(Reason::Bit));
        };
        places.push(place)?;
    }
    Ok(FrameTable::from(places))
}

/// What the rows so far say.
#[derive(Drop)]
struct TableRows {
    tile_bits: u32,
    begun: bool,
    frames: Vec<u8>,
    entries: Vec<Entry>,
}

impl Model for TableRows {
    ghost use Rattle.fab_tables.specs.inner.FollowingConfig.{TableState};

    ghost Value = { TableState };

    ghost view = { λ table. record { bits = table.tile_bits; begun = table.begun; frames = table.frames.items; entries = table.entries.items } };
}

impl RowReader for TableRows {
    ghost use Rattle.fab_tables.specs.inner.FollowingConfig.{after_table_row};

    ghost after = { after_table_row };

    fn take_row(&mut self, alloc: Global, row: &Row) -> Result<(), Problem> {
        take_cells(
            alloc,
            self.tile_bits,
            &mut self.begun,
            &mut self.frames,
            &mut self.entries,
            &row.cells,
        )
    }
}

impl TableRows {
    fn finish(self, alloc: Global) -> Result<FrameTable, Problem>
        ensures { Answers (λ table. table) result (table_end self) }
    {
        if !self.begun {
            return Err(Problem::Malformed(Reason::EndOfFile));
        }
        table_from(alloc, self.tile_bits, &self.entries)
    }
}

fn read(alloc: Global, file: &Name, bytes: &[u8], tile_bits: u32) -> Result<FrameTable, Fault>
    requires { length bytes.now ≤ MAX_FILE_BYTES }
    ensures { Gives (λ table. table) result (config_of tile_bits file.now (max 1 (length (lines bytes.now))) (rows_of bytes.now)) }
{
    let found = rows(alloc, bytes)?;
    let start = TableRows {
        tile_bits,
        begun: false,
        frames: Vec::new(alloc),
        entries: Vec::new(alloc),
    };
    let reader = read_rows(alloc, file, &found, start)?;
    match reader.finish(alloc) {
        Ok(table) => Ok(table),
        Err(problem) => Err(problem.at(alloc, file, last_line(bytes))),
    }
}

/// The places of the configuration bits of a tile, as its configuration table gives them.
///
/// `Malformed` comes with the least line that is refused. The reasons are, in the order in which they are tried, `row` and
/// `header` for the first row, and for each other `row`, `number`, `frame`, `mask`, `range` and `bit`. At the last line it is
/// `end of file` where there is no row, and `bit` where some configuration bit has no place.
pub fn read_config_table(
    alloc: Global,
    file: &Name,
    bytes: &[u8],
    tile: &TileType,
) -> Result<FrameTable, Fault>
    requires { length bytes.now ≤ MAX_FILE_BYTES }
    ensures spelled { IfOk result (λ table. SpellsTable tile.now (rows_of bytes.now) table) }
    ensures table { IfOk result (λ table. HasTable (with_table tile.now table)) }
    ensures reads { IsWhole (config_format tile.now) (rows_of bytes.now) → IsOkUnless result faults.Memory }
    ensures refusal { IfErr result (λ fault. fault ≢ faults.Memory → IsTextFault (config_format tile.now) file.now (rows_of bytes.now) (max 1 (length (lines bytes.now))) fault) }
{
    read(alloc, file, bytes, tile.bits())
}
