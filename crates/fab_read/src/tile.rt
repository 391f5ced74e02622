//! A tile, from its block and the files that it names.

ghost use Rattle.std.specs.Prelude.{◌≡◌, ◌<◌, ◌≤◌, ℕ, All, None, Some, Ok, IfOk, IfErr, find, length, map, nat_eq, nat_lt, slice_index_or};
ghost use Rattle.std.specs.Option.{ForSome};
ghost use Rattle.fab_base.specs.Reading.{Answers};
ghost use Rattle.fab_blocks.specs.Blocks.{bare};
ghost use Rattle.fab_files.specs.Files.{HasReadCause};
ghost use Rattle.fab_list_files.specs.Sides.{crowd, input_count, most_inputs};
ghost use Rattle.fab_model.specs.Tables.{HasTable};
ghost use Rattle.fab_model.specs.Tiles.{pair_numbers, tile_bits, with_pairs, IsPair};
ghost use Rattle.fab_read.specs.inner.Following.{judged_tile, judged_pairs, ReadsPaired};
ghost use Rattle.fab_read.specs.Tiles.{ReadsTile, MeetsTile};

use crate::matrix::read_matrix;
use crate::table::{read_places, table_file};
use fab_base::{Fault, Memory, Name, Problem, Quantity};
use fab_blocks::Block;
use fab_desk::Desk;
use fab_list_files::MOST_INPUTS;
use fab_model::{Pair, TileType};
use fab_tables::MAX_BITS;
use std::alloc::Global;
use std::marker::Model;

/// The most matrix names of a tile.
const MOST_NAMES: u64 = 4096;

/// Where a block ends: the file and the line of its end, and how many INCLUDE rows may still be opened there.
#[derive(Drop)]
pub struct End<'a> {
    pub file: &'a Name,
    pub line: u32,
    pub left: u32,
}

impl<'a> Model for End<'a> {
    ghost use Rattle.fab_read.specs.Tiles.{End as PlainEnd};

    ghost Value = { PlainEnd };

    ghost view = { λ end. record { file = end.file.now; line = end.line; left = end.left } };
}

/// How many inputs each of so many matrix names has.
fn input_counts(alloc: Global, names: usize, pairs: &[Pair]) -> Result<Vec<u64>, Memory>
    requires { All (λ pair. pair.output < names) pairs.now }
    ensures { IfOk result (λ counts. (output : ℕ) → slice_index_or counts.items output 0 ≡ input_count nat_eq (map pair_numbers pairs.now) output) }
{
    let mut counts: Vec<u64> = vec![in alloc; 0; names]?;
    for pair in pairs {
        let place = pair.output as usize;
        counts[place] = counts[place].checked_add(1).ok_or(Memory)?;
    }
    Ok(counts)
}

fn count_at(counts: &[u64], output: u32) -> u64
    ensures { result ≡ slice_index_or counts.now output 0 }
{
    counts.get(output as usize).copied().unwrap_or(0)
}

fn first_crowd(counts: &[u64], pairs: &[Pair]) -> Option<u64>
    ensures { result ≡ find (nat_lt most_inputs) (map (λ pair. slice_index_or counts.now pair.output 0) pairs.now) }
{
    pairs
        .iter()
        .map(|pair| count_at(counts, pair.output))
        .find(|count| *count > MOST_INPUTS)
}

/// How many inputs the first output has that has too many, if one has.
fn find_crowd(alloc: Global, tile: &TileType, pairs: &[Pair]) -> Result<Option<u64>, Memory>
    requires { All (IsPair tile.now) pairs.now }
    ensures { IfOk result (λ found. found ≡ crowd nat_eq (map pair_numbers pairs.now)) }
{
    let counts = input_counts(alloc, tile.matrix_names() as usize, pairs)?;
    Ok(first_crowd(&counts, pairs))
}

/// The tile of a block without its pairs, and the file of its switch matrix.
fn bare_tile(alloc: Global, block: Block) -> Result<(TileType, Option<Name>), Problem>
    ensures { Answers (λ made. made) result (judged_tile block) }
{
    let count = block.count_names();
    if count > MOST_NAMES {
        return Err(Problem::Limit(Quantity::MatrixNames, count, MOST_NAMES));
    }
    let file = match block.matrix() {
        Some(file) => Some(file.copy(alloc)?),
        None => None,
    };
    Ok((block.into_tile(alloc)?, file))
}

/// Gives a tile its pairs.
fn set_pairs(alloc: Global, tile: &mut TileType, pairs: Vec<Pair>) -> Result<(), Problem>
    requires { All (IsPair tile.old) pairs.items }
    ensures { Answers (λ _. tile.new) result (judged_pairs tile.old pairs.items) }
{
    if let Some(inputs) = find_crowd(alloc, tile, &pairs)? {
        return Err(Problem::Limit(Quantity::InputsOfAnOutput, inputs, MOST_INPUTS));
    }
    tile.set_pairs(alloc, pairs)?;
    if tile.bits() > MAX_BITS {
        let bits = u64::from(tile.bits());
        return Err(Problem::Limit(Quantity::ConfigurationBits, bits, u64::from(MAX_BITS)));
    }
    Ok(())
}

/// The tile of a block with the pairs of its switch matrix.
fn read_paired<D: Desk>(
    alloc: Global,
    desk: &mut D,
    end: &End,
    block: Block,
) -> Result<TileType, Fault>
    ensures told { D.told desk.new ≡ D.told desk.old }
    ensures writes { D.writes desk.new ≡ D.writes desk.old }
    ensures reads { D.reads desk.old ≤ D.reads desk.new }
    ensures name { IfOk result (λ tile. tile.name ≡ block.name) }
    ensures bels { IfOk result (λ tile. tile.bels ≡ block.bels) }
    ensures few_bits { IfOk result (λ tile. tile_bits tile ≤ MAX_BITS) }
    ensures read { ForSome (D.told desk.old) (λ files. IfOk result (ReadsPaired files end.now block)) }
    ensures cause { IfErr result (HasReadCause (D.told desk.old) (D.reads desk.old < D.reads desk.new) (λ files. MeetsTile files end.now block)) }
{
    let (mut tile, file) = match bare_tile(alloc, block) {
        Ok(made) => made,
        Err(problem) => return Err(problem.at(alloc, end.file, end.line)),
    };
    let pairs = read_matrix(alloc, desk, end.left, &tile, file.as_ref())?;
    match set_pairs(alloc, &mut tile, pairs) {
        Ok(()) => Ok(tile),
        Err(problem) => Err(problem.at(alloc, end.file, end.line)),
    }
}

/// The tile of a block with its switch matrix and the places of its configuration bits.
pub fn read_tile<D: Desk>(
    alloc: Global,
    desk: &mut D,
    end: &End,
    block: Block,
) -> Result<TileType, Fault>
    ensures told { D.told desk.new ≡ D.told desk.old }
    ensures writes { D.writes desk.new ≡ D.writes desk.old }
    ensures reads { D.reads desk.old ≤ D.reads desk.new }
    ensures name { IfOk result (λ tile. tile.name ≡ block.name) }
    ensures bels { IfOk result (λ tile. tile.bels ≡ block.bels) }
    ensures table { IfOk result HasTable }
    ensures read { ForSome (D.told desk.old) (λ files. IfOk result (ReadsTile files end.now block)) }
    ensures cause { IfErr result (HasReadCause (D.told desk.old) (D.reads desk.old < D.reads desk.new) (λ files. MeetsTile files end.now block)) }
{
    let mut tile = read_paired(alloc, desk, end, block)?;
    let file = table_file(alloc, end.file, tile.name())?;
    let table = read_places(alloc, desk, &tile, file.as_ref())?;
    tile.set_table(table);
    Ok(tile)
}
