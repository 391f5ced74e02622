//! The rows of a matrix table, judged one after the other.

ghost use Rattle.std.specs.Prelude.{◌≡◌, ◌≢◌, ◌≤◌, ◌∷◌, ◌++◌, [], All, IfErr, IfOk, IsOkUnless, OnOk, Some, false, length, max, option_map, unwrap_or};
ghost use Rattle.std.specs.List.{list_all, list_any};
ghost use Rattle.std.specs.Str.{bytes_eq};
ghost use Rattle.std.specs.Str.Lines.{lines};
ghost use Rattle.fab_base.specs.declared.fault.Fault.TheVariants as faults;
ghost use Rattle.fab_base.specs.Reading.{Answers, Gives};
ghost use Rattle.fab_lines.specs.Order.{judged, IsTextFault, IsWhole};
ghost use Rattle.fab_bits.specs.Keys.{key_names};
ghost use Rattle.fab_model.specs.Tiles.{IsPair};
ghost use Rattle.fab_rows.specs.Rows.{rows_of};
ghost use Rattle.fab_tables.specs.Matrix.{
  cells_behind,
  input_numbers,
  inputs_problem,
  is_binary,
  matrix_format,
  names_twice,
  output_number,
  output_of,
  output_problem,
  pairs_with,
  SpellsMatrix,
};
ghost use Rattle.fab_tables.specs.inner.FollowingMatrix.{after_cells, behind_inputs, known_inputs, matrix_of, unless_begun};

use crate::list_cells::{are_wire_names, long_problem};
use crate::matrix_names::MatrixNames;
use fab_base::{Fault, MAX_FILE_BYTES, Memory, Name, Problem, Reason};
use fab_lines::{is_wire_name, last_line};
use fab_model::{Pair, TileType};
use fab_rows::{Row, RowReader, read_rows, rows};
use indexmap::IndexSet;
use std::alloc::Global;
use std::marker::Model;

/// The cells behind the first.
fn cells_behind(cells: &[Name]) -> &[Name]
    ensures { result.now ≡ cells_behind cells.now }
{
    match cells {
        [] => &[],
        [_first, rest @ ..] => rest,
    }
}

fn is_among(names: &IndexSet<Vec<u8>>, name: &[u8]) -> bool
    ensures { result ≡ list_any (bytes_eq name.now) (key_names names.now.keys) }
{
    names.contains(name)
}

fn insert_name(alloc: Global, names: &mut IndexSet<Vec<u8>>, name: &[u8]) -> Result<(), Memory>
    requires { list_any (bytes_eq name.now) (key_names names.old.keys) ≡ false }
    ensures { OnOk result (key_names names.new.keys ≡ key_names names.old.keys ++ name.now ∷ []) }
{
    let key = Vec::from_slice(alloc, name)?;
    names.insert(key)?;
    Ok(())
}

/// Whether some name stands twice.
fn names_twice(alloc: Global, names: &[Name]) -> Result<bool, Memory>
    ensures { IfOk result (λ twice. twice ≡ names_twice [] names.now) }
{
    let mut seen = IndexSet::new(alloc);
    for name in names {
        if is_among(&seen, name.bytes()) {
            return Ok(true);
        }
        insert_name(alloc, &mut seen, name.bytes())?;
    }
    Ok(false)
}

/// The numbers of inputs by name; none where some name is that of no input.
fn numbers_of(
    alloc: Global,
    names: &MatrixNames,
    inputs: &[Name],
) -> Result<Option<Vec<u32>>, Memory>
    ensures { IfOk result (λ found. option_map (λ numbers. numbers.items) found ≡ known_inputs names.now inputs.now) }
{
    let mut numbers = Vec::new(alloc);
    for input in inputs {
        let Some(number) = names.input(input.bytes()) else {
            return Ok(None);
        };
        numbers.push(number)?;
    }
    Ok(Some(numbers))
}

/// The numbers of the inputs that a first row names.
fn take_inputs(alloc: Global, names: &MatrixNames, inputs: &[Name]) -> Result<Vec<u32>, Problem>
    ensures { Answers (λ numbers. numbers.items) result (judged (inputs_problem names.now inputs.now) (input_numbers names.now inputs.now)) }
{
    if !are_wire_names(inputs) {
        return Err(Problem::Malformed(Reason::Name));
    }
    if names_twice(alloc, inputs)? {
        return Err(Problem::Malformed(Reason::NameTwice));
    }
    let Some(numbers) = numbers_of(alloc, names, inputs)? else {
        return Err(Problem::Malformed(Reason::UnknownName));
    };
    match long_problem(&[], inputs) {
        Some(problem) => Err(problem),
        None => Ok(numbers),
    }
}

fn is_binary(cell: &[u8]) -> bool
    ensures { result ≡ is_binary cell.now }
{
    cell == b"0".as_slice() || cell == b"1".as_slice()
}

fn are_binary(cells: &[Name]) -> bool
    ensures { result ≡ list_all is_binary cells.now }
{
    cells.iter().all(|cell| is_binary(cell.bytes()))
}

/// The number of the output that a row names.
fn output_in(
    names: &MatrixNames,
    inputs: usize,
    outputs: &IndexSet<Vec<u8>>,
    cells: &[Name],
) -> Result<u32, Problem>
    ensures { Answers (λ number. number) result (judged (output_problem names.now inputs (key_names outputs.now.keys) cells.now) (unwrap_or (output_number names.now (output_of cells.now)) 0)) }
{
    let [output, digits @ ..] = cells else {
        return Err(Problem::Malformed(Reason::Row));
    };
    if digits.len() != inputs {
        return Err(Problem::Malformed(Reason::Row));
    }
    if !is_wire_name(output.bytes()) {
        return Err(Problem::Malformed(Reason::Name));
    }
    if is_among(outputs, output.bytes()) {
        return Err(Problem::Malformed(Reason::NameTwice));
    }
    let Some(number) = names.output(output.bytes()) else {
        return Err(Problem::Malformed(Reason::UnknownName));
    };
    if !are_binary(digits) {
        return Err(Problem::Malformed(Reason::Digit));
    }
    match long_problem(&[], &cells[..1]) {
        Some(problem) => Err(problem),
        None => Ok(number),
    }
}

/// Adds the pairs of an output with the inputs whose cells are `1`.
fn push_pairs(
    pairs: &mut Vec<Pair>,
    output: u32,
    inputs: &[u32],
    digits: &[Name],
) -> Result<(), Memory>
    requires { length digits.now ≡ length inputs.now }
    ensures { OnOk result (pairs.new.items ≡ pairs.old.items ++ pairs_with output inputs.now digits.now) }
{
    for place in 0..inputs.len() {
        if digits[place].bytes() == b"1".as_slice() {
            let input = inputs[place];
            pairs.push(Pair { output, input })?;
        }
    }
    Ok(())
}

/// The output that a row names; nothing where it has no cell.
fn output_of(cells: &[Name]) -> &[u8]
    ensures { result.now ≡ output_of cells.now }
{
    match cells.get(0) {
        Some(cell) => cell.bytes(),
        None => &[],
    }
}

/// Takes a row behind the first one.
fn take_output(
    alloc: Global,
    names: &MatrixNames,
    inputs: &[u32],
    outputs: &mut IndexSet<Vec<u8>>,
    pairs: &mut Vec<Pair>,
    cells: &[Name],
) -> Result<(), Problem>
    ensures { Answers (λ _. record { tile = names.now; inputs = Some inputs.now; outputs = key_names outputs.new.keys; pairs = pairs.new.items }) result
        (behind_inputs (record { tile = names.now; inputs = Some inputs.now; outputs = key_names outputs.old.keys; pairs = pairs.old.items }) inputs.now cells.now) }
{
    let output = output_in(names, inputs.len(), outputs, cells)?;
    push_pairs(pairs, output, inputs, cells_behind(cells))?;
    insert_name(alloc, outputs, output_of(cells))?;
    Ok(())
}

fn take_cells(
    alloc: Global,
    names: &MatrixNames,
    inputs: &mut Option<Vec<u32>>,
    outputs: &mut IndexSet<Vec<u8>>,
    pairs: &mut Vec<Pair>,
    cells: &[Name],
) -> Result<(), Problem>
    ensures { Answers (λ _. record { tile = names.now; inputs = option_map (λ inputs. inputs.items) inputs.new; outputs = key_names outputs.new.keys; pairs = pairs.new.items }) result
        (after_cells (record { tile = names.now; inputs = option_map (λ inputs. inputs.items) inputs.old; outputs = key_names outputs.old.keys; pairs = pairs.old.items }) cells.now) }
{
    if let Some(inputs) = inputs {
        return take_output(alloc, names, inputs, outputs, pairs, cells);
    }
    let numbers = take_inputs(alloc, names, cells_behind(cells))?;
    *inputs = Some(numbers);
    Ok(())
}

/// What the rows so far say: the inputs once the first row is taken, the outputs that have a row, and their pairs.
#[derive(Drop)]
struct MatrixRows<'a> {
    names: MatrixNames<'a>,
    inputs: Option<Vec<u32>>,
    outputs: IndexSet<Vec<u8>>,
    pairs: Vec<Pair>,
}

impl<'a> Model for MatrixRows<'a> {
    ghost use Rattle.std.specs.Prelude.{option_map};
    ghost use Rattle.fab_bits.specs.Keys.{key_names};
    ghost use Rattle.fab_tables.specs.inner.FollowingMatrix.{MatrixState};

    ghost Value = { MatrixState };

    ghost view = { λ rows. record { tile = rows.names; inputs = option_map (λ inputs. inputs.items) rows.inputs; outputs = key_names rows.outputs.keys; pairs = rows.pairs.items } };
}

impl<'a> RowReader for MatrixRows<'a> {
    ghost use Rattle.fab_tables.specs.inner.FollowingMatrix.{after_matrix_row};

    ghost after = { after_matrix_row };

    fn take_row(&mut self, alloc: Global, row: &Row) -> Result<(), Problem> {
        take_cells(
            alloc,
            &self.names,
            &mut self.inputs,
            &mut self.outputs,
            &mut self.pairs,
            &row.cells,
        )
    }
}

/// The pairs of a table, where it has a first row.
fn pairs_behind(inputs: &Option<Vec<u32>>, pairs: Vec<Pair>) -> Result<Vec<Pair>, Problem>
    ensures { Answers (λ pairs. pairs.items) result (judged (unless_begun (option_map (λ inputs. inputs.items) inputs.now)) pairs.items) }
{
    if inputs.is_none() {
        return Err(Problem::Malformed(Reason::EndOfFile));
    }
    Ok(pairs)
}

fn read(alloc: Global, file: &Name, bytes: &[u8], tile: &TileType) -> Result<Vec<Pair>, Fault>
    requires { length bytes.now ≤ MAX_FILE_BYTES }
    ensures { Gives (λ pairs. pairs.items) result (matrix_of tile.now file.now (max 1 (length (lines bytes.now))) (rows_of bytes.now)) }
{
    let found = rows(alloc, bytes)?;
    let start = MatrixRows {
        names: MatrixNames::new(alloc, tile)?,
        inputs: None,
        outputs: IndexSet::new(alloc),
        pairs: Vec::new(alloc),
    };
    let MatrixRows { inputs, pairs, .. } = read_rows(alloc, file, &found, start)?;
    match pairs_behind(&inputs, pairs) {
        Ok(pairs) => Ok(pairs),
        Err(problem) => Err(problem.at(alloc, file, last_line(bytes))),
    }
}

/// The pairs of a tile's switch matrix, as a matrix table gives them: row by row, in the order of the inputs.
///
/// `Malformed` comes with the least line that is refused. The reasons are, in the order in which they are tried, `name`, `name
/// twice` and `unknown name` for the first row, and for each other `row`, `name`, `name twice`, `unknown name` and `digit`.
/// `Limit` comes after these, with `name bytes` for a name of the tile that is too long. Where there is no row at all, it is
/// `end of file` at the last line.
pub fn read_matrix_csv(
    alloc: Global,
    file: &Name,
    bytes: &[u8],
    tile: &TileType,
) -> Result<Vec<Pair>, Fault>
    requires { length bytes.now ≤ MAX_FILE_BYTES }
    ensures spelled { IfOk result (λ pairs. SpellsMatrix tile.now (rows_of bytes.now) pairs.items) }
    ensures pairs { IfOk result (λ pairs. All (IsPair tile.now) pairs.items) }
    ensures reads { IsWhole (matrix_format tile.now) (rows_of bytes.now) → IsOkUnless result faults.Memory }
    ensures refusal { IfErr result (λ fault. fault ≢ faults.Memory → IsTextFault (matrix_format tile.now) file.now (rows_of bytes.now) (max 1 (length (lines bytes.now))) fault) }
{
    read(alloc, file, bytes, tile)
}
