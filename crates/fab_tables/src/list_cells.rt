//! The two cells of a row of a switch list.

ghost use Rattle.std.specs.Prelude.{◌≡◌, ◌&&◌, ◌||◌, ◌++◌, false, length, IfOk, option_map};
ghost use Rattle.std.specs.List.{find, list_all, zip};
ghost use Rattle.fab_base.specs.Reading.{Answers};
ghost use Rattle.fab_lines.specs.Names.{is_wire_name};
ghost use Rattle.fab_lines.specs.Order.{judged};
ghost use Rattle.fab_tables.specs.Cells.{has_bad_number, is_cell_byte};
ghost use Rattle.fab_tables.specs.Lists.{
  are_wide,
  both_names,
  cells_problem,
  is_long,
  is_wide,
  judged_names,
  long_problem,
  size,
  sizes_problem,
  weighed_problem,
  BothNames,
};

use crate::cell::{has_bad_number, has_brackets, has_only_cell_bytes, has_signs};
use crate::expansion::{MAX_NAMES, count, names};
use fab_base::{Memory, Name, Problem, Quantity, Reason};
use fab_lines::is_wire_name;
use std::alloc::Global;

/// The most bytes of a name in a table.
const MAX_NAME_BYTES: usize = 64;

fn have_bad_number(output: &[u8], input: &[u8]) -> bool
    ensures { result ≡ (has_bad_number output.now || has_bad_number input.now) }
{
    has_bad_number(output) || has_bad_number(input)
}

fn have_only_cell_bytes(output: &[u8], input: &[u8]) -> bool
    ensures { result ≡ (list_all is_cell_byte output.now && list_all is_cell_byte input.now) }
{
    has_only_cell_bytes(output) && has_only_cell_bytes(input)
}

/// How many names a cell has, up to the greatest number of 64 bits; none where its brackets do not match.
fn size(alloc: Global, cell: &[u8]) -> Result<Option<u64>, Memory>
    requires { has_bad_number cell.now ≡ false }
    ensures { IfOk result (λ found. found ≡ size cell.now) }
{
    if !has_signs(cell) {
        return Ok(Some(1));
    }
    if has_brackets(alloc, cell)? {
        Ok(Some(count(alloc, cell)?))
    } else {
        Ok(None)
    }
}

fn is_wide(size: Option<u64>) -> bool
    ensures { result ≡ is_wide size }
{
    match size {
        Some(number) => number > MAX_NAMES,
        None => false,
    }
}

fn are_wide(output: Option<u64>, input: Option<u64>) -> bool
    ensures { result ≡ are_wide output input }
{
    is_wide(output) || is_wide(input)
}

/// The names of a cell that are judged.
fn judged_names(
    alloc: Global,
    wide: bool,
    known: Option<u64>,
    cell: &[u8],
) -> Result<Vec<Name>, Memory>
    requires numbered { has_bad_number cell.now ≡ false }
    requires counted { known ≡ size cell.now }
    requires weighed { wide ≡ false → is_wide known ≡ false }
    ensures { IfOk result (λ found. found.items ≡ judged_names wide known cell.now) }
{
    match known {
        None => Ok(Vec::new(alloc)),
        Some(_) => {
            if wide {
                Ok(Vec::new(alloc))
            } else {
                names(alloc, cell)
            }
        }
    }
}

/// Whether all are names of wires.
pub fn are_wire_names(names: &[Name]) -> bool
    ensures { result ≡ list_all is_wire_name names.now }
{
    names.iter().all(|name| is_wire_name(name.bytes()))
}

fn have_wire_names(outputs: &[Name], inputs: &[Name]) -> bool
    ensures { result ≡ (list_all is_wire_name outputs.now && list_all is_wire_name inputs.now) }
{
    are_wire_names(outputs) && are_wire_names(inputs)
}

/// Why two cells of these sizes are refused, if they are.
fn sizes_problem(output: Option<u64>, input: Option<u64>) -> Option<Problem>
    ensures { result ≡ sizes_problem output input }
{
    let (Some(outputs), Some(inputs)) = (output, input) else {
        return Some(Problem::Malformed(Reason::Bracket));
    };
    if outputs != inputs {
        return Some(Problem::Malformed(Reason::CountsDiffer));
    }
    if outputs > MAX_NAMES {
        return Some(Problem::Limit(Quantity::ExpandedNames, outputs, MAX_NAMES));
    }
    None
}

/// The names of both cells, where no brace and no byte of them is refused.
fn weighed_names(
    alloc: Global,
    output: &[u8],
    input: &[u8],
) -> Result<(Vec<Name>, Vec<Name>), Problem>
    requires outputs { has_bad_number output.now ≡ false }
    requires inputs { has_bad_number input.now ≡ false }
    ensures { Answers {Y = BothNames} (λ found. (found.0.items, found.1.items)) result
        (judged (weighed_problem output.now input.now) (both_names output.now input.now)) }
{
    let output_size = size(alloc, output)?;
    let input_size = size(alloc, input)?;
    let wide = are_wide(output_size, input_size);
    let outputs = judged_names(alloc, wide, output_size, output)?;
    let inputs = judged_names(alloc, wide, input_size, input)?;
    if !have_wire_names(&outputs, &inputs) {
        return Err(Problem::Malformed(Reason::Name));
    }
    match sizes_problem(output_size, input_size) {
        Some(problem) => Err(problem),
        None => Ok((outputs, inputs)),
    }
}

/// The names of outputs and of inputs that two cells expand to.
pub fn cell_names(
    alloc: Global,
    output: &[u8],
    input: &[u8],
) -> Result<(Vec<Name>, Vec<Name>), Problem>
    ensures { Answers {Y = BothNames} (λ found. (found.0.items, found.1.items)) result
        (judged (cells_problem output.now input.now) (both_names output.now input.now)) }
{
    if have_bad_number(output, input) {
        return Err(Problem::Malformed(Reason::Number));
    }
    if !have_only_cell_bytes(output, input) {
        return Err(Problem::Malformed(Reason::Name));
    }
    weighed_names(alloc, output, input)
}

fn is_long(name: &[u8]) -> bool
    ensures { result ≡ is_long name.now }
{
    name.len() > MAX_NAME_BYTES
}

fn first_long(names: &[Name]) -> Option<u64>
    ensures { result ≡ option_map (λ name. length name) (find is_long names.now) }
{
    for name in names {
        if is_long(name.bytes()) {
            return Some(name.bytes().len() as u64);
        }
    }
    None
}

/// Why these names of outputs and inputs are refused for their length, if they are.
pub fn long_problem(outputs: &[Name], inputs: &[Name]) -> Option<Problem>
    ensures { result ≡ long_problem (find is_long (outputs.now ++ inputs.now)) }
{
    match first_long(outputs) {
        Some(bytes) => Some(Problem::Limit(Quantity::NameBytes, bytes, MAX_NAME_BYTES as u64)),
        None => match first_long(inputs) {
            Some(bytes) => Some(Problem::Limit(Quantity::NameBytes, bytes, MAX_NAME_BYTES as u64)),
            None => None,
        },
    }
}

/// The first output with the first input, and so on.
pub fn paired(alloc: Global, outputs: &[Name], inputs: &[Name]) -> Result<Vec<(Name, Name)>, Memory>
    ensures { IfOk result (λ pairs. pairs.items ≡ zip outputs.now inputs.now) }
{
    let mut pairs = Vec::new(alloc);
    for place in 0..outputs.len().min(inputs.len()) {
        let output = outputs[place].copy(alloc)?;
        let input = inputs[place].copy(alloc)?;
        pairs.push((output, input))?;
    }
    Ok(pairs)
}
