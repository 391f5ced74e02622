//! The rows of a switch list, judged one after the other.

ghost use Rattle.std.specs.Prelude.{◌≢◌, ◌≤◌, IfErr, IfOk, IsOkUnless, length, max};
ghost use Rattle.std.specs.Str.Lines.{lines};
ghost use Rattle.fab_base.specs.declared.fault.Fault.TheVariants as faults;
ghost use Rattle.fab_base.specs.Reading.{Answers, Gives};
ghost use Rattle.fab_lines.specs.Order.{IsTextFault, IsWhole};
ghost use Rattle.fab_paths.specs.Paths.{file_of};
ghost use Rattle.fab_rows.specs.Rows.{rows_of};
ghost use Rattle.fab_tables.specs.Bodies.{plain_body};
ghost use Rattle.fab_tables.specs.Lists.{body_of, include_body, included, list_format, named_body, pairs_body, row_body, two_cells, SpellsList};
ghost use Rattle.fab_tables.specs.inner.Following.{list_of, with_body};

use crate::known::{KnownNames, NothingKnown};
use crate::list_cells::{cell_names, long_problem, paired};
use crate::list_row::{ListBody, ListRow};
use fab_base::{Fault, MAX_FILE_BYTES, Name, Problem, Reason};
use fab_paths::resolve;
use fab_rows::{Row, RowReader, read_rows, rows};
use std::alloc::Global;
use std::marker::Model;

/// The pairs of these names, where nothing refuses them.
fn named_pairs<K: KnownNames>(
    alloc: Global,
    known: &K,
    outputs: &[Name],
    inputs: &[Name],
) -> Result<ListBody, Problem>
    ensures { Answers plain_body result (named_body (K.judge_pairs known.now) outputs.now inputs.now) }
{
    let pairs = paired(alloc, outputs, inputs)?;
    if let Some(reason) = known.judge(alloc, &pairs)? {
        return Err(Problem::Malformed(reason));
    }
    match long_problem(outputs, inputs) {
        Some(problem) => Err(problem),
        None => Ok(ListBody::Pairs(pairs)),
    }
}

/// The pairs of two cells.
fn cell_pairs<K: KnownNames>(
    alloc: Global,
    known: &K,
    output: &[u8],
    input: &[u8],
) -> Result<ListBody, Problem>
    ensures { Answers plain_body result (pairs_body (K.judge_pairs known.now) output.now input.now) }
{
    let (outputs, inputs) = cell_names(alloc, output, input)?;
    named_pairs(alloc, known, &outputs, &inputs)
}

fn read_include(alloc: Global, path: &[u8]) -> Result<ListBody, Problem>
    ensures { Answers plain_body result (include_body path.now) }
{
    if str::from_utf8(path).is_err() {
        return Err(Problem::Malformed(Reason::Name));
    }
    Ok(ListBody::Include(Name::of(alloc, path)?))
}

fn read_cells<K: KnownNames>(
    alloc: Global,
    known: &K,
    first: &[u8],
    second: &[u8],
) -> Result<ListBody, Problem>
    ensures { Answers plain_body result (two_cells (K.judge_pairs known.now) first.now second.now) }
{
    if first == b"INCLUDE".as_slice() {
        read_include(alloc, second)
    } else {
        cell_pairs(alloc, known, first, second)
    }
}

/// What the cells of one row of a switch list say, beside what is known of names.
///
/// `Malformed` comes with the reasons `row`, `number`, `name`, `bracket`, `counts differ` and those of `known`, and `Limit` with
/// `expanded names` and `name bytes`, in this order.
pub fn read_list_row<K: KnownNames>(
    alloc: Global,
    known: &K,
    cells: &[Name],
) -> Result<ListBody, Problem>
    ensures { Answers plain_body result (body_of (K.judge_pairs known.now) cells.now) }
{
    match cells {
        [] => Err(Problem::Malformed(Reason::Row)),
        [_] => Err(Problem::Malformed(Reason::Row)),
        [first, second] => read_cells(alloc, known, first.bytes(), second.bytes()),
        [_, _, _, ..] => Err(Problem::Malformed(Reason::Row)),
    }
}

/// The INCLUDE row of a path that stands in this file.
fn include_in(alloc: Global, file: &Name, path: Name) -> Result<ListBody, Problem>
    ensures { Answers plain_body result (included path (file_of file.now path)) }
{
    match resolve(alloc, file, path.bytes())? {
        Some(_) => Ok(ListBody::Include(path)),
        None => Err(Problem::Malformed(Reason::Name)),
    }
}

/// What the cells of a row say that stands in this file.
fn body_in(alloc: Global, file: &Name, cells: &[Name]) -> Result<ListBody, Problem>
    ensures { Answers plain_body result (row_body file.now cells.now) }
{
    match read_list_row(alloc, &NothingKnown, cells)? {
        ListBody::Pairs(pairs) => Ok(ListBody::Pairs(pairs)),
        ListBody::Include(path) => include_in(alloc, file, path),
    }
}

fn push_row(list: &mut Vec<ListRow>, alloc: Global, file: &Name, row: &Row) -> Result<(), Problem>
    ensures { Answers (λ _. list.new.items) result (with_body list.old.items row.now.line (row_body file.now row.now.cells)) }
{
    let body = body_in(alloc, file, &row.cells)?;
    list.push(ListRow {
        line: row.line,
        body,
    })?;
    Ok(())
}

/// The rows of a file so far.
#[derive(Drop)]
struct ListRows<'a> {
    file: &'a Name,
    rows: Vec<ListRow>,
}

impl<'a> Model for ListRows<'a> {
    ghost use Rattle.fab_tables.specs.inner.Following.{ListSoFar};

    ghost Value = { ListSoFar };

    ghost view = { λ list. record { file = list.file.now; rows = list.rows.items } };
}

impl<'a> RowReader for ListRows<'a> {
    ghost use Rattle.fab_tables.specs.inner.Following.{after_row};

    ghost after = { after_row };

    fn take_row(&mut self, alloc: Global, row: &Row) -> Result<(), Problem> {
        push_row(&mut self.rows, alloc, self.file, row)
    }
}

fn read(alloc: Global, file: &Name, bytes: &[u8]) -> Result<Vec<ListRow>, Fault>
    requires { length bytes.now ≤ MAX_FILE_BYTES }
    ensures { Gives (λ list. list.items) result (list_of file.now (max 1 (length (lines bytes.now))) (rows_of bytes.now)) }
{
    let found = rows(alloc, bytes)?;
    let start = ListRows {
        file,
        rows: Vec::new(alloc),
    };
    let ListRows { rows: list, .. } = read_rows(alloc, file, &found, start)?;
    Ok(list)
}

/// The rows of a switch list, each judged by itself and by the file in which it stands.
///
/// `Malformed` comes with the reasons `row`, `number`, `name` (also for a path that is none in this file), `bracket` and `counts
/// differ`, and `Limit` with `expanded names` and `name bytes`, each with the least line that is refused and in this order.
pub fn read_list(alloc: Global, file: &Name, bytes: &[u8]) -> Result<Vec<ListRow>, Fault>
    requires { length bytes.now ≤ MAX_FILE_BYTES }
    ensures spelled { IfOk result (λ list. SpellsList file.now (rows_of bytes.now) list.items) }
    ensures reads { IsWhole (list_format file.now) (rows_of bytes.now) → IsOkUnless result faults.Memory }
    ensures refusal { IfErr result (λ fault. fault ≢ faults.Memory → IsTextFault (list_format file.now) file.now (rows_of bytes.now) (max 1 (length (lines bytes.now))) fault) }
{
    read(alloc, file, bytes)
}
