//! The rows of a list, with those of the files that it includes.

ghost use Rattle.std.specs.Prelude.{◌≡◌, ◌<◌, ◌≤◌, ℕ, List, IfOk, IfErr, OnOk, length};
ghost use Rattle.std.specs.Option.{ForSome};
ghost use Rattle.fab_base.specs.Reading.{Answers};
ghost use Rattle.fab_rows.specs.Rows.{rows_of};
ghost use Rattle.fab_tables.specs.Lists.{Pair};
ghost use Rattle.fab_files.specs.Files.{HasReadCause, IsSupported};
ghost use Rattle.fab_list_files.specs.Lists.{Knowledge, with_pairs, opened, deed_of, ReadsList, MeetsList, ReadsListFile, MeetsListFile};
ghost use Rattle.fab_list_files.specs.inner.Following.{plain_deed, MayOpen, RowLeads, MeetsRow};

use fab_base::{Fault, MAX_FILE_BYTES, Memory, Name, Problem, Quantity, Reason};
use fab_desk::Desk;
use fab_files::fetch;
use fab_paths::resolve;
use fab_rows::{Row, next_row};
use fab_tables::{KnownNames, ListBody, read_list_row};
use std::alloc::Global;

/// How many INCLUDE rows may be open, one in the file of another.
pub const MOST_OPEN: u32 = 8;

/// The pairs of a list so far, each at its first place, and what is known of names beside a row.
pub trait ListState {
    /// Why new pairs are refused behind those before them, if they are.
    ghost known: { Self → Knowledge };

    /// The pairs so far.
    ghost pairs: { Self → List Pair };

    /// Why these pairs are refused for their names, if they are.
    fn judge(&self, alloc: Global, new: &[(Name, Name)]) -> Result<Option<Reason>, Memory>
        ensures { IfOk result (λ reason. reason ≡ known self.now (pairs self.now) new.now) };

    /// Adds pairs. After an error the state is of no more use.
    fn add(&mut self, alloc: Global, new: Vec<(Name, Name)>) -> Result<(), Memory>
        ensures known { known self.new ≡ known self.old }
        ensures pairs { OnOk result (pairs self.new ≡ with_pairs (pairs self.old) new.items) };
}

/// What is known beside the next row of a list.
#[derive(Drop)]
struct Beside<'a, S: ListState> {
    state: &'a S,
}

impl<'a, S: ListState> KnownNames for Beside<'a, S> {
    ghost judge_pairs = { λ beside. S.known beside.state.now (S.pairs beside.state.now) };

    fn judge(&self, alloc: Global, pairs: &[(Name, Name)]) -> Result<Option<Reason>, Memory> {
        self.state.judge(alloc, pairs)
    }
}

/// What a row does.
#[derive(Debug, Drop)]
pub enum RowDeed {
    /// It adds pairs.
    Adds(Vec<(Name, Name)>),
    /// The rows of this file stand in its place.
    Opens(Name),
}

/// The file of an INCLUDE row, where so many more may be opened.
fn open_path(alloc: Global, left: u32, file: &Name, path: &Name) -> Result<RowDeed, Problem>
    ensures deed { Answers plain_deed result (opened left file.now path.now) }
    ensures may { IfOk result (MayOpen left) }
{
    let Some(other) = resolve(alloc, file, path.bytes())? else {
        return Err(Problem::Malformed(Reason::Name));
    };
    if left == 0 {
        let depth = u64::from(MOST_OPEN);
        return Err(Problem::Limit(Quantity::IncludeDepth, depth + 1, depth));
    }
    Ok(RowDeed::Opens(other))
}

/// What a row does, or why it is refused.
fn judge_row<S: ListState>(
    alloc: Global,
    state: &S,
    left: u32,
    file: &Name,
    row: &Row,
) -> Result<RowDeed, Problem>
    ensures deed { Answers plain_deed result (deed_of (S.known state.now) left file.now (S.pairs state.now) row.now.cells) }
    ensures may { IfOk result (MayOpen left) }
{
    match read_list_row(alloc, &Beside { state }, &row.cells)? {
        ListBody::Pairs(new) => Ok(RowDeed::Adds(new)),
        ListBody::Include(path) => open_path(alloc, left, file, &path),
    }
}

/// Takes the next row of a file.
#[cycle(list)]
fn take_row<D: Desk, S: ListState>(
    alloc: Global,
    desk: &mut D,
    state: &mut S,
    left: u32,
    file: &Name,
    row: &Row,
) -> Result<(), Fault>
    ensures told { D.told desk.new ≡ D.told desk.old }
    ensures writes { D.writes desk.new ≡ D.writes desk.old }
    ensures reads { D.reads desk.old ≤ D.reads desk.new }
    ensures known { S.known state.new ≡ S.known state.old }
    ensures read { ForSome (D.told desk.old) (λ files. OnOk result (RowLeads files (S.known state.old) left file.now (S.pairs state.old) row.now (S.pairs state.new))) }
    ensures cause { IfErr result (HasReadCause (D.told desk.old) (D.reads desk.old < D.reads desk.new) (λ files. MeetsRow files (S.known state.old) left file.now (S.pairs state.old) row.now)) }
    ensures supported { IfErr result IsSupported }
{
    match judge_row(alloc, state, left, file, row) {
        Ok(deed) => match deed {
            RowDeed::Adds(new) => Ok(state.add(alloc, new)?),
            RowDeed::Opens(other) => read_list_file(alloc, desk, state, left - 1, &other),
        },
        Err(problem) => Err(problem.at(alloc, file, row.line)),
    }
}

/// Takes the rows of a file.
#[cycle(list)]
pub fn take_rows<D: Desk, S: ListState>(
    alloc: Global,
    desk: &mut D,
    state: &mut S,
    left: u32,
    file: &Name,
    bytes: &[u8],
) -> Result<(), Fault>
    requires { length bytes.now ≤ MAX_FILE_BYTES }
    ensures told { D.told desk.new ≡ D.told desk.old }
    ensures writes { D.writes desk.new ≡ D.writes desk.old }
    ensures reads { D.reads desk.old ≤ D.reads desk.new }
    ensures known { S.known state.new ≡ S.known state.old }
    ensures read { ForSome (D.told desk.old) (λ files. OnOk result (ReadsList files (S.known state.old) left file.now (S.pairs state.old) (rows_of bytes.now) (S.pairs state.new))) }
    ensures cause { IfErr result (HasReadCause (D.told desk.old) (D.reads desk.old < D.reads desk.new) (λ files. MeetsList files (S.known state.old) left file.now (S.pairs state.old) (rows_of bytes.now))) }
    ensures supported { IfErr result IsSupported }
{
    let mut rest = bytes;
    let mut line: u32 = 1;
    while let Some((row, after)) = next_row(alloc, rest, line)? {
        take_row(alloc, desk, state, left, file, &row)?;
        rest = after;
        line = row.line + 1;
    }
    Ok(())
}

/// Reads a list from its file, where so many INCLUDE rows may still be opened.
///
/// `Malformed` comes with the reasons of `read_list_row`, `Limit` also with `include depth`, `Missing`, `TooLong` and `ReadFault` for the
/// file and for those that it includes.
#[cycle(list)]
pub fn read_list_file<D: Desk, S: ListState>(
    alloc: Global,
    desk: &mut D,
    state: &mut S,
    left: u32,
    file: &Name,
) -> Result<(), Fault>
    ensures told { D.told desk.new ≡ D.told desk.old }
    ensures writes { D.writes desk.new ≡ D.writes desk.old }
    ensures reads { D.reads desk.old ≤ D.reads desk.new }
    ensures known { S.known state.new ≡ S.known state.old }
    ensures read { ForSome (D.told desk.old) (λ files. OnOk result (ReadsListFile files (S.known state.old) left file.now (S.pairs state.old) (S.pairs state.new))) }
    ensures cause { IfErr result (HasReadCause (D.told desk.old) (D.reads desk.old < D.reads desk.new) (λ files. MeetsListFile files (S.known state.old) left file.now (S.pairs state.old))) }
    ensures supported { IfErr result IsSupported }
{
    let bytes = fetch(alloc, desk, file)?;
    take_rows(alloc, desk, state, left, file, &bytes)
}
