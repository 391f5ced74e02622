//! The reader of stimuli.

ghost use Rattle.std.specs.Prelude.{◌≡◌, ◌≢◌, ◌≤◌, [], Some, length, map, max, unwrap_or, IfErr, IfOk, IsOkUnless};
ghost use Rattle.std.specs.Str.Lines.{lines};
ghost use Rattle.fab_base.specs.declared.fault.Fault.TheVariants as faults;
ghost use Rattle.fab_base.specs.Reading.{Answers, Gives};
ghost use Rattle.fab_lines.specs.Order.{IsTextFault, IsWhole, ended, judged, placed, read_all};
ghost use Rattle.fab_state.specs.Spelled.{AreApart, ports};
ghost use Rattle.fab_texts.specs.Rows.{after_row, rows_of, words_of};
ghost use Rattle.fab_stimulus.specs.Stimuli.{cut_short, digits_of, known, names_of, ports_of, stimulus_format, take, take_digits, take_names};
ghost use Rattle.fab_stimulus.specs.Spelled.{Says, Spells};

use crate::lines::{
    are_among, are_digits, are_named, columns_of, digits_of, is_nothing, once, ports_of, values_at,
};
use crate::stimulus::Stimulus;
use fab_base::{Fault, MAX_FILE_BYTES, Name, Problem, Reason};
use fab_fabric::Site;
use fab_lines::last_line;
use fab_state::State;
use fab_texts::{WordReader, WordSet, read_words};
use std::alloc::Global;
use std::marker::Model;

/// What the lines so far say, beside the ports.
#[derive(Drop)]
struct Known<'a> {
    ins: &'a [(Name, Site)],
    ports: WordSet,
    columns: Option<Vec<usize>>,
    lines: Vec<Vec<bool>>,
}

impl<'a> Model for Known<'a> {
    ghost use Rattle.std.specs.Prelude.{◌≡◌, map, option_map};
    ghost use Rattle.fab_stimulus.specs.Stimuli.{Known as PlainKnown, ports_of};

    ghost Value = { PlainKnown };

    ghost view = { λ k. record {
      ports = k.ports;
      columns = option_map (λ columns. columns.items) k.columns;
      lines = map (λ line. line.items) k.lines.items;
    } };

    ghost invariant = { λ k. k.ports ≡ ports_of k.ins.now };
}

impl<'a> Known<'a> {
    fn nothing(alloc: Global, ins: &'a [(Name, Site)], ports: WordSet) -> Known<'a>
        requires { ports ≡ ports_of ins.now }
        ensures { result ≡ known ports [] }
    {
        Known {
            ins,
            ports,
            columns: None,
            lines: Vec::new(alloc),
        }
    }

    /// Takes the names of a first line.
    fn take_names(&mut self, alloc: Global, names: &[&[u8]]) -> Result<(), Problem>
        ensures { Answers (λ _. self.new) result (take_names self.old (Some (map (λ w. w.now) names.now))) }
    {
        let (different, count) = once(alloc, names)?;
        if !are_named(self.ins, &different) {
            return Err(Problem::Malformed(Reason::Row));
        }
        if count != names.len() {
            return Err(Problem::Malformed(Reason::NameTwice));
        }
        if !are_among(names, &self.ports) {
            return Err(Problem::Malformed(Reason::Port));
        }
        self.columns = Some(columns_of(alloc, self.ins, &different)?);
        Ok(())
    }

    fn take_first(&mut self, alloc: Global, words: &[&[u8]]) -> Result<(), Problem>
        ensures { Answers (λ _. self.new) result (take_names self.old (names_of (length self.old.ports) (map (λ w. w.now) words.now))) }
    {
        if 0 < self.ins.len() {
            return self.take_names(alloc, words);
        }
        if !is_nothing(words) {
            return Err(Problem::Malformed(Reason::Row));
        }
        self.take_names(alloc, &[])
    }

    fn take_values(&mut self, alloc: Global, words: &[&[u8]]) -> Result<(), Problem>
        ensures { Answers (λ _. self.new) result (take_digits self.old (digits_of (length self.old.ports) (map (λ w. w.now) words.now))) }
    {
        let Some(digits) = digits_of(self.ins.len(), words) else {
            return Err(Problem::Malformed(Reason::Row));
        };
        if !are_digits(digits) {
            return Err(Problem::Malformed(Reason::Digit));
        }
        let values = match &self.columns {
            Some(columns) => values_at(alloc, digits, columns)?,
            None => Vec::new(alloc),
        };
        self.lines.push(values)?;
        Ok(())
    }

    fn take(&mut self, alloc: Global, words: &[&[u8]]) -> Result<(), Problem>
        ensures { Answers (λ _. self.new) result (take self.old (map (λ w. w.now) words.now)) }
    {
        match &self.columns {
            None => self.take_first(alloc, words),
            Some(_) => self.take_values(alloc, words),
        }
    }

    /// The stimulus, where its first line has come.
    fn finish(self) -> Result<Stimulus, Problem>
        ensures { Answers (λ stimulus. stimulus) result (judged (cut_short self.entry) self.entry.lines) }
    {
        if self.columns.is_none() {
            return Err(Problem::Malformed(Reason::EndOfFile));
        }
        let Known { lines, .. } = self;
        Ok(Stimulus { lines })
    }
}

impl<'a> WordReader for Known<'a> {
    ghost after = { take };

    fn take_words(&mut self, alloc: Global, words: &[&[u8]]) -> Result<(), Problem> {
        self.take(alloc, words)
    }
}

fn read(alloc: Global, file: &Name, bytes: &[u8], ins: &[(Name, Site)]) -> Result<Stimulus, Fault>
    requires size { length bytes.now ≤ MAX_FILE_BYTES }
    requires apart { AreApart (ports_of ins.now) }
    ensures { Gives (λ stimulus. stimulus) result (placed file.now (ended (λ k. judged (cut_short k) k.lines) (max 1 (length (lines bytes.now)))
        (read_all (after_row take) (λ row. row.line) (known (ports_of ins.now) []) (rows_of bytes.now)))) }
{
    let ports = ports_of(alloc, ins)?;
    let known = read_words(alloc, file, bytes, Known::nothing(alloc, ins, ports))?;
    match known.finish() {
        Ok(stimulus) => Ok(stimulus),
        Err(problem) => Err(problem.at(alloc, file, last_line(bytes))),
    }
}

/// The stimulus that a text spells for the input ports of a state. The first line of the text names each of these ports once, in
/// any order. Each further line is one word, with a digit `0` or `1` for each name. Where the state has no input port, each line is
/// `-`. The values are given in the order of the state.
///
/// `Malformed` comes with the least line that is refused, or with the last line. The reasons are, in the order in which they are
/// tried on the first line, `row` where a port is not named, `name twice`, and `port` where the state has no such input port; on a
/// further line `row` where it is no word of so many bytes, and `digit`; and `end of file` where there is no first line.
pub fn read_stimulus(
    alloc: Global,
    file: &Name,
    bytes: &[u8],
    state: &State,
) -> Result<Stimulus, Fault>
    requires size { length bytes.now ≤ MAX_FILE_BYTES }
    requires apart { AreApart (ports state.now) }
    ensures spells { IfOk result (Spells (ports_of state.now.ins) (rows_of bytes.now)) }
    ensures says { IfOk result (Says (ports_of state.now.ins) (rows_of bytes.now)) }
    ensures reads { IsWhole (stimulus_format (ports_of state.now.ins)) (rows_of bytes.now) → IsOkUnless result faults.Memory }
    ensures refusal { IfErr result (λ fault. fault ≢ faults.Memory →
        IsTextFault (stimulus_format (ports_of state.now.ins)) file.now (rows_of bytes.now) (max 1 (length (lines bytes.now))) fault) }
{
    read(alloc, file, bytes, &state.ins)
}
