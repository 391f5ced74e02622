//! The reader of state texts.

ghost use Rattle.std.specs.Prelude.{◌≡◌, ◌≢◌, ◌≤◌, [], length, map, max, IfErr, IfOk, IsOkUnless};
ghost use Rattle.std.specs.Str.Lines.{lines};
ghost use Rattle.fab_base.specs.declared.fault.Fault.TheVariants as faults;
ghost use Rattle.fab_base.specs.Reading.{Answers, Gives};
ghost use Rattle.fab_lines.specs.Order.{IsTextFault, IsWhole, ended, judged, placed, read_all};
ghost use Rattle.fab_texts.specs.Rows.{after_row, rows_of, words_of};
ghost use Rattle.fab_texts.specs.Sections.{cut_short};
ghost use Rattle.fab_state.specs.Lines.{known, set_ffs, set_ins, set_outs, take, take_kind, with_pad, with_register};
ghost use Rattle.fab_state.specs.Spelled.{HasLetters, Spells, state_format, state_of};

use crate::kind::{Kind, kind_of};
use crate::lines::{take_pad, take_register};
use crate::state::State;
use fab_base::{Fault, MAX_FILE_BYTES, Name, Problem, Reason};
use fab_fabric::Site;
use fab_lines::{last_line, word_at};
use fab_texts::{Part, WordReader, WordSet, check_end, check_place, check_version, read_words};
use std::alloc::Global;
use std::marker::Model;

/// What the lines so far say.
#[derive(Drop)]
struct Known {
    last: Option<Part>,
    ports: WordSet,
    in_sites: WordSet,
    out_sites: WordSet,
    ff_sites: WordSet,
    ins: Vec<(Name, Site)>,
    outs: Vec<(Name, Site)>,
    ffs: Vec<(Site, bool)>,
}

impl Model for Known {
    ghost use Rattle.fab_state.specs.Lines.{Known as PlainKnown};

    ghost Value = { PlainKnown };

    ghost view = { λ k. record {
      last = k.last;
      ports = k.ports;
      in_sites = k.in_sites;
      out_sites = k.out_sites;
      ff_sites = k.ff_sites;
      ins = k.ins.items;
      outs = k.outs.items;
      ffs = k.ffs.items;
    } };
}

impl Known {
    fn nothing(alloc: Global) -> Known
        ensures { result ≡ known [] }
    {
        Known {
            last: None,
            ports: WordSet::new(alloc),
            in_sites: WordSet::new(alloc),
            out_sites: WordSet::new(alloc),
            ff_sites: WordSet::new(alloc),
            ins: Vec::new(alloc),
            outs: Vec::new(alloc),
            ffs: Vec::new(alloc),
        }
    }

    fn take_in(&mut self, alloc: Global, port: &[u8], site: &[u8]) -> Result<(), Problem>
        ensures { Answers (λ _. self.new) result (set_ins self.old (with_pad (record { ports = self.old.ports; sites = self.old.in_sites; pads = self.old.ins }) port.now site.now)) }
    {
        take_pad(
            &mut self.ports,
            &mut self.in_sites,
            &mut self.ins,
            alloc,
            port,
            site,
        )
    }

    fn take_out(&mut self, alloc: Global, port: &[u8], site: &[u8]) -> Result<(), Problem>
        ensures { Answers (λ _. self.new) result (set_outs self.old (with_pad (record { ports = self.old.ports; sites = self.old.out_sites; pads = self.old.outs }) port.now site.now)) }
    {
        take_pad(
            &mut self.ports,
            &mut self.out_sites,
            &mut self.outs,
            alloc,
            port,
            site,
        )
    }

    fn take_ff(&mut self, alloc: Global, site: &[u8], digit: &[u8]) -> Result<(), Problem>
        ensures { Answers (λ _. self.new) result (set_ffs self.old (with_register (record { sites = self.old.ff_sites; ffs = self.old.ffs }) site.now digit.now)) }
    {
        take_register(&mut self.ff_sites, &mut self.ffs, alloc, site, digit)
    }

    fn take_kind(&mut self, alloc: Global, kind: Kind, words: &[&[u8]]) -> Result<(), Problem>
        ensures { Answers (λ _. self.new) result (take_kind self.old kind (map (λ w. w.now) words.now)) }
    {
        match kind {
            Kind::Header => check_version(word_at(words, 1)),
            Kind::In => self.take_in(alloc, word_at(words, 1), word_at(words, 2)),
            Kind::Out => self.take_out(alloc, word_at(words, 1), word_at(words, 2)),
            Kind::Ff => self.take_ff(alloc, word_at(words, 1), word_at(words, 2)),
            Kind::End => Ok(()),
            Kind::Other => Err(Problem::Malformed(Reason::Row)),
        }
    }

    fn take(&mut self, alloc: Global, words: &[&[u8]]) -> Result<(), Problem>
        ensures { Answers (λ _. self.new) result (take self.old (map (λ w. w.now) words.now)) }
    {
        let kind = kind_of(words);
        let part = kind.part();
        check_place(self.last, part)?;
        self.last = Some(part);
        self.take_kind(alloc, kind, words)
    }

    /// The state, where the last line has come.
    fn finish(self) -> Result<State, Problem>
        ensures { Answers (λ state. state) result (judged (cut_short self.last) (state_of self)) }
    {
        check_end(self.last)?;
        let Known { ins, outs, ffs, .. } = self;
        Ok(State { ins, outs, ffs })
    }
}

impl WordReader for Known {
    ghost after = { take };

    fn take_words(&mut self, alloc: Global, words: &[&[u8]]) -> Result<(), Problem> {
        self.take(alloc, words)
    }
}

fn read(alloc: Global, file: &Name, bytes: &[u8]) -> Result<State, Fault>
    requires { length bytes.now ≤ MAX_FILE_BYTES }
    ensures { Gives (λ state. state) result (placed file.now (ended (λ k. judged (cut_short k.last) (state_of k)) (max 1 (length (lines bytes.now)))
        (read_all (after_row take) (λ row. row.line) (known []) (rows_of bytes.now)))) }
{
    let known = read_words(alloc, file, bytes, Known::nothing(alloc))?;
    match known.finish() {
        Ok(state) => Ok(state),
        Err(problem) => Err(problem.at(alloc, file, last_line(bytes))),
    }
}

/// The state that a text spells: its first line is `fabulous-state 1`, then come lines `in PORT SITE`, lines `out PORT SITE` and
/// lines `ff SITE 0` or `ff SITE 1`, and the last is `end`. No port stands twice, and no site twice with one first word.
///
/// `Malformed` comes with the least line that is refused, or with the last line. The reasons are, in the order in which they
/// are tried on a line, `after end`, `row`, `number`, `name twice`, `digit` and `site`, and `end of file` where the last line does not
/// come.
pub fn read_state(alloc: Global, file: &Name, bytes: &[u8]) -> Result<State, Fault>
    requires { length bytes.now ≤ MAX_FILE_BYTES }
    ensures spells { IfOk result (Spells (rows_of bytes.now)) }
    ensures letters { IfOk result HasLetters }
    ensures said { IfOk result (λ state. IsWhole state_format (rows_of bytes.now) × (state ≡ state_of (known (words_of (rows_of bytes.now))))) }
    ensures reads { IsWhole state_format (rows_of bytes.now) → IsOkUnless result faults.Memory }
    ensures refusal { IfErr result (λ fault. fault ≢ faults.Memory → IsTextFault state_format file.now (rows_of bytes.now) (max 1 (length (lines bytes.now))) fault) }
{
    read(alloc, file, bytes)
}
