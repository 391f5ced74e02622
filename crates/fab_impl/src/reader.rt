//! The reader of implementation texts.

ghost use Rattle.std.specs.Prelude.{◌≡◌, ◌≢◌, ◌≤◌, length, map, max, IfErr, IfOk, IsOkUnless, Ok};
ghost use Rattle.std.specs.Str.Lines.{lines};
ghost use Rattle.fab_base.specs.declared.fault.Fault.TheVariants as faults;
ghost use Rattle.fab_base.specs.Reading.{Answers, Gives};
ghost use Rattle.fab_implementation.specs.OnFabric.{IsOnFabric};
ghost use Rattle.fab_lines.specs.Order.{IsTextFault, IsWhole, ended, judged, placed, read_all};
ghost use Rattle.fab_texts.specs.Rows.{after_row, rows_of, words_of};
ghost use Rattle.fab_texts.specs.Sections.{cut_short};
ghost use Rattle.fab_netlist.specs.declared.net_id.NetId.TheVariants.{Zero, One};
ghost use Rattle.fab_impl.specs.FirstPlaces.{first_place};
ghost use Rattle.fab_impl.specs.Openings.{opening_of};
ghost use Rattle.fab_impl.specs.declared.opening.Opening.TheVariants.{Reset};
ghost use Rattle.fab_impl.specs.Names.{cell_of, wire_of};
ghost use Rattle.fab_impl.specs.Lines.{cell_net_at, input_at, known, nothing, set_cells, set_ins, set_opening, set_outs, set_trees, take, take_kind, with_cell, with_net, with_pad, with_wires};
ghost use Rattle.fab_implementation.specs.Inputs.{InputsAreLines};
ghost use Rattle.fab_impl.specs.Spelled.{Spells, implementation_format, implementation_of};

use crate::entries::{
    take_cell, take_cell_net, take_edge, take_input, take_input_net, take_net, take_output,
};
use crate::input_pads::InputPads;
use crate::kind::{Kind, kind_of};
use crate::opening::{Opening, opening_of};
use fab_base::{Fault, MAX_FILE_BYTES, Name, Problem, Reason};
use fab_fabric::{Fabric, Site};
use fab_implementation::{Implementation, Tree};
use fab_lines::{last_line, word_at};
use fab_netlist::NetId;
use fab_texts::{Part, WordReader, check_end, check_place, read_words};
use std::alloc::Global;
use std::marker::Model;

/// What the lines so far say, beside the fabric.
#[derive(Drop)]
struct Known<'a> {
    fabric: &'a Fabric,
    last: Option<Part>,
    opening: Opening,
    cells: Vec<(u32, Site)>,
    ins: InputPads,
    outs: Vec<(Name, Site)>,
    trees: Vec<Tree>,
}

impl<'a> Model for Known<'a> {
    ghost use Rattle.fab_impl.specs.Lines.{Known as PlainKnown};

    ghost Value = { PlainKnown };

    ghost view = { λ k. record {
      fabric = k.fabric.now;
      last = k.last;
      opening = k.opening;
      cells = k.cells.items;
      ins = k.ins;
      outs = k.outs.items;
      trees = k.trees.items;
    } };
}

impl<'a> Known<'a> {
    fn nothing(alloc: Global, fabric: &'a Fabric) -> Known<'a>
        ensures { result ≡ nothing fabric.now }
    {
        Known {
            fabric,
            last: None,
            opening: Opening::Plain,
            cells: Vec::new(alloc),
            ins: InputPads::new(alloc),
            outs: Vec::new(alloc),
            trees: Vec::new(alloc),
        }
    }

    fn take_header(&mut self, version: &[u8]) -> Result<(), Problem>
        ensures { Answers (λ _. self.new) result (set_opening self.old (opening_of version.now)) }
    {
        self.opening = opening_of(version)?;
        Ok(())
    }

    fn take_reset(&mut self, alloc: Global, port: &[u8]) -> Result<(), Problem>
        ensures { Answers (λ _. self.new) result (set_opening self.old (Ok (Reset port.now))) }
    {
        self.opening = Opening::Reset(Name::of(alloc, port)?);
        Ok(())
    }

    fn take_cell(&mut self, cell: &[u8], site: &[u8]) -> Result<(), Problem>
        ensures { Answers (λ _. self.new) result (set_cells self.old (with_cell self.old.fabric self.old.cells cell.now site.now)) }
    {
        take_cell(&mut self.cells, self.fabric, cell, site)?;
        Ok(())
    }

    fn take_in(&mut self, alloc: Global, port: &[u8], site: &[u8]) -> Result<(), Problem>
        ensures { Answers (λ _. self.new) result (set_ins self.old (with_pad self.old.fabric self.old.ins port.now site.now)) }
    {
        take_input(&mut self.ins, alloc, self.fabric, port, site)
    }

    fn take_out(&mut self, alloc: Global, port: &[u8], site: &[u8]) -> Result<(), Problem>
        ensures { Answers (λ _. self.new) result (set_outs self.old (with_pad self.old.fabric self.old.outs port.now site.now)) }
    {
        take_output(&mut self.outs, alloc, self.fabric, port, site)
    }

    fn take_zero(&mut self, alloc: Global) -> Result<(), Problem>
        ensures { Answers (λ _. self.new) result (set_trees self.old (Ok (with_net self.old.trees Zero))) }
    {
        take_net(&mut self.trees, alloc, NetId::Zero)?;
        Ok(())
    }

    fn take_one(&mut self, alloc: Global) -> Result<(), Problem>
        ensures { Answers (λ _. self.new) result (set_trees self.old (Ok (with_net self.old.trees One))) }
    {
        take_net(&mut self.trees, alloc, NetId::One)?;
        Ok(())
    }

    fn take_input_net(&mut self, alloc: Global, port: &[u8]) -> Result<(), Problem>
        ensures { Answers (λ _. self.new) result (set_trees self.old (input_at self.old.trees (first_place self.old.ins port.now))) }
    {
        take_input_net(&mut self.trees, alloc, &self.ins, port)
    }

    fn take_cell_net(&mut self, alloc: Global, cell: &[u8]) -> Result<(), Problem>
        ensures { Answers (λ _. self.new) result (set_trees self.old (cell_net_at self.old.trees (cell_of cell.now))) }
    {
        take_cell_net(&mut self.trees, alloc, cell)?;
        Ok(())
    }

    fn take_edge(&mut self, from: &[u8], to: &[u8]) -> Result<(), Problem>
        ensures { Answers (λ _. self.new) result (set_trees self.old (with_wires self.old.trees (wire_of self.old.fabric from.now) (wire_of self.old.fabric to.now))) }
    {
        take_edge(&mut self.trees, self.fabric, from, to)
    }

    fn take_kind(&mut self, alloc: Global, kind: Kind, words: &[&[u8]]) -> Result<(), Problem>
        ensures { Answers (λ _. self.new) result (take_kind self.old kind (map (λ w. w.now) words.now)) }
    {
        match kind {
            Kind::Header => self.take_header(word_at(words, 1)),
            Kind::Reset => self.take_reset(alloc, word_at(words, 1)),
            Kind::Cell => self.take_cell(word_at(words, 1), word_at(words, 2)),
            Kind::In => self.take_in(alloc, word_at(words, 2), word_at(words, 3)),
            Kind::Out => self.take_out(alloc, word_at(words, 2), word_at(words, 3)),
            Kind::NetZero => self.take_zero(alloc),
            Kind::NetOne => self.take_one(alloc),
            Kind::NetIn => self.take_input_net(alloc, word_at(words, 2)),
            Kind::NetCell => self.take_cell_net(alloc, word_at(words, 2)),
            Kind::Edge => self.take_edge(word_at(words, 1), word_at(words, 2)),
            Kind::End => Ok(()),
            Kind::Other => Err(Problem::Malformed(Reason::Row)),
        }
    }

    fn take(&mut self, alloc: Global, words: &[&[u8]]) -> Result<(), Problem>
        ensures { Answers (λ _. self.new) result (take self.old (map (λ w. w.now) words.now)) }
    {
        let kind = kind_of(words);
        let part = kind.part();
        check_place(self.last, part)?;
        self.opening.check_due(kind)?;
        self.last = Some(part);
        self.take_kind(alloc, kind, words)
    }

    /// The implementation, where the last line has come.
    fn finish(self) -> Result<Implementation, Problem>
        ensures { Answers (λ it. it) result (judged (cut_short self.entry.last) (implementation_of self.entry)) }
    {
        check_end(self.last)?;
        let Known {
            opening,
            cells,
            ins,
            outs,
            trees,
            ..
        } = self;
        Ok(Implementation {
            cells,
            ins: ins.into_vec(),
            outs,
            trees,
            reset: opening.into_port(),
        })
    }
}

impl<'a> WordReader for Known<'a> {
    ghost after = { take };

    fn take_words(&mut self, alloc: Global, words: &[&[u8]]) -> Result<(), Problem> {
        self.take(alloc, words)
    }
}

fn read(alloc: Global, file: &Name, bytes: &[u8], fabric: &Fabric) -> Result<Implementation, Fault>
    requires { length bytes.now ≤ MAX_FILE_BYTES }
    ensures { Gives (λ it. it) result (placed file.now (ended (λ k. judged (cut_short k.last) (implementation_of k)) (max 1 (length (lines bytes.now)))
        (read_all (after_row take) (λ row. row.line) (nothing fabric.now) (rows_of bytes.now)))) }
{
    let known = read_words(alloc, file, bytes, Known::nothing(alloc, fabric))?;
    match known.finish() {
        Ok(implementation) => Ok(implementation),
        Err(problem) => Err(problem.at(alloc, file, last_line(bytes))),
    }
}

/// The implementation that a text spells. Its first line is `fabulous-impl 1`, or `fabulous-impl 2` with a second line `reset PORT`,
/// which names the reset port. Then come lines `cell cN SITE`, lines `pad in PORT SITE`, lines `pad out PORT SITE`, and nets, each a
/// line `net zero`, `net one`, `net in PORT` or `net cell cN` with lines `edge WIRE WIRE` after it. The last line is `end`.
/// `net in PORT` is the net of the first `pad in` line that names PORT.
///
/// `Malformed` comes with the least line that is refused, or with the last line. The reasons are, in the order in which they
/// are tried on a line, `after end`, `row`, `number`, `wire`, `site` and `port`, and `end of file` where the last line does not come.
pub fn read_impl(
    alloc: Global,
    file: &Name,
    bytes: &[u8],
    fabric: &Fabric,
) -> Result<Implementation, Fault>
    requires { length bytes.now ≤ MAX_FILE_BYTES }
    ensures spells { IfOk result (Spells fabric.now (rows_of bytes.now)) }
    ensures said { IfOk result (λ it. IsWhole (implementation_format fabric.now) (rows_of bytes.now) × (it ≡ implementation_of (known fabric.now (words_of (rows_of bytes.now))))) }
    ensures on_fabric { IfOk result (IsOnFabric fabric.now) }
    ensures inputs { IfOk result InputsAreLines }
    ensures reads { IsWhole (implementation_format fabric.now) (rows_of bytes.now) → IsOkUnless result faults.Memory }
    ensures refusal { IfErr result (λ fault. fault ≢ faults.Memory → IsTextFault (implementation_format fabric.now) file.now (rows_of bytes.now) (max 1 (length (lines bytes.now))) fault) }
{
    read(alloc, file, bytes, fabric)
}
