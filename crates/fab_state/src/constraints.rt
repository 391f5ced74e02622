//! The reader of pad constraints.

ghost use Rattle.std.specs.Prelude.{◌≡◌, ◌≢◌, ◌≤◌, ◌||◌, [], fold, length, map, max, IfErr, IfOk, IsOkUnless, OnOk, Ok};
ghost use Rattle.std.specs.Str.Lines.{lines};
ghost use Rattle.fab_base.specs.declared.fault.Fault.TheVariants as faults;
ghost use Rattle.fab_base.specs.Reading.{Answers, Gives};
ghost use Rattle.fab_lines.specs.Order.{IsTextFault, IsWhole, ended, placed, read_all};
ghost use Rattle.fab_netlist.specs.Plain.{name_of};
ghost use Rattle.fab_lines.specs.Items.{is_among};
ghost use Rattle.fab_texts.specs.Places.{site_of};
ghost use Rattle.fab_texts.specs.Rows.{after_row, rows_of, words_of};
ghost use Rattle.fab_state.specs.Constraints.{SpellsFixings, constraint_format, data_ports, fixed, is_fixing, is_pad_kind, pad_of, take_fixing, unfixed, with_pad, with_word};

use fab_base::{Fault, MAX_FILE_BYTES, Memory, Name, Problem, Reason};
use fab_fabric::{Fabric, Site};
use fab_implementation::Fixed;
use fab_kinds::Kind;
use fab_lines::word_at;
use fab_netlist::Netlist;
use fab_texts::{WordReader, WordSet, read_words, site_of};
use std::alloc::Global;
use std::marker::Model;

fn is_pad_kind(kind: Option<Kind>) -> bool
    ensures { result ≡ is_pad_kind kind }
{
    match kind {
        Some(Kind::Io) => true,
        Some(Kind::Lut4c) | Some(Kind::Mux8) | None => false,
    }
}

/// The IO site of a fabric that a word writes.
fn pad_of(fabric: &Fabric, word: &[u8]) -> Option<Site>
    ensures { result ≡ pad_of fabric.now (site_of word.now) }
{
    let site = site_of(word)?;
    if is_pad_kind(fabric.kind_at(site)) {
        Some(site)
    } else {
        None
    }
}

fn is_fixing(words: &[&[u8]]) -> bool
    ensures { result ≡ is_fixing (map (λ w. w.now) words.now) }
{
    words.len() == 3 && word_at(words, 0) == b"set_io".as_slice()
}

fn name_at(netlist: &Netlist, net: u32) -> &[u8]
    ensures { result.now ≡ name_of netlist.now net }
{
    match netlist.nets.get(net as usize) {
        Some(name) => name.bytes(),
        None => &[],
    }
}

fn add_word(words: &mut WordSet, alloc: Global, word: &[u8]) -> Result<(), Memory>
    ensures { OnOk result (words.new ≡ with_word words.old word.now) }
{
    if !words.contains(word) {
        words.add(alloc, word)?;
    }
    Ok(())
}

/// Adds the names of nets.
fn add_names(
    words: &mut WordSet,
    alloc: Global,
    netlist: &Netlist,
    nets: &[u32],
) -> Result<(), Memory>
    ensures { OnOk result (words.new ≡ fold with_word words.old (map (name_of netlist.now) nets.now)) }
{
    for net in nets {
        add_word(words, alloc, name_at(netlist, *net))?;
    }
    Ok(())
}

fn data_ports(alloc: Global, netlist: &Netlist) -> Result<WordSet, Memory>
    ensures { IfOk result (λ ports. ports ≡ data_ports netlist.now) }
{
    let mut ports = WordSet::new(alloc);
    add_names(&mut ports, alloc, netlist, &netlist.inputs)?;
    add_names(&mut ports, alloc, netlist, &netlist.outputs)?;
    Ok(ports)
}

/// What the lines so far say, beside the fabric and the data ports.
#[derive(Drop)]
struct Fixing<'a> {
    fabric: &'a Fabric,
    allowed: WordSet,
    ports: WordSet,
    sites: WordSet,
    pads: Vec<(Name, Site)>,
}

impl<'a> Model for Fixing<'a> {
    ghost use Rattle.fab_state.specs.Constraints.{Fixing as PlainFixing};

    ghost Value = { PlainFixing };

    ghost view = { λ k. record {
      fabric = k.fabric.now;
      allowed = k.allowed;
      ports = k.ports;
      sites = k.sites;
      pads = k.pads.items;
    } };
}

impl<'a> Fixing<'a> {
    fn nothing(alloc: Global, fabric: &'a Fabric, allowed: WordSet) -> Fixing<'a>
        ensures { result ≡ unfixed fabric.now allowed }
    {
        Fixing {
            fabric,
            allowed,
            ports: WordSet::new(alloc),
            sites: WordSet::new(alloc),
            pads: Vec::new(alloc),
        }
    }

    fn is_named(&self, port: &[u8], word: &[u8]) -> bool
        ensures { result ≡ (is_among self.now.ports port.now || is_among self.now.sites word.now) }
    {
        self.ports.contains(port) || self.sites.contains(word)
    }

    fn take_pad(&mut self, alloc: Global, port: &[u8], word: &[u8]) -> Result<(), Problem>
        ensures { Answers (λ _. self.new) result (with_pad self.old port.now word.now) }
    {
        if self.is_named(port, word) {
            return Err(Problem::Malformed(Reason::NameTwice));
        }
        let Some(site) = pad_of(self.fabric, word) else {
            return Err(Problem::Malformed(Reason::Site));
        };
        if !self.allowed.contains(port) {
            return Err(Problem::Malformed(Reason::Port));
        }
        self.ports.add(alloc, port)?;
        self.sites.add(alloc, word)?;
        self.pads.push((Name::of(alloc, port)?, site))?;
        Ok(())
    }

    fn take(&mut self, alloc: Global, words: &[&[u8]]) -> Result<(), Problem>
        ensures { Answers (λ _. self.new) result (take_fixing self.old (map (λ w. w.now) words.now)) }
    {
        if !is_fixing(words) {
            return Err(Problem::Malformed(Reason::Row));
        }
        self.take_pad(alloc, word_at(words, 1), word_at(words, 2))
    }

    fn into_fixed(self) -> Fixed
        ensures { result ≡ self.entry.pads }
    {
        let Fixing { pads, .. } = self;
        Fixed { pads }
    }
}

impl<'a> WordReader for Fixing<'a> {
    ghost after = { take_fixing };

    fn take_words(&mut self, alloc: Global, words: &[&[u8]]) -> Result<(), Problem> {
        self.take(alloc, words)
    }
}

fn read(
    alloc: Global,
    file: &Name,
    bytes: &[u8],
    fabric: &Fabric,
    netlist: &Netlist,
) -> Result<Fixed, Fault>
    requires { length bytes.now ≤ MAX_FILE_BYTES }
    ensures { Gives (λ constraints. constraints) result (placed file.now (ended (λ k. Ok k.pads) (max 1 (length (lines bytes.now)))
        (read_all (after_row take_fixing) (λ row. row.line) (unfixed fabric.now (data_ports netlist.now)) (rows_of bytes.now)))) }
{
    let allowed = data_ports(alloc, netlist)?;
    let known = read_words(alloc, file, bytes, Fixing::nothing(alloc, fabric, allowed))?;
    Ok(known.into_fixed())
}

/// The pads on which ports are fixed by a text of lines `set_io PORT SITE`.
///
/// `Malformed` comes with the least line that is refused. The reasons are, in the order in which they are tried on a line,
/// `row`, `name twice`, `site` where the word writes no IO site of the fabric, and `port` where the netlist has no such data port.
pub fn read_pcf(
    alloc: Global,
    file: &Name,
    bytes: &[u8],
    fabric: &Fabric,
    netlist: &Netlist,
) -> Result<Fixed, Fault>
    requires { length bytes.now ≤ MAX_FILE_BYTES }
    ensures spelled { IfOk result (λ constraints. IsWhole (constraint_format fabric.now (data_ports netlist.now)) (rows_of bytes.now)
        × (constraints ≡ (fixed fabric.now (data_ports netlist.now) (words_of (rows_of bytes.now))).pads)) }
    ensures spells { IfOk result (SpellsFixings fabric.now (data_ports netlist.now) (rows_of bytes.now)) }
    ensures reads { IsWhole (constraint_format fabric.now (data_ports netlist.now)) (rows_of bytes.now) → IsOkUnless result faults.Memory }
    ensures refusal { IfErr result (λ fault. fault ≢ faults.Memory →
        IsTextFault (constraint_format fabric.now (data_ports netlist.now)) file.now (rows_of bytes.now) (max 1 (length (lines bytes.now))) fault) }
{
    read(alloc, file, bytes, fabric, netlist)
}
