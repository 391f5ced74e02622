//! Covers are split by the halves of their tables.

ghost use Rattle.std.specs.Prelude.{◌≡◌, ◌+◌, ◌≤◌, IfOk, OnOk, length, map};
ghost use Rattle.std.specs.List.{All};
ghost use Rattle.fab_netlist.specs.Wide.{IsFineRow, tabled_cover};
ghost use Rattle.fab_netlist.specs.WellMade.{most_nets};
ghost use Rattle.fab_wide.specs.Split.{all_parts, all_taken, cover_with, taken, taken_by};
ghost use Rattle.fab_wide.specs.inner.Narrowing.{narrowed, pushed, two_taken};
ghost use Rattle.fab_wide.specs.inner.Words.{AreWords, number_of_words};

use crate::words::{same_words, words_of};
use fab_base::Memory;
use fab_netlist::{Cover, WideCover};
use std::alloc::Global;
use std::marker::Model;

/// The table of three inputs that is the first where the third is 0, and the second where it is 1.
const CHOOSER: u16 = 0xCACA;

/// The covers of a netlist while they are split.
#[derive(Drop)]
struct Narrowing {
    /// The covers so far.
    covers: Vec<Cover>,
    /// The next new net, which is how many nets there are.
    fresh: u32,
}

impl Model for Narrowing {
    ghost use Rattle.fab_wide.specs.inner.Narrowing.{PlainNarrowing};

    ghost Value = { PlainNarrowing };

    ghost view = { λ narrowing. record { covers = narrowing.covers.items; fresh = narrowing.fresh } };
}

impl Narrowing {
    /// Puts a cover behind those so far.
    fn push(
        &mut self,
        alloc: Global,
        line: u32,
        inputs: &[u32],
        output: u32,
        table: u16,
    ) -> Result<(), Memory>
        ensures { OnOk result (self.new ≡ pushed (cover_with line inputs.now output table) self.old) }
    {
        let inputs = Vec::from_slice(alloc, inputs)?;
        self.covers.push(Cover {
            line,
            inputs,
            output,
            table,
        })?;
        Ok(())
    }

    /// Takes two new nets, and gives the first of them.
    fn take_two(&mut self) -> u32
        requires { 2 + self.old.fresh ≤ most_nets }
        ensures first { result ≡ self.old.fresh }
        ensures takes { self.new ≡ two_taken self.old }
    {
        let first = self.fresh;
        self.fresh = 2 + first;
        first
    }
}

/// Puts the covers that stand for a table over the first inputs of a cover, and drive a net.
fn narrow(
    alloc: Global,
    cover: &WideCover,
    inputs: usize,
    words: &[u16],
    output: u32,
    made: &mut Narrowing,
) -> Result<(), Memory>
    requires few { inputs ≤ length cover.now.inputs }
    requires most { inputs ≤ 16 }
    requires words { AreWords inputs words.now }
    requires room { taken inputs (number_of_words words.now) + made.old.fresh ≤ most_nets }
    ensures { OnOk result (made.new ≡ narrowed cover.now.line cover.now.inputs inputs (number_of_words words.now) output made.old) }
{
    if inputs <= 4 {
        let (first, _) = cover.inputs.split_at(inputs);
        return made.push(alloc, cover.line, first, output, words[0]);
    }
    let (low, high) = words.split_at(words.len() / 2);
    if same_words(low, high) {
        return narrow(alloc, cover, inputs - 1, low, output, made);
    }
    let net = made.take_two();
    narrow(alloc, cover, inputs - 1, low, net, made)?;
    narrow(alloc, cover, inputs - 1, high, 1 + net, made)?;
    let last = cover.inputs[inputs - 1];
    made.push(alloc, cover.line, &[net, 1 + net, last], output, CHOOSER)
}

/// Puts the covers that stand for a cover.
fn narrow_cover(alloc: Global, cover: &WideCover, made: &mut Narrowing) -> Result<(), Memory>
    requires few { length cover.now.inputs ≤ 16 }
    requires rows { All (IsFineRow (length cover.now.inputs)) cover.now.rows }
    requires room { taken_by (tabled_cover cover.now) + made.old.fresh ≤ most_nets }
    ensures { OnOk result (made.new ≡ narrowed cover.now.line cover.now.inputs (length cover.now.inputs) (tabled_cover cover.now).table cover.now.output made.old) }
{
    let words = words_of(alloc, cover)?;
    narrow(alloc, cover, cover.inputs.len(), &words, cover.output, made)
}

/// The covers that stand for these, where new nets have the numbers from `fresh` on.
pub(crate) fn narrow_all(
    alloc: Global,
    covers: &[WideCover],
    fresh: u32,
) -> Result<Vec<Cover>, Memory>
    requires few { All (λ cover. length cover.inputs ≤ 16) covers.now }
    requires rows { All (λ cover. All (IsFineRow (length cover.inputs)) cover.rows) covers.now }
    requires room { all_taken (map tabled_cover covers.now) + fresh ≤ most_nets }
    ensures { IfOk result (λ parts. parts.items ≡ all_parts (map tabled_cover covers.now) fresh) }
{
    let mut made = Narrowing {
        covers: Vec::with_capacity(alloc, covers.len())?,
        fresh,
    };
    for cover in covers {
        narrow_cover(alloc, cover, &mut made)?;
    }
    Ok(made.covers)
}
