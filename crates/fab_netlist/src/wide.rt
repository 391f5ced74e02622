//! Netlists whose covers have up to 16 inputs. Their rows are kept, and no tables.

ghost use Rattle.std.specs.Prelude.{◌≡◌, ◌≤◌, ◌⊎◌, ◌+◌, ◌*◌, ◌/◌, ◌%◌, IfErr, IfOk, OnOk, bit_and, map, nat_eq};
ghost use Rattle.std.specs.List.{list_any};
ghost use Rattle.fab_base.specs.declared.fault.Fault.TheVariants as faults;
ghost use Rattle.fab_bits.specs.Bits.{bit_number, first_bits, number};
ghost use Rattle.fab_netlist.specs.Cycles.{HasNoCycle, NamesCycle};
ghost use Rattle.fab_netlist.specs.Wide.{IsWideMade, matches, rows_say, tabled};
ghost use Rattle.fab_netlist.specs.inner.Skeleton.{bare, bare_cover};

use crate::netlist::{Cover, Latch, Order, Parts};
use crate::refusal::fault_of;
use crate::walk::find_order;
use fab_base::{Fault, Memory, Name};
use std::alloc::Global;
use std::marker::Model;

/// A row of a cover. Bit j is of input j.
#[derive(Clone, Copy, Debug, PartialEq, Eq)]
pub struct Cube {
    /// The inputs that it looks at.
    pub care: u16,
    /// The values that these must have; 0 for the others.
    pub value: u16,
}

impl Cube {
    /// Whether the inputs from the fifth on, where they spell `place`, are as the row asks.
    fn matches_upper(self, place: u32) -> bool
        ensures { result ≡ nat_eq (bit_and place (self.care / 16)) (self.value / 16) }
    {
        place & u32::from(self.care / 16) == u32::from(self.value / 16)
    }

    /// Whether the first four inputs, where they spell `low`, are as the row asks.
    fn matches_lower(self, low: u16) -> bool
        ensures { result ≡ nat_eq (bit_and low (self.care % 16)) (self.value % 16) }
    {
        low & (self.care % 16) == self.value % 16
    }

    /// Bit i tells whether the first four inputs, where they spell i, are as the row asks.
    fn lower_mask(self) -> u16
        ensures { result ≡ number (first_bits 16 (λ low. nat_eq (bit_and low (self.care % 16)) (self.value % 16))) }
    {
        let mut mask: u16 = 0;
        let mut low: u16 = 16;
        while 0 < low {
            low -= 1;
            mask = 2 * mask + bit_number(self.matches_lower(low));
        }
        mask
    }

    /// Bit i tells whether the row matches where the first four inputs spell i, and those from the fifth on `place`.
    fn covered_at(self, place: u32) -> u16
        ensures { result ≡ number (first_bits 16 (λ low. matches self (16 * place + low))) }
    {
        if self.matches_upper(place) {
            self.lower_mask()
        } else {
            0
        }
    }
}

fn bit_number(bit: bool) -> u16
    ensures value { result ≡ bit_number bit }
    ensures small { result ≤ 1 }
{
    if bit { 1 } else { 0 }
}

/// A look-up table between nets, by its rows.
#[derive(Debug, Drop)]
pub struct WideCover {
    /// The line of the file on which the cover begins.
    pub line: u32,
    /// The nets that it reads, at most 16.
    pub inputs: Vec<u32>,
    /// The net that it drives.
    pub output: u32,
    /// Whether the output is 1 where a row matches, and not 0. A cover without rows is an on-set: its output is 0.
    pub on: bool,
    /// The rows, in the order of the file.
    pub rows: Vec<Cube>,
}

impl Model for WideCover {
    ghost use Rattle.fab_netlist.specs.Wide.{PlainWideCover};

    ghost Value = { PlainWideCover };

    ghost view = { λ cover. record { line = cover.line; inputs = cover.inputs.items; output = cover.output; on = cover.on; rows = cover.rows.items } };
}

impl WideCover {
    /// Bit i tells whether a row matches where the first four inputs spell i, and those from the fifth on `place`.
    fn covered(&self, place: u32) -> u16
        ensures { result ≡ number (first_bits 16 (λ low. list_any (λ cube. matches cube (16 * place + low)) self.now.rows)) }
    {
        let mut covered: u16 = 0;
        for cube in &self.rows {
            covered |= cube.covered_at(place);
        }
        covered
    }

    /// 16 bits of the table: those where the inputs from the fifth on spell `place`. Bit i is the value of the output where the
    /// first four inputs spell i. The time is linear in the rows.
    pub fn word(&self, place: u32) -> u16
        ensures { result ≡ number (first_bits 16 (λ low. rows_say self.now.on self.now.rows (16 * place + low))) }
    {
        let covered = self.covered(place);
        if self.on { covered } else { u16::MAX - covered }
    }

    /// The cover without its rows, which a search for cycles does not look at.
    fn bare(&self, alloc: Global) -> Result<Cover, Memory>
        ensures { IfOk result (λ cover. cover ≡ bare_cover self.now) }
    {
        Ok(Cover {
            line: self.line,
            inputs: Vec::from_slice(alloc, &self.inputs)?,
            output: self.output,
            table: 0,
        })
    }
}

/// A netlist as it was read, before its wide covers are split. Contracts see it as a record of lists. What it means is told by the
/// netlist in which each cover has a table.
#[derive(Debug, Drop)]
pub struct WideNetlist {
    /// The names of the nets.
    pub nets: Vec<Name>,
    /// The nets of the input ports.
    pub inputs: Vec<u32>,
    /// The nets of the output ports.
    pub outputs: Vec<u32>,
    /// The covers, in any order.
    pub covers: Vec<WideCover>,
    /// The latches; held values stand in their order.
    pub latches: Vec<Latch>,
}

impl Model for WideNetlist {
    ghost use Rattle.fab_netlist.specs.Wide.{PlainWide};

    ghost Value = { PlainWide };

    ghost view = { λ netlist. record { nets = netlist.nets.items; inputs = netlist.inputs.items; outputs = netlist.outputs.items; covers = netlist.covers.items; latches = netlist.latches.items } };
}

impl WideNetlist {
    /// What a search for cycles goes through, where these are the covers without their rows.
    fn with_bare<'a>(&'a self, covers: &'a [Cover]) -> Parts<'a>
        requires { covers.now ≡ map bare_cover self.now.covers }
        ensures { result ≡ bare self.now }
    {
        Parts {
            nets: &self.nets,
            inputs: &self.inputs,
            outputs: &self.outputs,
            covers,
            latches: &self.latches,
            reset: None,
        }
    }
}

fn bare_covers(alloc: Global, covers: &[WideCover]) -> Result<Vec<Cover>, Memory>
    ensures { IfOk result (λ bare. bare.items ≡ map bare_cover covers.now) }
{
    let mut bare = Vec::with_capacity(alloc, covers.len())?;
    for cover in covers {
        bare.push(cover.bare(alloc)?)?;
    }
    Ok(bare)
}

/// Refuses a netlist of which covers form a cycle, as `check_acyclic` does. The time is linear: the cycle is searched here.
pub fn check_acyclic_wide(alloc: Global, file: &Name, netlist: &WideNetlist) -> Result<(), Fault>
    requires { IsWideMade netlist.now }
    ensures acyclic { OnOk result (HasNoCycle (tabled netlist.now)) }
    ensures refused { IfErr result (λ fault. (fault ≡ faults.Memory) ⊎ NamesCycle file.now (tabled netlist.now) fault) }
{
    let covers = bare_covers(alloc, &netlist.covers)?;
    let parts = netlist.with_bare(&covers);
    match find_order(alloc, &parts)? {
        Order::Straight(_) => Ok(()),
        Order::Round(round) => Err(fault_of(alloc, file, &parts, &round)?),
    }
}
