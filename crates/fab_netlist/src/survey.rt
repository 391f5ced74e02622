//! What packing has to know of each net: how many read it, which latch takes it and which cover drives it.

ghost use Rattle.std.specs.Prelude.{◌≡◌, ◌<◌, ◌≤◌, ◌++◌, IfOk, length, map};
ghost use Rattle.std.specs.List.{All, flat_map};
ghost use Rattle.fab_netlist.specs.Packing.{inner_reads};
ghost use Rattle.fab_netlist.specs.inner.Survey.{counted, is_nobody, is_one, kept_by, more, noted, pair_by, paired_by, place_table, reader_table, survey_of};
ghost use Rattle.fab_netlist.specs.WellMade.{IsWired, latch_inputs};

use crate::netlist::{Cover, Latch, Netlist};
use fab_base::Memory;
use std::alloc::Global;
use std::marker::Model;

/// How many readers a net has, as far as packing has to know.
#[derive(Clone, Copy, Debug)]
enum Readers {
    Nobody,
    One,
    Several,
}

impl Readers {
    fn more(self) -> Readers
        ensures { result ≡ more self }
    {
        match self {
            Readers::Nobody => Readers::One,
            Readers::One | Readers::Several => Readers::Several,
        }
    }

    fn is_nobody(self) -> bool
        ensures { result ≡ is_nobody self }
    {
        match self {
            Readers::Nobody => true,
            Readers::One | Readers::Several => false,
        }
    }

    fn is_one(self) -> bool
        ensures { result ≡ is_one self }
    {
        match self {
            Readers::One => true,
            Readers::Nobody | Readers::Several => false,
        }
    }
}

/// Tables by net.
#[derive(Drop)]
pub(crate) struct Survey {
    /// How many covers and latches read it; an output of the netlist counts as two.
    readers: Vec<Readers>,
    /// The first latch that takes it.
    takers: Vec<Option<u32>>,
    /// The cover that drives it.
    drivers: Vec<Option<u32>>,
}

impl Model for Survey {
    ghost use Rattle.fab_netlist.specs.inner.Survey.{PlainSurvey};

    ghost Value = { PlainSurvey };

    ghost view = { λ survey. record { readers = survey.readers.items; takers = survey.takers.items; drivers = survey.drivers.items } };
}

fn count(nets: &[u32], table: &mut [Readers])
    requires { All (λ net. net < length table.old) nets.now }
    ensures { table.new ≡ counted nets.now table.old }
{
    for net in nets {
        let readers = table[*net as usize];
        table[*net as usize] = readers.more();
    }
}

fn count_cover_inputs(covers: &[Cover], table: &mut [Readers])
    requires { All (λ cover. All (λ net. net < length table.old) cover.inputs) covers.now }
    ensures { table.new ≡ counted (flat_map (λ cover. cover.inputs) covers.now) table.old }
{
    for cover in covers {
        count(&cover.inputs, table);
    }
}

fn note(nets: &[u32], table: &mut [Option<u32>])
    requires below { All (λ net. net < length table.old) nets.now }
    requires few { length nets.now ≤ 65536 }
    ensures { table.new ≡ noted 0 nets.now table.old }
{
    for (place, net) in nets.iter().enumerate() {
        if table[*net as usize].is_some() {
            continue;
        }
        table[*net as usize] = Some(place as u32);
    }
}

/// For each net its first place in a list.
pub(crate) fn place_table(
    alloc: Global,
    size: usize,
    nets: &[u32],
) -> Result<Vec<Option<u32>>, Memory>
    requires below { All (λ net. net < size) nets.now }
    requires few { length nets.now ≤ 65536 }
    ensures { IfOk result (λ table. table.items ≡ place_table size nets.now) }
{
    let mut table = vec![in alloc; None; size]?;
    note(nets, &mut table);
    Ok(table)
}

fn latch_inputs(alloc: Global, latches: &[Latch]) -> Result<Vec<u32>, Memory>
    ensures { IfOk result (λ nets. nets.items ≡ map (λ latch. latch.input) latches.now) }
{
    let nets = latches.iter().map(|latch| latch.input).collect(alloc)?;
    Ok(nets)
}

fn cover_outputs(alloc: Global, covers: &[Cover]) -> Result<Vec<u32>, Memory>
    ensures { IfOk result (λ nets. nets.items ≡ map (λ cover. cover.output) covers.now) }
{
    let nets = covers.iter().map(|cover| cover.output).collect(alloc)?;
    Ok(nets)
}

/// Counts all readers, where these are the nets that latches take.
fn count_readers(netlist: &Netlist, taken: &[u32], table: &mut [Readers])
    requires wired { IsWired netlist.now }
    requires taken { taken.now ≡ latch_inputs netlist.now }
    requires fits { length table.old ≡ length netlist.now.nets }
    ensures { table.new ≡ counted (inner_reads netlist.now ++ (netlist.now.outputs ++ netlist.now.outputs)) table.old }
{
    count_cover_inputs(&netlist.covers, table);
    count(taken, table);
    count(&netlist.outputs, table);
    count(&netlist.outputs, table);
}

/// For each net how many read it, where these are the nets that latches take.
fn reader_table(alloc: Global, netlist: &Netlist, taken: &[u32]) -> Result<Vec<Readers>, Memory>
    requires wired { IsWired netlist.now }
    requires taken { taken.now ≡ latch_inputs netlist.now }
    ensures { IfOk result (λ table. table.items ≡ reader_table netlist.now) }
{
    let mut table = vec![in alloc; Readers::Nobody; netlist.nets.len()]?;
    count_readers(netlist, taken, &mut table);
    Ok(table)
}

impl Survey {
    /// The tables of a netlist.
    pub(crate) fn of(alloc: Global, netlist: &Netlist) -> Result<Survey, Memory>
        requires { IsWired netlist.now }
        ensures { IfOk result (λ survey. survey ≡ survey_of netlist.now) }
    {
        let size = netlist.nets.len();
        let taken = latch_inputs(alloc, &netlist.latches)?;
        let driven = cover_outputs(alloc, &netlist.covers)?;
        let readers = reader_table(alloc, netlist, &taken)?;
        let takers = place_table(alloc, size, &taken)?;
        let drivers = place_table(alloc, size, &driven)?;
        Ok(Survey {
            readers,
            takers,
            drivers,
        })
    }

    /// Whether a cover becomes a cell.
    pub(crate) fn is_kept(&self, cover: &Cover) -> bool
        requires { cover.now.output < length self.now.readers }
        ensures { result ≡ kept_by self.now cover.now }
    {
        !self.readers[cover.output as usize].is_nobody()
    }

    /// The latch that shares a cell with a cover.
    pub(crate) fn pair(&self, cover: &Cover) -> Option<u32>
        requires readers { cover.now.output < length self.now.readers }
        requires takers { cover.now.output < length self.now.takers }
        ensures { result ≡ pair_by self.now cover.now }
    {
        if self.readers[cover.output as usize].is_one() {
            self.takers[cover.output as usize]
        } else {
            None
        }
    }

    /// Whether a latch shares a cell with a cover.
    pub(crate) fn is_paired(&self, latch: &Latch) -> bool
        requires readers { latch.now.input < length self.now.readers }
        requires drivers { latch.now.input < length self.now.drivers }
        ensures { result ≡ paired_by self.now latch.now }
    {
        self.readers[latch.input as usize].is_one() && self.drivers[latch.input as usize].is_some()
    }
}
