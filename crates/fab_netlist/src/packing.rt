//! Packing: covers and latches become cells, of which each takes one LUT4c.

ghost use Rattle.std.specs.Prelude.{◌≡◌, ◌<◌, ◌≤◌, ◌++◌, IfOk, OnOk, length, map, not, option_map};
ghost use Rattle.std.specs.List.{All, filter};
ghost use Rattle.std.specs.Option.{ForSome};
ghost use Rattle.fab_base.specs.Reading.{Gives};
ghost use Rattle.fab_netlist.specs.declared.net_id.NetId.TheVariants as ids;
ghost use Rattle.fab_netlist.specs.Packing.{cell_or, input_or, latch_at, packing};
ghost use Rattle.fab_netlist.specs.Plain.{name_of};
ghost use Rattle.fab_netlist.specs.inner.Places.{IsFor, cell_by, cells_by, id_at, ids_by, latch_cell_by, net_by, nets_by, packed_by, room, table_by};
ghost use Rattle.fab_netlist.specs.inner.Survey.{kept_by, pair_by, paired_by, survey_of};
ghost use Rattle.fab_netlist.specs.WellMade.{IsWired};

use crate::net_id::NetId;
use crate::netlist::{Cover, Latch, Netlist};
use crate::survey::{Survey, place_table};
use fab_base::{Fault, Memory, Name, SiteKind};
use std::alloc::Global;
use std::marker::Model;

/// A cell: a look-up table, with a latch behind it or not.
#[derive(Debug, Drop)]
pub struct Cell {
    /// Bit i is what the table gives where the inputs, the first as least significant, spell i.
    pub table: u16,
    /// The nets that it reads, at most four.
    pub inputs: Vec<NetId>,
    /// The initial value of its latch: 0, 1, or 2 and 3 for any.
    pub latch: Option<u8>,
}

impl Model for Cell {
    ghost use Rattle.fab_netlist.specs.Packed.{PlainCell};

    ghost Value = { PlainCell };

    ghost view = { λ cell. record { table = cell.table; inputs = cell.inputs.items; latch = cell.latch } };
}

/// A packed design. Contracts see it as a record of lists.
#[derive(Debug, Drop)]
pub struct Packed {
    /// The cells: the covers that are kept, in their order, and then the latches that share no cell, in theirs.
    pub cells: Vec<Cell>,
    /// The names of the input ports.
    pub inputs: Vec<Name>,
    /// The names of the output ports, with the nets that they show.
    pub outputs: Vec<(Name, NetId)>,
    /// The reset port, by its place among the input ports.
    pub reset: Option<u32>,
}

impl Model for Packed {
    ghost use Rattle.fab_netlist.specs.Packed.{PlainPacked};

    ghost Value = { PlainPacked };

    ghost view = { λ packed. record { cells = packed.cells.items; inputs = packed.inputs.items; outputs = packed.outputs.items; reset = packed.reset } };
}

/// The net that a cover's cell drives.
fn cover_net(netlist: &Netlist, survey: &Survey, cover: &Cover) -> u32
    requires survey { IsFor netlist.now survey.now }
    requires below { cover.now.output < length netlist.now.nets }
    ensures { result ≡ net_by netlist.now survey.now cover.now }
{
    match survey.pair(cover) {
        None => cover.output,
        Some(place) => netlist.latches[place as usize].output,
    }
}

/// Adds the nets that the cells of covers drive.
fn put_cover_nets(out: &mut Vec<u32>, netlist: &Netlist, survey: &Survey) -> Result<(), Memory>
    requires survey { IsFor netlist.now survey.now }
    requires below { All (λ cover. cover.output < length netlist.now.nets) netlist.now.covers }
    ensures { OnOk result (out.new.items ≡ out.old.items ++ map (net_by netlist.now survey.now) (filter (kept_by survey.now) netlist.now.covers)) }
{
    for cover in &netlist.covers {
        if !survey.is_kept(cover) {
            continue;
        }
        out.push(cover_net(netlist, survey, cover))?;
    }
    Ok(())
}

/// Adds the nets that the other latches drive.
fn put_latch_nets(out: &mut Vec<u32>, netlist: &Netlist, survey: &Survey) -> Result<(), Memory>
    requires survey { IsFor netlist.now survey.now }
    requires below { All (λ latch. latch.input < length netlist.now.nets) netlist.now.latches }
    ensures { OnOk result (out.new.items ≡ out.old.items ++ map (λ latch. latch.output) (filter (λ latch. not (paired_by survey.now latch)) netlist.now.latches)) }
{
    for latch in &netlist.latches {
        if survey.is_paired(latch) {
            continue;
        }
        out.push(latch.output)?;
    }
    Ok(())
}

/// The nets that the cells drive, in the order of the cells.
fn cell_nets(alloc: Global, netlist: &Netlist, survey: &Survey) -> Result<Vec<u32>, Memory>
    requires wired { IsWired netlist.now }
    requires survey { IsFor netlist.now survey.now }
    ensures { IfOk result (λ nets. nets.items ≡ nets_by netlist.now survey.now) }
{
    let mut nets = Vec::new(alloc);
    put_cover_nets(&mut nets, netlist, survey)?;
    put_latch_nets(&mut nets, netlist, survey)?;
    Ok(nets)
}

fn id_of(input: Option<u32>, cell: Option<u32>) -> NetId
    ensures { result ≡ input_or input (cell_or cell ids.Zero) }
{
    match input {
        Some(place) => NetId::In(place),
        None => match cell {
            Some(place) => NetId::Cell(place),
            None => NetId::Zero,
        },
    }
}

/// For each net the packed net, by the places of inputs and of nets of cells.
fn joined_tables(
    alloc: Global,
    inputs: &[Option<u32>],
    cells: &[Option<u32>],
) -> Result<Vec<NetId>, Memory>
    requires { length cells.now ≡ length inputs.now }
    ensures { IfOk result (λ table. table.items ≡ ids_by inputs.now cells.now) }
{
    let mut table = Vec::with_capacity(alloc, inputs.len())?;
    for (net, input) in inputs.iter().enumerate() {
        table.push(id_of(*input, cells[net]))?;
    }
    Ok(table)
}

/// For each net the packed net, where these are the nets that the cells drive.
fn id_table(alloc: Global, netlist: &Netlist, nets: &[u32]) -> Result<Vec<NetId>, Memory>
    requires wired { IsWired netlist.now }
    requires below { All (λ net. net < length netlist.now.nets) nets.now }
    requires few { length nets.now ≤ 65536 }
    ensures { IfOk result (λ table. table.items ≡ table_by netlist.now nets.now) }
{
    let size = netlist.nets.len();
    let inputs = place_table(alloc, size, &netlist.inputs)?;
    let cells = place_table(alloc, size, nets)?;
    joined_tables(alloc, &inputs, &cells)
}

fn ids_of(alloc: Global, table: &[NetId], nets: &[u32]) -> Result<Vec<NetId>, Memory>
    requires { All (λ net. net < length table.now) nets.now }
    ensures { IfOk result (λ found. found.items ≡ map (id_at table.now) nets.now) }
{
    let found = nets.iter().map(|net| table[*net as usize]).collect(alloc)?;
    Ok(found)
}

fn initial(netlist: &Netlist, latch: Option<u32>) -> Option<u8>
    requires { ForSome latch (λ place. place < length netlist.now.latches) }
    ensures { result ≡ option_map (λ place. (latch_at netlist.now place).init) latch }
{
    let place = latch?;
    Some(netlist.latches[place as usize].init)
}

fn cover_cell(
    alloc: Global,
    netlist: &Netlist,
    survey: &Survey,
    table: &[NetId],
    cover: &Cover,
) -> Result<Cell, Memory>
    requires survey { IsFor netlist.now survey.now }
    requires table { length table.now ≡ length netlist.now.nets }
    requires inputs { All (λ net. net < length netlist.now.nets) cover.now.inputs }
    requires output { cover.now.output < length netlist.now.nets }
    ensures { IfOk result (λ cell. cell ≡ cell_by netlist.now survey.now table.now cover.now) }
{
    let inputs = ids_of(alloc, table, &cover.inputs)?;
    Ok(Cell {
        table: cover.table,
        inputs,
        latch: initial(netlist, survey.pair(cover)),
    })
}

/// The cell of a latch alone, which passes on its one input.
fn latch_cell(alloc: Global, table: &[NetId], latch: &Latch) -> Result<Cell, Memory>
    requires { latch.now.input < length table.now }
    ensures { IfOk result (λ cell. cell ≡ latch_cell_by table.now latch.now) }
{
    let mut inputs = Vec::new(alloc);
    inputs.push(table[latch.input as usize])?;
    Ok(Cell {
        table: 0xAAAA,
        inputs,
        latch: Some(latch.init),
    })
}

/// Adds the cells of covers.
fn put_cover_cells(
    alloc: Global,
    out: &mut Vec<Cell>,
    netlist: &Netlist,
    survey: &Survey,
    table: &[NetId],
) -> Result<(), Memory>
    requires survey { IsFor netlist.now survey.now }
    requires table { length table.now ≡ length netlist.now.nets }
    requires inputs { All (λ cover. All (λ net. net < length netlist.now.nets) cover.inputs) netlist.now.covers }
    requires outputs { All (λ cover. cover.output < length netlist.now.nets) netlist.now.covers }
    ensures { OnOk result (out.new.items ≡ out.old.items ++ map (cell_by netlist.now survey.now table.now) (filter (kept_by survey.now) netlist.now.covers)) }
{
    for cover in &netlist.covers {
        if !survey.is_kept(cover) {
            continue;
        }
        out.push(cover_cell(alloc, netlist, survey, table, cover)?)?;
    }
    Ok(())
}

/// Adds the cells of the other latches.
fn put_latch_cells(
    alloc: Global,
    out: &mut Vec<Cell>,
    netlist: &Netlist,
    survey: &Survey,
    table: &[NetId],
) -> Result<(), Memory>
    requires survey { IsFor netlist.now survey.now }
    requires table { length table.now ≡ length netlist.now.nets }
    requires below { All (λ latch. latch.input < length netlist.now.nets) netlist.now.latches }
    ensures { OnOk result (out.new.items ≡ out.old.items ++ map (latch_cell_by table.now) (filter (λ latch. not (paired_by survey.now latch)) netlist.now.latches)) }
{
    for latch in &netlist.latches {
        if survey.is_paired(latch) {
            continue;
        }
        out.push(latch_cell(alloc, table, latch)?)?;
    }
    Ok(())
}

fn cells(
    alloc: Global,
    netlist: &Netlist,
    survey: &Survey,
    table: &[NetId],
) -> Result<Vec<Cell>, Memory>
    requires wired { IsWired netlist.now }
    requires survey { IsFor netlist.now survey.now }
    requires table { length table.now ≡ length netlist.now.nets }
    ensures { IfOk result (λ cells. cells.items ≡ cells_by netlist.now survey.now table.now) }
{
    let mut cells = Vec::new(alloc);
    put_cover_cells(alloc, &mut cells, netlist, survey, table)?;
    put_latch_cells(alloc, &mut cells, netlist, survey, table)?;
    Ok(cells)
}

/// The names of nets.
fn names(alloc: Global, netlist: &Netlist, nets: &[u32]) -> Result<Vec<Name>, Memory>
    requires { All (λ net. net < length netlist.now.nets) nets.now }
    ensures { IfOk result (λ names. names.items ≡ map (name_of netlist.now) nets.now) }
{
    let mut names = Vec::new(alloc);
    for net in nets {
        names.push(netlist.nets[*net as usize].copy(alloc)?)?;
    }
    Ok(names)
}

/// The names of nets, with the packed nets.
fn shown(
    alloc: Global,
    netlist: &Netlist,
    table: &[NetId],
    nets: &[u32],
) -> Result<Vec<(Name, NetId)>, Memory>
    requires table { length table.now ≡ length netlist.now.nets }
    requires below { All (λ net. net < length netlist.now.nets) nets.now }
    ensures { IfOk result (λ shown. shown.items ≡ map (λ net. (name_of netlist.now net, id_at table.now net)) nets.now) }
{
    let mut shown = Vec::new(alloc);
    for net in nets {
        let name = netlist.nets[*net as usize].copy(alloc)?;
        shown.push((name, table[*net as usize]))?;
    }
    Ok(shown)
}

/// The packed netlist by its tables.
fn assemble(
    alloc: Global,
    netlist: &Netlist,
    survey: &Survey,
    nets: &[u32],
) -> Result<Packed, Memory>
    requires wired { IsWired netlist.now }
    requires survey { survey.now ≡ survey_of netlist.now }
    requires nets { nets.now ≡ nets_by netlist.now survey.now }
    ensures { IfOk result (λ packed. packed ≡ packed_by netlist.now survey.now) }
{
    let table = id_table(alloc, netlist, nets)?;
    Ok(Packed {
        cells: cells(alloc, netlist, survey, &table)?,
        inputs: names(alloc, netlist, &netlist.inputs)?,
        outputs: shown(alloc, netlist, &table, &netlist.outputs)?,
        reset: netlist.reset,
    })
}

/// Refuses more cells than LUT4c, and then more data ports than IO sites.
fn check_sites(cells: u32, ports: u32, luts: u32, pads: u32) -> Result<(), Fault>
    ensures { result ≡ room cells ports luts pads }
{
    if luts < cells {
        return Err(Fault::Short(SiteKind::Lut, cells, luts));
    }
    if pads < ports {
        return Err(Fault::Short(SiteKind::Pad, ports, pads));
    }
    Ok(())
}

/// Packs a netlist for a fabric of so many LUT4c and IO sites: each cover that is kept becomes a cell, together with the
/// latch that takes its output, if nothing else does; each other latch becomes a cell of its own. The fault is `Short` of
/// LUT4c where there are more cells than LUT4c, else `Short` of IO where there are more data ports than IO sites. It is
/// `Memory` where memory was refused. The time is linear in the nets, covers and latches.
pub fn pack(alloc: Global, netlist: &Netlist, luts: u32, pads: u32) -> Result<Packed, Fault>
    ensures { Gives (λ packed. packed) result (packing netlist.now luts pads) }
{
    netlist.is_well_made();
    let survey = Survey::of(alloc, netlist)?;
    let nets = cell_nets(alloc, netlist, &survey)?;
    let ports = netlist.inputs.len() + netlist.outputs.len();
    check_sites(nets.len() as u32, ports as u32, luts, pads)?;
    Ok(assemble(alloc, netlist, &survey, &nets)?)
}
