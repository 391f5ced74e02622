//! The refusal of a netlist with a cycle of covers.

ghost use Rattle.std.specs.Prelude.{◌≡◌, ◌⊎◌, ◌++◌, ◌<◌, ℕ, true, false, drop, take, IfErr, IfOk, OnOk, codes, get_or, length};
ghost use Rattle.std.specs.List.{All, flat_map};
ghost use Rattle.fab_base.specs.Report.{spaced};
ghost use Rattle.fab_base.specs.declared.fault.Fault.TheVariants as faults;
ghost use Rattle.fab_netlist.specs.Cycles.{ComesFirst, HasNoCycle, IsOneCycle, NamesCycle, cycle_words};
ghost use Rattle.fab_netlist.specs.Plain.{cover_at, name_of};
ghost use Rattle.fab_netlist.specs.WellMade.{IsWired};

use crate::netlist::{Cover, Netlist, Parts};
use fab_base::{Fault, Memory, Name, Place};
use std::alloc::Global;

fn line_of(netlist: &Parts<'_>, place: u32) -> u32
    requires { place < length netlist.now.covers }
    ensures { result ≡ (cover_at netlist.now place).line }
{
    let cover: &Cover = &netlist.covers[place as usize];
    cover.line
}

fn output_of(netlist: &Parts<'_>, place: u32) -> u32
    requires { place < length netlist.now.covers }
    ensures { result ≡ (cover_at netlist.now place).output }
{
    let cover: &Cover = &netlist.covers[place as usize];
    cover.output
}

/// Whether a cover comes before another one: by line, and on one line as they stand in the netlist.
fn comes_before(netlist: &Parts<'_>, place: u32, other: u32) -> bool
    requires place { place < length netlist.now.covers }
    requires other { other < length netlist.now.covers }
    ensures yes { result ≡ true → ComesFirst netlist.now place other }
    ensures not_yet { result ≡ false → ComesFirst netlist.now other place }
{
    let line = line_of(netlist, place);
    let other_line = line_of(netlist, other);
    line < other_line || (line == other_line && place <= other)
}

/// Where in a cycle its first cover stands.
fn first_of(netlist: &Parts<'_>, round: &[u32]) -> usize
    requires within { All (λ place. place < length netlist.now.covers) round.now }
    requires some { 0 < length round.now }
    ensures within { result < length round.now }
    ensures first { (index : ℕ) → index < length round.now → ComesFirst netlist.now (get_or round.now result 0) (get_or round.now index 0) }
{
    let mut first = 0;
    for (index, place) in round.iter().enumerate() {
        if comes_before(netlist, *place, round[first]) {
            first = index;
        }
    }
    first
}

/// The name of the net that a cover drives.
fn output_name<'a>(netlist: &Parts<'a>, place: u32) -> &'a Name
    requires wired { IsWired netlist.now }
    requires within { place < length netlist.now.covers }
    ensures { result.now ≡ name_of netlist.now (cover_at netlist.now place).output }
{
    &netlist.nets[output_of(netlist, place) as usize]
}

/// Writes the names of the nets that covers drive, each after a blank.
fn put_names(out: &mut Vec<u8>, netlist: &Parts<'_>, places: &[u32]) -> Result<(), Memory>
    requires wired { IsWired netlist.now }
    requires within { All (λ place. place < length netlist.now.covers) places.now }
    ensures { OnOk result (out.new.items ≡ out.old.items ++ flat_map (λ place. spaced (name_of netlist.now (cover_at netlist.now place).output)) places.now) }
{
    for place in places {
        out.push(b' ')?;
        out.extend_from_slice(output_name(netlist, *place).bytes())?;
    }
    Ok(())
}

/// `cycle` and the names of the nets that the covers drive, from one of them on.
fn words_from(
    alloc: Global,
    netlist: &Parts<'_>,
    round: &[u32],
    first: usize,
) -> Result<Name, Memory>
    requires wired { IsWired netlist.now }
    requires within { All (λ place. place < length netlist.now.covers) round.now }
    requires first { first < length round.now }
    ensures { IfOk result (λ words. words ≡ cycle_words netlist.now (drop first round.now ++ take first round.now)) }
{
    let (end, start) = round.split_at(first);
    let mut out = Vec::from_slice(alloc, b"cycle")?;
    put_names(&mut out, netlist, start)?;
    put_names(&mut out, netlist, end)?;
    Ok(Name::from(out))
}

/// The refusal of the cycle that these covers form.
pub(crate) fn fault_of(
    alloc: Global,
    file: &Name,
    netlist: &Parts<'_>,
    round: &[u32],
) -> Result<Fault, Memory>
    requires wired { IsWired netlist.now }
    requires cycle { IsOneCycle netlist.now round.now }
    ensures { IfOk result (NamesCycle file.now netlist.now) }
{
    let first = first_of(netlist, round);
    let words = words_from(alloc, netlist, round, first)?;
    let line = line_of(netlist, round[first]);
    let file = file.copy(alloc)?;
    Ok(Fault::Unsupported(Place { file, line }, words))
}

/// Refuses a netlist of which covers form a cycle, each reading the output of the next, and the last one that of the first.
/// The fault is `Unsupported` and names the nets that the covers of a cycle drive, from the cover of the least line on; where
/// there are several cycles, it may be any of them. It is `Memory` where memory was refused. Nothing is searched here: a netlist
/// knows its cycle from when it was made.
pub fn check_acyclic(alloc: Global, file: &Name, netlist: &Netlist) -> Result<(), Fault>
    ensures acyclic { OnOk result (HasNoCycle netlist.now) }
    ensures refused { IfErr result (λ fault. (fault ≡ faults.Memory) ⊎ NamesCycle file.now netlist.now fault) }
{
    netlist.is_well_made();
    match netlist.cycle() {
        None => Ok(()),
        Some(round) => Err(fault_of(alloc, file, &netlist.parts(), round)?),
    }
}
