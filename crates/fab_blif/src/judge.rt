//! What is judged of a design: that each net has one driver, and that what is read is driven.

ghost use Rattle.std.specs.Prelude.{◌≡◌, ◌≢◌, ◌++◌, ◌||◌, ◌≤◌, if◌then◌else◌, ℕ, None, Some, not, nat_eq, slice_get, false, true, IfErr, IfOk, OnOk, IfNone, IfSome};
ghost use Rattle.std.specs.List.{list_any};
ghost use Rattle.fab_base.specs.declared.fault.Fault.TheVariants as faults;
ghost use Rattle.fab_blif.specs.Judged.{EachHasOne, IsSecondIn, drivers_in, inner_drivers, input_ports, input_uses, is_among, is_driven, is_inner, is_of, is_port, is_second, latch_uses, least_line, least_of, output_uses, readers, tagged, undriven_line};
ghost use Rattle.fab_blif.specs.Refusals.{RefusesDrivers, RefusesUndriven};

use crate::design::{Design, Use, push_uses};
use crate::parts::{DesignCover, DesignLatch};
use fab_base::{Fault, Memory, Name, Reason};
use fab_instances::malformed;
use indexmap::IndexSet;
use std::alloc::Global;

/// What drives a net: a cover or a latch, or an input port.
#[derive(Clone, Copy, Debug)]
struct Driver {
    line: u32,
    net: usize,
    is_port: bool,
}

fn line_at(lines: &[u32], place: usize) -> Option<u32>
    ensures { result ≡ slice_get lines.now place }
{
    lines.get(place).copied()
}

fn put_latch_outputs(
    uses: &mut Vec<Use>,
    lines: &[u32],
    latches: &[DesignLatch],
) -> Result<(), Memory>
    ensures { OnOk result (uses.new.items ≡ uses.old.items ++ latch_uses (λ latch. latch.output) lines.now latches.now) }
{
    for (place, latch) in latches.iter().enumerate() {
        let Some(line) = line_at(lines, place) else {
            break;
        };
        uses.push(Use {
            line,
            net: latch.output,
        })?;
    }
    Ok(())
}

fn put_latch_inputs(
    uses: &mut Vec<Use>,
    lines: &[u32],
    latches: &[DesignLatch],
) -> Result<(), Memory>
    ensures { OnOk result (uses.new.items ≡ uses.old.items ++ latch_uses (λ latch. latch.input) lines.now latches.now) }
{
    for (place, latch) in latches.iter().enumerate() {
        let Some(line) = line_at(lines, place) else {
            break;
        };
        uses.push(Use {
            line,
            net: latch.input,
        })?;
    }
    Ok(())
}

fn put_cover_outputs(uses: &mut Vec<Use>, covers: &[DesignCover]) -> Result<(), Memory>
    ensures { OnOk result (uses.new.items ≡ uses.old.items ++ output_uses covers.now) }
{
    for cover in covers {
        uses.push(Use {
            line: cover.line,
            net: cover.output,
        })?;
    }
    Ok(())
}

fn put_cover_inputs(uses: &mut Vec<Use>, covers: &[DesignCover]) -> Result<(), Memory>
    ensures { OnOk result (uses.new.items ≡ uses.old.items ++ input_uses covers.now) }
{
    for cover in covers {
        push_uses(uses, cover.line, &cover.inputs)?;
    }
    Ok(())
}

/// The covers and latches that drive nets.
pub(crate) fn inner_drivers(alloc: Global, design: &Design) -> Result<Vec<Use>, Memory>
    ensures { IfOk result (λ uses. uses.items ≡ inner_drivers design.now) }
{
    let mut uses = Vec::new(alloc);
    put_cover_outputs(&mut uses, &design.covers)?;
    put_latch_outputs(&mut uses, &design.latch_lines, &design.latches)?;
    Ok(uses)
}

/// The input ports; one port may stand on several lines.
fn input_ports(alloc: Global, design: &Design) -> Result<Vec<Use>, Memory>
    ensures { IfOk result (λ uses. uses.items ≡ input_ports design.now) }
{
    let mut uses = Vec::from_slice(alloc, &design.inputs)?;
    uses.extend_from_slice(&design.clock_ports)?;
    Ok(uses)
}

/// What reads nets: covers, latches and output ports.
pub(crate) fn readers_of(alloc: Global, design: &Design) -> Result<Vec<Use>, Memory>
    ensures { IfOk result (λ uses. uses.items ≡ readers design.now) }
{
    let mut uses = Vec::new(alloc);
    put_cover_inputs(&mut uses, &design.covers)?;
    put_latch_inputs(&mut uses, &design.latch_lines, &design.latches)?;
    uses.extend_from_slice(&design.outputs)?;
    Ok(uses)
}

fn put_drivers(drivers: &mut Vec<Driver>, uses: &[Use], is_port: bool) -> Result<(), Memory>
    ensures { OnOk result (drivers.new.items ≡ drivers.old.items ++ tagged is_port uses.now) }
{
    for used in uses {
        drivers.push(Driver {
            line: used.line,
            net: used.net,
            is_port,
        })?;
    }
    Ok(())
}

/// What drives nets: covers, latches and input ports.
fn drivers_of(alloc: Global, design: &Design) -> Result<Vec<Driver>, Memory>
    ensures { IfOk result (λ drivers. drivers.items ≡ tagged false (inner_drivers design.now) ++ tagged true (input_ports design.now)) }
{
    let mut drivers = Vec::new(alloc);
    put_drivers(&mut drivers, &inner_drivers(alloc, design)?, false)?;
    put_drivers(&mut drivers, &input_ports(alloc, design)?, true)?;
    Ok(drivers)
}

pub(crate) fn is_among(nets: &IndexSet<usize>, net: usize) -> bool
    ensures { result ≡ is_among nets.now.keys net }
{
    nets.contains(&net)
}

fn put_net(nets: &mut IndexSet<usize>, net: usize) -> Result<(), Memory>
    ensures { OnOk result ((other : ℕ) → is_among nets.new.keys other ≡ (nat_eq other net || is_among nets.old.keys other)) }
{
    nets.insert_full(net)?;
    Ok(())
}

/// Whether a driver is the second one of its net. Lines of one port are one driver.
fn is_second(
    inner: &mut IndexSet<usize>,
    ports: &mut IndexSet<usize>,
    driver: &Driver,
) -> Result<bool, Memory>
    ensures second { IfOk result (λ second. second ≡ is_second inner.old.keys ports.old.keys driver.now) }
    ensures inner_nets { OnOk result ((other : ℕ) → is_among inner.new.keys other ≡ (is_inner other driver.now || is_among inner.old.keys other)) }
    ensures port_nets { OnOk result ((other : ℕ) → is_among ports.new.keys other ≡ (is_port other driver.now || is_among ports.old.keys other)) }
{
    let again = is_among(inner, driver.net);
    if driver.is_port {
        put_net(ports, driver.net)?;
        Ok(again)
    } else {
        put_net(inner, driver.net)?;
        Ok(is_among(ports, driver.net) || again)
    }
}

/// The line of the first driver in the order of lines that is the second one of its net.
fn second_driver(alloc: Global, drivers: &mut Vec<Driver>) -> Result<Option<u32>, Memory>
    ensures none { IfOk result (λ line. IfNone line ((net : ℕ) → drivers_in drivers.old.items net ≤ 1)) }
    ensures second { IfOk result (λ line. IfSome line (IsSecondIn drivers.old.items)) }
{
    drivers.sort_by_key(|driver| driver.line)?;
    let mut inner = IndexSet::new(alloc);
    let mut ports = IndexSet::new(alloc);
    for driver in drivers.as_slice() {
        if is_second(&mut inner, &mut ports, driver)? {
            return Ok(Some(driver.line));
        }
    }
    Ok(None)
}

/// The nets that uses name.
pub(crate) fn nets_in(alloc: Global, uses: &[Use]) -> Result<IndexSet<usize>, Memory>
    ensures { IfOk result (λ nets. (net : ℕ) → is_among nets.keys net ≡ list_any (is_of net) uses.now) }
{
    let mut nets = IndexSet::new(alloc);
    for used in uses {
        put_net(&mut nets, used.net)?;
    }
    Ok(nets)
}

fn least_of(first: Option<u32>, second: Option<u32>) -> Option<u32>
    ensures { result ≡ least_of first second }
{
    match first {
        None => second,
        Some(line) => match second {
            None => Some(line),
            Some(other) => Some(line.min(other)),
        },
    }
}

/// The lesser line, where the second one counts.
fn with_line(least: Option<u32>, counts: bool, line: u32) -> Option<u32>
    ensures { result ≡ (if counts then least_of least (Some line) else least) }
{
    if counts {
        least_of(least, Some(line))
    } else {
        least
    }
}

/// The least line of the uses of other nets.
fn least_outside(nets: &IndexSet<usize>, uses: &[Use]) -> Option<u32>
    ensures { result ≡ least_line (λ used. not (is_among nets.now.keys used.net)) uses.now }
{
    let mut least: Option<u32> = None;
    for used in uses {
        least = with_line(least, !is_among(nets, used.net), used.line);
    }
    least
}

/// Refuses a net with two drivers, at the least line that has the second one of a net: `Malformed`, `drivers`.
pub(crate) fn refuse_drivers(alloc: Global, file: &Name, design: &Design) -> Result<(), Fault>
    ensures once { OnOk result (EachHasOne design.now) }
    ensures refused { IfErr result (λ fault. (fault ≢ faults.Memory) → RefusesDrivers file.now design.now fault) }
{
    let mut drivers = drivers_of(alloc, design)?;
    match second_driver(alloc, &mut drivers)? {
        None => Ok(()),
        Some(line) => Err(malformed(alloc, file, line, Reason::Drivers)),
    }
}

/// The nets that have a driver.
pub(crate) fn driven_nets(alloc: Global, design: &Design) -> Result<IndexSet<usize>, Memory>
    ensures { IfOk result (λ nets. (net : ℕ) → is_among nets.keys net ≡ is_driven design.now net) }
{
    let mut uses = inner_drivers(alloc, design)?;
    uses.extend_from_slice(&input_ports(alloc, design)?)?;
    nets_in(alloc, &uses)
}

fn undriven_line(alloc: Global, design: &Design) -> Result<Option<u32>, Memory>
    ensures { IfOk result (λ line. line ≡ undriven_line design.now) }
{
    let driven = driven_nets(alloc, design)?;
    let readers = readers_of(alloc, design)?;
    Ok(least_outside(&driven, &readers))
}

/// Refuses a net that is read and not driven, at its first reader: `Malformed`, `undriven`.
pub(crate) fn refuse_undriven(alloc: Global, file: &Name, design: &Design) -> Result<(), Fault>
    ensures driven { OnOk result (undriven_line design.now ≡ None) }
    ensures refused { IfErr result (λ fault. (fault ≢ faults.Memory) → RefusesUndriven file.now design.now fault) }
{
    match undriven_line(alloc, design)? {
        None => Ok(()),
        Some(line) => Err(malformed(alloc, file, line, Reason::Undriven)),
    }
}
