//! What is judged of the clocks of a design: that there is one, that it is driven, and that it is no data.

ghost use Rattle.std.specs.Prelude.{◌≡◌, ◌≢◌, ◌++◌, if◌then◌else◌, ℕ, None, Some, map, not, [], IfErr, IfOk, OnOk};
ghost use Rattle.std.specs.List.{list_any};
ghost use Rattle.fab_base.specs.declared.fault.Fault.TheVariants as faults;
ghost use Rattle.fab_blif.specs.declared.clocks.WrongClock.TheVariants as wrongs;
ghost use Rattle.fab_blif.specs.Clocks.{clock_faults, clock_uses, data_faults, faults_at, first_fault, first_use, is_clock, is_other, latch_data, named_faults, wrong_by};
ghost use Rattle.fab_blif.specs.Design.{number_in};
ghost use Rattle.fab_blif.specs.Judged.{inner_drivers, is_among, is_driven, readers};
ghost use Rattle.fab_blif.specs.Refusals.{RefusesClocks, clock_problem};
ghost use Rattle.fab_blif.specs.inner.Walk.{plain_clock, plain_net, plain_nets};

use crate::design::{ClockName, Design, Use};
use crate::judge::{driven_nets, inner_drivers, is_among, nets_in, readers_of};
use crate::net::Net;
use crate::parts::DesignLatch;
use fab_base::{Fault, Memory, Name, Problem, Reason};
use indexmap::IndexSet;
use std::alloc::Global;

/// What is wrong with a clock.
#[derive(Clone, Copy, Debug)]
pub enum WrongClock {
    /// Nothing drives it, and it is no input.
    Undriven,
    /// A cover or a latch drives it, or something but a latch's control reads it.
    Data,
    /// It is not the first one.
    Second,
}

/// A line on which a clock is wrong.
#[derive(Clone, Copy, Debug)]
pub struct ClockFault {
    /// The line.
    pub line: u32,
    /// What is wrong there.
    pub wrong: WrongClock,
}

/// What a net that is named as a clock is judged by.
#[derive(Drop)]
struct Clocking {
    /// The nets that have a driver.
    driven: IndexSet<usize>,
    /// The nets that some line names as a clock.
    clocks: IndexSet<usize>,
    /// The clock.
    first: Option<Use>,
}

/// The number of a net. One that is no net of the design has the number that the next net would have.
fn number_or_len(nets: &IndexSet<Net>, net: &Net) -> usize
    ensures { result ≡ number_in (plain_nets nets.now.keys) (plain_net net.now) }
{
    nets.get_index_of(net).unwrap_or(nets.len())
}

/// The clocks by number.
fn clock_uses(alloc: Global, nets: &IndexSet<Net>, clocks: &[ClockName]) -> Result<Vec<Use>, Memory>
    ensures { IfOk result (λ uses. uses.items ≡ clock_uses (plain_nets nets.now.keys) (map plain_clock clocks.now)) }
{
    let mut uses = Vec::new(alloc);
    for clock in clocks {
        let net = number_or_len(nets, &clock.net);
        uses.push(Use {
            line: clock.line,
            net,
        })?;
    }
    Ok(uses)
}

/// The use of the least line, the first of those on it.
fn first_use(uses: &[Use]) -> Option<Use>
    ensures { result ≡ first_use uses.now }
{
    uses.iter().min_by_key(|used| used.line).copied()
}

fn clocking_of(alloc: Global, design: &Design) -> Result<Clocking, Memory>
    ensures driven { IfOk result (λ clocking. (net : ℕ) → is_among clocking.driven.keys net ≡ is_driven design.now net) }
    ensures clocks { IfOk result (λ clocking. (net : ℕ) → is_among clocking.clocks.keys net ≡ is_clock design.now net) }
    ensures first { IfOk result (λ clocking. clocking.first ≡ first_use (clock_uses design.now.nets design.now.clocks)) }
{
    let driven = driven_nets(alloc, design)?;
    let uses = clock_uses(alloc, &design.nets, &design.clocks)?;
    Ok(Clocking {
        driven,
        clocks: nets_in(alloc, &uses)?,
        first: first_use(&uses),
    })
}

fn is_other(first: Option<Use>, net: usize) -> bool
    ensures { result ≡ is_other first net }
{
    match first {
        None => false,
        Some(first) => first.net != net,
    }
}

fn has_clock_data(clocks: &IndexSet<usize>, latch: Option<DesignLatch>) -> bool
    ensures { result ≡ list_any (is_among clocks.now.keys) (latch_data latch) }
{
    match latch {
        None => false,
        Some(latch) => is_among(clocks, latch.input) || is_among(clocks, latch.output),
    }
}

/// What is wrong where a net is named as a clock, maybe by the control of a latch.
fn wrong_clock(clocking: &Clocking, net: usize, latch: Option<DesignLatch>) -> Option<WrongClock>
    ensures { result ≡ wrong_by (is_among clocking.now.driven.keys) (is_among clocking.now.clocks.keys) clocking.now.first net latch }
{
    if !is_among(&clocking.driven, net) {
        return Some(WrongClock::Undriven);
    }
    if has_clock_data(&clocking.clocks, latch) {
        return Some(WrongClock::Data);
    }
    if is_other(clocking.first, net) {
        return Some(WrongClock::Second);
    }
    None
}

fn put_fault(
    faults: &mut Vec<ClockFault>,
    line: u32,
    wrong: Option<WrongClock>,
) -> Result<(), Memory>
    ensures { OnOk result (faults.new.items ≡ faults.old.items ++ faults_at line wrong) }
{
    if let Some(wrong) = wrong {
        faults.push(ClockFault { line, wrong })?;
    }
    Ok(())
}

fn put_named(
    faults: &mut Vec<ClockFault>,
    clocking: &Clocking,
    nets: &IndexSet<Net>,
    clocks: &[ClockName],
) -> Result<(), Memory>
    ensures { OnOk result (faults.new.items ≡ faults.old.items ++ named_faults (is_among clocking.now.driven.keys) (is_among clocking.now.clocks.keys)
        clocking.now.first (plain_nets nets.now.keys) (map plain_clock clocks.now)) }
{
    for clock in clocks {
        let net = number_or_len(nets, &clock.net);
        put_fault(faults, clock.line, wrong_clock(clocking, net, clock.latch))?;
    }
    Ok(())
}

fn data_or_none(clocks: &IndexSet<usize>, net: usize) -> Option<WrongClock>
    ensures { result ≡ (if is_among clocks.now.keys net then Some wrongs.Data else None) }
{
    if is_among(clocks, net) {
        Some(WrongClock::Data)
    } else {
        None
    }
}

fn put_data(
    faults: &mut Vec<ClockFault>,
    clocks: &IndexSet<usize>,
    uses: &[Use],
) -> Result<(), Memory>
    ensures { OnOk result (faults.new.items ≡ faults.old.items ++ data_faults (is_among clocks.now.keys) uses.now) }
{
    for used in uses {
        put_fault(faults, used.line, data_or_none(clocks, used.net))?;
    }
    Ok(())
}

/// The uses in which no clock may stand: by readers, and by the covers and latches that drive nets.
fn data_uses(alloc: Global, design: &Design) -> Result<Vec<Use>, Memory>
    ensures { IfOk result (λ uses. uses.items ≡ readers design.now ++ inner_drivers design.now) }
{
    let mut uses = readers_of(alloc, design)?;
    uses.extend_from_slice(&inner_drivers(alloc, design)?)?;
    Ok(uses)
}

/// What is wrong with the clocks of a design.
fn clock_faults(alloc: Global, design: &Design) -> Result<Vec<ClockFault>, Memory>
    ensures { IfOk result (λ faults. faults.items ≡ clock_faults design.now) }
{
    let clocking = clocking_of(alloc, design)?;
    let mut faults = Vec::new(alloc);
    put_named(&mut faults, &clocking, &design.nets, &design.clocks)?;
    put_data(&mut faults, &clocking.clocks, &data_uses(alloc, design)?)?;
    Ok(faults)
}

/// What is wrong on the least line, the first of what is wrong on it.
fn first_fault(faults: &[ClockFault]) -> Option<ClockFault>
    ensures { result ≡ first_fault faults.now }
{
    faults.iter().min_by_key(|fault| fault.line).copied()
}

fn clock_problem(alloc: Global, wrong: WrongClock) -> Result<Problem, Memory>
    ensures { IfOk result (λ problem. problem ≡ clock_problem wrong) }
{
    Ok(match wrong {
        WrongClock::Undriven => Problem::Malformed(Reason::Undriven),
        WrongClock::Data => Problem::Unsupported(Name::of(alloc, b"clock as data")?),
        WrongClock::Second => Problem::Unsupported(Name::of(alloc, b"second clock")?),
    })
}

/// Refuses clocks at the least line on which one is wrong: one that nothing drives and that is no input, `Malformed`,
/// `undriven`; one that a cover or a latch drives or that something but a latch's control reads, `Unsupported`,
/// `clock as data`; and a second one, `second clock`. Of several copies of the line the first that is wrong is told, and
/// within one copy they come in this order.
pub(crate) fn refuse_clocks(alloc: Global, file: &Name, design: &Design) -> Result<(), Fault>
    ensures none { OnOk result (clock_faults design.now ≡ []) }
    ensures refused { IfErr result (λ fault. (fault ≢ faults.Memory) → RefusesClocks file.now design.now fault) }
{
    let faults = clock_faults(alloc, design)?;
    match first_fault(&faults) {
        None => Ok(()),
        Some(told) => {
            let problem = clock_problem(alloc, told.wrong)?;
            Err(problem.at(alloc, file, told.line))
        }
    }
}
