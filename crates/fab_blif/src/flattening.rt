//! Models become a netlist.

ghost use Rattle.std.specs.Prelude.{◌≡◌, ◌≢◌, ◌<◌, ◌≤◌, Some, None, IfErr, IfOk, OnOk, length, map, option_and_then, position, slice_get};
ghost use Rattle.fab_base.specs.declared.fault.Fault.TheVariants as faults;
ghost use Rattle.fab_blif_models.specs.Plain.{plain_models};
ghost use Rattle.fab_blif.specs.Design.{data_inputs, design_of, flattened, is_number, netlist_of, wide_of};
ghost use Rattle.fab_blif.specs.Flat.{flat_lines, net_eq};
ghost use Rattle.fab_instances.specs.Places.{model_names};
ghost use Rattle.fab_blif_models.specs.Rules.{AreModels};
ghost use Rattle.fab_netlist.specs.Wide.{IsWideMade};
ghost use Rattle.fab_netlist.specs.WellMade.{IsWired};
ghost use Rattle.fab_instances.specs.Order.{NamesDiffer};
ghost use Rattle.fab_instances.specs.Refusals.{AreFineModels};
ghost use Rattle.fab_blif.specs.Refusals.{IsFineDesign, RefusesDesign, RefusesFile};
ghost use Rattle.fab_bits.specs.Keys.{key_names};
ghost use Rattle.fab_blif.specs.inner.Walk.{plain_nets, plain_clock};

use crate::clocks::refuse_clocks;
use crate::design::{ClockName, Design, Use};
use crate::judge::{refuse_drivers, refuse_undriven};
use crate::net::Net;
use crate::parts::{netlist_covers, netlist_latches, netlist_numbers};
use crate::walk::take_all;
use fab_base::{Fault, Memory, Name, Problem, Quantity};
use fab_blif_models::Model;
use fab_instances::index_models;
use fab_netlist::{MAX_NETS, WideNetlist};
use indexmap::IndexSet;
use std::alloc::Global;

fn design_of<'a>(
    alloc: Global,
    models: &'a [Model],
    places: &IndexSet<Vec<u8>>,
) -> Result<Design<'a>, Memory>
    requires places { key_names places.now.keys ≡ model_names (plain_models models.now) }
    requires some { 0 < length models.now }
    ensures { IfOk result (λ design. design ≡ design_of (flat_lines (plain_models models.now))) }
{
    let mut design = Design {
        nets: IndexSet::new(alloc),
        inputs: Vec::new(alloc),
        outputs: Vec::new(alloc),
        clock_ports: Vec::new(alloc),
        covers: Vec::new(alloc),
        latches: Vec::new(alloc),
        latch_lines: Vec::new(alloc),
        clocks: Vec::new(alloc),
    };
    take_all(alloc, models, places, &mut design)?;
    Ok(design)
}

/// Refuses what is wrong with the nets of a design, in the order of the rules.
fn refuse_design(alloc: Global, file: &Name, last_line: u32, design: &Design) -> Result<(), Fault>
    ensures fine { OnOk result (IsFineDesign design.now) }
    ensures refused { IfErr result (λ fault. (fault ≢ faults.Memory) → RefusesDesign file.now last_line design.now fault) }
{
    refuse_drivers(alloc, file, design)?;
    refuse_undriven(alloc, file, design)?;
    if design.nets.len() > MAX_NETS {
        let problem = Problem::Limit(Quantity::Nets, design.nets.len() as u64, MAX_NETS as u64);
        return Err(problem.at(alloc, file, last_line));
    }
    refuse_clocks(alloc, file, design)
}

fn names_of(alloc: Global, nets: &IndexSet<Net>) -> Result<Vec<Name>, Memory>
    ensures { IfOk result (λ names. names.items ≡ map (λ net. net.name) (plain_nets nets.now.keys)) }
{
    let mut names = Vec::new(alloc);
    for net in nets.as_slice() {
        names.push(Name::of(alloc, &net.name)?)?;
    }
    Ok(names)
}

fn nets_of(alloc: Global, uses: &[Use]) -> Result<Vec<usize>, Memory>
    ensures { IfOk result (λ nets. nets.items ≡ map (λ port. port.net) uses.now) }
{
    let nets = uses.iter().map(|port| port.net).collect(alloc)?;
    Ok(nets)
}

/// The number of the net that the first line names as a clock.
fn clock_number(nets: &IndexSet<Net>, clocks: &[ClockName]) -> Option<usize>
    ensures { result ≡ option_and_then (λ name. position (net_eq name.net) (plain_nets nets.now.keys)) (slice_get (map plain_clock clocks.now) 0) }
{
    match clocks.first() {
        None => None,
        Some(first) => nets.get_index_of(&first.net),
    }
}

fn is_number(clock: Option<usize>, net: usize) -> bool
    ensures { result ≡ is_number clock net }
{
    match clock {
        None => false,
        Some(number) => number == net,
    }
}

/// The nets of input ports without the clock.
fn data_inputs(alloc: Global, clock: Option<usize>, ports: &[Use]) -> Result<Vec<usize>, Memory>
    ensures { IfOk result (λ nets. nets.items ≡ data_inputs clock ports.now) }
{
    let mut nets = Vec::new(alloc);
    for port in ports {
        if !is_number(clock, port.net) {
            nets.push(port.net)?;
        }
    }
    Ok(nets)
}

fn netlist_of(alloc: Global, design: &Design) -> Result<WideNetlist, Memory>
    requires { IsWired (netlist_of design.now) }
    ensures { IfOk result (λ netlist. netlist ≡ wide_of design.now) }
{
    let clock = clock_number(&design.nets, &design.clocks);
    let nets = names_of(alloc, &design.nets)?;
    let inputs = netlist_numbers(alloc, &data_inputs(alloc, clock, &design.inputs)?)?;
    let outputs = netlist_numbers(alloc, &nets_of(alloc, &design.outputs)?)?;
    let covers = netlist_covers(alloc, &design.covers)?;
    let latches = netlist_latches(alloc, &design.latches)?;
    Ok(WideNetlist {
        nets,
        inputs,
        outputs,
        covers,
        latches,
    })
}

/// The netlist of the first of the models, with a copy of its covers and latches for each instance of a model. Their covers
/// have at most 16 inputs.
///
/// What breaks a rule is refused in the order of the rules: no model, two models of one name; and of the models that the
/// first one uses, itself included, unknown models, recursive ones and formals that are no ports; instances above the limit;
/// nets with two drivers, nets that are read and not driven, nets above the limit, and clocks. The models are as they are
/// read: their lines are not judged again. `Memory` comes where memory was refused.
pub fn flatten(
    alloc: Global,
    file: &Name,
    last_line: u32,
    models: &[Model],
) -> Result<WideNetlist, Fault>
    requires { AreModels 16 (plain_models models.now) }
    ensures netlist { IfOk result (λ netlist. netlist ≡ flattened (plain_models models.now)) }
    ensures made { IfOk result IsWideMade }
    ensures fine { OnOk result (IsFineDesign (design_of (flat_lines (plain_models models.now)))) }
    ensures named { OnOk result ((0 < length models.now) × NamesDiffer (plain_models models.now)) }
    ensures models { OnOk result (AreFineModels (plain_models models.now)) }
    ensures refused { IfErr result (λ fault. (fault ≢ faults.Memory) → RefusesFile file.now last_line (plain_models models.now) fault) }
{
    let places = index_models(alloc, file, last_line, models)?;
    let design = design_of(alloc, models, &places)?;
    refuse_design(alloc, file, last_line, &design)?;
    Ok(netlist_of(alloc, &design)?)
}
