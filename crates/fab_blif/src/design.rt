//! What the lines of a flattened text say of its nets.

ghost use Rattle.std.specs.Prelude.{◌≡◌, ◌++◌, ◌∷◌, [], Some, None, IfOk, OnOk, length, map, option_map, option_to_list};
ghost use Rattle.indexmap.specs.IndexSet.{insert_all, insert_key};
ghost use Rattle.fab_blif_models.specs.Plain.{plain_body, plain_models};
ghost use Rattle.fab_blif.specs.Design.{number_in};
ghost use Rattle.fab_blif.specs.Flat.{net_eq, net_in, clock_at, if_top, lines_by, placed_inputs, placed_outputs};
ghost use Rattle.fab_blif.specs.inner.Walk.{plain_net, plain_nets, plain_clock, net_numbers, used_at, after_all, latch_next, with_control, with_cover, with_latch};

use crate::model_copy::ModelCopy;
use crate::net::Net;
use crate::parts::{DesignCover, DesignLatch};
use fab_base::{Memory, Name};
use fab_blif_models::{Body, Statement};
use fab_netlist::Cube;
use indexmap::IndexSet;
use std::alloc::Global;
use std::marker::Model;

/// A net that a line names, by number.
#[derive(Clone, Copy, Debug)]
pub struct Use {
    /// The line.
    pub line: u32,
    /// The number of the net.
    pub net: usize,
}

/// A net that a line names as a clock.
#[derive(Drop)]
pub(crate) struct ClockName {
    pub line: u32,
    pub net: Net,
    /// The latch whose control it is.
    pub latch: Option<DesignLatch>,
}

/// What the lines of a text say of its nets.
#[derive(Drop)]
pub(crate) struct Design<'a> {
    /// The nets, each where it is first named.
    pub nets: IndexSet<Net>,
    /// The input ports that `.inputs` declares.
    pub inputs: Vec<Use>,
    pub outputs: Vec<Use>,
    /// The input ports that `.clock` declares.
    pub clock_ports: Vec<Use>,
    pub covers: Vec<DesignCover<'a>>,
    pub latches: Vec<DesignLatch>,
    /// The lines of the latches.
    pub latch_lines: Vec<u32>,
    pub clocks: Vec<ClockName>,
}

impl<'a> Model for Design<'a> {
    ghost use Rattle.std.specs.Prelude.{map};
    ghost use Rattle.fab_blif.specs.Design.{PlainDesign};
    ghost use Rattle.fab_blif.specs.inner.Walk.{plain_nets, plain_clock};

    ghost Value = { PlainDesign };

    ghost view = { λ design. record {
      nets = plain_nets design.nets.keys;
      inputs = design.inputs.items;
      outputs = design.outputs.items;
      clock_ports = design.clock_ports.items;
      covers = design.covers.items;
      latches = design.latches.items;
      latch_lines = design.latch_lines.items;
      clocks = map plain_clock design.clocks.items;
    } };
}

fn number_of(nets: &mut IndexSet<Net>, net: Net) -> Result<usize, Memory>
    ensures nets { OnOk result (plain_nets nets.new.keys ≡ insert_key net_eq (plain_nets nets.old.keys) (plain_net net)) }
    ensures number { IfOk result (λ number. number ≡ number_in (plain_nets nets.old.keys) (plain_net net)) }
{
    let (place, _) = nets.insert_full(net)?;
    Ok(place)
}

fn number_name(
    alloc: Global,
    nets: &mut IndexSet<Net>,
    copy: &ModelCopy,
    name: &Name,
) -> Result<usize, Memory>
    ensures nets { OnOk result (plain_nets nets.new.keys ≡ insert_key net_eq (plain_nets nets.old.keys) (net_in copy.now name.now)) }
    ensures number { IfOk result (λ number. number ≡ number_in (plain_nets nets.old.keys) (net_in copy.now name.now)) }
{
    let net = copy.net_in(alloc, name.bytes())?;
    number_of(nets, net)
}

fn number_names(
    alloc: Global,
    nets: &mut IndexSet<Net>,
    copy: &ModelCopy,
    names: &[Name],
) -> Result<Vec<usize>, Memory>
    ensures nets { OnOk result (plain_nets nets.new.keys ≡ insert_all net_eq (plain_nets nets.old.keys) (map (net_in copy.now) names.now)) }
    ensures numbers { IfOk result (λ numbers. numbers.items ≡ net_numbers (plain_nets nets.old.keys) (map (net_in copy.now) names.now)) }
{
    let mut numbers = Vec::new(alloc);
    for name in names {
        numbers.push(number_name(alloc, nets, copy, name)?)?;
    }
    Ok(numbers)
}

pub(crate) fn push_uses(uses: &mut Vec<Use>, line: u32, numbers: &[usize]) -> Result<(), Memory>
    ensures { OnOk result (uses.new.items ≡ uses.old.items ++ used_at line numbers.now) }
{
    for net in numbers {
        uses.push(Use { line, net: *net })?;
    }
    Ok(())
}

fn name_clock(
    alloc: Global,
    clocks: &mut Vec<ClockName>,
    copy: &ModelCopy,
    line: u32,
    name: &Name,
    latch: Option<DesignLatch>,
) -> Result<(), Memory>
    ensures { OnOk result (map plain_clock clocks.new.items
        ≡ map plain_clock clocks.old.items ++ record { line = line; net = net_in copy.now name.now; latch = latch } ∷ []) }
{
    let net = copy.net_in(alloc, name.bytes())?;
    clocks.push(ClockName { line, net, latch })?;
    Ok(())
}

impl<'a> Design<'a> {
    /// Notes input ports, which only the first model declares.
    fn put_inputs(
        &mut self,
        alloc: Global,
        copy: &ModelCopy,
        line: u32,
        names: &[Name],
    ) -> Result<(), Memory>
        ensures { OnOk result (self.new ≡ after_all self.old (if_top copy.now.depth (placed_inputs line (map (net_in copy.now) names.now)))) }
    {
        if copy.depth == 0 {
            let numbers = number_names(alloc, &mut self.nets, copy, names)?;
            push_uses(&mut self.inputs, line, &numbers)?;
        }
        Ok(())
    }

    /// Notes output ports, which only the first model declares.
    fn put_outputs(
        &mut self,
        alloc: Global,
        copy: &ModelCopy,
        line: u32,
        names: &[Name],
    ) -> Result<(), Memory>
        ensures { OnOk result (self.new ≡ after_all self.old (if_top copy.now.depth (placed_outputs line (map (net_in copy.now) names.now)))) }
    {
        if copy.depth == 0 {
            let numbers = number_names(alloc, &mut self.nets, copy, names)?;
            push_uses(&mut self.outputs, line, &numbers)?;
        }
        Ok(())
    }

    /// Notes a clock, which is a port of the first model.
    fn put_clock(
        &mut self,
        alloc: Global,
        copy: &ModelCopy,
        line: u32,
        name: &Name,
    ) -> Result<(), Memory>
        ensures { OnOk result (self.new ≡ after_all self.old (clock_at copy.now.depth line (net_in copy.now name.now) ∷ [])) }
    {
        if copy.depth == 0 {
            let net = number_name(alloc, &mut self.nets, copy, name)?;
            push_uses(&mut self.clock_ports, line, &[net])?;
        }
        name_clock(alloc, &mut self.clocks, copy, line, name, None)
    }

    fn put_cover(
        &mut self,
        alloc: Global,
        copy: &ModelCopy,
        line: u32,
        inputs: &[Name],
        output: &Name,
        on: bool,
        rows: &'a [Cube],
    ) -> Result<(), Memory>
        ensures { OnOk result (self.new ≡ with_cover self.old line (map (net_in copy.now) inputs.now) (net_in copy.now output.now) on rows.now) }
    {
        let inputs = number_names(alloc, &mut self.nets, copy, inputs)?;
        let output = number_name(alloc, &mut self.nets, copy, output)?;
        self.covers.push(DesignCover {
            line,
            inputs,
            output,
            on,
            rows,
        })?;
        Ok(())
    }

    fn put_latch(
        &mut self,
        alloc: Global,
        copy: &ModelCopy,
        line: u32,
        input: &Name,
        output: &Name,
        init: u8,
    ) -> Result<DesignLatch, Memory>
        ensures latch { IfOk result (λ latch. latch ≡ latch_next self.old.nets (net_in copy.now input.now) (net_in copy.now output.now) init) }
        ensures design { OnOk result (self.new ≡ with_latch self.old line (net_in copy.now input.now) (net_in copy.now output.now) init) }
    {
        let input = number_name(alloc, &mut self.nets, copy, input)?;
        let output = number_name(alloc, &mut self.nets, copy, output)?;
        let latch = DesignLatch {
            input,
            output,
            init,
        };
        self.latches.push(latch)?;
        self.latch_lines.push(line)?;
        Ok(latch)
    }

    /// Notes the control of a latch, if it has one.
    fn put_control(
        &mut self,
        alloc: Global,
        copy: &ModelCopy,
        line: u32,
        latch: DesignLatch,
        control: &Option<Name>,
    ) -> Result<(), Memory>
        ensures { OnOk result (self.new ≡ with_control self.old line latch (option_to_list (option_map (net_in copy.now) control.now))) }
    {
        let Some(name) = control else {
            return Ok(());
        };
        number_name(alloc, &mut self.nets, copy, name)?;
        name_clock(alloc, &mut self.clocks, copy, line, name, Some(latch))
    }

    /// Notes what a line of a copy of a model says, unless it is an instance.
    pub(crate) fn put(
        &mut self,
        alloc: Global,
        copy: &ModelCopy,
        statement: &'a Statement,
    ) -> Result<(), Memory>
        ensures { OnOk result (self.new ≡ after_all self.old (lines_by [] (λ _ _. []) copy.now statement.now.line (plain_body statement.now.body))) }
    {
        let line = statement.line;
        match &statement.body {
            Body::Inputs(names) => self.put_inputs(alloc, copy, line, names),
            Body::Outputs(names) => self.put_outputs(alloc, copy, line, names),
            Body::Clock(name) => self.put_clock(alloc, copy, line, name),
            Body::Cover {
                inputs,
                output,
                on,
                rows,
            } => self.put_cover(alloc, copy, line, inputs, output, *on, rows),
            Body::Latch {
                input,
                output,
                control,
                initial,
            } => {
                let latch = self.put_latch(alloc, copy, line, input, output, *initial)?;
                self.put_control(alloc, copy, line, latch, control)
            }
            Body::Instance(_, _) => Ok(()),
        }
    }
}
