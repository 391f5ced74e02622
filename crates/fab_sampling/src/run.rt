//! A sample on its way through the commands.

ghost use Rattle.std.specs.Prelude.{◌≡◌, ◌≢◌, ◌≤◌, IfErr, IfOk, OnOk};
ghost use Rattle.fab_base.specs.declared.fault.Fault.TheVariants as faults;
ghost use Rattle.fab_desk.specs.Memory.{map_of};
ghost use Rattle.fab_designs.specs.Designs.{SpellsDesign};
ghost use Rattle.fab_sample_runs_laws.specs.Commands.{names};
ghost use Rattle.fab_sampling.specs.inner.Running.{files_of, EndsFlow, HasFlowed, IsNew, HasTraced};
ghost use Rattle.fab_sampling.specs.Sampling.{sample_map, ComesTo};
ghost use Rattle.fab_sampling.specs.declared.outcome.Outcome.TheVariants.{Unmapped};

use crate::measuring::measured;
use crate::outcome::Outcome;
use crate::refusing::only_memory;
use crate::shelf::Shelf;
use crate::stocking::stocked;
use fab_base::{Fault, Memory, Name};
use fab_designs::{Design, read_design};
use fab_progress::{Progress, Silent};
use fab_sample_runs_laws::{
    do_flow, do_simulate, flow_files_simulate, sample_designs_are_read, samples_are_ready,
    samples_simulate,
};
use std::alloc::Global;

/// A sample: its size and its seed, the design that its files spell, and these files with what commands made of them.
#[derive(Drop)]
pub struct Run {
    pub size: usize,
    pub seed: u64,
    pub design: Design,
    pub shelf: Shelf,
}

/// The design of a sample.
fn read_sample(alloc: Global, shelf: &mut Shelf, size: usize, seed: u64) -> Result<Design, Memory>
    requires least { 2 ≤ size }
    requires most { size ≤ 16 }
    requires files { map_of shelf.old ≡ sample_map size seed }
    ensures same { map_of shelf.new ≡ map_of shelf.old }
    ensures spelled { IfOk result (SpellsDesign (map_of shelf.old) names.design) }
{
    // that its files are read is the clause of this call
    sample_designs_are_read();
    let fabric = Name::of(alloc, b"sample.csv")?;
    let blif = Name::of(alloc, b"sample.blif")?;
    match read_design(alloc, shelf, &mut Silent, &fabric, &blif, None) {
        Ok(design) => Ok(design),
        Err(fault) => Err(only_memory(fault)),
    }
}

/// A search that came to nothing is what came of a sample.
fn unmapped(fault: Fault) -> Result<Outcome, Memory>
    ensures outcome { IfOk result (λ outcome. outcome ≡ Unmapped fault) }
    ensures searched { IfOk result (λ outcome. fault ≢ faults.Memory) }
{
    if matches!(fault, Fault::Memory) {
        return Err(Memory);
    }
    Ok(Outcome::Unmapped(fault))
}

impl Run {
    /// Makes the files of a sample, and reads its design.
    pub fn new(alloc: Global, size: usize, seed: u64) -> Result<Run, Memory>
        requires least { 2 ≤ size }
        requires most { size ≤ 16 }
        ensures size { IfOk result (λ run. run.size ≡ size) }
        ensures seed { IfOk result (λ run. run.seed ≡ seed) }
        ensures new { IfOk result IsNew }
    {
        let mut shelf = stocked(alloc, size, seed)?;
        let design = read_sample(alloc, &mut shelf, size, seed)?;
        Ok(Run {
            size,
            seed,
            design,
            shelf,
        })
    }

    /// Places and routes the design, and stores all that `flow` makes of it.
    fn flow<P: Progress>(&mut self, alloc: Global, progress: &mut P) -> Result<(), Fault>
        requires { IsNew self.old }
        ensures same { self.new ≡ record self.old { shelf = self.new.shelf } }
        ensures done { OnOk result (HasFlowed self.new) }
        ensures ends { IfErr result (EndsFlow self.old) }
    {
        // that nothing is refused is the clause of this call
        samples_are_ready();
        let fabric = Name::of(alloc, b"sample.csv")?;
        let blif = Name::of(alloc, b"sample.blif")?;
        let base = Name::of(alloc, b"sample")?;
        do_flow(
            alloc,
            &mut self.shelf,
            progress,
            &fabric,
            &blif,
            None,
            self.seed,
            32,
            None,
            &base,
        )
    }

    /// Simulates what `flow` stored, and stores the trace.
    fn simulate<P: Progress>(&mut self, alloc: Global, progress: &mut P) -> Result<(), Memory>
        requires { HasFlowed self.old }
        ensures same { self.new ≡ record self.old { shelf = self.new.shelf } }
        ensures traced { OnOk result ((flowed : HasFlowed self.old) → HasTraced self.old flowed) }
    {
        // that nothing is refused, and what is simulated of the files of a flow, are clauses of these calls
        samples_simulate();
        flow_files_simulate();
        let verilog = Name::of(alloc, b"sample.v")?;
        let bit = Name::of(alloc, b"sample.bit")?;
        let state = Name::of(alloc, b"sample.state")?;
        let stimulus = Name::of(alloc, b"sample.stim")?;
        let trace = Name::of(alloc, b"sample.trace")?;
        match do_simulate(
            alloc,
            &mut self.shelf,
            progress,
            &verilog,
            &bit,
            &state,
            &stimulus,
            None,
            &trace,
        ) {
            Ok(()) => Ok(()),
            Err(fault) => Err(only_memory(fault)),
        }
    }

    /// What is told of a design that is mapped, once its trace is that of its netlist.
    fn mapped<P: Progress>(&mut self, alloc: Global, progress: &mut P) -> Result<Outcome, Memory>
        requires { HasFlowed self.old }
        ensures same { self.new ≡ record self.old { shelf = self.new.shelf } }
        ensures comes { IfOk result (ComesTo (files_of self.old)) }
    {
        let (cost, edges) = measured(alloc, self)?;
        self.simulate(alloc, progress)?;
        Ok(Outcome::Mapped(cost, edges))
    }

    /// What comes of the sample.
    pub fn outcome<P: Progress>(
        &mut self,
        alloc: Global,
        progress: &mut P,
    ) -> Result<Outcome, Memory>
        requires { IsNew self.old }
        ensures same { self.new ≡ record self.old { shelf = self.new.shelf } }
        ensures comes { IfOk result (ComesTo (files_of self.old)) }
    {
        match self.flow(alloc, progress) {
            Ok(()) => self.mapped(alloc, progress),
            Err(fault) => unmapped(fault),
        }
    }
}
