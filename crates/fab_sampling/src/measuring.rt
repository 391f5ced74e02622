//! What a mapped design costs.

ghost use Rattle.std.specs.Prelude.{◌≡◌, length, sum_by, IfOk};
ghost use Rattle.fab_desk.specs.Memory.{map_of};
ghost use Rattle.fab_netlist.specs.Packing.{packed as packed_of};
ghost use Rattle.fab_ways_laws.specs.Placing.{cost as cost_of};
ghost use Rattle.fab_sampling.specs.inner.Running.{HasFlowed};
ghost use Rattle.fab_sampling.specs.Summary.{edge_count};

use crate::refusing::only_memory;
use crate::run::Run;
use fab_base::{Memory, Name};
use fab_designs::read_implementation;
use fab_implementation::{Implementation, Tree};
use fab_netlist::{Netlist, Packed, pack};
use fab_place::cost;
use fab_sample_runs_laws::{
    legal_designs_are_spelled, sample_implementations_are_short, spelled_designs_are_sound,
};
use std::alloc::Global;

/// The cells and ports of a netlist. A netlist has fewer than 32 bits count, so only want of memory comes.
pub fn packed_netlist(alloc: Global, netlist: &Netlist) -> Result<Packed, Memory>
    ensures { IfOk result (λ packed. packed ≡ packed_of netlist.now) }
{
    match pack(alloc, netlist, u32::MAX, u32::MAX) {
        Ok(packed) => Ok(packed),
        Err(_) => Err(Memory),
    }
}

/// How many edges nets have. Want of memory is also the answer where 64 bits do not count them.
fn edges(trees: &[Tree]) -> Result<u64, Memory>
    ensures { IfOk result (λ count. count ≡ sum_by (λ tree. length tree.edges) trees.now) }
{
    let mut count: u64 = 0;
    for tree in trees {
        count = count.checked_add(tree.edges.len() as u64).ok_or(Memory)?;
    }
    Ok(count)
}

/// The implementation that `flow` stored.
fn read_mapped(alloc: Global, run: &mut Run) -> Result<Implementation, Memory>
    requires { HasFlowed run.old }
    ensures same { run.new ≡ record run.old { shelf = run.new.shelf } }
    ensures files { map_of run.new.shelf ≡ map_of run.old.shelf }
    ensures mapped { IfOk result (λ it. (flowed : HasFlowed run.old) → it ≡ flowed.flow.made.implementation) }
{
    // what holds of designs that files spell, and that what is printed of them is read back, are clauses of these calls
    spelled_designs_are_sound();
    legal_designs_are_spelled();
    sample_implementations_are_short();
    let file = Name::of(alloc, b"sample.impl")?;
    match read_implementation(alloc, &mut run.shelf, &file, &run.design.fabric) {
        Ok(implementation) => Ok(implementation),
        Err(fault) => Err(only_memory(fault)),
    }
}

/// What the stored implementation costs, and how many edges its nets have.
fn measured_cells(alloc: Global, run: &mut Run, packed: &Packed) -> Result<(u64, u64), Memory>
    requires flowed { HasFlowed run.old }
    requires packed { packed.now ≡ packed_of run.old.design.netlist }
    ensures same { run.new ≡ record run.old { shelf = run.new.shelf } }
    ensures files { map_of run.new.shelf ≡ map_of run.old.shelf }
    ensures cost { IfOk result (λ found. (flowed : HasFlowed run.old) → found.0 ≡ cost_of (packed_of flowed.flow.design.netlist) flowed.flow.made.implementation) }
    ensures edges { IfOk result (λ found. (flowed : HasFlowed run.old) → found.1 ≡ edge_count flowed.flow.made.implementation) }
{
    // what holds of designs that files spell is the clause of this call
    spelled_designs_are_sound();
    let implementation = read_mapped(alloc, run)?;
    let cost = cost(&run.design.fabric, packed, &implementation);
    let edges = edges(&implementation.trees)?;
    Ok((cost, edges))
}

/// What the implementation that `flow` stored costs, and how many edges its nets have.
pub fn measured(alloc: Global, run: &mut Run) -> Result<(u64, u64), Memory>
    requires { HasFlowed run.old }
    ensures same { run.new ≡ record run.old { shelf = run.new.shelf } }
    ensures files { map_of run.new.shelf ≡ map_of run.old.shelf }
    ensures cost { IfOk result (λ found. (flowed : HasFlowed run.old) → found.0 ≡ cost_of (packed_of flowed.flow.design.netlist) flowed.flow.made.implementation) }
    ensures edges { IfOk result (λ found. (flowed : HasFlowed run.old) → found.1 ≡ edge_count flowed.flow.made.implementation) }
{
    let packed = packed_netlist(alloc, &run.design.netlist)?;
    measured_cells(alloc, run, &packed)
}
