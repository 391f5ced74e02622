//! The outputs that pairs join to each input of a tile type.

ghost use Rattle.std.specs.Prelude.{◌≡◌, ◌<◌, ℕ, [], All, IfOk, OnOk, length, map, nat_eq};
ghost use Rattle.indexmap.specs.IndexSet.{insert_key};
ghost use Rattle.fab_bits.specs.Keys.{group_at};
ghost use Rattle.fab_ways_laws.specs.Edges.{outputs_of, swapped, turned_pairs};
ghost use Rattle.fab_graph.specs.inner.Outputs.{type_outputs, plain_outputs, HaveOutputs};

use fab_base::Memory;
use fab_fabric::Fabric;
use fab_model::{Pair, TileType};
use std::alloc::Global;

/// For each input of a tile type the outputs that pairs join to it, each once, in the order of the pairs.
#[derive(Debug, Drop)]
pub struct Outputs {
    pub(crate) groups: Vec<Vec<u32>>,
}

impl Outputs {
    fn of(alloc: Global, tile: &TileType, turned: bool) -> Result<Outputs, Memory>
        ensures { IfOk result (λ outputs. plain_outputs outputs ≡ type_outputs turned tile.now) }
    {
        let pairs = turned_pairs(alloc, tile.pairs(), turned)?;
        let groups = outputs_by_input(alloc, tile.matrix_names(), &pairs)?;
        Ok(Outputs { groups })
    }
}

/// Those of each type of a fabric, or for each output its inputs.
pub fn type_outputs(alloc: Global, fabric: &Fabric, turned: bool) -> Result<Vec<Outputs>, Memory>
    ensures { IfOk result (λ tables. HaveOutputs turned fabric.now.types tables.items) }
{
    let mut tables = Vec::new(alloc);
    for tile in fabric.types() {
        tables.push(Outputs::of(alloc, tile, turned)?)?;
    }
    Ok(tables)
}

// The pairs as they are, or from output to input.
fn turned_pairs(alloc: Global, pairs: &[Pair], turned: bool) -> Result<Vec<Pair>, Memory>
    ensures { IfOk result (λ new. new.items ≡ turned_pairs turned pairs.now) }
{
    if !turned {
        return Ok(Vec::from_slice(alloc, pairs)?);
    }
    swapped_pairs(alloc, pairs)
}

fn swapped_pairs(alloc: Global, pairs: &[Pair]) -> Result<Vec<Pair>, Memory>
    ensures { IfOk result (λ new. new.items ≡ map swapped pairs.now) }
{
    let mut new = Vec::new(alloc);
    for pair in pairs {
        new.push(Pair {
            output: pair.input,
            input: pair.output,
        })?;
    }
    Ok(new)
}

// The outputs of each of so many inputs.
fn outputs_by_input(alloc: Global, inputs: u32, pairs: &[Pair]) -> Result<Vec<Vec<u32>>, Memory>
    requires { All (λ pair. pair.input < inputs) pairs.now }
    ensures len { IfOk result (λ groups. length groups.items ≡ inputs) }
    ensures groups { IfOk result (λ groups. (input : ℕ) → group_at groups.items input ≡ outputs_of pairs.now input) }
{
    let mut groups = no_outputs(alloc, inputs)?;
    for pair in pairs {
        add(&mut groups[pair.input as usize], pair.output)?;
    }
    Ok(groups)
}

// An empty group for each input.
fn no_outputs(alloc: Global, inputs: u32) -> Result<Vec<Vec<u32>>, Memory>
    ensures len { IfOk result (λ groups. length groups.items ≡ inputs) }
    ensures groups { IfOk result (λ groups. (input : ℕ) → group_at groups.items input ≡ []) }
{
    let mut groups = Vec::new(alloc);
    for _input in 0..inputs {
        groups.push(Vec::new(alloc))?;
    }
    Ok(groups)
}

// Adds an output where it is new.
fn add(group: &mut Vec<u32>, output: u32) -> Result<(), Memory>
    ensures { OnOk result (group.new.items ≡ insert_key nat_eq group.old.items output) }
{
    if group.contains(&output) {
        return Ok(());
    }
    group.push(output)?;
    Ok(())
}
