//! The module of a matrix that is given by numbers.

ghost use Rattle.std.specs.Prelude.{◌≡◌, ◌≢◌, ◌+◌, ◌<◌, ◌≤◌, ◌++◌, ℕ, length, map, IfOk, OnOk, All, sum_by, take, nat_eq, slice_index_or, true, false};
ghost use Rattle.fab_syntax.specs.Plain.{plain_module, plain_item};
ghost use Rattle.fab_meaning.specs.Ports.{scalar, config_port, config_name};
ghost use Rattle.fab_matrix.specs.Matrix.{matrix, numbered_outputs, named};
ghost use Rattle.fab_matrix.specs.Selects.{Selects};
ghost use Rattle.fab_bits.specs.Keys.{group_at};
ghost use Rattle.fab_matrix.specs.inner.Grouped.{width_at, item_of};

use crate::expressions::selection;
use crate::grouping::{field_of, inputs_by_output, lows_of, order_of};
use fab_base::{Memory, Name};
use fab_select::Pair;
use fab_syntax::{Item, Module, Port, Shape};
use indexmap::IndexSet;
use std::alloc::Global;

/// The module of a switch matrix: each output has the value of its input at the select value. The time is linear in the
/// names and the pairs.
///
/// Want of memory is also the answer where the inputs of an output, or all select bits, are too many for 32 bits.
pub fn matrix_module(
    alloc: Global,
    name: &Name,
    inputs: &[Name],
    outputs: &[Name],
    pairs: &[Pair],
) -> Result<Module, Memory>
    requires inputs { All (λ pair. pair.input < length inputs.now) pairs.now }
    requires outputs { All (λ pair. pair.output < length outputs.now) pairs.now }
    ensures module { IfOk result (λ m. plain_module m ≡ matrix nat_eq name.now inputs.now (numbered_outputs outputs.now) (named inputs.now pairs.now)) }
    ensures selects { IfOk result (λ m. All (λ input. input ≢ config_name) inputs.now →
        Selects nat_eq (plain_module m) (numbered_outputs outputs.now) (named inputs.now pairs.now)) }
{
    let module = build(alloc, name, inputs, outputs, pairs)?;
    Ok(module)
}

// The module, part by part.
fn build(
    alloc: Global,
    name: &Name,
    inputs: &[Name],
    outputs: &[Name],
    pairs: &[Pair],
) -> Result<Module, Memory>
    requires inputs { All (λ pair. pair.input < length inputs.now) pairs.now }
    requires outputs { All (λ pair. pair.output < length outputs.now) pairs.now }
    ensures { IfOk result (λ m. plain_module m ≡ matrix nat_eq name.now inputs.now (numbered_outputs outputs.now) (named inputs.now pairs.now)) }
{
    let groups = inputs_by_output(alloc, outputs.len(), pairs)?;
    let order = order_of(alloc, pairs)?;
    let lows = lows_of(alloc, order.as_slice(), &groups)?;
    let ports = ports_of(alloc, inputs, lows[order.len()], outputs)?;
    let items = items_of(alloc, inputs, outputs, &groups, &order, &lows)?;
    let name = name.copy(alloc)?;
    Ok(Module { name, ports, items })
}

// The ports: inputs, select bits and outputs.
fn ports_of(
    alloc: Global,
    inputs: &[Name],
    bits: u32,
    outputs: &[Name],
) -> Result<Vec<Port>, Memory>
    ensures { IfOk result (λ ports. ports.items ≡ map (scalar true) inputs.now ++ (config_port bits ++ map (scalar false) outputs.now)) }
{
    let mut ports = Vec::new(alloc);
    push_scalars(alloc, &mut ports, true, inputs)?;
    push_config(alloc, &mut ports, bits)?;
    push_scalars(alloc, &mut ports, false, outputs)?;
    Ok(ports)
}

// Adds a port of one bit for each name.
fn push_scalars(
    alloc: Global,
    ports: &mut Vec<Port>,
    input: bool,
    names: &[Name],
) -> Result<(), Memory>
    ensures { OnOk result (ports.new.items ≡ ports.old.items ++ map (scalar input) names.now) }
{
    for name in names {
        ports.push(scalar_port(alloc, input, name)?)?;
    }
    Ok(())
}

// A port of one bit.
fn scalar_port(alloc: Global, input: bool, name: &Name) -> Result<Port, Memory>
    ensures { IfOk result (λ port. port ≡ scalar input name.now) }
{
    let name = name.copy(alloc)?;
    Ok(Port {
        input,
        shape: Shape::Scalar,
        name,
    })
}

// Adds the port of the select bits, where there are any.
fn push_config(alloc: Global, ports: &mut Vec<Port>, bits: u32) -> Result<(), Memory>
    ensures { OnOk result (ports.new.items ≡ ports.old.items ++ config_port bits) }
{
    if bits == 0 {
        return Ok(());
    }
    let name = Name::of(alloc, b"ConfigBits")?;
    ports.push(Port {
        input: true,
        shape: Shape::Vector(bits),
        name,
    })?;
    Ok(())
}

// An assignment for each output.
fn items_of(
    alloc: Global,
    inputs: &[Name],
    outputs: &[Name],
    groups: &[Vec<u32>],
    order: &IndexSet<u32>,
    lows: &[u32],
) -> Result<Vec<Item>, Memory>
    requires within { (output : ℕ) → All (λ input. input < length inputs.now) (group_at groups.now output) }
    requires groups { length groups.now ≡ length outputs.now }
    requires len { length lows.now ≡ length order.now.keys + 1 }
    requires lows { (place : ℕ) → place ≤ length order.now.keys →
        slice_index_or lows.now place 0 ≡ sum_by (width_at groups.now) (take place order.now.keys) }
    ensures { IfOk result (λ items. map plain_item items.items
        ≡ map (λ output. item_of inputs.now groups.now order.now.keys output.0 output.1) (numbered_outputs outputs.now)) }
{
    let mut items = Vec::new(alloc);
    for (place, name) in outputs.iter().enumerate() {
        let item = assignment(alloc, inputs, groups, order, lows, place, name)?;
        items.push(item)?;
    }
    Ok(items)
}

// The assignment to the output of a number.
fn assignment(
    alloc: Global,
    inputs: &[Name],
    groups: &[Vec<u32>],
    order: &IndexSet<u32>,
    lows: &[u32],
    place: usize,
    name: &Name,
) -> Result<Item, Memory>
    requires within { All (λ input. input < length inputs.now) (group_at groups.now place) }
    requires output { place < length groups.now }
    requires len { length lows.now ≡ length order.now.keys + 1 }
    requires lows { (place : ℕ) → place ≤ length order.now.keys →
        slice_index_or lows.now place 0 ≡ sum_by (width_at groups.now) (take place order.now.keys) }
    ensures { IfOk result (λ item. plain_item item ≡ item_of inputs.now groups.now order.now.keys place name.now) }
{
    let Ok(output) = u32::try_from(place) else {
        return Err(Memory);
    };
    let field = field_of(order, lows, groups, output)?;
    let value = selection(alloc, inputs, &groups[place], field)?;
    Ok(Item::Assign(name.copy(alloc)?, value))
}
