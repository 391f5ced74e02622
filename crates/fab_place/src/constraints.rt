//! The pads that constraints give to ports.
ghost use Rattle.std.specs.Prelude.{◌≡◌, ◌≢◌, ◌<◌, ◌^◌, ◌++◌, IfOk, OnOk, AllPairs, length, map};
ghost use Rattle.fab_ways_laws.specs.fab_legal_Lines.{named};
ghost use Rattle.fab_ways_laws.specs.fab_legal_WellMade.{ports};
ghost use Rattle.fab_place.specs.inner.Constraints.{AreConstrained, HasConstraints, HasNumbers, pad_in};

use fab_base::{Memory, Name};
use fab_fabric::Site;
use fab_implementation::Fixed;
use fab_netlist::{NetId, Packed};
use indexmap::IndexMap;
use std::alloc::Global;

/// The numbers of sites by their columns, rows and BELs.
type Numbers = IndexMap<(u32, u32, u32), u32>;

/// The sites that constraints give, by port.
type Constraints = IndexMap<Vec<u8>, Site>;

/// For each port, inputs first, the number of the pad that a constraint gives it.
pub fn constrained_pads(
    alloc: Global,
    packed: &Packed,
    fixed: &Fixed,
    pads: &[Site],
) -> Result<Vec<Option<u32>>, Memory>
    requires few { length pads.now < 2 ^ 32 }
    requires pads_apart { AllPairs (λ first second. first ≢ second) pads.now }
    requires ports_apart { AllPairs (λ first second. first ≢ second) (named fixed.now) }
    ensures { IfOk result (λ found. AreConstrained fixed.now pads.now (ports packed.now) found.items) }
{
    let numbers = numbers_of(alloc, pads)?;
    let constraints = constraints_of(alloc, &fixed.pads)?;
    let mut found = Vec::new(alloc);
    put_inputs(&mut found, &constraints, &numbers, &packed.inputs)?;
    put_outputs(&mut found, &constraints, &numbers, &packed.outputs)?;
    Ok(found)
}

/// The numbers of sites.
fn numbers_of(alloc: Global, pads: &[Site]) -> Result<Numbers, Memory>
    requires few { length pads.now < 2 ^ 32 }
    requires apart { AllPairs (λ first second. first ≢ second) pads.now }
    ensures { IfOk result (λ numbers. HasNumbers pads.now numbers) }
{
    let mut numbers = IndexMap::new(alloc);
    for (number, site) in pads.iter().enumerate() {
        numbers.insert((site.x, site.y, site.bel), number as u32)?;
    }
    Ok(numbers)
}

/// The constraints by port.
fn constraints_of(alloc: Global, fixed: &[(Name, Site)]) -> Result<Constraints, Memory>
    requires { AllPairs (λ first second. first ≢ second) (named fixed.now) }
    ensures { IfOk result (λ constraints. HasConstraints fixed.now constraints) }
{
    let mut constraints = IndexMap::new(alloc);
    for pad in fixed {
        constraints.insert(pad.0.copy(alloc)?.into_vec(), pad.1)?;
    }
    Ok(constraints)
}

/// The number of the pad that a constraint gives a port.
fn pad_number(constraints: &Constraints, numbers: &Numbers, port: &Name) -> Option<u32>
    ensures { result ≡ pad_in constraints.now numbers.now port.now }
{
    let site = constraints.get(port.bytes())?;
    numbers.get(&(site.x, site.y, site.bel)).copied()
}

/// Adds the pads of input ports.
fn put_inputs(
    found: &mut Vec<Option<u32>>,
    constraints: &Constraints,
    numbers: &Numbers,
    inputs: &[Name],
) -> Result<(), Memory>
    ensures { OnOk result (found.new.items ≡ found.old.items ++ map (pad_in constraints.now numbers.now) inputs.now) }
{
    for port in inputs {
        found.push(pad_number(constraints, numbers, port))?;
    }
    Ok(())
}

/// Adds the pads of output ports.
fn put_outputs(
    found: &mut Vec<Option<u32>>,
    constraints: &Constraints,
    numbers: &Numbers,
    outputs: &[(Name, NetId)],
) -> Result<(), Memory>
    ensures { OnOk result (found.new.items ≡ found.old.items ++ map (λ output. pad_in constraints.now numbers.now output.0) outputs.now) }
{
    for output in outputs {
        found.push(pad_number(constraints, numbers, &output.0))?;
    }
    Ok(())
}
