//! The text of a summary.

ghost use Rattle.std.specs.Prelude.{◌≡◌, ◌++◌, [], ◌∷◌, decimal, length, IfOk, OnOk};
ghost use Rattle.fab_netlist.specs.Packing.{packed as packed_of};
ghost use Rattle.fab_sample.specs.Lines.{text};
ghost use Rattle.fab_sampling.specs.Summary.{cost_line, design_lines, fabric_line, netlist_line, outcome_text, sample_line, status_line, summary_text};
ghost use Rattle.fab_sampling.specs.declared.outcome.Outcome.TheVariants.{Mapped, Unmapped};

use crate::measuring::packed_netlist;
use crate::outcome::Outcome;
use fab_base::{Fault, Memory};
use fab_designs::Design;
use fab_fabric::Fabric;
use fab_netlist::{Netlist, kept};
use itoa::Buffer;
use std::alloc::Global;

/// Adds words, with the blanks between them.
fn put(out: &mut Vec<u8>, words: &[u8]) -> Result<(), Memory>
    ensures { OnOk result (out.new.items ≡ out.old.items ++ words.now) }
{
    out.extend_from_slice(words)?;
    Ok(())
}

/// Adds words and a number.
fn put_number(out: &mut Vec<u8>, words: &[u8], number: u64) -> Result<(), Memory>
    ensures { OnOk result (out.new.items ≡ out.old.items ++ (words.now ++ decimal number)) }
{
    put(out, words)?;
    put(out, Buffer::new().format(number).as_bytes())
}

/// Adds which sample it is.
fn put_sample(out: &mut Vec<u8>, size: usize, seed: u64) -> Result<(), Memory>
    ensures { OnOk result (out.new.items ≡ out.old.items ++ text (sample_line size seed ∷ [])) }
{
    put_number(out, b"sample ", size as u64)?;
    put_number(out, b" ", seed)?;
    put(out, b"\n")
}

/// Adds what a fabric has.
fn put_fabric(out: &mut Vec<u8>, fabric: &Fabric) -> Result<(), Memory>
    ensures { OnOk result (out.new.items ≡ out.old.items ++ text (fabric_line fabric.now ∷ [])) }
{
    put_number(out, b"columns ", u64::from(fabric.columns()))?;
    put_number(out, b" rows ", u64::from(fabric.rows()))?;
    put_number(out, b" wires ", u64::from(fabric.wires()))?;
    put(out, b"\n")
}

/// How many cells a netlist is packed into.
fn cell_count(alloc: Global, netlist: &Netlist) -> Result<usize, Memory>
    ensures { IfOk result (λ count. count ≡ length (packed_of netlist.now).cells) }
{
    let packed = packed_netlist(alloc, netlist)?;
    Ok(packed.cells.len())
}

/// Adds what a netlist has.
fn put_netlist(out: &mut Vec<u8>, alloc: Global, netlist: &Netlist) -> Result<(), Memory>
    ensures { OnOk result (out.new.items ≡ out.old.items ++ text (netlist_line netlist.now ∷ [])) }
{
    let cells = cell_count(alloc, netlist)?;
    put_number(out, b"covers ", u64::from(kept(netlist)))?;
    put_number(out, b" latches ", netlist.latches.len() as u64)?;
    put_number(out, b" sites ", cells as u64)?;
    put(out, b"\n")
}

/// Adds which sample it is, and what its design has.
fn put_design(
    out: &mut Vec<u8>,
    alloc: Global,
    size: usize,
    seed: u64,
    design: &Design,
) -> Result<(), Memory>
    ensures { OnOk result (out.new.items ≡ out.old.items ++ text (design_lines size seed design.now)) }
{
    put_sample(out, size, seed)?;
    put_fabric(out, &design.fabric)?;
    put_netlist(out, alloc, &design.netlist)
}

/// Adds the status of `flow`.
fn put_status(out: &mut Vec<u8>, number: u8) -> Result<(), Memory>
    ensures { OnOk result (out.new.items ≡ out.old.items ++ text (status_line number ∷ [])) }
{
    put_number(out, b"status ", u64::from(number))?;
    put(out, b"\n")
}

/// Adds what a mapped design costs.
fn put_cost(out: &mut Vec<u8>, cost: u64, edges: u64) -> Result<(), Memory>
    ensures { OnOk result (out.new.items ≡ out.old.items ++ text (cost_line cost edges ∷ [])) }
{
    put_number(out, b"cost ", cost)?;
    put_number(out, b" edges ", edges)?;
    put(out, b"\n")
}

/// Adds what there is to say of a mapped design.
fn put_mapped(out: &mut Vec<u8>, cost: u64, edges: u64) -> Result<(), Memory>
    ensures { OnOk result (out.new.items ≡ out.old.items ++ outcome_text (Mapped cost edges)) }
{
    put_status(out, 0)?;
    put_cost(out, cost, edges)?;
    put(out, b"cycles 16 agree\n")
}

/// Adds the number of a fault and its report.
fn put_unmapped(out: &mut Vec<u8>, alloc: Global, fault: &Fault) -> Result<(), Memory>
    ensures { OnOk result (out.new.items ≡ out.old.items ++ outcome_text (Unmapped fault.now)) }
{
    put_status(out, fault.status().0)?;
    put(out, fault.text(alloc)?.bytes())
}

/// Adds what came of a sample.
fn put_outcome(out: &mut Vec<u8>, alloc: Global, outcome: &Outcome) -> Result<(), Memory>
    ensures { OnOk result (out.new.items ≡ out.old.items ++ outcome_text outcome.now) }
{
    match outcome {
        Outcome::Mapped(cost, edges) => put_mapped(out, *cost, *edges),
        Outcome::Unmapped(fault) => put_unmapped(out, alloc, fault),
    }
}

/// The summary of a sample.
pub fn print(
    alloc: Global,
    size: usize,
    seed: u64,
    design: &Design,
    outcome: &Outcome,
) -> Result<Vec<u8>, Memory>
    ensures { IfOk result (λ text. text.items ≡ summary_text size seed design.now outcome.now) }
{
    let mut out = Vec::new(alloc);
    put_design(&mut out, alloc, size, seed, design)?;
    put_outcome(&mut out, alloc, outcome)?;
    Ok(out)
}
