//! Covers and latches between the nets of a design, and what a netlist keeps of them. A design may have more nets than a `u32`
//! counts, until that is judged; a netlist has few.

ghost use Rattle.std.specs.Prelude.{◌≡◌, ◌<◌, ◌^◌, All, IfOk};

use fab_base::Memory;
use fab_netlist::{Cube, Latch, WideCover};
use std::alloc::Global;
use std::marker::Model;

/// A cover between nets of a design.
#[derive(Drop)]
pub(crate) struct DesignCover<'a> {
    pub line: u32,
    pub inputs: Vec<usize>,
    pub output: usize,
    pub on: bool,
    /// The rows of the model's line: all copies of a model share them.
    pub rows: &'a [Cube],
}

impl<'a> Model for DesignCover<'a> {
    ghost use Rattle.fab_netlist.specs.Wide.{PlainWideCover};

    ghost Value = { PlainWideCover };

    ghost view = { λ cover. record { line = cover.line; inputs = cover.inputs.items; output = cover.output; on = cover.on; rows = cover.rows.now } };
}

/// A latch between nets of a design.
#[derive(Clone, Copy, Debug)]
pub(crate) struct DesignLatch {
    pub input: usize,
    pub output: usize,
    pub init: u8,
}

impl Model for DesignLatch {
    ghost use Rattle.fab_netlist.specs.declared.netlist.Latch.{Latch};

    ghost Value = { Latch };

    ghost view = { λ latch. record { input = latch.input; output = latch.output; init = latch.init } };

    ghost inverse = { λ latch. record { input = latch.input; output = latch.output; init = latch.init } };
}

/// The numbers of nets in a netlist.
pub(crate) fn netlist_numbers(alloc: Global, nets: &[usize]) -> Result<Vec<u32>, Memory>
    requires { All (λ net. net < 2 ^ 32) nets.now }
    ensures { IfOk result (λ numbers. numbers.items ≡ nets.now) }
{
    let mut numbers = Vec::new(alloc);
    for net in nets {
        numbers.push(*net as u32)?;
    }
    Ok(numbers)
}

fn netlist_cover(alloc: Global, cover: &DesignCover) -> Result<WideCover, Memory>
    requires inputs { All (λ net. net < 2 ^ 32) cover.now.inputs }
    requires output { cover.now.output < 2 ^ 32 }
    ensures { IfOk result (λ made. made ≡ cover.now) }
{
    let inputs = netlist_numbers(alloc, &cover.inputs)?;
    let rows = Vec::from_slice(alloc, cover.rows)?;
    Ok(WideCover {
        line: cover.line,
        inputs,
        output: cover.output as u32,
        on: cover.on,
        rows,
    })
}

/// The covers of a netlist.
pub(crate) fn netlist_covers(
    alloc: Global,
    covers: &[DesignCover],
) -> Result<Vec<WideCover>, Memory>
    requires { All (λ cover. All (λ net. net < 2 ^ 32) cover.inputs × (cover.output < 2 ^ 32)) covers.now }
    ensures { IfOk result (λ made. made.items ≡ covers.now) }
{
    let mut made = Vec::new(alloc);
    for cover in covers {
        made.push(netlist_cover(alloc, cover)?)?;
    }
    Ok(made)
}

fn netlist_latch(latch: &DesignLatch) -> Latch
    requires input { latch.now.input < 2 ^ 32 }
    requires output { latch.now.output < 2 ^ 32 }
    ensures { result ≡ latch.now }
{
    Latch {
        input: latch.input as u32,
        output: latch.output as u32,
        init: latch.init,
    }
}

/// The latches of a netlist.
pub(crate) fn netlist_latches(alloc: Global, latches: &[DesignLatch]) -> Result<Vec<Latch>, Memory>
    requires { All (λ latch. (latch.input < 2 ^ 32) × (latch.output < 2 ^ 32)) latches.now }
    ensures { IfOk result (λ made. made.items ≡ latches.now) }
{
    let mut made = Vec::new(alloc);
    for latch in latches {
        made.push(netlist_latch(latch))?;
    }
    Ok(made)
}
