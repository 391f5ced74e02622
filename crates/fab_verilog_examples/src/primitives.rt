//! The modules of the basic elements and of the smallest loader.

use crate::kinds::put_pins;
use fab_desk::Sink;
use fab_examples::Stop;
use fab_gen_loader::loader_module;
use fab_prim::{IoPad, Lut4c, Mux8, Prim};
use fab_syntax::{Module, Text, print};
use std::alloc::Global;

/// Prints a module.
pub fn put_module<S: Sink>(alloc: Global, out: &mut S, module: Module) -> Result<(), Stop> {
    let mut modules = Vec::new(alloc);
    modules.push(module)?;
    out.put(&print(alloc, &Text { modules })?)?;
    Ok(())
}

// Prints the pins of a primitive's kind, and its module.
fn put_primitive<S: Sink, P: Prim>(alloc: Global, out: &mut S, primitive: &P) -> Result<(), Stop> {
    put_pins(alloc, out, primitive.kind())?;
    put_module(alloc, out, primitive.module(alloc)?)
}

/// Prints each primitive, and the loader of one row.
pub fn put_primitives<S: Sink>(alloc: Global, out: &mut S) -> Result<(), Stop> {
    put_primitive(alloc, out, &Lut4c)?;
    put_primitive(alloc, out, &IoPad)?;
    put_primitive(alloc, out, &Mux8)?;
    put_module(alloc, out, loader_module(alloc, 1)?)
}
