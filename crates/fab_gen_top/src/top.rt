//! The top module.

ghost use Rattle.std.specs.Prelude.{◌≡◌, All, map, IfOk};
ghost use Rattle.fab_syntax.specs.Plain.{plain_module, plain_item};
ghost use Rattle.fab_text_loads_laws.specs.fab_fabric_text_defs_Places.{placed_tiles};
ghost use Rattle.fab_text_loads_laws.specs.fab_fabric_text_defs_Top.{top_items, top_module};
ghost use Rattle.fab_gen_top.specs.inner.Standing.{placed_of, IsPlaceOf};

use crate::joins::push_instances;
use crate::places::{Place, places_of};
use crate::ports::top_ports;
use crate::wires::{push_begin_wires, push_carrying};
use fab_base::{Memory, Name};
use fab_fabric::Fabric;
use fab_syntax::{Item, Module};
use std::alloc::Global;

/// The top module of a fabric: what carries the configuration bits to its tiles, and the tiles with the wires between them. The bits come
/// by a loader and the strobes of the columns, or along a chain. The time is linear in the places, wires and ports.
///
/// Want of memory is the only error.
pub fn top_module(alloc: Global, fabric: &Fabric) -> Result<Module, Memory>
    ensures { IfOk result (λ m. plain_module m ≡ top_module fabric.now) }
{
    let places = places_of(alloc, fabric)?;
    let name = Name::of(alloc, b"eFPGA")?;
    let ports = top_ports(alloc, fabric, &places)?;
    let items = top_items(alloc, fabric, &places)?;
    Ok(Module { name, ports, items })
}

fn top_items(alloc: Global, fabric: &Fabric, places: &[Place]) -> Result<Vec<Item>, Memory>
    requires places { map (placed_of fabric.now) places.now ≡ placed_tiles fabric.now }
    requires stand { All (IsPlaceOf fabric.now) places.now }
    ensures { IfOk result (λ items. map plain_item items.items ≡ top_items fabric.now) }
{
    let mut items = Vec::new(alloc);
    push_carrying(alloc, &mut items, fabric, places)?;
    push_begin_wires(alloc, &mut items, fabric, places)?;
    push_instances(alloc, &mut items, fabric, places)?;
    Ok(items)
}
