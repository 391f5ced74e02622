//! The longest timed walk of a design.

ghost use Rattle.std.specs.Prelude.{◌≡◌, ◌<◌, ◌≤◌, ℕ, List, All, IfOk, length, slice_index_or};
ghost use Rattle.fab_fabric.specs.Fabric.{wire_count};
ghost use Rattle.fab_fabric.specs.declared.wire.Wire.{Wire};
ghost use Rattle.fab_netlist.specs.Plain.{PlainNetlist};
ghost use Rattle.fab_netlist.specs.WellMade.{IsWellMade};
ghost use Rattle.fab_netlist.specs.Cycles.{HasNoCycle};
ghost use Rattle.fab_netlist.specs.Packing.{packed as packed_of};
ghost use Rattle.fab_implementation.specs.Plain.{Pad};
ghost use Rattle.fab_implementation.specs.OnFabric.{IsOnFabric};
ghost use Rattle.fab_legal.specs.Legal.{IsLegal};
ghost use Rattle.fab_timing.specs.Walks.{IsLongest, IsLatestAt};
ghost use Rattle.fab_timing.specs.inner.Design.{IsPathTo};
ghost use Rattle.fab_timing.specs.inner.Tables.{AreSmall, AreSums, AreTables, plain_steps, sum_at};

use crate::ends::ends_of;
use crate::search::settle_all;
use crate::steps::{Steps, steps_of};
use crate::trace::{latest_end, trace};
use fab_base::Memory;
use fab_fabric::{Fabric, Wire};
use fab_legal::Legal;
use fab_netlist::Packed;
use std::alloc::Global;
use std::marker::Model;

/// A walk of a signal: its delay, and the wires on its way, each with the sum of units up to it. The units of the end count
/// in the delay alone.
#[derive(Debug, Drop)]
pub struct Path {
    pub delay: u64,
    pub stops: Vec<(Wire, u64)>,
}

impl Model for Path {
    ghost use Rattle.fab_timing.specs.Walks.{PlainPath};

    ghost Value = { PlainPath };

    ghost view = { λ path. record { delay = path.delay; stops = path.stops.items } };
}

// The walk that has the greatest delay, by the sums at its end.
fn longest_in(
    alloc: Global,
    steps: &Steps,
    ends: &[(u32, u32)],
    sums: &[Option<u64>],
) -> Result<Path, Memory>
    requires tables { AreTables steps.now }
    requires len { length sums.now ≡ length steps.now.starts.items }
    requires sums { AreSums steps.now sums.now }
    requires small { AreSmall sums.now }
    requires ends { All (λ end. end.0 < length sums.now) ends.now }
    ensures path { IfOk result (λ path. IsPathTo (plain_steps steps.now) ends.now (sum_at sums.now) path) }
    ensures stops { IfOk result (λ path. All (λ stop. stop.0.0 < length steps.now.starts.items) path.stops) }
{
    match latest_end(ends, sums) {
        None => Ok(Path {
            delay: 0,
            stops: Vec::new(alloc),
        }),
        Some((end, delay)) => {
            let stops = trace(alloc, steps, sums, end)?;
            Ok(Path { delay, stops })
        }
    }
}

/// The longest timed walk of a legal implementation, one of them where several have the same delay. Where the design has no
/// timed walk, the delay is 0 and there are no stops.
pub fn longest(
    alloc: Global,
    fabric: &Fabric,
    packed: &Packed,
    legal: &Legal,
) -> Result<Path, Memory>
    requires packs { (netlist : PlainNetlist) × IsWellMade netlist × HasNoCycle netlist × (packed.now ≡ packed_of netlist) }
    requires on_fabric { IsOnFabric fabric.now legal.now }
    requires legal { (fixed : List Pad) × IsLegal fabric.now packed.now fixed legal.now }
    ensures longest { IfOk result (λ path. IsLongest fabric.now packed.now legal.now path) }
    ensures stops { IfOk result (λ path. All (λ stop. stop.0.0 < wire_count fabric.now) path.stops) }
{
    fabric.is_well_made();
    let steps = steps_of(alloc, fabric, packed, legal)?;
    let ends = ends_of(alloc, fabric, packed, legal)?;
    let sums = settle_all(alloc, &steps)?;
    longest_in(alloc, &steps, &ends, &sums)
}

/// For each wire, by its number, the greatest sum of units with which a signal comes there from a start, without those of an
/// end. None at a wire to which no signal comes.
pub fn arrivals(
    alloc: Global,
    fabric: &Fabric,
    packed: &Packed,
    legal: &Legal,
) -> Result<Vec<Option<u64>>, Memory>
    requires packs { (netlist : PlainNetlist) × IsWellMade netlist × HasNoCycle netlist × (packed.now ≡ packed_of netlist) }
    requires on_fabric { IsOnFabric fabric.now legal.now }
    requires legal { (fixed : List Pad) × IsLegal fabric.now packed.now fixed legal.now }
    ensures count { IfOk result (λ sums. length sums.items ≡ wire_count fabric.now) }
    ensures latest { IfOk result (λ sums. (wire : Wire) → IsLatestAt fabric.now packed.now legal.now wire (slice_index_or sums.items wire.0 None)) }
{
    fabric.is_well_made();
    let steps = steps_of(alloc, fabric, packed, legal)?;
    settle_all(alloc, &steps)
}
