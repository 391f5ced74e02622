//! How a machine is made.

ghost use Rattle.std.specs.Prelude.{◌≡◌, ◌+◌, ◌<◌, ◌≤◌, ◌^◌, ℕ, Bool, Some, length, map, slice_get, IfOk};
ghost use Rattle.fab_syntax.specs.Plain.{plain_text};
ghost use Rattle.fab_meaning.specs.Runs.{user_clock_name};
ghost use Rattle.fab_equations.specs.Equations.{HasNoDot};
ghost use Rattle.fab_network.specs.Network.{AreFit};
ghost use Rattle.fab_network.specs.Passes.{kept_tern};
ghost use Rattle.fab_network.specs.declared.network.Drive.{Drive as PlainDrive};
ghost use Rattle.fab_network.specs.declared.network.Drive.TheVariants.{Given};
ghost use Rattle.fab_wiring.specs.Clocks.{IsClockAt};
ghost use Rattle.fab_state_points.specs.Standing.{data_width, first_data};
ghost use Rattle.fab_sim.specs.Making.{IsGivenFirst};
ghost use Rattle.fab_sim.specs.inner.Made.{stored_by, IsMadeOf};

use crate::forming::PLAIN_CYCLES;
use crate::machine::Machine;
use crate::starting::fill;
use fab_base::Memory;
use fab_demand::Demand;
use fab_demand::laws::given_is_kept;
use fab_equations::Equations;
use fab_fabric::Site;
use fab_network::{Drive, Network};
use fab_phases::loading_of;
use fab_state_points::{StatePoints, Stream};
use fab_ternary::Tern;
use std::alloc::Global;

/// The values of flip-flops.
pub fn values_of(alloc: Global, ffs: &[(Site, bool)]) -> Result<Vec<bool>, Memory>
    ensures { IfOk result (λ values. values.items ≡ map (λ register. register.1) ffs.now) }
{
    let mut values = Vec::new(alloc);
    for (_, value) in ffs {
        values.push(*value)?;
    }
    Ok(values)
}

/// The flip-flops and the latches among marked points.
pub fn registers_of(alloc: Global, network: &Network, loads: &[bool]) -> Result<Vec<bool>, Memory>
    requires { length loads.now ≡ length network.now.drives.items }
    ensures long { IfOk result (λ registers. length registers.items ≡ length network.now.drives.items) }
    ensures marks { IfOk result (λ registers. (point : ℕ) (drive : PlainDrive) (load : Bool) → slice_get network.now.drives.items point ≡ Some drive →
        slice_get loads.now point ≡ Some load → slice_get registers.items point ≡ Some (stored_by drive load)) }
{
    let mut registers = Vec::with_capacity(alloc, loads.len())?;
    for (point, drive) in network.drives.iter().enumerate() {
        registers.push(register_mark(*drive, loads[point]))?;
    }
    Ok(registers)
}

// The mark of a point, if it is a flip-flop or a latch.
fn register_mark(drive: Drive, load: bool) -> bool
    ensures { result ≡ stored_by drive load }
{
    match drive {
        Drive::Flop(_, _) | Drive::Hold(_, _) => load,
        Drive::Given | Drive::Same(_) | Drive::Value(_) => false,
    }
}

/// The point of `UserCLK`, where the top has it.
pub fn clock_of(equations: &Equations) -> Option<u32>
    ensures { IsClockAt (plain_text equations.now) user_clock_name result }
{
    top_point(equations, b"UserCLK")
}

// The point of an input of the top.
fn top_point(equations: &Equations, name: &[u8]) -> Option<u32>
    requires { HasNoDot name.now }
    ensures { IsClockAt (plain_text equations.now) name.now result }
{
    equations.place_of(name, 0)
}

/// The machine of a network of so many points, among whose flip-flops and latches those are marked that loading sets.
pub fn machine_of(
    alloc: Global,
    network: Network,
    points: StatePoints,
    values: Vec<bool>,
    registers: &[bool],
    loads: Vec<bool>,
    clock: Option<u32>,
    count: usize,
) -> Result<Machine, Memory>
    requires long { length network.drives.items ≡ count }
    requires few { count ≤ 2 ^ 32 }
    requires fit { AreFit network.trees.items network.drives.items }
    requires registers { length registers.now ≡ count }
    requires strobe { points.stream.strobe < count }
    requires carrier { (bit : ℕ) → bit < data_width points.stream.carrier → slice_get network.drives.items (first_data points.stream.carrier + bit) ≡ Some Given }
    ensures made { IfOk result (IsMadeOf network points registers.now) }
    ensures values { IfOk result (λ machine. machine.values ≡ values) }
    ensures loads { IfOk result (λ machine. machine.loads ≡ loads) }
    ensures clock { IfOk result (λ machine. machine.clock ≡ clock) }
{
    given_is_kept();
    let given = given_of(alloc, count, points.stream)?;
    let mut demand = Demand::new(alloc, count)?;
    let loading = loading_of(alloc, &network, registers, &given, &mut demand)?;
    Ok(Machine {
        network,
        points,
        values,
        loading,
        demand,
        forms: Vec::new(alloc),
        plain_left: Some(PLAIN_CYCLES),
        given,
        loads,
        clock,
    })
}

// What is given at first: WriteStrobe is 1, WriteData is open, and all else is 0.
fn given_of(alloc: Global, count: usize, stream: Stream) -> Result<Vec<Tern>, Memory>
    requires strobe { stream.strobe < count }
    requires carrier { first_data stream.carrier + data_width stream.carrier ≤ count }
    ensures long { IfOk result (λ given. length given.items ≡ count) }
    ensures first { IfOk result (λ given. IsGivenFirst count stream (kept_tern given.items)) }
{
    let mut given = vec![in alloc; Tern::No; count]?;
    given[stream.strobe as usize] = Tern::Yes;
    fill(
        stream.carrier.first(),
        stream.carrier.width(),
        Tern::Open,
        &mut given,
    );
    Ok(given)
}
