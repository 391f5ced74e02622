//! How a stepper is made.

ghost use Rattle.std.specs.Prelude.{◌≡◌, ◌<◌, ℕ, Bool, List, Some, length, slice_get, IfOk};
ghost use Rattle.fab_draws.specs.Draws.{generator_of};
ghost use Rattle.fab_syntax.specs.Plain.{PlainModule};
ghost use Rattle.fab_ternary_laws.specs.Shown.{Terns};
ghost use Rattle.fab_state.specs.Plain.{PlainState};
ghost use Rattle.fab_network.specs.declared.network.Drive.{Drive as PlainDrive};
ghost use Rattle.fab_phases.specs.Running.{AreNumbers};
ghost use Rattle.fab_sim.specs.Machine.{IsFresh};
ghost use Rattle.fab_sim.specs.inner.Rooms.{free_by, IsRoomFor, IsUnmarked, IsUnmarkedAt};
ghost use Rattle.fab_sim.specs.Stepper.{AreFreeInputs, CanStart};

use crate::machine::Machine;
use crate::stepper::Stepper;
use fab_base::Memory;
use fab_meaning::laws::points_of_sound_texts_have_one_driver;
use fab_network::{Drive, Network};
use fab_readers::Readers;
use fab_stepping::{Board, own_leads};
use fab_ternary::Tern;
use rand_core::SeedableRng;
use rand_pcg::Lcg64Xsh32;
use std::alloc::Global;
use std::mem;

/// The memory that a stepper takes, with the marks of the inputs that take a drawn value in each cycle.
#[derive(Drop)]
pub struct Room {
    pub terns: Vec<Tern>,
    pub leads: Vec<u32>,
    pub solution: Vec<Tern>,
    pub readers: Readers,
    pub order: Vec<u32>,
    pub free: Vec<bool>,
}

/// A stepper whose points are 0, with the marks of the loading points and the values of the state's flip-flops.
#[derive(Drop)]
pub struct Unset {
    pub stepper: Stepper,
    pub loads: Vec<bool>,
    pub values: Vec<bool>,
}

/// The memory for the stepper of a machine.
pub fn room_of(alloc: Global, machine: &Machine) -> Result<Room, Memory>
    requires { CanStart machine.now }
    ensures { (text : List PlainModule) (state : PlainState) (loaded : Terns) → IsFresh text state loaded machine.now → IfOk result (IsRoomFor text state) }
{
    let count = machine.given.len();
    let free = free_inputs(alloc, machine)?;
    let terns = vec![in alloc; Tern::No; count]?;
    let solution = vec![in alloc; Tern::Open; count]?;
    let leads = own_leads(alloc, count)?;
    let order = own_leads(alloc, count)?;
    let readers = Readers::new(alloc, count)?;
    Ok(Room {
        terns,
        leads,
        solution,
        readers,
        order,
        free,
    })
}

// Which inputs take a drawn value in each cycle.
fn free_inputs(alloc: Global, machine: &Machine) -> Result<Vec<bool>, Memory>
    requires { CanStart machine.now }
    ensures { (text : List PlainModule) (state : PlainState) (loaded : Terns) → IsFresh text state loaded machine.now → IfOk result (λ free. AreFreeInputs text state free.items) }
{
    points_of_sound_texts_have_one_driver();
    let mut free = given_points(alloc, &machine.network, &machine.loads)?;
    unmark(&machine.points.ins, &mut free);
    unmark_point(machine.clock, &mut free);
    Ok(free)
}

// The inputs of the top that are no loading points.
fn given_points(alloc: Global, network: &Network, loads: &[bool]) -> Result<Vec<bool>, Memory>
    requires { length loads.now ≡ length network.now.drives.items }
    ensures long { IfOk result (λ free. length free.items ≡ length network.now.drives.items) }
    ensures marks { IfOk result (λ free. (point : ℕ) (drive : PlainDrive) (load : Bool) → slice_get network.now.drives.items point ≡ Some drive →
        slice_get loads.now point ≡ Some load → slice_get free.items point ≡ Some (free_by drive load)) }
{
    let mut free = Vec::with_capacity(alloc, loads.len())?;
    for (point, drive) in network.drives.iter().enumerate() {
        free.push(is_free(*drive, loads[point]))?;
    }
    Ok(free)
}

// Whether a point is an input that is no loading point.
fn is_free(drive: Drive, load: bool) -> bool
    ensures { result ≡ free_by drive load }
{
    match drive {
        Drive::Given => !load,
        Drive::Flop(_, _) | Drive::Same(_) | Drive::Value(_) | Drive::Hold(_, _) => false,
    }
}

// Takes the marks of points away.
fn unmark(points: &[u32], marks: &mut [bool])
    requires { AreNumbers (length marks.old) points.now }
    ensures { IsUnmarked points.now marks.old marks.new }
{
    for point in points {
        marks[*point as usize] = false;
    }
}

// Takes the mark of a point away, if there is one.
fn unmark_point(point: Option<u32>, marks: &mut [bool])
    requires { (number : ℕ) → point ≡ Some number → number < length marks.old }
    ensures { IsUnmarkedAt point marks.old marks.new }
{
    if let Some(point) = point {
        marks[point as usize] = false;
    }
}

/// A machine and memory as a stepper of a seed, the values of which are to be set.
pub fn unset_of(machine: Machine, room: Room, seed: u64) -> Unset
    ensures network { result.stepper.network ≡ machine.network }
    ensures points { result.stepper.points ≡ machine.points }
    ensures terns { result.stepper.board.terns ≡ room.terns }
    ensures held { result.stepper.board.held ≡ machine.given }
    ensures leads { result.stepper.board.leads ≡ room.leads }
    ensures solution { result.stepper.solution ≡ room.solution }
    ensures order { result.stepper.order ≡ room.order }
    ensures free { result.stepper.free ≡ room.free }
    ensures random { result.stepper.random ≡ generator_of seed }
    ensures loads { result.loads ≡ machine.loads }
    ensures values { result.values ≡ machine.values }
{
    let Machine {
        network,
        points,
        values,
        loading,
        demand,
        forms,
        plain_left: _,
        given,
        loads,
        clock: _,
    } = machine;
    let Room {
        terns,
        leads,
        solution,
        readers,
        order,
        free,
    } = room;
    mem::drop(loading);
    mem::drop(demand);
    mem::drop(forms);
    let board = Board {
        terns,
        held: given,
        leads,
    };
    let random = Lcg64Xsh32::seed_from_u64(seed);
    let stepper = Stepper {
        network,
        points,
        board,
        solution,
        readers,
        order,
        free,
        random,
    };
    Unset {
        stepper,
        loads,
        values,
    }
}
