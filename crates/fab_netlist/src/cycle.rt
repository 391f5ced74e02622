//! One cycle of a netlist.

ghost use Rattle.std.specs.Prelude.{◌≡◌, ◌<◌, ◌≤◌, ◌^◌, Bool, if◌then◌else◌, length, map};
ghost use Rattle.std.specs.List.{All};
ghost use Rattle.fab_bits.specs.Bits.{number};
ghost use Rattle.fab_netlist.specs.Cycles.{HasNoCycle};
ghost use Rattle.fab_netlist.specs.Meaning.{Meets, cover_value, first_value, is_reset, next_held};
ghost use Rattle.fab_netlist.specs.inner.Passes.{IsWithin, asked, placed, taken};
ghost use Rattle.fab_netlist.specs.Plain.{bit_at};
ghost use Rattle.fab_netlist.specs.WellMade.{IsWellMade};

use crate::netlist::{Cover, Latch, Netlist};

/// The number that the values of nets spell, the first as least significant.
fn spelled(nets: &[u32], values: &[bool]) -> u32
    requires four { length nets.now ≤ 4 }
    requires below { All (λ net. net < length values.now) nets.now }
    ensures value { result ≡ number (map (bit_at values.now) nets.now) }
    ensures small { result < 2 ^ length nets.now }
{
    match nets.split_first() {
        None => 0,
        Some((first, rest)) => u32::from(values[*first as usize]) + 2 * spelled(rest, values),
    }
}

fn cover_value(cover: &Cover, values: &[bool]) -> bool
    requires { IsWithin (length values.now) cover.now }
    ensures { result ≡ cover_value cover.now (bit_at values.now) }
{
    let place = spelled(&cover.inputs, values);
    (cover.table >> place) % 2 == 1
}

fn place(nets: &[u32], bits: &[bool], values: &mut [bool])
    requires fits { length bits.now ≡ length nets.now }
    requires below { All (λ net. net < length values.old) nets.now }
    ensures { values.new ≡ placed nets.now bits.now values.old }
{
    for (place, net) in nets.iter().enumerate() {
        values[*net as usize] = bits[place];
    }
}

fn place_held(latches: &[Latch], held: &[bool], values: &mut [bool])
    requires fits { length held.now ≡ length latches.now }
    requires below { All (λ latch. latch.output < length values.old) latches.now }
    ensures { values.new ≡ placed (map (λ latch. latch.output) latches.now) held.now values.old }
{
    for (place, latch) in latches.iter().enumerate() {
        values[latch.output as usize] = held[place];
    }
}

/// The output of a cover takes its value.
fn ask(cover: &Cover, values: &mut [bool])
    requires { IsWithin (length values.old) cover.now }
    ensures { values.new ≡ taken cover.now values.old }
{
    let value = cover_value(cover, values);
    values[cover.output as usize] = value;
}

/// Asks covers in turn, by their places.
fn ask_in_turn(covers: &[Cover], places: &[u32], values: &mut [bool])
    requires within { All (IsWithin (length values.old)) covers.now }
    requires places { All (λ place. place < length covers.now) places.now }
    ensures { values.new ≡ asked covers.now places.now values.old }
{
    for place in places {
        ask(&covers[*place as usize], values);
    }
}

/// Whether a netlist has a reset port, and its net the value 1.
fn is_reset(netlist: &Netlist, values: &[bool]) -> bool
    requires { length values.now ≡ length netlist.now.nets }
    ensures { result ≡ is_reset netlist.now (bit_at values.now) }
{
    netlist.is_well_made();
    match netlist.reset {
        None => false,
        Some(place) => values[netlist.inputs[place as usize] as usize],
    }
}

/// The value that a latch takes, where latches are reset and where they are not.
fn next_value(latch: &Latch, reset: bool, values: &[bool]) -> bool
    requires { latch.now.input < length values.now }
    ensures { result ≡ (if reset then first_value latch.now else bit_at values.now latch.now.input) }
{
    if reset {
        latch.init == 1
    } else {
        values[latch.input as usize]
    }
}

fn hold(latches: &[Latch], reset: bool, values: &[bool], held: &mut [bool])
    requires inputs { All (λ latch. latch.input < length values.now) latches.now }
    requires fits { length held.old ≡ length latches.now }
    ensures { held.new ≡ map (λ latch. if reset then first_value latch else bit_at values.now latch.input) latches.now }
{
    for (place, latch) in latches.iter().enumerate() {
        held[place] = next_value(latch, reset, values);
    }
}

/// One cycle: `values` becomes the assignment of all nets under the values of the inputs and the held values of the
/// latches, both in their order, and `held` becomes what the latches hold next. It takes no memory. The time is linear in the
/// nets, covers and latches: each cover is asked once.
pub fn step(netlist: &Netlist, inputs: &[bool], held: &mut [bool], values: &mut [bool])
    requires acyclic { HasNoCycle netlist.now }
    requires inputs { length inputs.now ≡ length netlist.now.inputs }
    requires held { length held.old ≡ length netlist.now.latches }
    requires values { length values.old ≡ length netlist.now.nets }
    ensures meets { Meets netlist.now (bit_at inputs.now) (bit_at held.old) (bit_at values.new) }
    ensures next { held.new ≡ next_held netlist.now (bit_at values.new) }
{
    netlist.is_well_made();
    values.fill(false);
    place(&netlist.inputs, inputs, values);
    place_held(&netlist.latches, held, values);
    ask_in_turn(&netlist.covers, netlist.order(), values);
    let reset = is_reset(netlist, values);
    hold(&netlist.latches, reset, values, held);
}
