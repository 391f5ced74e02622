//! What the driver of a point gives it.

ghost use Rattle.std.specs.Prelude.{◌≡◌, ◌<◌, IfOk, length};
ghost use Rattle.fab_syntax.specs.Plain.{plain_text};
ghost use Rattle.fab_values.specs.Declarations.{declarations};
ghost use Rattle.fab_equations.specs.Instances.{Instance, instances, points};
ghost use Rattle.fab_equations.specs.Numbering.{IsInstanceOfNumber};
ghost use Rattle.fab_verilog_examples.specs.Driven.{AreValues, HasValue, IsBitOf};

use crate::loading::state::{State, bit_of};
use fab_base::Memory;
use fab_equations::{Driver, Equations, Source};
use fab_values::{Values, eval};
use std::alloc::Global;
use std::ops::Range;

// The bits that the names of an instance show.
fn instance_values<'e>(
    alloc: Global,
    equations: &'e Equations,
    instance: u32,
    shown: &[bool],
) -> Result<Values<'e>, Memory>
    requires { instance < length (instances (plain_text equations.now)) }
    ensures { IfOk result (λ values. (i : Instance) → IsInstanceOfNumber (plain_text equations.now) instance i → values.declarations ≡ declarations i.here) }
{
    let mut values = equations.values(alloc, instance)?;
    let Range { start, end } = equations.points_of(instance);
    for point in start..end {
        values.set(point - start, bit_of(shown, point));
    }
    Ok(values)
}

/// The bits that the names of all instances show, by the numbers of the instances.
pub fn values_shown<'e>(
    alloc: Global,
    equations: &'e Equations,
    shown: &[bool],
) -> Result<Vec<Values<'e>>, Memory>
    ensures { IfOk result (λ values. AreValues (plain_text equations.now) values.items) }
{
    let mut values = Vec::new(alloc);
    for instance in 0..equations.instances() {
        values.push(instance_values(alloc, equations, instance, shown)?)?;
    }
    Ok(values)
}

// The bit of an expression over the bits of its instance.
fn source_bit(equations: &Equations, values: &[Values], source: Source) -> bool
    requires source { HasValue (plain_text equations.now) source }
    requires values { AreValues (plain_text equations.now) values.now }
    ensures { IsBitOf (plain_text equations.now) values.now source result }
{
    let expr = equations.expr(source.expr);
    eval(expr, source.bit, &values[source.instance as usize])
}

/// What a point shows by its driver: what a point of the world shows and what a flip-flop holds stays, and a latch shows its data
/// while its gate is 1.
pub fn shown_by_driver(equations: &Equations, values: &[Values], state: &State, point: u32) -> bool
    requires point { point < length (points (plain_text equations.now)) }
    requires values { AreValues (plain_text equations.now) values.now }
{
    match equations.driver(point) {
        Driver::Outside => bit_of(&state.shown, point),
        Driver::Same(other) => bit_of(&state.shown, other),
        Driver::Value(source) => source_bit(equations, values, source),
        Driver::Flop(_, _) => bit_of(&state.held, point),
        Driver::Hold(gate, data) => {
            if source_bit(equations, values, gate) {
                source_bit(equations, values, data)
            } else {
                bit_of(&state.held, point)
            }
        }
    }
}

/// What a point holds behind a tick of a clock: a flip-flop of the clock takes its next value, and a latch keeps what it shows.
pub fn held_behind_tick(
    equations: &Equations,
    values: &[Values],
    state: &State,
    point: u32,
    ticking: u32,
) -> bool
    requires point { point < length (points (plain_text equations.now)) }
    requires values { AreValues (plain_text equations.now) values.now }
{
    match equations.driver(point) {
        Driver::Flop(clock, next) => {
            if clock == ticking {
                source_bit(equations, values, next)
            } else {
                bit_of(&state.held, point)
            }
        }
        Driver::Hold(_, _) => bit_of(&state.shown, point),
        Driver::Outside | Driver::Same(_) | Driver::Value(_) => bit_of(&state.held, point),
    }
}
