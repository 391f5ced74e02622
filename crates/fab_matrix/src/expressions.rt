//! The expressions of a matrix: what an output is assigned.

ghost use Rattle.std.specs.Prelude.{◌≡◌, ◌+◌, ◌-◌, ◌<◌, ◌≤◌, ◌^◌, false, [], ◌∷◌, length, map, IfOk, All};
ghost use Rattle.fab_bits.specs.Bits.{digits};
ghost use Rattle.fab_syntax.specs.Plain.{plain_expr, constant, variable, operation};
ghost use Rattle.fab_matrix.specs.Matrix.{field, selection};
ghost use Rattle.fab_matrix.specs.inner.Grouped.{name_at};

use crate::grouping::Field;
use fab_base::{Memory, Name};
use fab_bits::digits;
use fab_syntax::{Expr, Op, Word};
use std::alloc::Global;

/// The input that a field selects among those of an output; want of memory where there are too many to count.
pub fn selection(
    alloc: Global,
    inputs: &[Name],
    chosen: &[u32],
    field: Field,
) -> Result<Expr, Memory>
    requires within { All (λ input. input < length inputs.now) chosen.now }
    ensures { IfOk result (λ e. plain_expr e ≡ selection field.low field.width (map (name_at inputs.now) chosen.now)) }
{
    if chosen.is_empty() {
        let mut zero = Vec::new(alloc);
        zero.push(false)?;
        return Ok(Expr::Const(Word::from(zero)));
    }
    let Ok(count) = u32::try_from(chosen.len()) else {
        return Err(Memory);
    };
    let mut value = input_value(alloc, inputs, chosen[0])?;
    for number in (1..count).rev() {
        let test = Box::new(alloc, field_is(alloc, field, number)?)?;
        let yes = Box::new(alloc, input_value(alloc, inputs, chosen[number as usize])?)?;
        value = Expr::Cond(test, yes, Box::new(alloc, value)?);
    }
    Ok(value)
}

// The value of an input.
fn input_value(alloc: Global, inputs: &[Name], number: u32) -> Result<Expr, Memory>
    requires { number < length inputs.now }
    ensures { IfOk result (λ e. plain_expr e ≡ variable (name_at inputs.now number)) }
{
    Ok(Expr::Var(inputs[number as usize].copy(alloc)?))
}

// Whether a field has this value.
fn field_is(alloc: Global, bits: Field, value: u32) -> Result<Expr, Memory>
    ensures { IfOk result (λ e. plain_expr e ≡ operation Op.Equal (field bits.low bits.width) (constant (digits bits.width value))) }
{
    // only an output of two inputs or more is tested, so the field has a bit
    let high = (bits.low + bits.width).saturating_sub(1);
    let name = Name::of(alloc, b"ConfigBits")?;
    let bits_of_field = Box::new(alloc, Expr::Part(name, high, bits.low))?;
    let digits = Word::from(digits(alloc, bits.width, value)?);
    Ok(Expr::Two(
        Op::Equal,
        bits_of_field,
        Box::new(alloc, Expr::Const(digits))?,
    ))
}
