//! The value of an expression, bit by bit.

ghost use Rattle.std.specs.Prelude.{◌≡◌, ◌+◌, ◌-◌, ◌^◌, ◌<◌, ◌≤◌, IsSome, IfSome, MatchOption, map, slice_range};
ghost use Rattle.fab_bits.specs.Bits.{bit_number, number};
ghost use Rattle.fab_syntax.specs.Plain.{plain_expr, plain_exprs};
ghost use Rattle.fab_meaning.specs.Value.{bit_at};
ghost use Rattle.fab_values.specs.Evaluation.{expr_width, exprs_width, local_width, IsFit, AreFit, IsWhole, value_in, values_in, operands_agree, operands_difference, operands_width, IsPartBit};
ghost use Rattle.fab_values.specs.Declarations.{found_in, bits_named};

use crate::names::bits_of_shape;
use crate::values::Values;
use fab_syntax::{Expr, Op, Word};

/// A bit of the value of an expression over the names of an instance.
///
/// It takes no memory: an operand of `==` and `-` is evaluated anew for each of its bits.
pub fn eval(expr: &Expr, bit: u32, values: &Values) -> bool
    requires fit { IsFit values.now.declarations (plain_expr expr.now) }
    requires within { bit < expr_width values.now.declarations (plain_expr expr.now) }
    ensures { result ≡ bit_at (value_in values.now (plain_expr expr.now)) bit }
{
    values.whole();
    eval_bit(expr, u64::from(bit), values)
}

// What is left of a place past an expression's width; none where the place lies within.
#[cycle(past)]
#[tactic(auto, using(fab_syntax::proofs::Plain::plain_concatenation))]
fn past_expr(expr: &Expr, bit: u64, values: &Values) -> Option<u64>
    ensures { MatchOption result (bit < expr_width values.now.declarations (plain_expr expr.now))
        (λ rest. rest + expr_width values.now.declarations (plain_expr expr.now) ≡ bit) }
{
    match expr {
        Expr::Const(word) => past(bit, word.bits().len() as u64),
        Expr::Var(name) => past(bit, u64::from(width_of(name.bytes(), values))),
        Expr::Pick(_, _) => past(bit, 1),
        Expr::Part(_, high, low) => past(
            bit,
            (u64::from(*high) + 1).saturating_sub(u64::from(*low)),
        ),
        Expr::Cat(parts) => past_parts(parts, bit, values),
        Expr::Not(inner) => past_expr(inner, bit, values),
        Expr::Two(op, left, _) => match op {
            Op::Equal => past(bit, 1),
            Op::And | Op::Or | Op::Xor | Op::Minus => past_expr(left, bit, values),
        },
        Expr::Cond(_, yes, _) => past_expr(yes, bit, values),
    }
}

// The same past all parts of a concatenation.
#[cycle(past)]
fn past_parts(parts: &[Expr], bit: u64, values: &Values) -> Option<u64>
    ensures { MatchOption result (bit < exprs_width values.now.declarations (plain_exprs (map plain_expr parts.now)))
        (λ rest. rest + exprs_width values.now.declarations (plain_exprs (map plain_expr parts.now)) ≡ bit) }
{
    let mut rest = bit;
    for part in parts {
        let Some(more) = past_expr(part, rest, values) else {
            return None;
        };
        rest = more;
    }
    Some(rest)
}

// What is left of a place past a width.
fn past(bit: u64, width: u64) -> Option<u64>
    ensures { MatchOption result (bit < width) (λ rest. rest + width ≡ bit) }
{
    bit.checked_sub(width)
}

// How many bits a name has; none where it is not declared.
fn width_of(name: &[u8], values: &Values) -> u32
    ensures { result ≡ local_width (found_in values.now.declarations name.now) }
{
    match values.local(name) {
        Some(local) => bits_of_shape(local.shape),
        None => 0,
    }
}

// A bit of an expression.
#[cycle(value)]
#[tactic(auto, using(fab_syntax::proofs::Plain::plain_concatenation))]
fn eval_bit(expr: &Expr, bit: u64, values: &Values) -> bool
    requires whole { IsWhole values.now }
    requires fit { IsFit values.now.declarations (plain_expr expr.now) }
    requires within { bit < expr_width values.now.declarations (plain_expr expr.now) }
    ensures { result ≡ bit_at (value_in values.now (plain_expr expr.now)) bit }
{
    match expr {
        Expr::Const(word) => constant_bit(word, bit),
        Expr::Var(name) => values.bit_of(name.bytes(), bit),
        Expr::Pick(name, index) => {
            let bits = width_of(name.bytes(), values);
            let place = index_value(index, bits, values);
            values.bit_of(name.bytes(), place)
        }
        Expr::Part(name, high, low) => range_bit(name.bytes(), *high, *low, bit, values),
        Expr::Cat(parts) => match part_at(parts, bit, values) {
            Some((index, place)) => eval_bit(&parts[index], place, values),
            None => false,
        },
        Expr::Not(inner) => !eval_bit(inner, bit, values),
        Expr::Two(op, left, right) => match op {
            Op::And => eval_bit(left, bit, values) & eval_bit(right, bit, values),
            Op::Or => eval_bit(left, bit, values) | eval_bit(right, bit, values),
            Op::Xor => eval_bit(left, bit, values) ^ eval_bit(right, bit, values),
            Op::Equal => agree(expr, values),
            Op::Minus => difference_bit(expr, bit, values),
        },
        Expr::Cond(test, yes, no) => {
            if eval_bit(test, 0, values) {
                eval_bit(yes, bit, values)
            } else {
                eval_bit(no, bit, values)
            }
        }
    }
}

// A bit of a constant.
fn constant_bit(word: &Word, bit: u64) -> bool
    ensures { result ≡ bit_at word.now bit }
{
    match word.bits().get(bit as usize) {
        Some(value) => *value,
        None => false,
    }
}

// A bit of a part of a name.
fn range_bit(name: &[u8], high: u32, low: u32, bit: u64, values: &Values) -> bool
    requires { bit < high + 1 - low }
    ensures { result ≡ bit_at (slice_range (bits_named values.now.declarations values.now.bits name.now) low (high + 1)) bit }
{
    values.bit_of(name, u64::from(low) + bit)
}

// The part of a concatenation in which a bit stands, and its place there. The last part is the least significant.
fn part_at(parts: &[Expr], bit: u64, values: &Values) -> Option<(usize, u64)>
    requires whole { IsWhole values.now }
    requires fit { AreFit values.now.declarations (plain_exprs (map plain_expr parts.now)) }
    requires within { bit < exprs_width values.now.declarations (plain_exprs (map plain_expr parts.now)) }
    ensures some { IsSome result }
    ensures part { IfSome result (λ found. IsPartBit values.now parts.now bit found.0 found.1) }
{
    let mut place = bit;
    let mut end = parts.len();
    while end > 0 {
        end -= 1;
        match past_expr(&parts[end], place, values) {
            Some(more) => place = more,
            None => return Some((end, place)),
        }
    }
    None
}

// The number that an index of so many values stands for.
#[cycle(value)]
fn index_value(index: &Expr, count: u32, values: &Values) -> u64
    requires whole { IsWhole values.now }
    requires fit { IsFit values.now.declarations (plain_expr index.now) }
    requires count { count ≡ 2 ^ expr_width values.now.declarations (plain_expr index.now) }
    ensures { result ≡ number (value_in values.now (plain_expr index.now)) }
{
    let mut number: u64 = 0;
    let mut place: u64 = 32;
    while place > 0 {
        place -= 1;
        if past_expr(index, place, values).is_none() {
            number = 2 * number + weight(eval_bit(index, place, values));
        }
    }
    number
}

// The number that a bit stands for.
fn weight(bit: bool) -> u64
    ensures value { result ≡ bit_number bit }
    ensures small { result ≤ 1 }
{
    u64::from(bit)
}

// Whether the operands of an operation agree in all bits.
#[cycle(value)]
fn agree(expr: &Expr, values: &Values) -> bool
    requires whole { IsWhole values.now }
    requires fit { IsFit values.now.declarations (plain_expr expr.now) }
    ensures { result ≡ operands_agree values.now (plain_expr expr.now) }
{
    match expr {
        Expr::Two(_, left, right) => {
            let first: &Expr = left;
            let second: &Expr = right;
            for bit in 0..u64::MAX {
                if past_expr(first, bit, values).is_some() {
                    return true;
                }
                if eval_bit(first, bit, values) != eval_bit(second, bit, values) {
                    return false;
                }
            }
            true
        }
        Expr::Const(_) | Expr::Var(_) | Expr::Pick(_, _) | Expr::Part(_, _, _) => false,
        Expr::Cat(_) | Expr::Not(_) | Expr::Cond(_, _, _) => false,
    }
}

// A bit of the difference of the operands of an operation, which takes what the lower bits borrow.
#[cycle(value)]
fn difference_bit(expr: &Expr, bit: u64, values: &Values) -> bool
    requires whole { IsWhole values.now }
    requires fit { IsFit values.now.declarations (plain_expr expr.now) }
    requires within { bit < operands_width values.now (plain_expr expr.now) }
    ensures { result ≡ bit_at (operands_difference values.now (plain_expr expr.now)) bit }
{
    match expr {
        Expr::Two(_, left, right) => {
            let first: &Expr = left;
            let second: &Expr = right;
            let mut borrow = false;
            for place in 0..bit {
                let minuend = eval_bit(first, place, values);
                let subtrahend = eval_bit(second, place, values);
                if minuend != subtrahend {
                    borrow = subtrahend;
                }
            }
            eval_bit(first, bit, values) ^ eval_bit(second, bit, values) ^ borrow
        }
        Expr::Const(_) | Expr::Var(_) | Expr::Pick(_, _) | Expr::Part(_, _, _) => false,
        Expr::Cat(_) | Expr::Not(_) | Expr::Cond(_, _, _) => false,
    }
}
