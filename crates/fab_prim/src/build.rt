//! Expressions and items by the bytes of their names.

ghost use Rattle.std.specs.Prelude.{◌≡◌, ◌++◌, [], ◌∷◌, map, IfOk, OnOk};
ghost use Rattle.fab_syntax.specs.Plain.{plain_expr, plain_item, variable, conditional, operation, assign};
ghost use Rattle.fab_prim.specs.Modules.{config_bit, one_of, flip_flop};

use fab_base::{Memory, Name};
use fab_syntax::{Expr, Item, Op};
use std::alloc::Global;

/// All bits of a name.
pub fn variable(alloc: Global, name: &[u8]) -> Result<Expr, Memory>
    ensures { IfOk result (λ e. plain_expr e ≡ variable name.now) }
{
    Ok(Expr::Var(Name::of(alloc, name)?))
}

/// A configuration bit.
pub fn config_bit(alloc: Global, bit: u32) -> Result<Expr, Memory>
    ensures { IfOk result (λ e. plain_expr e ≡ config_bit bit) }
{
    let name = Name::of(alloc, b"ConfigBits")?;
    Ok(Expr::Part(name, bit, bit))
}

/// An expression as an operand of another one. Operands are boxed where they are made: a box is let go by one call, an
/// expression form by form.
pub fn operand(alloc: Global, expr: Expr) -> Result<Box<Expr>, Memory>
    ensures { IfOk result (λ e. plain_expr e.value ≡ plain_expr expr) }
{
    Ok(Box::new(alloc, expr)?)
}

/// All bits of a name, as an operand.
pub fn named(alloc: Global, name: &[u8]) -> Result<Box<Expr>, Memory>
    ensures { IfOk result (λ e. plain_expr e.value ≡ variable name.now) }
{
    operand(alloc, variable(alloc, name)?)
}

// Two expressions as operands.
fn operands(alloc: Global, first: Expr, second: Expr) -> Result<(Box<Expr>, Box<Expr>), Memory>
    ensures first { IfOk result (λ pair. plain_expr pair.0.value ≡ plain_expr first) }
    ensures second { IfOk result (λ pair. plain_expr pair.1.value ≡ plain_expr second) }
{
    let first = operand(alloc, first)?;
    Ok((first, operand(alloc, second)?))
}

/// The second expression where the first is 1, else the third.
pub fn conditional(alloc: Global, test: Expr, yes: Expr, no: Expr) -> Result<Expr, Memory>
    ensures { IfOk result (λ e. plain_expr e ≡ conditional (plain_expr test) (plain_expr yes) (plain_expr no)) }
{
    let (test, yes) = operands(alloc, test, yes)?;
    Ok(Expr::Cond(test, yes, operand(alloc, no)?))
}

/// The first name where the test is 1, else the second.
pub fn one_of(alloc: Global, test: Expr, first: &[u8], second: &[u8]) -> Result<Expr, Memory>
    ensures { IfOk result (λ e. plain_expr e ≡ one_of (plain_expr test) first.now second.now) }
{
    let test = operand(alloc, test)?;
    let first = named(alloc, first)?;
    Ok(Expr::Cond(test, first, named(alloc, second)?))
}

/// An operator of two operands.
pub fn operation(alloc: Global, op: Op, left: Expr, right: Expr) -> Result<Expr, Memory>
    ensures { IfOk result (λ e. plain_expr e ≡ operation op (plain_expr left) (plain_expr right)) }
{
    let (left, right) = operands(alloc, left, right)?;
    Ok(Expr::Two(op, left, right))
}

/// Adds an assignment.
pub fn push_assign(
    alloc: Global,
    items: &mut Vec<Item>,
    target: &[u8],
    value: Expr,
) -> Result<(), Memory>
    ensures { OnOk result (map plain_item items.new.items ≡ map plain_item items.old.items ++ assign target.now (plain_expr value) ∷ []) }
{
    let target = Name::of(alloc, target)?;
    items.push(Item::Assign(target, value))?;
    Ok(())
}

/// Adds the flip-flop, which takes a value at each tick of UserCLK.
pub fn push_flip_flop(alloc: Global, items: &mut Vec<Item>, next: Expr) -> Result<(), Memory>
    ensures { OnOk result (map plain_item items.new.items ≡ map plain_item items.old.items ++ flip_flop (plain_expr next) ∷ []) }
{
    let clock = Name::of(alloc, b"UserCLK")?;
    let target = Name::of(alloc, b"q")?;
    items.push(Item::Clocked(clock, target, next))?;
    Ok(())
}
