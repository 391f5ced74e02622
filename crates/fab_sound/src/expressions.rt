//! Expressions without recursion: lists of all that is in an item or an expression.

ghost use Rattle.std.specs.Prelude.{◌≡◌, ◌++◌, map, IfOk, OnOk};
ghost use Rattle.std.specs.List.{flat_map};
ghost use Rattle.fab_syntax.specs.Plain.{plain_expr, plain_exprs, plain_item, plain_join};
ghost use Rattle.fab_syntax.specs.Sound.{subexpressions, parts_subexpressions, item_expressions, joined_expressions};
ghost use Rattle.fab_sound.specs.inner.Checks.{plain_all, waiting_parts, inner_parts};

use fab_base::Memory;
use fab_syntax::{Expr, Item, Join};
use std::alloc::Global;

/// The expressions of an item, in the order of the text.
pub fn expressions(alloc: Global, item: &Item) -> Result<Vec<&Expr>, Memory>
    ensures { IfOk result (λ found. plain_all found.items ≡ item_expressions (plain_item item.now)) }
{
    let mut found = Vec::new(alloc);
    match item {
        Item::Wire(_, _) => {}
        Item::Reg(_, _) => {}
        Item::Assign(_, value) => found.push(value)?,
        Item::Latch(_, gate, value) => {
            found.push(gate)?;
            found.push(value)?;
        }
        Item::Clocked(_, _, value) => found.push(value)?,
        Item::Instance(_, _, joins) => put_joined(&mut found, joins)?,
    }
    Ok(found)
}

fn put_joined<'a>(found: &mut Vec<&'a Expr>, joins: &'a [Join]) -> Result<(), Memory>
    ensures { OnOk result (plain_all found.new.items ≡ plain_all found.old.items ++ flat_map (λ join. joined_expressions join.to) (map plain_join joins.now)) }
{
    for join in joins {
        if let Some(value) = &join.to {
            found.push(value)?;
        }
    }
    Ok(())
}

/// An expression and all expressions in it, in the order of the text.
pub fn subexpressions(alloc: Global, whole: &Expr) -> Result<Vec<&Expr>, Memory>
    ensures { IfOk result (λ found. plain_all found.items ≡ subexpressions (plain_expr whole.now)) }
{
    let mut found = Vec::new(alloc);
    let mut waiting = Vec::new(alloc);
    waiting.push(whole)?;
    while let Some(next) = waiting.pop() {
        found.push(next)?;
        put_operands(&mut waiting, next)?;
    }
    Ok(found)
}

// The operands of an expression, the first on top.
#[tactic(auto, using(fab_syntax::proofs::Plain::plain_concatenation))]
fn put_operands<'a>(waiting: &mut Vec<&'a Expr>, whole: &'a Expr) -> Result<(), Memory>
    ensures { OnOk result (waiting_parts waiting.new.items ≡ inner_parts (plain_expr whole.now) ++ waiting_parts waiting.old.items) }
{
    match whole {
        Expr::Const(_) => {}
        Expr::Var(_) => {}
        Expr::Pick(_, index) => put_one(waiting, index)?,
        Expr::Part(_, _, _) => {}
        Expr::Cat(parts) => put_parts(waiting, parts)?,
        Expr::Not(operand) => put_one(waiting, operand)?,
        Expr::Two(_, left, right) => {
            put_one(waiting, right)?;
            put_one(waiting, left)?;
        }
        Expr::Cond(test, yes, no) => {
            put_one(waiting, no)?;
            put_one(waiting, yes)?;
            put_one(waiting, test)?;
        }
    }
    Ok(())
}

fn put_one<'a>(waiting: &mut Vec<&'a Expr>, one: &'a Expr) -> Result<(), Memory>
    ensures { OnOk result (waiting_parts waiting.new.items ≡ subexpressions (plain_expr one.now) ++ waiting_parts waiting.old.items) }
{
    waiting.push(one)?;
    Ok(())
}

fn put_parts<'a>(waiting: &mut Vec<&'a Expr>, parts: &'a [Expr]) -> Result<(), Memory>
    ensures { OnOk result (waiting_parts waiting.new.items ≡
        parts_subexpressions (plain_exprs (map plain_expr parts.now)) ++ waiting_parts waiting.old.items) }
{
    let mut left = parts.len();
    while left > 0 {
        left -= 1;
        put_one(waiting, &parts[left])?;
    }
    Ok(())
}
