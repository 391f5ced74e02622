//! The instances in a module, and what is joined to them.

ghost use Rattle.std.specs.Prelude.{◌≡◌, ◌++◌, ℕ, List, [], ◌∷◌, map, Option, OnOk, Some};
ghost use Rattle.std.specs.List.{flat_map};
ghost use Rattle.fab_syntax.specs.Plain.{PlainExpr, PlainItem, PlainJoin, PlainModule, instance, plain_expr, plain_join};
ghost use Rattle.fab_syntax.specs.Sound.{joined_expressions};
ghost use Rattle.fab_values.specs.Declarations.{declarations};
ghost use Rattle.fab_equations.specs.Instances.{expressions};
ghost use Rattle.fab_equations.specs.Children.{Child};
ghost use Rattle.fab_equations.specs.inner.Building.{listed, put_variable, AreJoinedSoFar, IsBefore, IsInside, IsInstance, IsItem, IsJoin, Spot};

use crate::before::Before;
use crate::driving::{Inside, add_expr, put};
use crate::tables::{ChildTable, LocalDriver};
use fab_base::{Memory, Name};
use fab_syntax::{Expr, Join};
use fab_values::{Names, Role};
use std::alloc::Global;

// One more instance in a module. In a sound text its module is found among those before.
pub fn add_child<'a>(
    alloc: Global,
    names: &Names,
    before: &Before,
    of: &Name,
    name: &Name,
    joins: &'a [Join],
    inside: &mut Inside,
    exprs: &mut Vec<&'a Expr>,
) -> Result<(), Memory>
    ensures exprs { OnOk result (listed exprs.new.items ≡ listed exprs.old.items ++ flat_map (λ join. joined_expressions join.to) (map plain_join joins.now)) }
    ensures inside { OnOk result ((spot : Spot) (so_far : List PlainItem) → names.now ≡ declarations spot.here → IsBefore spot.text spot.number before.now →
        IsItem spot so_far (instance of.now name.now (map plain_join joins.now)) (listed exprs.old.items) → IsInside spot so_far inside.old →
        IsInside spot (so_far ++ instance of.now name.now (map plain_join joins.now) ∷ []) inside.new) }
{
    let Some(below) = before.find(of.bytes()) else {
        return Err(Memory);
    };
    let Ok(number) = u32::try_from(inside.children.len()) else {
        return Err(Memory);
    };
    let mut inputs = Vec::from_elem(alloc, None, below.table.firsts.len())?;
    add_joins(
        names,
        &below.table.names,
        number,
        joins,
        &mut inside.drivers,
        &mut inputs,
        exprs,
    )?;
    let key = Vec::from_slice(alloc, name.bytes())?;
    inside.child_names.insert(key)?;
    let offset = inside.next_offset;
    inside.next_offset = offset.saturating_add(below.instances);
    inside.children.push(ChildTable {
        module: below.number,
        offset,
        inputs,
    })?;
    Ok(())
}

// What the joins of an instance drive, and what is joined to its inputs.
fn add_joins<'a>(
    names: &Names,
    below_names: &Names,
    number: u32,
    joins: &'a [Join],
    drivers: &mut Vec<LocalDriver>,
    inputs: &mut Vec<Option<u32>>,
    exprs: &mut Vec<&'a Expr>,
) -> Result<(), Memory>
    ensures exprs { OnOk result (listed exprs.new.items ≡ listed exprs.old.items ++ flat_map (λ join. joined_expressions join.to) (map plain_join joins.now)) }
    ensures joins { OnOk result ((spot : Spot) (items : List PlainItem) (child : Child) (below : PlainModule) (more : List PlainExpr) →
        names.now ≡ declarations spot.here → below_names.now ≡ declarations below → IsInstance spot number child below → child.joins ≡ map plain_join joins.now →
        listed exprs.old.items ++ (flat_map (λ join. joined_expressions join.to) child.joins ++ more) ≡ expressions spot.text →
        AreJoinedSoFar spot items child below [] drivers.old.items inputs.old.items →
        AreJoinedSoFar spot items child below child.joins drivers.new.items inputs.new.items) }
{
    for join in joins {
        add_join(names, below_names, number, join, drivers, inputs, exprs)?;
    }
    Ok(())
}

// What one more join of an instance drives, or what it joins to an input. In a sound text its port is declared.
fn add_join<'a>(
    names: &Names,
    below_names: &Names,
    number: u32,
    join: &'a Join,
    drivers: &mut Vec<LocalDriver>,
    inputs: &mut Vec<Option<u32>>,
    exprs: &mut Vec<&'a Expr>,
) -> Result<(), Memory>
    ensures exprs { OnOk result (listed exprs.new.items ≡ listed exprs.old.items ++ joined_expressions (plain_join join.now).to) }
    ensures joins { OnOk result ((spot : Spot) (items : List PlainItem) (child : Child) (below : PlainModule) (so_far : List PlainJoin) →
        names.now ≡ declarations spot.here → below_names.now ≡ declarations below → IsInstance spot number child below →
        IsJoin spot child so_far (plain_join join.now) (listed exprs.old.items) →
        AreJoinedSoFar spot items child below so_far drivers.old.items inputs.old.items →
        AreJoinedSoFar spot items child below (so_far ++ plain_join join.now ∷ []) drivers.new.items inputs.new.items) }
{
    let Some(expr) = &join.to else {
        return Ok(());
    };
    let added = add_expr(expr, exprs)?;
    let Some(port) = below_names.get(join.port.bytes()) else {
        return Ok(());
    };
    match port.role {
        Role::Input => put(inputs, below_names.number(join.port.bytes()), Some(added)),
        Role::Output | Role::Wire | Role::Reg => {
            put_target(
                drivers,
                names,
                expr,
                LocalDriver::Output(number, port.first),
            );
        }
    }
    Ok(())
}

// An expression that is a name is driven so.
fn put_target(drivers: &mut Vec<LocalDriver>, names: &Names, expr: &Expr, driver: LocalDriver)
    ensures { drivers.new.items ≡ put_variable drivers.old.items names.now (plain_expr expr.now) driver }
{
    if let Expr::Var(target) = expr {
        put(drivers, names.number(target.bytes()), driver);
    }
}
