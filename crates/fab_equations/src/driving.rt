//! What the items of a module drive.

ghost use Rattle.std.specs.Prelude.{◌≡◌, ◌++◌, ℕ, List, [], ◌∷◌, length, map, replicate, IfOk, OnOk, Some};
ghost use Rattle.std.specs.List.{flat_map};
ghost use Rattle.fab_syntax.specs.Plain.{PlainExpr, PlainItem, plain_expr, plain_item};
ghost use Rattle.fab_syntax.specs.Sound.{item_expressions};
ghost use Rattle.fab_values.specs.Declarations.{declarations, number_of};
ghost use Rattle.fab_equations.specs.Instances.{expressions};
ghost use Rattle.fab_equations.specs.inner.Building.{listed, put_at, IsBefore, IsInside, IsItem, Spot};
ghost use Rattle.fab_equations.specs.declared.tables.LocalDriver.TheVariants as drivers;

use crate::before::Before;
use crate::joining::add_child;
use crate::tables::{ChildTable, LocalDriver, Table};
use fab_base::{Memory, Name};
use fab_syntax::{Expr, Item};
use fab_values::Names;
use indexmap::IndexSet;
use std::alloc::Global;

/// What drives the names of a module and which instances stand in it, by the items so far.
#[derive(Drop)]
pub struct Inside {
    pub drivers: Vec<LocalDriver>,
    pub child_names: IndexSet<Vec<u8>>,
    pub children: Vec<ChildTable>,
    /// Where the next instance comes among those of the text; at most 2^64 - 1.
    pub next_offset: u64,
}

impl Inside {
    // Nothing drives the declared names, and no instance stands there.
    pub fn new(alloc: Global, declarations: usize) -> Result<Inside, Memory>
        ensures drivers { IfOk result (λ inside. inside.drivers.items ≡ replicate declarations drivers.Input) }
        ensures child_names { IfOk result (λ inside. inside.child_names.keys ≡ []) }
        ensures children { IfOk result (λ inside. inside.children.items ≡ []) }
        ensures offset { IfOk result (λ inside. inside.next_offset ≡ 1) }
    {
        Ok(Inside {
            drivers: Vec::from_elem(alloc, LocalDriver::Input, declarations)?,
            child_names: IndexSet::new(alloc),
            children: Vec::new(alloc),
            next_offset: 1,
        })
    }

    // The table, with the declared names.
    pub fn into_table(self, names: Names, firsts: Vec<u32>) -> Table
        ensures names { result.names ≡ names }
        ensures firsts { result.firsts ≡ firsts }
        ensures drivers { result.drivers ≡ self.drivers }
        ensures child_names { result.child_names ≡ self.child_names }
        ensures children { result.children ≡ self.children }
    {
        let Inside {
            drivers,
            child_names,
            children,
            next_offset: _,
        } = self;
        Table {
            names,
            firsts,
            drivers,
            child_names,
            children,
        }
    }
}

// What the items of a module drive, and the instances among them.
pub fn add_items<'a>(
    alloc: Global,
    names: &Names,
    before: &Before,
    items: &'a [Item],
    inside: &mut Inside,
    exprs: &mut Vec<&'a Expr>,
) -> Result<(), Memory>
    ensures exprs { OnOk result (listed exprs.new.items ≡ listed exprs.old.items ++ flat_map item_expressions (map plain_item items.now)) }
    ensures inside { OnOk result ((spot : Spot) (more : List PlainExpr) → names.now ≡ declarations spot.here → IsBefore spot.text spot.number before.now →
        spot.here.items ≡ map plain_item items.now → listed exprs.old.items ++ (flat_map item_expressions spot.here.items ++ more) ≡ expressions spot.text →
        IsInside spot [] inside.old → IsInside spot spot.here.items inside.new) }
{
    for item in items {
        add_item(alloc, names, before, item, inside, exprs)?;
    }
    Ok(())
}

// What one more item drives, and the instance that it is.
fn add_item<'a>(
    alloc: Global,
    names: &Names,
    before: &Before,
    item: &'a Item,
    inside: &mut Inside,
    exprs: &mut Vec<&'a Expr>,
) -> Result<(), Memory>
    ensures exprs { OnOk result (listed exprs.new.items ≡ listed exprs.old.items ++ item_expressions (plain_item item.now)) }
    ensures inside { OnOk result ((spot : Spot) (so_far : List PlainItem) → names.now ≡ declarations spot.here → IsBefore spot.text spot.number before.now →
        IsItem spot so_far (plain_item item.now) (listed exprs.old.items) → IsInside spot so_far inside.old →
        IsInside spot (so_far ++ plain_item item.now ∷ []) inside.new) }
{
    match item {
        Item::Wire(_, _) | Item::Reg(_, _) => Ok(()),
        Item::Assign(target, value) => {
            let driver = LocalDriver::Value(add_expr(value, exprs)?);
            put(&mut inside.drivers, names.number(target.bytes()), driver);
            Ok(())
        }
        Item::Latch(target, gate, value) => {
            let gate = add_expr(gate, exprs)?;
            let driver = LocalDriver::Hold(gate, add_expr(value, exprs)?);
            put(&mut inside.drivers, names.number(target.bytes()), driver);
            Ok(())
        }
        Item::Clocked(clock, target, value) => {
            let clock = clock_number(names, clock)?;
            let driver = LocalDriver::Flop(clock, add_expr(value, exprs)?);
            put(&mut inside.drivers, names.number(target.bytes()), driver);
            Ok(())
        }
        Item::Instance(of, name, joins) => add_child(
            alloc, names, before, of, name, joins, inside, exprs,
        ),
    }
}

// The number of a clock among the declarations. In a sound text it is declared.
fn clock_number(names: &Names, clock: &Name) -> Result<u32, Memory>
    ensures { IfOk result (λ number. number_of names.now clock.now ≡ Some number) }
{
    let Some(number) = names.number(clock.bytes()) else {
        return Err(Memory);
    };
    let Ok(number) = u32::try_from(number) else {
        return Err(Memory);
    };
    Ok(number)
}

// The number of an expression, which is added to those of the text.
pub fn add_expr<'a>(expr: &'a Expr, exprs: &mut Vec<&'a Expr>) -> Result<u32, Memory>
    ensures number { IfOk result (λ number. number ≡ length (listed exprs.old.items)) }
    ensures added { OnOk result (listed exprs.new.items ≡ listed exprs.old.items ++ plain_expr expr.now ∷ []) }
{
    let Ok(number) = u32::try_from(exprs.len()) else {
        return Err(Memory);
    };
    exprs.push(expr)?;
    Ok(number)
}

// Puts an item at a place, if there is one in the vector.
pub fn put<T: Copy>(items: &mut Vec<T>, place: Option<usize>, item: T)
    ensures { items.new.items ≡ put_at items.old.items place item }
{
    if let Some(place) = place {
        if place < items.len() {
            items[place] = item;
        }
    }
}
