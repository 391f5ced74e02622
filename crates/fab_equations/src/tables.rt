//! What the modules of a text declare and drive, once for all instances of a module.

ghost use Rattle.std.specs.Prelude.{◌≡◌, ◌++◌, map, take, IfOk, OnOk};
ghost use Rattle.std.specs.List.{flat_map};
ghost use Rattle.fab_syntax.specs.Plain.{plain_expr, plain_module, plain_text};
ghost use Rattle.fab_syntax.specs.Sound.{IsSound, item_expressions};
ghost use Rattle.fab_values.specs.Declarations.{declarations};
ghost use Rattle.fab_equations.specs.Instances.{expressions};
ghost use Rattle.fab_equations.specs.Children.{modules_before};
ghost use Rattle.fab_equations.specs.Tables.{AreTables, IsTable};
ghost use Rattle.fab_equations.specs.inner.Building.{listed, DeclaresOnce, IsBefore, Spot};

use crate::before::Before;
use crate::declaring::{Declared, declared_names};
use crate::driving::{Inside, add_items};
use fab_base::Memory;
use fab_syntax::{Expr, Module, Text};
use fab_values::Names;
use indexmap::IndexSet;
use std::alloc::Global;

/// What drives a declared name within its module. Expressions are given by their numbers in the text.
#[derive(Clone, Copy, Debug)]
pub enum LocalDriver {
    /// Nothing in the module: an input.
    Input,
    /// The expression of an assignment.
    Value(u32),
    /// A flip-flop: the number of its clock among the declarations, and its next value.
    Flop(u32, u32),
    /// A latch: its gate and its data.
    Hold(u32, u32),
    /// An output port of an instance in the module: the number of the instance there, and the place of the port's first bit.
    Output(u32, u32),
}

/// An instance in a module.
#[derive(Drop)]
pub struct ChildTable {
    /// The number of its module.
    pub module: u32,
    /// How far behind the instance in which it stands it comes among the instances of the text; at most 2^64 - 1.
    pub offset: u64,
    /// For each declaration of its module the expression that is joined to it, where it is an input.
    pub inputs: Vec<Option<u32>>,
}

/// What a module declares, what drives it there, and the instances in it.
#[derive(Drop)]
pub struct Table {
    /// The declared names: ports, and then wires and registers in the order of the items.
    pub names: Names,
    /// Where the bits of each declaration begin.
    pub firsts: Vec<u32>,
    /// What drives each declaration.
    pub drivers: Vec<LocalDriver>,
    /// The names of the instances, in their order.
    pub child_names: IndexSet<Vec<u8>>,
    /// The instances, in their order.
    pub children: Vec<ChildTable>,
}

/// The tables of the modules of a text, and its expressions.
#[derive(Drop)]
pub struct Tables<'a> {
    pub tables: Vec<Table>,
    pub exprs: Vec<&'a Expr>,
}

/// The tables of the modules of a sound text, and its expressions, in the order of the text. Want of memory is also the
/// answer where a number of an expression, a module, a declaration or an instance is too great for 32 bits.
pub fn tables_of<'a>(alloc: Global, text: &'a Text) -> Result<Tables<'a>, Memory>
    requires { IsSound (plain_text text.now) }
    ensures exprs { IfOk result (λ made. map (λ e. plain_expr e.now) made.exprs.items ≡ expressions (plain_text text.now)) }
    ensures tables { IfOk result (λ made. AreTables (plain_text text.now) made.tables.items) }
{
    let mut before = Before::new(alloc);
    let mut exprs = Vec::new(alloc);
    for definition in &text.modules {
        let table = table_of(alloc, definition, &before, &mut exprs)?;
        before.add(alloc, definition, table)?;
    }
    Ok(Tables {
        tables: before.into_tables(),
        exprs,
    })
}

// The table of a module, from those of the modules before it.
fn table_of<'a>(
    alloc: Global,
    definition: &'a Module,
    before: &Before,
    exprs: &mut Vec<&'a Expr>,
) -> Result<Table, Memory>
    requires { DeclaresOnce (declarations (plain_module definition.now)) }
    ensures exprs { OnOk result (listed exprs.new.items ≡ listed exprs.old.items ++ flat_map item_expressions (plain_module definition.now).items) }
    ensures table { IfOk result (λ table. (spot : Spot) → spot.here ≡ plain_module definition.now → IsBefore spot.text spot.number before.now →
        listed exprs.old.items ≡ expressions (take spot.number spot.text) → IsTable spot.text (modules_before spot.text spot.number) spot.here table) }
{
    let Declared { names, firsts } = declared_names(alloc, definition)?;
    let mut inside = Inside::new(alloc, firsts.len())?;
    add_items(alloc, &names, before, &definition.items, &mut inside, exprs)?;
    Ok(inside.into_table(names, firsts))
}
