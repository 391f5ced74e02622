//! The module of the loader.

ghost use Rattle.std.specs.Prelude.{◌≡◌, ◌≤◌, ◌++◌, [], ◌∷◌, ℕ, true, false, map, IfOk, OnOk};
ghost use Rattle.fab_syntax.specs.declared.tree.Shape.TheVariants as shapes;
ghost use Rattle.fab_syntax.specs.Plain.{plain_expr, plain_item, plain_module, variable, reg, assign, clocked};
ghost use Rattle.fab_prim.specs.fab_meaning.specs.Runs.{clock_name};
ghost use Rattle.fab_model.specs.Tiles.{counted};
ghost use Rattle.fab_gen_loader.specs.Loader.{port, row_port, loader_ports, registers, processes, outputs, IsLoader, row_register_name};
ghost use Rattle.fab_gen_loader.specs.Expressions.{next_row, next_values, loader_module};
ghost use Rattle.fab_gen_loader.specs.Bounds.{IsSmall};

use crate::expressions::{next_address, next_count, next_row, next_state, next_strobe};
use crate::names::numbered;
use fab_base::{Memory, Name};
use fab_prim::{push_assign, variable};
use fab_syntax::{Expr, Item, Module, Port, Shape};
use std::alloc::Global;

/// The module of the loader of a fabric with so many rows of tiles. Each word of 32 bits that comes with `WriteStrobe` wakes
/// it, is an address, or is the frame data of a row; `Strobe` is 1 for one tick after the last row. The only error is want of
/// memory.
pub fn loader_module(alloc: Global, rows: u32) -> Result<Module, Memory>
    requires some { 1 ≤ rows }
    requires few { rows ≤ 31 }
    ensures module { IfOk result (λ m. plain_module m ≡ loader_module rows) }
    ensures loader { IfOk result (λ m. IsLoader rows (plain_module m)) }
    ensures small { IfOk result (λ m. IsSmall (plain_module m)) }
{
    let name = Name::of(alloc, b"ConfigLoader")?;
    let ports = loader_ports(alloc, rows)?;
    let items = loader_items(alloc, rows)?;
    Ok(Module { name, ports, items })
}

// ---- ports

fn loader_ports(alloc: Global, rows: u32) -> Result<Vec<Port>, Memory>
    ensures { IfOk result (λ ports. ports.items ≡ loader_ports rows) }
{
    let mut ports = Vec::new(alloc);
    push_port(alloc, &mut ports, true, Shape::Scalar, b"CLK")?;
    push_port(alloc, &mut ports, true, Shape::Scalar, b"WriteStrobe")?;
    push_port(alloc, &mut ports, true, Shape::Vector(32), b"WriteData")?;
    push_port(alloc, &mut ports, false, Shape::Vector(32), b"Address")?;
    push_port(alloc, &mut ports, false, Shape::Scalar, b"Strobe")?;
    push_row_ports(alloc, &mut ports, rows)?;
    Ok(ports)
}

// Adds a port.
fn push_port(
    alloc: Global,
    ports: &mut Vec<Port>,
    input: bool,
    shape: Shape,
    name: &[u8],
) -> Result<(), Memory>
    ensures { OnOk result (ports.new.items ≡ ports.old.items ++ port input shape name.now ∷ []) }
{
    let name = Name::of(alloc, name)?;
    ports.push(Port { input, shape, name })?;
    Ok(())
}

// Adds an output for each row.
fn push_row_ports(alloc: Global, ports: &mut Vec<Port>, rows: u32) -> Result<(), Memory>
    ensures { OnOk result (ports.new.items
        ≡ ports.old.items ++ counted rows (λ row. port false (shapes.Vector 32) (row_port row))) }
{
    for row in 0..rows {
        ports.push(Port {
            input: false,
            shape: Shape::Vector(32),
            name: numbered(alloc, b"Row", row)?,
        })?;
    }
    Ok(())
}

// ---- items

fn loader_items(alloc: Global, rows: u32) -> Result<Vec<Item>, Memory>
    ensures { IfOk result (λ items. map plain_item items.items
        ≡ registers rows ++ (processes rows (next_values rows) ++ outputs rows)) }
{
    let mut items = Vec::new(alloc);
    push_registers(alloc, &mut items, rows)?;
    push_processes(alloc, &mut items, rows)?;
    push_outputs(alloc, &mut items, rows)?;
    Ok(items)
}

// Adds the registers.
fn push_registers(alloc: Global, items: &mut Vec<Item>, rows: u32) -> Result<(), Memory>
    ensures { OnOk result (map plain_item items.new.items ≡ map plain_item items.old.items ++ registers rows) }
{
    push_register(alloc, items, Shape::Vector(2), b"state")?;
    push_register(alloc, items, Shape::Vector(5), b"count")?;
    push_register(alloc, items, Shape::Vector(32), b"address")?;
    push_register(alloc, items, Shape::Scalar, b"strobe")?;
    push_row_registers(alloc, items, rows)
}

fn push_register(
    alloc: Global,
    items: &mut Vec<Item>,
    shape: Shape,
    name: &[u8],
) -> Result<(), Memory>
    ensures { OnOk result (map plain_item items.new.items ≡ map plain_item items.old.items ++ reg shape name.now ∷ []) }
{
    let name = Name::of(alloc, name)?;
    items.push(Item::Reg(shape, name))?;
    Ok(())
}

// Adds a register for each row.
fn push_row_registers(alloc: Global, items: &mut Vec<Item>, rows: u32) -> Result<(), Memory>
    ensures { OnOk result (map plain_item items.new.items
        ≡ map plain_item items.old.items ++ counted rows (λ row. reg (shapes.Vector 32) (row_register_name row))) }
{
    for row in 0..rows {
        let name = numbered(alloc, b"row", row)?;
        items.push(Item::Reg(Shape::Vector(32), name))?;
    }
    Ok(())
}

// Adds the processes, in the order of the registers.
fn push_processes(alloc: Global, items: &mut Vec<Item>, rows: u32) -> Result<(), Memory>
    ensures { OnOk result (map plain_item items.new.items
        ≡ map plain_item items.old.items ++ processes rows (next_values rows)) }
{
    push_process(alloc, items, b"state", next_state(alloc)?)?;
    push_process(alloc, items, b"count", next_count(alloc, rows)?)?;
    push_process(alloc, items, b"address", next_address(alloc)?)?;
    push_process(alloc, items, b"strobe", next_strobe(alloc)?)?;
    push_row_processes(alloc, items, rows)
}

// Adds the process of a register, which takes a value at each tick of CLK.
fn push_process(
    alloc: Global,
    items: &mut Vec<Item>,
    register: &[u8],
    next: Expr,
) -> Result<(), Memory>
    ensures { OnOk result (map plain_item items.new.items
        ≡ map plain_item items.old.items ++ clocked clock_name register.now (plain_expr next) ∷ []) }
{
    let clock = Name::of(alloc, b"CLK")?;
    let target = Name::of(alloc, register)?;
    items.push(Item::Clocked(clock, target, next))?;
    Ok(())
}

// Adds the process of each row.
fn push_row_processes(alloc: Global, items: &mut Vec<Item>, rows: u32) -> Result<(), Memory>
    ensures { OnOk result (map plain_item items.new.items
        ≡ map plain_item items.old.items ++ counted rows (λ row. clocked clock_name (row_register_name row) (next_row rows row))) }
{
    for row in 0..rows {
        let register = numbered(alloc, b"row", row)?;
        push_process(alloc, items, register.bytes(), next_row(alloc, rows, row)?)?;
    }
    Ok(())
}

// Adds the outputs, in the order of their ports.
fn push_outputs(alloc: Global, items: &mut Vec<Item>, rows: u32) -> Result<(), Memory>
    ensures { OnOk result (map plain_item items.new.items ≡ map plain_item items.old.items ++ outputs rows) }
{
    push_assign(alloc, items, b"Address", variable(alloc, b"address")?)?;
    push_assign(alloc, items, b"Strobe", variable(alloc, b"strobe")?)?;
    push_row_outputs(alloc, items, rows)
}

// Adds the output of each row.
fn push_row_outputs(alloc: Global, items: &mut Vec<Item>, rows: u32) -> Result<(), Memory>
    ensures { OnOk result (map plain_item items.new.items
        ≡ map plain_item items.old.items ++ counted rows (λ row. assign (row_port row) (variable (row_register_name row)))) }
{
    for row in 0..rows {
        let name = numbered(alloc, b"Row", row)?;
        let shown = numbered(alloc, b"row", row)?;
        items.push(Item::Assign(name, Expr::Var(shown)))?;
    }
    Ok(())
}
