//! The module of the serial port.

ghost use Rattle.std.specs.Prelude.{◌≡◌, ◌++◌, [], ◌∷◌, true, false, map, IfOk, OnOk};
ghost use Rattle.fab_syntax.specs.declared.tree.Shape.TheVariants as shapes;
ghost use Rattle.fab_syntax.specs.Plain.{plain_expr, plain_item, plain_module, variable, reg, assign, clocked};
ghost use Rattle.fab_meaning.specs.Runs.{clock_name};
ghost use Rattle.fab_serial.specs.Module.{serial_module, count_of, moved_word, next_word, next_count, next_full, port_of};

use fab_base::{Memory, Name};
use fab_bits::digits;
use fab_prim::{conditional, operation, push_assign, variable};
use fab_syntax::{Expr, Item, Module, Op, Port, Shape, Word};
use std::alloc::Global;

/// The module of the serial port. With each tick of `CLK` at which `SerialStrobe` is 1 it takes the bit on `SerialData`. Behind 32
/// such ticks in a row `WriteStrobe` is 1 for one tick, and `WriteData` has the word, whose bit 31 came first. A tick with
/// `SerialStrobe` 0 begins a new word. The only error is want of memory.
pub fn serial_module(alloc: Global) -> Result<Module, Memory>
    ensures { IfOk result (λ m. plain_module m ≡ serial_module) }
{
    let name = Name::of(alloc, b"SerialPort")?;
    let mut ports = Vec::new(alloc);
    push_port(alloc, &mut ports, true, Shape::Scalar, b"CLK")?;
    push_port(alloc, &mut ports, true, Shape::Scalar, b"SerialStrobe")?;
    push_port(alloc, &mut ports, true, Shape::Scalar, b"SerialData")?;
    push_port(alloc, &mut ports, false, Shape::Scalar, b"WriteStrobe")?;
    push_port(alloc, &mut ports, false, Shape::Vector(32), b"WriteData")?;
    let items = serial_items(alloc)?;
    Ok(Module { name, ports, items })
}

/// Adds a port.
pub(crate) fn push_port(
    alloc: Global,
    ports: &mut Vec<Port>,
    input: bool,
    shape: Shape,
    name: &[u8],
) -> Result<(), Memory>
    ensures { OnOk result (ports.new.items ≡ ports.old.items ++ port_of input shape name.now ∷ []) }
{
    let name = Name::of(alloc, name)?;
    ports.push(Port { input, shape, name })?;
    Ok(())
}

// The registers, what they take, and the outputs.
fn serial_items(alloc: Global) -> Result<Vec<Item>, Memory>
    ensures { IfOk result (λ items. map plain_item items.items ≡ serial_module.items) }
{
    let mut items = Vec::new(alloc);
    push_register(alloc, &mut items, Shape::Vector(32), b"word")?;
    push_register(alloc, &mut items, Shape::Vector(5), b"count")?;
    push_register(alloc, &mut items, Shape::Scalar, b"full")?;
    push_process(alloc, &mut items, b"word", next_word(alloc)?)?;
    push_process(alloc, &mut items, b"count", next_count(alloc)?)?;
    push_process(alloc, &mut items, b"full", next_full(alloc)?)?;
    push_assign(alloc, &mut items, b"WriteStrobe", variable(alloc, b"full")?)?;
    push_assign(alloc, &mut items, b"WriteData", variable(alloc, b"word")?)?;
    Ok(items)
}

fn push_register(
    alloc: Global,
    items: &mut Vec<Item>,
    shape: Shape,
    name: &[u8],
) -> Result<(), Memory>
    ensures { OnOk result (map plain_item items.new.items ≡ map plain_item items.old.items ++ reg shape name.now ∷ []) }
{
    let name = Name::of(alloc, name)?;
    items.push(Item::Reg(shape, name))?;
    Ok(())
}

// Adds what a register takes at each tick of CLK.
fn push_process(
    alloc: Global,
    items: &mut Vec<Item>,
    target: &[u8],
    next: Expr,
) -> Result<(), Memory>
    ensures { OnOk result (map plain_item items.new.items ≡ map plain_item items.old.items ++ clocked clock_name target.now (plain_expr next) ∷ []) }
{
    let clock = Name::of(alloc, b"CLK")?;
    let target = Name::of(alloc, target)?;
    items.push(Item::Clocked(clock, target, next))?;
    Ok(())
}

// ---- expressions

// A number of 5 bits.
fn count_of(alloc: Global, number: u32) -> Result<Expr, Memory>
    ensures { IfOk result (λ e. plain_expr e ≡ count_of number) }
{
    Ok(Expr::Const(Word::from(digits(alloc, 5, number)?)))
}

// The word, moved up by the bit that comes.
#[tactic(auto, using(fab_syntax::proofs::Plain::plain_concatenation))]
fn moved_word(alloc: Global) -> Result<Expr, Memory>
    ensures { IfOk result (λ e. plain_expr e ≡ moved_word) }
{
    let mut parts = Vec::new(alloc);
    parts.push(Expr::Part(Name::of(alloc, b"word")?, 30, 0))?;
    parts.push(variable(alloc, b"SerialData")?)?;
    Ok(Expr::Cat(parts))
}

fn next_word(alloc: Global) -> Result<Expr, Memory>
    ensures { IfOk result (λ e. plain_expr e ≡ next_word) }
{
    let comes = variable(alloc, b"SerialStrobe")?;
    let moved = moved_word(alloc)?;
    conditional(alloc, comes, moved, variable(alloc, b"word")?)
}

fn next_count(alloc: Global) -> Result<Expr, Memory>
    ensures { IfOk result (λ e. plain_expr e ≡ next_count) }
{
    let comes = variable(alloc, b"SerialStrobe")?;
    let count = variable(alloc, b"count")?;
    let less = operation(alloc, Op::Minus, count, count_of(alloc, 1)?)?;
    conditional(alloc, comes, less, count_of(alloc, 0)?)
}

fn next_full(alloc: Global) -> Result<Expr, Memory>
    ensures { IfOk result (λ e. plain_expr e ≡ next_full) }
{
    let comes = variable(alloc, b"SerialStrobe")?;
    let count = variable(alloc, b"count")?;
    let last = operation(alloc, Op::Equal, count, count_of(alloc, 1)?)?;
    operation(alloc, Op::And, comes, last)
}
