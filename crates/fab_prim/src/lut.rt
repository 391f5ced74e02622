//! The module of a look-up table.

ghost use Rattle.std.specs.Prelude.{◌≡◌, ◌++◌, [], ◌∷◌, codes, map, IfOk, OnOk};
ghost use Rattle.fab_syntax.specs.declared.tree.Shape.TheVariants.{Scalar, Vector};
ghost use Rattle.fab_syntax.specs.Plain.{plain_expr, plain_item, part, wire, reg, assign};
ghost use Rattle.fab_kinds.specs.declared.kind.Kind.TheVariants as kinds;
ghost use Rattle.fab_meaning.specs.Ports.{config_name};
ghost use Rattle.fab_prim.specs.Modules.{config_bit, flip_flop_name, one_of, lut_items, lut_value, lut_next, both, lut_carry};

use crate::build::{config_bit, named, one_of, operand, push_assign, push_flip_flop, variable};
use crate::ports::module_ports;
use crate::prim::Prim;
use fab_base::{Memory, Name};
use fab_kinds::Kind;
use fab_syntax::{Expr, Item, Module, Op, Shape};
use std::alloc::Global;

/// The primitive of a look-up table.
#[derive(Clone, Copy, Debug)]
pub struct Lut4c;

impl Prim for Lut4c {
    ghost kind_of = { λ lut. kinds.Lut4c };

    fn kind(&self) -> Kind {
        Kind::Lut4c
    }

    fn module(&self, alloc: Global) -> Result<Module, Memory> {
        let name = Name::of(alloc, b"LUT4c_frame_config")?;
        let ports = module_ports(alloc, Kind::Lut4c)?;
        let items = items(alloc)?;
        Ok(Module { name, ports, items })
    }

    fn works(&self) {}
}

// The items, in the order in which they print.
fn items(alloc: Global) -> Result<Vec<Item>, Memory>
    ensures { IfOk result (λ items. map plain_item items.items ≡ lut_items) }
{
    let mut items = Vec::new(alloc);
    push_nets(alloc, &mut items)?;
    push_assign(alloc, &mut items, b"init", table(alloc)?)?;
    push_assign(alloc, &mut items, b"x", lowest(alloc)?)?;
    push_assign(alloc, &mut items, b"t", value(alloc)?)?;
    push_flip_flop(alloc, &mut items, next(alloc)?)?;
    push_outputs(alloc, &mut items)?;
    Ok(items)
}

// Adds the wires and the register.
fn push_nets(alloc: Global, items: &mut Vec<Item>) -> Result<(), Memory>
    ensures { OnOk result (map plain_item items.new.items ≡ map plain_item items.old.items
        ++ wire (Vector 16) (codes "init") ∷ wire Scalar (codes "x") ∷ wire Scalar (codes "t") ∷ reg Scalar flip_flop_name ∷ []) }
{
    items.push(Item::Wire(Shape::Vector(16), Name::of(alloc, b"init")?))?;
    items.push(Item::Wire(Shape::Scalar, Name::of(alloc, b"x")?))?;
    items.push(Item::Wire(Shape::Scalar, Name::of(alloc, b"t")?))?;
    items.push(Item::Reg(Shape::Scalar, Name::of(alloc, b"q")?))?;
    Ok(())
}

// Adds the output pins.
fn push_outputs(alloc: Global, items: &mut Vec<Item>) -> Result<(), Memory>
    ensures { OnOk result (map plain_item items.new.items ≡ map plain_item items.old.items
        ++ assign (codes "O") (one_of (config_bit 16) flip_flop_name (codes "t")) ∷ assign (codes "Co") lut_carry ∷ []) }
{
    let output = one_of(alloc, config_bit(alloc, 16)?, b"q", b"t")?;
    push_assign(alloc, items, b"O", output)?;
    push_assign(alloc, items, b"Co", carry(alloc)?)
}

// The bits of the table.
fn table(alloc: Global) -> Result<Expr, Memory>
    ensures { IfOk result (λ e. plain_expr e ≡ part config_name 15 0) }
{
    let name = Name::of(alloc, b"ConfigBits")?;
    Ok(Expr::Part(name, 15, 0))
}

// The lowest bit of the index.
fn lowest(alloc: Global) -> Result<Expr, Memory>
    ensures { IfOk result (λ e. plain_expr e ≡ one_of (config_bit 17) (codes "Ci") (codes "I0")) }
{
    one_of(alloc, config_bit(alloc, 17)?, b"Ci", b"I0")
}

// The bit of the table at the index.
#[tactic(auto, using(fab_syntax::proofs::Plain::plain_concatenation))]
fn value(alloc: Global) -> Result<Expr, Memory>
    ensures { IfOk result (λ e. plain_expr e ≡ lut_value) }
{
    let mut index = Vec::new(alloc);
    index.push(variable(alloc, b"I3")?)?;
    index.push(variable(alloc, b"I2")?)?;
    index.push(variable(alloc, b"I1")?)?;
    index.push(variable(alloc, b"x")?)?;
    let name = Name::of(alloc, b"init")?;
    Ok(Expr::Pick(name, operand(alloc, Expr::Cat(index))?))
}

// What the flip-flop takes: a reset goes before the table, and without EN it keeps its value.
fn next(alloc: Global) -> Result<Expr, Memory>
    ensures { IfOk result (λ e. plain_expr e ≡ lut_next) }
{
    let enable = named(alloc, b"EN")?;
    let reset = named(alloc, b"SR")?;
    let level = operand(alloc, config_bit(alloc, 18)?)?;
    let taken = operand(alloc, Expr::Cond(reset, level, named(alloc, b"t")?))?;
    Ok(Expr::Cond(enable, taken, named(alloc, b"q")?))
}

// Whether both names are 1.
fn both(alloc: Global, first: &[u8], second: &[u8]) -> Result<Expr, Memory>
    ensures { IfOk result (λ e. plain_expr e ≡ both first.now second.now) }
{
    let first = named(alloc, first)?;
    Ok(Expr::Two(Op::And, first, named(alloc, second)?))
}

// Whether at least two of Ci, I1 and I2 are 1.
fn carry(alloc: Global) -> Result<Expr, Memory>
    ensures { IfOk result (λ e. plain_expr e ≡ lut_carry) }
{
    let with_first = operand(alloc, both(alloc, b"Ci", b"I1")?)?;
    let with_second = operand(alloc, both(alloc, b"Ci", b"I2")?)?;
    let with_carry = operand(alloc, Expr::Two(Op::Or, with_first, with_second))?;
    let without = operand(alloc, both(alloc, b"I1", b"I2")?)?;
    Ok(Expr::Two(Op::Or, with_carry, without))
}
