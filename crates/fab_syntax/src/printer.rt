//! The printed spelling of a text.
//!
//! Each function appends to the one vector that grows, so that no part of the spelling is copied.

ghost use Rattle.std.specs.Prelude.{◌≡◌, ◌++◌, IfOk, OnOk, codes, decimal, map, true};
ghost use Rattle.fab_syntax.specs.Plain.{plain_expr, plain_exprs, plain_join, plain_item, plain_module, plain_text};
ghost use Rattle.fab_syntax.specs.Spelling.{constant_text, op_text, select_text, opening, closing, expr_text, exprs_text, shape_text, port_text, ports_text, join_text, joins_text, latch_head, clocked_head, update_text, item_text, items_text, module_text, text_bytes};

use crate::tree::{Expr, Item, Join, Module, Op, Port, Shape, Text};
use crate::word::Word;
use fab_base::{Memory, Name};
use itoa::Buffer;
use std::alloc::Global;

fn put(out: &mut Vec<u8>, text: &[u8]) -> Result<(), Memory>
    ensures { OnOk result (out.new.items ≡ out.old.items ++ text.now) }
{
    out.extend_from_slice(text)?;
    Ok(())
}

fn put_number(out: &mut Vec<u8>, number: u64) -> Result<(), Memory>
    ensures { OnOk result (out.new.items ≡ out.old.items ++ decimal number) }
{
    put(out, Buffer::new().format(number).as_bytes())
}

fn put_constant(out: &mut Vec<u8>, word: &Word) -> Result<(), Memory>
    ensures { OnOk result (out.new.items ≡ out.old.items ++ constant_text word.now) }
{
    let bits = word.bits();
    put_number(out, bits.len() as u64)?;
    put(out, b"'b")?;
    for bit in bits.iter().rev() {
        out.push(if *bit { b'1' } else { b'0' })?;
    }
    Ok(())
}

fn put_op(out: &mut Vec<u8>, op: Op) -> Result<(), Memory>
    ensures { OnOk result (out.new.items ≡ out.old.items ++ op_text op) }
{
    match op {
        Op::And => put(out, b" & "),
        Op::Or => put(out, b" | "),
        Op::Xor => put(out, b" ^ "),
        Op::Equal => put(out, b" == "),
        Op::Minus => put(out, b" - "),
    }
}

fn put_select(out: &mut Vec<u8>, high: u32, low: u32) -> Result<(), Memory>
    ensures { OnOk result (out.new.items ≡ out.old.items ++ select_text high low) }
{
    put_number(out, u64::from(high))?;
    if high == low {
        return Ok(());
    }
    put(out, b":")?;
    put_number(out, u64::from(low))
}

fn put_part(out: &mut Vec<u8>, name: &Name, high: u32, low: u32) -> Result<(), Memory>
    ensures { OnOk result (out.new.items ≡ out.old.items ++ (name.now ++ (codes "[" ++ (select_text high low ++ codes "]")))) }
{
    put(out, name.bytes())?;
    put(out, b"[")?;
    put_select(out, high, low)?;
    put(out, b"]")
}

fn put_opening(out: &mut Vec<u8>, operand: bool) -> Result<(), Memory>
    ensures { OnOk result (out.new.items ≡ out.old.items ++ opening operand) }
{
    if operand { put(out, b"(") } else { Ok(()) }
}

fn put_closing(out: &mut Vec<u8>, operand: bool) -> Result<(), Memory>
    ensures { OnOk result (out.new.items ≡ out.old.items ++ closing operand) }
{
    if operand { put(out, b")") } else { Ok(()) }
}

#[cycle(expr)]
#[tactic(auto, using(crate::proofs::Plain::plain_concatenation))]
fn put_expr(out: &mut Vec<u8>, expr: &Expr, operand: bool) -> Result<(), Memory>
    ensures { OnOk result (out.new.items ≡ out.old.items ++ expr_text operand (plain_expr expr.now)) }
{
    match expr {
        Expr::Const(word) => put_constant(out, word),
        Expr::Var(name) => put(out, name.bytes()),
        Expr::Pick(name, index) => {
            put(out, name.bytes())?;
            put(out, b"[")?;
            put_expr(out, index, false)?;
            put(out, b"]")
        }
        Expr::Part(name, high, low) => put_part(out, name, *high, *low),
        Expr::Cat(parts) => put_concatenation(out, parts),
        Expr::Not(inner) => {
            put_opening(out, operand)?;
            put(out, b"~")?;
            put_expr(out, inner, true)?;
            put_closing(out, operand)
        }
        Expr::Two(op, left, right) => {
            put_opening(out, operand)?;
            put_expr(out, left, true)?;
            put_op(out, *op)?;
            put_expr(out, right, true)?;
            put_closing(out, operand)
        }
        Expr::Cond(test, yes, no) => {
            put_opening(out, operand)?;
            put_expr(out, test, true)?;
            put(out, b" ? ")?;
            put_expr(out, yes, true)?;
            put(out, b" : ")?;
            put_expr(out, no, true)?;
            put_closing(out, operand)
        }
    }
}

#[cycle(expr)]
fn put_concatenation(out: &mut Vec<u8>, parts: &[Expr]) -> Result<(), Memory>
    ensures { OnOk result (out.new.items ≡ out.old.items ++ (codes "{" ++ (exprs_text true (plain_exprs (map plain_expr parts.now)) ++ codes "}"))) }
{
    put(out, b"{")?;
    for (i, part) in parts.iter().enumerate() {
        if i != 0 {
            put(out, b", ")?;
        }
        put_expr(out, part, false)?;
    }
    put(out, b"}")
}

fn put_shape(out: &mut Vec<u8>, shape: Shape) -> Result<(), Memory>
    ensures { OnOk result (out.new.items ≡ out.old.items ++ shape_text shape) }
{
    match shape {
        Shape::Scalar => Ok(()),
        Shape::Vector(width) => {
            put(out, b"[")?;
            put_number(out, u64::from(width.saturating_sub(1)))?;
            put(out, b":0] ")
        }
    }
}

fn put_port(out: &mut Vec<u8>, port: &Port) -> Result<(), Memory>
    ensures { OnOk result (out.new.items ≡ out.old.items ++ port_text port.now) }
{
    if port.input {
        put(out, b"input ")?;
    } else {
        put(out, b"output ")?;
    }
    put_shape(out, port.shape)?;
    put(out, port.name.bytes())
}

fn put_ports(out: &mut Vec<u8>, ports: &[Port]) -> Result<(), Memory>
    ensures { OnOk result (out.new.items ≡ out.old.items ++ ports_text ports.now) }
{
    for (i, port) in ports.iter().enumerate() {
        put(out, b"  ")?;
        put_port(out, port)?;
        if i + 1 == ports.len() {
            put(out, b"\n")?;
        } else {
            put(out, b",\n")?;
        }
    }
    Ok(())
}

fn put_join(out: &mut Vec<u8>, join: &Join) -> Result<(), Memory>
    ensures { OnOk result (out.new.items ≡ out.old.items ++ join_text (plain_join join.now)) }
{
    put(out, b".")?;
    put(out, join.port.bytes())?;
    put(out, b"(")?;
    if let Some(expr) = &join.to {
        put_expr(out, expr, false)?;
    }
    put(out, b")")
}

fn put_joins(out: &mut Vec<u8>, joins: &[Join]) -> Result<(), Memory>
    ensures { OnOk result (out.new.items ≡ out.old.items ++ joins_text true (map plain_join joins.now)) }
{
    for (i, join) in joins.iter().enumerate() {
        if i != 0 {
            put(out, b", ")?;
        }
        put_join(out, join)?;
    }
    Ok(())
}

// The two heads have functions of their own, since a long literal is written out in each goal after it.
#[tactic(auto, unfolding(crate::specs::Spelling::latch_head))]
fn put_latch_head(out: &mut Vec<u8>) -> Result<(), Memory>
    ensures { OnOk result (out.new.items ≡ out.old.items ++ latch_head) }
{
    put(out, b"always @* if (")
}

#[tactic(auto, unfolding(crate::specs::Spelling::clocked_head))]
fn put_clocked_head(out: &mut Vec<u8>) -> Result<(), Memory>
    ensures { OnOk result (out.new.items ≡ out.old.items ++ clocked_head) }
{
    put(out, b"always @(posedge ")
}

fn put_update(out: &mut Vec<u8>, target: &Name, arrow: &[u8], value: &Expr) -> Result<(), Memory>
    ensures { OnOk result (out.new.items ≡ out.old.items ++ update_text target.now arrow.now (plain_expr value.now)) }
{
    put(out, target.bytes())?;
    put(out, arrow)?;
    put_expr(out, value, false)?;
    put(out, b";")
}

fn put_declaration(out: &mut Vec<u8>, word: &[u8], shape: Shape, name: &Name) -> Result<(), Memory>
    ensures { OnOk result (out.new.items ≡ out.old.items ++ (word.now ++ (shape_text shape ++ (name.now ++ codes ";")))) }
{
    put(out, word)?;
    put_shape(out, shape)?;
    put(out, name.bytes())?;
    put(out, b";")
}

fn put_instance(out: &mut Vec<u8>, of: &Name, name: &Name, joins: &[Join]) -> Result<(), Memory>
    ensures { OnOk result (out.new.items ≡ out.old.items ++ (of.now ++ (codes " " ++ (name.now ++ (codes " (" ++ (joins_text true (map plain_join joins.now) ++ codes ");")))))) }
{
    put(out, of.bytes())?;
    put(out, b" ")?;
    put(out, name.bytes())?;
    put(out, b" (")?;
    put_joins(out, joins)?;
    put(out, b");")
}

fn put_item(out: &mut Vec<u8>, item: &Item) -> Result<(), Memory>
    ensures { OnOk result (out.new.items ≡ out.old.items ++ item_text (plain_item item.now)) }
{
    match item {
        Item::Wire(shape, name) => put_declaration(out, b"wire ", *shape, name),
        Item::Reg(shape, name) => put_declaration(out, b"reg ", *shape, name),
        Item::Assign(target, value) => {
            put(out, b"assign ")?;
            put_update(out, target, b" = ", value)
        }
        Item::Latch(target, gate, data) => {
            put_latch_head(out)?;
            put_expr(out, gate, false)?;
            put(out, b") ")?;
            put_update(out, target, b" = ", data)
        }
        Item::Clocked(clock, target, data) => {
            put_clocked_head(out)?;
            put(out, clock.bytes())?;
            put(out, b") ")?;
            put_update(out, target, b" <= ", data)
        }
        Item::Instance(of, name, joins) => put_instance(out, of, name, joins),
    }
}

fn put_items(out: &mut Vec<u8>, items: &[Item]) -> Result<(), Memory>
    ensures { OnOk result (out.new.items ≡ out.old.items ++ items_text (map plain_item items.now)) }
{
    for item in items {
        put(out, b"  ")?;
        put_item(out, item)?;
        put(out, b"\n")?;
    }
    Ok(())
}

fn put_module(out: &mut Vec<u8>, unit: &Module) -> Result<(), Memory>
    ensures { OnOk result (out.new.items ≡ out.old.items ++ module_text (plain_module unit.now)) }
{
    put(out, b"module ")?;
    put(out, unit.name.bytes())?;
    put(out, b" (\n")?;
    put_ports(out, &unit.ports)?;
    put(out, b");\n")?;
    put_items(out, &unit.items)?;
    put(out, b"endmodule\n")
}

/// The printed spelling of a text, linear in its length.
pub fn print(alloc: Global, text: &Text) -> Result<Vec<u8>, Memory>
    ensures { IfOk result (λ bytes. bytes.items ≡ text_bytes (plain_text text.now)) }
{
    let mut out = Vec::new(alloc);
    for module in &text.modules {
        put_module(&mut out, module)?;
    }
    Ok(out)
}
