//! The rules on selects and on widths. The list of an expression's parts is gone through from its end with the widths of those that
//! no operator has taken yet, that of the first part on top.

ghost use Rattle.std.specs.Prelude.{◌≡◌, ◌∷◌, ◌^◌, ◌<◌, true, false, nat_eq, length, take, drop, get_or, map, reverse, IfOk, OnOk};
ghost use Rattle.std.specs.List.{list_all, sum};
ghost use Rattle.fab_syntax.specs.Plain.{plain_expr, plain_item};
ghost use Rattle.fab_syntax.specs.Sound.{expression_width, item_expressions, SelectsFit, WidthsFit};
ghost use Rattle.fab_sound.specs.Narrow.{AreNarrow};
ghost use Rattle.fab_sound.specs.inner.Checks.{found, shape_declared, found_width, operands, result_width, width_over, vector_width, picks_each, holds_part, select_passes, operands_pass, all_selects_pass, all_operands_pass, sides_pass, expression_passes, own_sides_pass, item_passes, module_passes, narrow_over, all_narrow, item_narrow, module_narrow, library_text, IsLibrary};

use crate::expressions::{expressions, subexpressions};
use crate::tables::{Declared, Known, Library, shape_of, width_of};
use fab_base::{Memory, Name};
use fab_syntax::{Expr, Item, Op, Shape};
use indexmap::IndexMap;
use std::alloc::Global;

/// What is judged.
#[derive(Clone, Copy, Debug, PartialEq, Eq)]
pub enum Rule {
    Selects,
    Widths,
}

/// What is found of an expression.
#[derive(Clone, Copy, Debug, PartialEq, Eq)]
pub struct Measured {
    pub width: u64,
    /// Whether all selects in it fit.
    pub selects: bool,
    /// Whether the operands of all that is in it fit.
    pub operands: bool,
}

/// Whether all selects lie in vectors.
pub fn selects_fit(alloc: Global, library: &Library) -> Result<bool, Memory>
    requires { IsLibrary library.now }
    ensures fits { IfOk result (λ fits. fits ≡ true → SelectsFit (library_text library.now)) }
    ensures broken { IfOk result (λ fits. fits ≡ false → ¬ SelectsFit (library_text library.now)) }
{
    modules_fit(alloc, Rule::Selects, library)
}

/// Whether all widths agree.
pub fn widths_fit(alloc: Global, library: &Library) -> Result<bool, Memory>
    requires { IsLibrary library.now }
    ensures fits { IfOk result (λ fits. fits ≡ true → WidthsFit (library_text library.now)) }
    ensures broken { IfOk result (λ fits. fits ≡ false → ¬ WidthsFit (library_text library.now)) }
    ensures narrow { IfOk result (λ fits. fits ≡ true → AreNarrow (library_text library.now)) }
{
    modules_fit(alloc, Rule::Widths, library)
}

fn modules_fit(alloc: Global, rule: Rule, library: &Library) -> Result<bool, Memory>
    ensures passes { IfOk result (λ fits. fits ≡ list_all (module_passes rule) library.now.modules.items) }
    ensures narrow { IfOk result (λ fits. fits ≡ true → list_all module_narrow library.now.modules.items ≡ true) }
{
    for known in &library.modules {
        if !items_fit(alloc, rule, known)? {
            return Ok(false);
        }
    }
    Ok(true)
}

fn items_fit(alloc: Global, rule: Rule, known: &Known) -> Result<bool, Memory>
    ensures passes { IfOk result (λ fits. fits ≡ module_passes rule known.now) }
    ensures narrow { IfOk result (λ fits. fits ≡ true → module_narrow known.now ≡ true) }
{
    for item in &known.module.items {
        if !item_fits(alloc, rule, &known.names, item)? {
            return Ok(false);
        }
    }
    Ok(true)
}

fn item_fits(
    alloc: Global,
    rule: Rule,
    names: &IndexMap<&[u8], Declared>,
    item: &Item,
) -> Result<bool, Memory>
    ensures passes { IfOk result (λ fits. fits ≡ item_passes rule names.now (plain_item item.now)) }
    ensures narrow { IfOk result (λ fits. fits ≡ true → item_narrow names.now (plain_item item.now) ≡ true) }
{
    let values = expressions(alloc, item)?;
    for value in &values {
        if !expression_fits(alloc, rule, names, value)? {
            return Ok(false);
        }
    }
    match rule {
        Rule::Selects => Ok(true),
        Rule::Widths => sides_fit(alloc, names, item),
    }
}

fn expression_fits(
    alloc: Global,
    rule: Rule,
    names: &IndexMap<&[u8], Declared>,
    whole: &Expr,
) -> Result<bool, Memory>
    ensures passes { IfOk result (λ fits. fits ≡ expression_passes rule names.now (plain_expr whole.now)) }
    ensures narrow { OnOk result (all_narrow (found_width names.now) (plain_expr whole.now) ≡ true) }
{
    let found = measure(alloc, names, whole)?;
    match rule {
        Rule::Selects => Ok(found.selects),
        Rule::Widths => Ok(found.operands),
    }
}

// Whether the target of an item is as wide as its data, and a gate one bit wide.
fn sides_fit(alloc: Global, names: &IndexMap<&[u8], Declared>, item: &Item) -> Result<bool, Memory>
    ensures { IfOk result (λ fits. fits ≡ sides_pass (found_width names.now) (plain_item item.now)) }
{
    match item {
        Item::Wire(_, _) => Ok(true),
        Item::Reg(_, _) => Ok(true),
        Item::Assign(target, value) => has_width(alloc, names, value, width_of(names, target)),
        Item::Latch(target, gate, value) => {
            if !has_width(alloc, names, gate, 1)? {
                return Ok(false);
            }
            has_width(alloc, names, value, width_of(names, target))
        }
        Item::Clocked(_, target, value) => has_width(alloc, names, value, width_of(names, target)),
        Item::Instance(_, _, _) => Ok(true),
    }
}

/// Whether an expression has this width.
pub fn has_width(
    alloc: Global,
    names: &IndexMap<&[u8], Declared>,
    whole: &Expr,
    width: u64,
) -> Result<bool, Memory>
    ensures { IfOk result (λ has. has ≡ nat_eq (expression_width (found_width names.now) (plain_expr whole.now)) width) }
{
    let found = measure(alloc, names, whole)?;
    Ok(found.width == width)
}

/// How wide an expression is, and whether what is in it fits.
pub fn measure(
    alloc: Global,
    names: &IndexMap<&[u8], Declared>,
    whole: &Expr,
) -> Result<Measured, Memory>
    ensures width { IfOk result (λ found. found.width ≡ expression_width (found_width names.now) (plain_expr whole.now)) }
    ensures selects { IfOk result (λ found. found.selects ≡ all_selects_pass names.now (plain_expr whole.now)) }
    ensures operands { IfOk result (λ found. found.operands ≡ all_operands_pass (found_width names.now) (plain_expr whole.now)) }
    ensures narrow { OnOk result (all_narrow (found_width names.now) (plain_expr whole.now) ≡ true) }
{
    match whole {
        Expr::Var(name) => Ok(measured_name(names, name)),
        _ => measure_parts(alloc, names, whole),
    }
}

// What is found of a name that stands alone, as most joins do.
fn measured_name(names: &IndexMap<&[u8], Declared>, name: &Name) -> Measured
    ensures found { result ≡ record { width = found_width names.now name.now; selects = true; operands = true } }
    ensures narrow { found_width names.now name.now < 2 ^ 64 }
{
    Measured {
        width: width_of(names, name),
        selects: true,
        operands: true,
    }
}

// What is found of an expression, by all that is in it.
fn measure_parts(
    alloc: Global,
    names: &IndexMap<&[u8], Declared>,
    whole: &Expr,
) -> Result<Measured, Memory>
    ensures width { IfOk result (λ found. found.width ≡ expression_width (found_width names.now) (plain_expr whole.now)) }
    ensures selects { IfOk result (λ found. found.selects ≡ all_selects_pass names.now (plain_expr whole.now)) }
    ensures operands { IfOk result (λ found. found.operands ≡ all_operands_pass (found_width names.now) (plain_expr whole.now)) }
    ensures narrow { OnOk result (all_narrow (found_width names.now) (plain_expr whole.now) ≡ true) }
{
    let mut parts = subexpressions(alloc, whole)?;
    let mut widths = Vec::new(alloc);
    let mut selects = true;
    let mut operands = true;
    while let Some(part) = parts.pop() {
        selects = select_fits(names, part, &widths) && selects;
        operands = operands_fit(part, &widths) && operands;
        take_operands(names, part, &mut widths)?;
    }
    Ok(Measured {
        width: width_at(&widths, 0),
        selects,
        operands,
    })
}

// The width at a place below the top; 0 where there is none.
fn width_at(widths: &[u64], below: usize) -> u64
    ensures { result ≡ get_or (reverse widths.now) below 0 }
{
    if below < widths.len() {
        widths[widths.len() - 1 - below]
    } else {
        0
    }
}

fn select_fits(names: &IndexMap<&[u8], Declared>, part: &Expr, widths: &[u64]) -> bool
    ensures { result ≡ select_passes names.now (plain_expr part.now) (reverse widths.now) }
{
    match part {
        Expr::Const(_) => true,
        Expr::Var(_) => true,
        Expr::Pick(name, _) => pick_fits(width_of_vector(names, name), width_at(widths, 0)),
        Expr::Part(name, high, low) => has_part(width_of_vector(names, name), *high, *low),
        Expr::Cat(_) => true,
        Expr::Not(_) => true,
        Expr::Two(_, _, _) => true,
        Expr::Cond(_, _, _) => true,
    }
}

fn width_of_vector(names: &IndexMap<&[u8], Declared>, name: &Name) -> Option<u32>
    ensures { result ≡ vector_width (shape_declared (found names.now name.now)) }
{
    match shape_of(names, name) {
        Some(Shape::Vector(width)) => Some(width),
        Some(Shape::Scalar) => None,
        None => None,
    }
}

fn pick_fits(vector: Option<u32>, index: u64) -> bool
    ensures { result ≡ picks_each vector index }
{
    match vector {
        Some(width) => picks_all(width, index),
        None => false,
    }
}

// Whether an index of this width has as many values as a vector has bits.
fn picks_all(width: u32, index: u64) -> bool
    ensures { result ≡ nat_eq (2 ^ index) width }
{
    index < 32 && 1u64 << index == width as u64
}

fn has_part(vector: Option<u32>, high: u32, low: u32) -> bool
    ensures { result ≡ holds_part vector high low }
{
    match vector {
        Some(width) => low <= high && high < width,
        None => false,
    }
}

fn operands_fit(part: &Expr, widths: &[u64]) -> bool
    ensures { result ≡ operands_pass (plain_expr part.now) (reverse widths.now) }
{
    match part {
        Expr::Const(_) => true,
        Expr::Var(_) => true,
        Expr::Pick(_, _) => true,
        Expr::Part(_, _, _) => true,
        Expr::Cat(_) => true,
        Expr::Not(_) => true,
        Expr::Two(_, _, _) => width_at(widths, 0) == width_at(widths, 1),
        Expr::Cond(_, _, _) => {
            width_at(widths, 0) == 1 && width_at(widths, 1) == width_at(widths, 2)
        }
    }
}

// An expression takes the widths of its operands, and gives its own.
fn take_operands(
    names: &IndexMap<&[u8], Declared>,
    part: &Expr,
    widths: &mut Vec<u64>,
) -> Result<(), Memory>
    ensures pushed { OnOk result (reverse widths.new.items ≡ width_over (found_width names.now) (plain_expr part.now) (reverse widths.old.items)
        ∷ drop (length (operands (plain_expr part.now))) (reverse widths.old.items)) }
    ensures narrow { OnOk result (narrow_over (found_width names.now) (plain_expr part.now) (reverse widths.old.items) ≡ true) }
{
    let own = own_width(names, part, widths)?;
    widths.truncate(widths.len().saturating_sub(operand_count(part)));
    widths.push(own)?;
    Ok(())
}

#[tactic(auto, using(fab_syntax::proofs::Plain::plain_concatenation))]
fn operand_count(part: &Expr) -> usize
    ensures { result ≡ length (operands (plain_expr part.now)) }
{
    match part {
        Expr::Const(_) => 0,
        Expr::Var(_) => 0,
        Expr::Pick(_, _) => 1,
        Expr::Part(_, _, _) => 0,
        Expr::Cat(parts) => parts.len(),
        Expr::Not(_) => 1,
        Expr::Two(_, _, _) => 2,
        Expr::Cond(_, _, _) => 3,
    }
}

#[tactic(auto, using(fab_syntax::proofs::Plain::plain_concatenation))]
fn own_width(names: &IndexMap<&[u8], Declared>, part: &Expr, widths: &[u64]) -> Result<u64, Memory>
    ensures { IfOk result (λ own. own ≡ width_over (found_width names.now) (plain_expr part.now) (reverse widths.now)) }
{
    match part {
        Expr::Const(bits) => Ok(bits.bits().len() as u64),
        Expr::Var(name) => Ok(width_of(names, name)),
        Expr::Pick(_, _) => Ok(1),
        Expr::Part(_, high, low) => Ok((*high as u64 + 1).saturating_sub(*low as u64)),
        Expr::Cat(parts) => sum_of_first(widths, parts.len()),
        Expr::Not(_) => Ok(width_at(widths, 0)),
        Expr::Two(op, _, _) => Ok(width_of_result(*op, width_at(widths, 0))),
        Expr::Cond(_, _, _) => Ok(width_at(widths, 1)),
    }
}

fn width_of_result(op: Op, left: u64) -> u64
    ensures { result ≡ result_width op left }
{
    match op {
        Op::Equal => 1,
        Op::And => left,
        Op::Or => left,
        Op::Xor => left,
        Op::Minus => left,
    }
}

// The sum of so many widths from the top.
fn sum_of_first(widths: &[u64], count: usize) -> Result<u64, Memory>
    ensures { IfOk result (λ total. total ≡ sum (take count (reverse widths.now))) }
{
    let mut total = 0u64;
    for below in 0..count {
        let Some(more) = total.checked_add(width_at(widths, below)) else {
            return Err(Memory);
        };
        total = more;
    }
    Ok(total)
}
