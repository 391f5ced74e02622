//! What the registers of the loader take, as expressions.

ghost use Rattle.std.specs.Prelude.{◌≡◌, ◌≤◌, IfOk};
ghost use Rattle.fab_syntax.specs.Plain.{plain_expr, variable, conditional};
ghost use Rattle.fab_gen_loader.specs.Expressions.{number_at, equals, both, takes_in, ends, rows_left, by_state, next_state, next_count, next_address, next_strobe, next_row};

use crate::names::numbered;
use fab_base::{Memory, Name};
use fab_bits::digits;
use fab_syntax::{Expr, Op, Word};
use std::alloc::Global;

// The word that wakes the loader.
const WAKE_WORD: u32 = 0xFAB0_FAB1;

// The bit of an address that ends the loading.
const END_BIT: u32 = 20;

// ---- parts: an operand is boxed where it is made, since a box is let go by one call, and an expression form by form

// An expression as an operand of another one.
fn operand(alloc: Global, expr: Expr) -> Result<Box<Expr>, Memory>
    ensures { IfOk result (λ e. plain_expr e.value ≡ plain_expr expr) }
{
    Ok(Box::new(alloc, expr)?)
}

// All bits of a name.
fn named(alloc: Global, name: &[u8]) -> Result<Box<Expr>, Memory>
    ensures { IfOk result (λ e. plain_expr e.value ≡ variable name.now) }
{
    operand(alloc, Expr::Var(Name::of(alloc, name)?))
}

// A number at a width.
fn number_at(alloc: Global, width: u32, number: u32) -> Result<Box<Expr>, Memory>
    ensures { IfOk result (λ e. plain_expr e.value ≡ number_at width number) }
{
    let bits = digits(alloc, width, number)?;
    operand(alloc, Expr::Const(Word::from(bits)))
}

// Whether a name of this width has a number.
fn equals(alloc: Global, name: &[u8], width: u32, number: u32) -> Result<Box<Expr>, Memory>
    ensures { IfOk result (λ e. plain_expr e.value ≡ equals name.now width number) }
{
    let left = named(alloc, name)?;
    let right = number_at(alloc, width, number)?;
    operand(alloc, Expr::Two(Op::Equal, left, right))
}

fn both(first: Box<Expr>, second: Box<Expr>) -> Expr
    ensures { plain_expr result ≡ both (plain_expr first.value) (plain_expr second.value) }
{
    Expr::Two(Op::And, first, second)
}

// The second expression where the first is 1, else the third.
fn conditional(
    alloc: Global,
    test: Box<Expr>,
    yes: Box<Expr>,
    no: Box<Expr>,
) -> Result<Box<Expr>, Memory>
    ensures { IfOk result (λ e. plain_expr e.value ≡ conditional (plain_expr test.value) (plain_expr yes.value) (plain_expr no.value)) }
{
    operand(alloc, Expr::Cond(test, yes, no))
}

// Whether a word comes in this state.
fn takes_in(alloc: Global, state: u32) -> Result<Box<Expr>, Memory>
    ensures { IfOk result (λ e. plain_expr e.value ≡ takes_in state) }
{
    let comes = named(alloc, b"WriteStrobe")?;
    let stands = equals(alloc, b"state", 2, state)?;
    operand(alloc, both(comes, stands))
}

// Whether the word is an address that ends the loading.
fn ends(alloc: Global) -> Result<Box<Expr>, Memory>
    ensures { IfOk result (λ e. plain_expr e.value ≡ ends) }
{
    let name = Name::of(alloc, b"WriteData")?;
    operand(alloc, Expr::Part(name, END_BIT, END_BIT))
}

// Whether so many rows are to come.
fn rows_left(alloc: Global, number: u32) -> Result<Box<Expr>, Memory>
    ensures { IfOk result (λ e. plain_expr e.value ≡ rows_left number) }
{
    equals(alloc, b"count", 5, number)
}

// What a register takes with a word in the state of addresses, in that of rows and while the loader waits, and what without
// a word.
fn by_state(
    alloc: Global,
    address: Box<Expr>,
    row: Box<Expr>,
    waiting: Box<Expr>,
    idle: Box<Expr>,
) -> Result<Expr, Memory>
    ensures { IfOk result (λ e. plain_expr e ≡ by_state (plain_expr address.value) (plain_expr row.value) (plain_expr waiting.value) (plain_expr idle.value)) }
{
    let other = conditional(alloc, equals(alloc, b"state", 2, 2)?, row, waiting)?;
    let taken = conditional(alloc, equals(alloc, b"state", 2, 1)?, address, other)?;
    Ok(Expr::Cond(named(alloc, b"WriteStrobe")?, taken, idle))
}

// ---- registers

/// What `state` takes.
pub fn next_state(alloc: Global) -> Result<Expr, Memory>
    ensures { IfOk result (λ e. plain_expr e ≡ next_state) }
{
    let (waits, takes) = (number_at(alloc, 2, 0)?, number_at(alloc, 2, 2)?);
    let address = conditional(alloc, ends(alloc)?, waits, takes)?;
    let (done, more) = (number_at(alloc, 2, 1)?, number_at(alloc, 2, 2)?);
    let row = conditional(alloc, rows_left(alloc, 1)?, done, more)?;
    let (wakes, sleeps) = (number_at(alloc, 2, 1)?, number_at(alloc, 2, 0)?);
    let is_wake = equals(alloc, b"WriteData", 32, WAKE_WORD)?;
    let waiting = conditional(alloc, is_wake, wakes, sleeps)?;
    by_state(alloc, address, row, waiting, named(alloc, b"state")?)
}

/// What `count` takes in a loader of so many rows.
pub fn next_count(alloc: Global, rows: u32) -> Result<Expr, Memory>
    ensures { IfOk result (λ e. plain_expr e ≡ next_count rows) }
{
    let (kept, all) = (named(alloc, b"count")?, number_at(alloc, 5, rows)?);
    let address = conditional(alloc, ends(alloc)?, kept, all)?;
    let (last, count) = (named(alloc, b"count")?, named(alloc, b"count")?);
    let less = operand(alloc, Expr::Two(Op::Minus, count, number_at(alloc, 5, 1)?))?;
    let row = conditional(alloc, rows_left(alloc, 1)?, last, less)?;
    let (waiting, idle) = (named(alloc, b"count")?, named(alloc, b"count")?);
    by_state(alloc, address, row, waiting, idle)
}

/// What `address` takes.
pub fn next_address(alloc: Global) -> Result<Expr, Memory>
    ensures { IfOk result (λ e. plain_expr e ≡ next_address) }
{
    let goes_on = operand(alloc, Expr::Not(ends(alloc)?))?;
    let takes = operand(alloc, both(takes_in(alloc, 1)?, goes_on))?;
    let word = named(alloc, b"WriteData")?;
    Ok(Expr::Cond(takes, word, named(alloc, b"address")?))
}

/// What `strobe` takes.
pub fn next_strobe(alloc: Global) -> Result<Expr, Memory>
    ensures { IfOk result (λ e. plain_expr e ≡ next_strobe) }
{
    let takes = takes_in(alloc, 2)?;
    Ok(both(takes, rows_left(alloc, 1)?))
}

/// What the register of a row takes in a loader of so many rows.
pub fn next_row(alloc: Global, rows: u32, row: u32) -> Result<Expr, Memory>
    requires { row ≤ rows }
    ensures { IfOk result (λ e. plain_expr e ≡ next_row rows row) }
{
    let takes = takes_in(alloc, 2)?;
    let turn = operand(alloc, both(takes, rows_left(alloc, rows - row)?))?;
    let word = named(alloc, b"WriteData")?;
    let kept = operand(alloc, Expr::Var(numbered(alloc, b"row", row)?))?;
    Ok(Expr::Cond(turn, word, kept))
}
