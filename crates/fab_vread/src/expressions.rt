//! Expressions, read token by token. Brackets that are open stand in a list, so that no text is too deep for the reader.

ghost use Rattle.std.specs.Prelude.{◌≡◌, List, Ok, Err, map, length, IfOk};
ghost use Rattle.fab_base.specs.Reading.{Answers};
ghost use Rattle.fab_syntax.specs.Plain.{plain_expr, pick};
ghost use Rattle.fab_vread.specs.inner.OpenLevels.{levels_of};
ghost use Rattle.fab_vread.specs.inner.Expressions.{PlainLevel, parenthesis, index, brace, branch, plain_wanted, plain_read, plain_bracket, plain_level, plain_reading, plain_outcome, stepped, shown, refused, opened, completed, after_operand, with_depth, with_bits, wanting_mark, after_wanting, kept, close_brace, close_by, close, after_whole, after_single, is_this_mark, after_behind, after_name, after_select, after_high, after_colon, after_low, taken};

use crate::levels::{Bracket, Level, Levels, Wanted, no_expression};
use fab_base::{Memory, Name, Problem, Quantity, Reason};
use fab_syntax::Expr;
use fab_tokens::Token;
use std::alloc::Global;

/// The greatest number of bits of a constant.
pub(crate) const MAX_BITS: usize = 128;

/// A quantity above its bound, which is reported unless the line holds something worse.
#[derive(Clone, Copy, Debug, Drop)]
pub(crate) enum Over {
    /// Brackets in one another.
    Depth,
    /// The bits of a constant.
    Bits(u64),
}

/// What has been read after an operand.
#[derive(Drop)]
pub(crate) enum Read {
    /// One operand.
    Operand(Expr),
    /// A test and the first of two branches.
    Branch(Expr, Expr),
    /// An expression to which nothing can be added.
    Whole(Expr),
}

/// How far an expression has been read inside its innermost bracket.
#[derive(Drop)]
pub(crate) enum Reading {
    /// An operand is to come.
    Wanting(Wanted),
    /// A name, which may have a select.
    Named(Wanted, Name),
    /// A name and `[`.
    Select(Wanted, Name),
    /// A name, `[` and a number.
    High(Wanted, Name, u32),
    /// A name, `[`, a number and `:`.
    Colon(Wanted, Name, u32),
    /// A name, `[` and two numbers.
    Low(Wanted, Name, u32, u32),
    /// An operand has been read.
    After(Read),
}

/// What a token does to an expression.
#[derive(Drop)]
pub(crate) enum Outcome {
    More(Reading),
    /// The expression ended before this token.
    End(Expr, Token),
}

pub(crate) fn refused<T>() -> Result<T, Problem>
    ensures { result ≡ refused }
{
    Err(Problem::Malformed(Reason::Token))
}

/// Gives a problem, and lets go of what has been read. Apart from its callers: where a value is moved on one way and dropped on
/// another, each form that it may have is a case of their proofs.
fn fail<T: Drop>(_read: T, problem: Problem) -> Result<Outcome, Problem>
    ensures { result ≡ Err problem }
{
    Err(problem)
}

/// Refuses the token, and lets go of what has been read.
fn refuse<T: Drop>(read: T) -> Result<Outcome, Problem>
    ensures { result ≡ refused }
{
    fail(read, Problem::Malformed(Reason::Token))
}

fn complete(alloc: Global, before: Wanted, operand: Expr) -> Result<Read, Memory>
    ensures { IfOk result (λ read. plain_read read ≡ completed (plain_wanted before) (plain_expr operand)) }
{
    match before {
        Wanted::Nothing => Ok(Read::Operand(operand)),
        Wanted::Complement => Ok(Read::Whole(Expr::Not(Box::new(alloc, operand)?))),
        Wanted::Left(op, left) => {
            let left = Box::new(alloc, left)?;
            Ok(Read::Whole(Expr::Two(op, left, Box::new(alloc, operand)?)))
        }
        Wanted::Test(test) => Ok(Read::Branch(test, operand)),
        Wanted::Choice(test, yes) => {
            let test = Box::new(alloc, test)?;
            let yes = Box::new(alloc, yes)?;
            Ok(Read::Whole(Expr::Cond(test, yes, Box::new(alloc, operand)?)))
        }
    }
}

fn after_operand(alloc: Global, before: Wanted, operand: Expr) -> Result<Outcome, Problem>
    ensures { Answers plain_outcome result (Ok (after_operand (plain_wanted before) (plain_expr operand))) }
{
    Ok(Outcome::More(Reading::After(complete(alloc, before, operand)?)))
}

fn with_depth(over: Option<Over>, levels: &Levels) -> Option<Over>
    ensures { result ≡ with_depth over (length (levels_of levels.now)) }
{
    if levels.has_room() {
        over
    } else {
        Some(Over::Depth)
    }
}

fn with_bits(over: Option<Over>, bits: usize) -> Option<Over>
    ensures { result ≡ with_bits over bits }
{
    match over {
        None if bits > MAX_BITS => Some(Over::Bits(bits as u64)),
        _ => over,
    }
}

fn open(
    levels: &mut Levels,
    over: &mut Option<Over>,
    before: Wanted,
    bracket: Bracket,
) -> Result<Outcome, Problem>
    ensures { Answers (λ outcome. stepped (levels_of levels.new) over.new (plain_outcome outcome)) result (Ok (opened (levels_of levels.old) over.old (plain_wanted before) (plain_bracket bracket))) }
{
    *over = with_depth(*over, levels);
    levels.push(Level { before, bracket })?;
    Ok(Outcome::More(Reading::Wanting(Wanted::Nothing)))
}

/// A mark where an operand is to come: a bracket that opens, or `~` where nothing stands before it.
fn take_wanting_mark(
    levels: &mut Levels,
    over: &mut Option<Over>,
    alloc: Global,
    before: Wanted,
    byte: u8,
) -> Result<Outcome, Problem>
    ensures { Answers (λ outcome. stepped (levels_of levels.new) over.new (plain_outcome outcome)) result (wanting_mark (levels_of levels.old) over.old (plain_wanted before) byte) }
{
    if byte == b'(' {
        return open(levels, over, before, Bracket::Parenthesis);
    }
    if byte == b'{' {
        return open(levels, over, before, Bracket::Brace(Vec::new(alloc)));
    }
    match before {
        Wanted::Nothing if byte == b'~' => Ok(Outcome::More(Reading::Wanting(Wanted::Complement))),
        _ => refused(),
    }
}

fn take_wanting(
    levels: &mut Levels,
    over: &mut Option<Over>,
    alloc: Global,
    before: Wanted,
    token: Token,
) -> Result<Outcome, Problem>
    ensures { Answers (λ outcome. stepped (levels_of levels.new) over.new (plain_outcome outcome)) result (after_wanting (levels_of levels.old) over.old (plain_wanted before) token) }
{
    match token {
        Token::Identifier(name) => Ok(Outcome::More(Reading::Named(before, name))),
        Token::Constant(word) => {
            *over = with_bits(*over, word.bits().len());
            after_operand(alloc, before, Expr::Const(word))
        }
        Token::Mark(byte) => take_wanting_mark(levels, over, alloc, before, byte),
        _ => refuse(before),
    }
}

/// An expression inside more brackets than the bound is not kept, so that no tree is too deep.
fn kept(alloc: Global, levels: &Levels, expr: Expr) -> Expr
    ensures { plain_expr result ≡ kept (length (levels_of levels.now)) (plain_expr expr) }
{
    if levels.has_room() {
        expr
    } else {
        no_expression(alloc)
    }
}

#[tactic(auto, using(fab_syntax::proofs::Plain::plain_concatenation))]
fn close_brace(
    levels: &mut Levels,
    alloc: Global,
    before: Wanted,
    parts: Vec<Expr>,
    byte: u8,
) -> Result<Outcome, Problem>
    ensures { Answers (λ outcome. shown (levels_of levels.new) (plain_outcome outcome)) result (close_brace (levels_of levels.old) (plain_wanted before) (map plain_expr parts.items) byte) }
{
    if byte == b',' {
        levels.push(Level {
            before,
            bracket: Bracket::Brace(parts),
        })?;
        return Ok(Outcome::More(Reading::Wanting(Wanted::Nothing)));
    }
    if byte == b'}' {
        return after_operand(alloc, before, Expr::Cat(parts));
    }
    refuse((before, parts))
}

fn close_parenthesis(
    alloc: Global,
    before: Wanted,
    expr: Expr,
    byte: u8,
) -> Result<Outcome, Problem>
    ensures { (levels : List PlainLevel) → Answers (λ outcome. shown levels (plain_outcome outcome)) result (close_by levels (plain_wanted before) parenthesis (plain_expr expr) byte) }
{
    if byte == b')' {
        return after_operand(alloc, before, expr);
    }
    refuse((before, expr))
}

fn pick(alloc: Global, name: Name, index: Expr) -> Result<Expr, Memory>
    ensures { IfOk result (λ operand. plain_expr operand ≡ pick name (plain_expr index)) }
{
    let index = Box::new(alloc, index)?;
    Ok(Expr::Pick(name, index))
}

fn close_index(
    alloc: Global,
    before: Wanted,
    name: Name,
    expr: Expr,
    byte: u8,
) -> Result<Outcome, Problem>
    ensures { (levels : List PlainLevel) → Answers (λ outcome. shown levels (plain_outcome outcome)) result (close_by levels (plain_wanted before) (index name) (plain_expr expr) byte) }
{
    if byte != b']' {
        return refuse((before, name, expr));
    }
    match pick(alloc, name, expr) {
        Ok(operand) => after_operand(alloc, before, operand),
        Err(memory) => fail(before, Problem::from(memory)),
    }
}

fn close_part(
    levels: &mut Levels,
    alloc: Global,
    before: Wanted,
    mut parts: Vec<Expr>,
    expr: Expr,
    byte: u8,
) -> Result<Outcome, Problem>
    ensures { Answers (λ outcome. shown (levels_of levels.new) (plain_outcome outcome)) result (close_by (levels_of levels.old) (plain_wanted before) (brace (map plain_expr parts.items)) (plain_expr expr) byte) }
{
    parts.push(expr)?;
    close_brace(levels, alloc, before, parts, byte)
}

fn close_by(
    levels: &mut Levels,
    alloc: Global,
    level: Level,
    expr: Expr,
    byte: u8,
) -> Result<Outcome, Problem>
    ensures { Answers (λ outcome. shown (levels_of levels.new) (plain_outcome outcome)) result (close_by (levels_of levels.old) (plain_wanted level.before) (plain_bracket level.bracket) (plain_expr expr) byte) }
{
    let Level { before, bracket } = level;
    match bracket {
        Bracket::Parenthesis => close_parenthesis(alloc, before, expr, byte),
        Bracket::Index(name) => close_index(alloc, before, name, expr, byte),
        Bracket::Brace(parts) => close_part(levels, alloc, before, parts, expr, byte),
    }
}

fn close(
    levels: &mut Levels,
    alloc: Global,
    level: Level,
    expr: Expr,
    token: &Token,
) -> Result<Outcome, Problem>
    ensures { Answers (λ outcome. shown (levels_of levels.new) (plain_outcome outcome)) result (close (levels_of levels.old) (plain_level level) (plain_expr expr) token.now) }
{
    match token {
        Token::Mark(byte) => {
            let expr = kept(alloc, levels, expr);
            close_by(levels, alloc, level, expr, *byte)
        }
        _ => refuse((level, expr)),
    }
}

/// A token behind an expression to which nothing can be added: it closes the innermost bracket or ends the expression.
fn take_whole(
    levels: &mut Levels,
    alloc: Global,
    expr: Expr,
    token: Token,
) -> Result<Outcome, Problem>
    ensures { Answers (λ outcome. shown (levels_of levels.new) (plain_outcome outcome)) result (after_whole (levels_of levels.old) (plain_expr expr) token) }
{
    match levels.pop(alloc) {
        None => Ok(Outcome::End(expr, token)),
        Some(level) => close(levels, alloc, level, expr, &token),
    }
}

fn take_single(
    levels: &mut Levels,
    alloc: Global,
    expr: Expr,
    token: Token,
) -> Result<Outcome, Problem>
    ensures { Answers (λ outcome. shown (levels_of levels.new) (plain_outcome outcome)) result (after_single (levels_of levels.old) (plain_expr expr) token) }
{
    match token {
        Token::Operator(op) => Ok(Outcome::More(Reading::Wanting(Wanted::Left(op, expr)))),
        Token::Mark(b'?') => Ok(Outcome::More(Reading::Wanting(Wanted::Test(expr)))),
        token => take_whole(levels, alloc, expr, token),
    }
}

pub(crate) fn is_mark(token: &Token, mark: u8) -> bool
    ensures { result ≡ is_this_mark mark token.now }
{
    match token {
        Token::Mark(byte) => *byte == mark,
        _ => false,
    }
}

fn take_branch(test: Expr, yes: Expr, token: Token) -> Result<Outcome, Problem>
    ensures { (levels : List PlainLevel) → Answers (λ outcome. shown levels (plain_outcome outcome)) result (after_behind levels (branch (plain_expr test) (plain_expr yes)) token) }
{
    if is_mark(&token, b':') {
        return Ok(Outcome::More(Reading::Wanting(Wanted::Choice(test, yes))));
    }
    refuse((test, yes))
}

fn take_read(
    levels: &mut Levels,
    alloc: Global,
    read: Read,
    token: Token,
) -> Result<Outcome, Problem>
    ensures { Answers (λ outcome. shown (levels_of levels.new) (plain_outcome outcome)) result (after_behind (levels_of levels.old) (plain_read read) token) }
{
    match read {
        Read::Operand(expr) => take_single(levels, alloc, expr, token),
        Read::Branch(test, yes) => take_branch(test, yes, token),
        Read::Whole(expr) => take_whole(levels, alloc, expr, token),
    }
}

fn take_named(
    levels: &mut Levels,
    over: &mut Option<Over>,
    alloc: Global,
    before: Wanted,
    name: Name,
    token: Token,
) -> Result<Outcome, Problem>
    ensures { Answers (λ outcome. stepped (levels_of levels.new) over.new (plain_outcome outcome)) result (after_name (levels_of levels.old) over.old (plain_wanted before) name token) }
{
    if is_mark(&token, b'[') {
        *over = with_depth(*over, levels);
        return Ok(Outcome::More(Reading::Select(before, name)));
    }
    let read = complete(alloc, before, Expr::Var(name))?;
    take_read(levels, alloc, read, token)
}

fn take_select(
    levels: &mut Levels,
    over: &mut Option<Over>,
    alloc: Global,
    before: Wanted,
    name: Name,
    token: Token,
) -> Result<Outcome, Problem>
    ensures { Answers (λ outcome. stepped (levels_of levels.new) over.new (plain_outcome outcome)) result (after_select (levels_of levels.old) over.old (plain_wanted before) name token) }
{
    match token {
        Token::Number(number) => Ok(Outcome::More(Reading::High(before, name, number))),
        token => {
            levels.push(Level {
                before,
                bracket: Bracket::Index(name),
            })?;
            take_wanting(levels, over, alloc, Wanted::Nothing, token)
        }
    }
}

fn take_high(
    alloc: Global,
    before: Wanted,
    name: Name,
    high: u32,
    token: &Token,
) -> Result<Outcome, Problem>
    ensures { Answers plain_outcome result (after_high (plain_wanted before) name high token.now) }
{
    match token {
        Token::Mark(b']') => after_operand(alloc, before, Expr::Part(name, high, high)),
        Token::Mark(b':') => Ok(Outcome::More(Reading::Colon(before, name, high))),
        _ => refuse((before, name)),
    }
}

fn take_colon(before: Wanted, name: Name, high: u32, token: &Token) -> Result<Outcome, Problem>
    ensures { Answers plain_outcome result (after_colon (plain_wanted before) name high token.now) }
{
    match token {
        Token::Number(low) => Ok(Outcome::More(Reading::Low(before, name, high, *low))),
        _ => refuse((before, name)),
    }
}

fn take_low(
    alloc: Global,
    before: Wanted,
    name: Name,
    high: u32,
    low: u32,
    token: &Token,
) -> Result<Outcome, Problem>
    ensures { Answers plain_outcome result (after_low (plain_wanted before) name high low token.now) }
{
    if is_mark(token, b']') {
        return after_operand(alloc, before, Expr::Part(name, high, low));
    }
    refuse((before, name))
}

/// Takes the next token of an expression, the brackets that are open, and what is above its bound so far.
#[tactic(auto, unfolding(crate::specs::inner::Expressions::taken))]
pub(crate) fn take(
    levels: &mut Levels,
    over: &mut Option<Over>,
    alloc: Global,
    reading: Reading,
    token: Token,
) -> Result<Outcome, Problem>
    ensures { Answers (λ outcome. stepped (levels_of levels.new) over.new (plain_outcome outcome)) result (taken (levels_of levels.old) over.old (plain_reading reading) token) }
{
    match reading {
        Reading::Wanting(before) => take_wanting(levels, over, alloc, before, token),
        Reading::Named(before, name) => take_named(levels, over, alloc, before, name, token),
        Reading::Select(before, name) => take_select(levels, over, alloc, before, name, token),
        Reading::High(before, name, high) => take_high(alloc, before, name, high, &token),
        Reading::Colon(before, name, high) => take_colon(before, name, high, &token),
        Reading::Low(before, name, high, low) => take_low(alloc, before, name, high, low, &token),
        Reading::After(read) => take_read(levels, alloc, read, token),
    }
}
