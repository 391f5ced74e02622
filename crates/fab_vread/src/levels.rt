//! The brackets of an expression that are open.

ghost use Rattle.std.specs.Prelude.{◌≡◌, ◌<◌, ◌+◌, ◌++◌, ◌∷◌, [], length, nat_lt, OnOk, MatchOption};
ghost use Rattle.std.specs.Option.{option_to_list};
ghost use Rattle.fab_syntax.specs.Plain.{plain_expr, constant};
ghost use Rattle.fab_vread.specs.inner.Expressions.{plain_wanted, plain_bracket, plain_level, plain_passed_wanted, plain_passed_bracket, plain_passed, kept_before, kept_bracket, kept_level};

use fab_base::{Memory, Name};
use fab_syntax::{Expr, Op, Word};
use std::alloc::Global;

/// The greatest number of brackets that are open in one expression.
pub(crate) const MAX_DEPTH: usize = 300;

/// What stands before an operand that is to come.
#[derive(Drop)]
pub(crate) enum Wanted {
    Nothing,
    Complement,
    Left(Op, Expr),
    Test(Expr),
    Choice(Expr, Expr),
}

/// A bracket that is open.
#[derive(Drop)]
pub(crate) enum Bracket {
    Parenthesis,
    /// A concatenation and its parts so far.
    Brace(Vec<Expr>),
    /// The select of a name.
    Index(Name),
}

/// A bracket that is open, and what stands before it.
#[derive(Drop)]
pub(crate) struct Level {
    pub before: Wanted,
    pub bracket: Bracket,
}

/// What stands before a bracket that is too deep to be kept.
#[derive(Clone, Copy, Drop)]
pub(crate) enum PassedWanted {
    Nothing,
    Complement,
    Left(Op),
    Test,
    Choice,
}

/// The kind of a bracket that is too deep to be kept.
#[derive(Clone, Copy, Drop)]
pub(crate) enum PassedBracket {
    Parenthesis,
    Brace,
    Index,
}

/// A bracket that is too deep to be kept: what says which tokens may follow, and no expression.
#[derive(Clone, Copy, Drop)]
pub(crate) struct Passed {
    pub before: PassedWanted,
    pub bracket: PassedBracket,
}

/// The brackets that are open.
#[derive(Drop)]
pub(crate) struct Levels {
    /// The outermost ones, at most as many as may be open.
    kept: Vec<Level>,
    /// Those inside as many as may be open. The text is refused, so that nothing of their expressions is kept: a text of
    /// brackets alone would else take many times its own memory.
    passed: Vec<Passed>,
    ghost full: { length kept.items < 300 → length passed.items ≡ 0 },
}

/// What stands in the place of an expression that is not kept, or not there yet.
pub(crate) fn no_expression(alloc: Global) -> Expr
    ensures { plain_expr result ≡ constant [] }
{
    Expr::Const(Word::from(Vec::new(alloc)))
}

fn passed_wanted(before: &Wanted) -> PassedWanted
    ensures { plain_passed_wanted result ≡ kept_before 300 (plain_wanted before.now) }
{
    match before {
        Wanted::Nothing => PassedWanted::Nothing,
        Wanted::Complement => PassedWanted::Complement,
        Wanted::Left(op, _) => PassedWanted::Left(*op),
        Wanted::Test(_) => PassedWanted::Test,
        Wanted::Choice(_, _) => PassedWanted::Choice,
    }
}

fn passed_bracket(bracket: &Bracket) -> PassedBracket
    ensures { plain_passed_bracket result ≡ kept_bracket 300 (plain_bracket bracket.now) }
{
    match bracket {
        Bracket::Parenthesis => PassedBracket::Parenthesis,
        Bracket::Brace(_) => PassedBracket::Brace,
        Bracket::Index(_) => PassedBracket::Index,
    }
}

/// What is kept of a bracket that is too deep.
fn passed_level(level: Level) -> Passed
    ensures { plain_passed result ≡ kept_level 300 (plain_wanted level.before) (plain_bracket level.bracket) }
{
    Passed {
        before: passed_wanted(&level.before),
        bracket: passed_bracket(&level.bracket),
    }
}

fn restored_wanted(alloc: Global, before: PassedWanted) -> Wanted
    ensures { plain_wanted result ≡ plain_passed_wanted before }
{
    match before {
        PassedWanted::Nothing => Wanted::Nothing,
        PassedWanted::Complement => Wanted::Complement,
        PassedWanted::Left(op) => Wanted::Left(op, no_expression(alloc)),
        PassedWanted::Test => Wanted::Test(no_expression(alloc)),
        PassedWanted::Choice => Wanted::Choice(no_expression(alloc), no_expression(alloc)),
    }
}

fn restored_bracket(alloc: Global, bracket: PassedBracket) -> Bracket
    ensures { plain_bracket result ≡ plain_passed_bracket bracket }
{
    match bracket {
        PassedBracket::Parenthesis => Bracket::Parenthesis,
        PassedBracket::Brace => Bracket::Brace(Vec::new(alloc)),
        PassedBracket::Index => Bracket::Index(Name::from(Vec::new(alloc))),
    }
}

fn restored_level(alloc: Global, passed: Passed) -> Level
    ensures { plain_level result ≡ plain_passed passed }
{
    Level {
        before: restored_wanted(alloc, passed.before),
        bracket: restored_bracket(alloc, passed.bracket),
    }
}

fn pop_kept(kept: &mut Vec<Level>) -> Option<Level>
    ensures items { kept.old.items ≡ kept.new.items ++ option_to_list result }
    ensures lengths { MatchOption result (length kept.old.items ≡ 0 × length kept.new.items ≡ 0) (λ _. length kept.new.items + 1 ≡ length kept.old.items) }
{
    kept.pop()
}

impl Levels {
    ghost use Rattle.fab_vread.specs.inner.OpenLevels.{levels_of};

    /// No bracket is open.
    #[tactic(auto, unfolding(crate::specs::inner::Expressions::plain_levels))]
    pub(crate) fn new(alloc: Global) -> Levels
        ensures { levels_of result ≡ [] }
    {
        Levels {
            kept: Vec::new(alloc),
            passed: Vec::new(alloc),
        }
    }

    #[tactic(auto, unfolding(crate::specs::inner::Expressions::plain_levels))]
    pub(crate) fn clear(&mut self)
        ensures { levels_of self.new ≡ [] }
    {
        self.kept.clear();
        self.passed.clear();
    }

    /// Whether one more bracket may be open.
    #[tactic(auto, using(crate::proofs::Innermost::room_told))]
    pub(crate) fn has_room(&self) -> bool
        ensures { result ≡ nat_lt (length (levels_of self.now)) 300 }
    {
        self.kept.len() < MAX_DEPTH
    }

    /// Opens a bracket.
    #[tactic(auto, using(crate::proofs::Innermost::kept_pushed, crate::proofs::Innermost::passed_pushed))]
    pub(crate) fn push(&mut self, level: Level) -> Result<(), Memory>
        ensures { OnOk result (levels_of self.new ≡ kept_level (length (levels_of self.old)) (plain_wanted level.before) (plain_bracket level.bracket) ∷ levels_of self.old) }
    {
        if self.kept.len() < MAX_DEPTH {
            self.kept.push(level)?;
        } else {
            self.passed.push(passed_level(level))?;
        }
        Ok(())
    }

    /// Closes the innermost bracket.
    #[tactic(auto, using(crate::proofs::Innermost::passed_popped))]
    pub(crate) fn pop(&mut self, alloc: Global) -> Option<Level>
        ensures { MatchOption result (levels_of self.old ≡ [] × levels_of self.new ≡ []) (λ level. levels_of self.old ≡ plain_level level ∷ levels_of self.new) }
    {
        match self.passed.pop() {
            Some(passed) => Some(restored_level(alloc, passed)),
            None => pop_kept(&mut self.kept),
        }
    }
}
