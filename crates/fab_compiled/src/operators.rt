//! Operators of bits that may be unknown. They test each bit by itself, and match on no pair: tests become arithmetic without a jump, so that a loop over
//! many bits takes some of them at once.

ghost use Rattle.std.specs.Prelude.{◌≡◌};
ghost use Rattle.fab_solutions_laws.specs.fab_ternary_laws_Operators.{inverse as inverse_of, both as both_of, either as either_of, differs as differs_of, agreed as agreed_of};
ghost use Rattle.fab_solutions_laws.specs.fab_ternary_laws_Shown.{through as through_of};
ghost use Rattle.fab_ternary.specs.Terns.{is_one, plain_tern};

use fab_ternary::Tern;

/// 1 for 0 and 0 for 1.
pub fn inverse(bit: Tern) -> Tern
    ensures { plain_tern result ≡ inverse_of (plain_tern bit) }
{
    if bit.is_open() {
        Tern::Open
    } else {
        Tern::known(!bit.is_yes())
    }
}

/// 0 where one is 0, and 1 where both are 1.
pub(crate) fn both(left: Tern, right: Tern) -> Tern
    ensures { plain_tern result ≡ both_of (plain_tern left) (plain_tern right) }
{
    if is_no(left) || is_no(right) {
        return Tern::No;
    }
    if left.is_yes() && right.is_yes() {
        Tern::Yes
    } else {
        Tern::Open
    }
}

/// 1 where one is 1, and 0 where both are 0.
pub(crate) fn either(left: Tern, right: Tern) -> Tern
    ensures { plain_tern result ≡ either_of (plain_tern left) (plain_tern right) }
{
    if left.is_yes() || right.is_yes() {
        return Tern::Yes;
    }
    if is_no(left) && is_no(right) {
        Tern::No
    } else {
        Tern::Open
    }
}

/// 1 where one is 1 and the other 0, and 0 where they are the same.
pub fn differs(left: Tern, right: Tern) -> Tern
    ensures { plain_tern result ≡ differs_of (plain_tern left) (plain_tern right) }
{
    if left.is_open() || right.is_open() {
        return Tern::Open;
    }
    Tern::known(left.is_yes() ^ right.is_yes())
}

/// What both are, where they are known and agree.
pub(crate) fn agreed(left: Tern, right: Tern) -> Tern
    ensures { plain_tern result ≡ agreed_of (plain_tern left) (plain_tern right) }
{
    if is_no(left) && is_no(right) {
        return Tern::No;
    }
    if left.is_yes() && right.is_yes() {
        Tern::Yes
    } else {
        Tern::Open
    }
}

// Whether a bit is 0.
fn is_no(bit: Tern) -> bool
    ensures { result ≡ is_one (inverse_of (plain_tern bit)) }
{
    match bit {
        Tern::No => true,
        Tern::Yes | Tern::Open => false,
    }
}

/// What a latch shows: its data where its gate is 1, what it holds where the gate is 0, and else what these agree on.
pub fn through(gate: Tern, given: Tern, kept: Tern) -> Tern
    ensures { plain_tern result ≡ through_of (plain_tern gate) (plain_tern given) (plain_tern kept) }
{
    match gate {
        Tern::Yes => given,
        Tern::No => kept,
        Tern::Open => agreed(given, kept),
    }
}
