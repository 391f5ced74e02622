//! The number of an index, where all its bits are known.

ghost use Rattle.std.specs.Prelude.{◌≡◌, ◌+◌, ◌*◌, ◌^◌, ◌<◌, ◌≤◌, Bool, length, IfSome};
ghost use Rattle.fab_bits.specs.Bits.{bit_number};
ghost use Rattle.fab_systems_laws.specs.Ternary.{known as known_tern};
ghost use Rattle.fab_solutions_laws.specs.fab_ternary_laws_Shown.{first_terns};
ghost use Rattle.fab_ternary.specs.Terns.{plain_tern};
ghost use Rattle.fab_compiled.specs.Terns.{seen, IsView};
ghost use Rattle.fab_compiled.specs.Trees.{IsMade};
ghost use Rattle.fab_compiled.specs.Evaluation.{value_seen, IsWithin};
ghost use Rattle.fab_compiled.specs.inner.Indices.{IsNumberBelow};

use crate::tree::Tree;
use crate::view::View;
use fab_ternary::Tern;

/// Numbers from this one on have no room for one more bit.
const NO_ROOM: u64 = 1 << 62;

/// The number of an index whose bits are those of names, one behind the other, with this number above its bits. It is found in one walk. `None` where
/// a bit is open, and where the index has another form.
pub(crate) fn known_index(tree: &Tree, above: u64, first: usize, view: &View) -> Option<u64>
    requires made { IsMade tree.now }
    requires view { IsView view.now.terns.now view.now.leads.now }
    requires few { length view.now.leads.now ≤ 2 ^ 32 }
    requires begins { first ≤ length view.now.leads.now }
    requires inside { IsWithin tree.now first (length view.now.leads.now) }
    ensures { IfSome result (IsNumberBelow (value_seen view.now.terns.now view.now.leads.now first tree.now) above) }
{
    match tree {
        Tree::Bits(place, count) => {
            known_points(first + *place as usize, *count as usize, above, view)
        }
        Tree::Cat(low, _, high) => {
            let upper = known_index(high, above, first, view)?;
            known_index(low, upper, first, view)
        }
        Tree::Const(_) | Tree::Pick(_, _, _) | Tree::Not(_) => None,
        Tree::And(_, _) | Tree::Or(_, _) | Tree::Xor(_, _) => None,
        Tree::Equal(_, _, _) | Tree::Minus(_, _, _) | Tree::Cond(_, _, _) => None,
    }
}

// The same of points that follow one another.
fn known_points(start: usize, count: usize, above: u64, view: &View) -> Option<u64>
    requires view { IsView view.now.terns.now view.now.leads.now }
    requires few { length view.now.leads.now ≤ 2 ^ 32 }
    requires within { start + count ≤ length view.now.leads.now }
    ensures { IfSome result (IsNumberBelow (first_terns count (λ k. seen view.now.terns.now view.now.leads.now (start + k))) above) }
{
    let mut number = above;
    let mut place = count;
    while place > 0 {
        place -= 1;
        number = with_bit(view.at(start + place), number)?;
    }
    Some(number)
}

// A number with one more bit below it, if the bit is known and there is room.
fn with_bit(bit: Tern, above: u64) -> Option<u64>
    ensures { IfSome result (λ number. (b : Bool) × (plain_tern bit ≡ known_tern b) × (number ≡ bit_number b + 2 * above)) }
{
    if above >= NO_ROOM {
        return None;
    }
    match bit {
        Tern::No => Some(2 * above),
        Tern::Yes => Some(2 * above + 1),
        Tern::Open => None,
    }
}
