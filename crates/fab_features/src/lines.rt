//! What a line says, and the bits that it sets.

ghost use Rattle.std.specs.Prelude.{◌≡◌, ◌<◌, ◌≤◌, MatchOption};
ghost use Rattle.fab_fabric.specs.Bits.{AreBitsOf, plain_bits};
ghost use Rattle.fab_features.specs.Said.{said_of};
ghost use Rattle.fab_features.specs.Wrong.{IsFeature, said_width};
ghost use Rattle.fab_features.specs.inner.Matrices.{AreMatricesOf};
ghost use Rattle.fab_features.specs.inner.Adding.{Adds};
ghost use Rattle.fab_features.specs.inner.Lines.{IsLineOne};
ghost use Rattle.fab_features.specs.declared.said.Said.TheVariants as said;

use crate::design::{first_bit, set_choice};
use crate::matrices::{Matrix, tile_with};
use crate::ones::{Ones, set_ones};
use crate::said::{BelField, Choice, Said, said_of};
use fab_fabric::{Bits, Fabric};
use fab_fasm::Feature;

/// What a line says, if the fabric has the feature and all bits of its address.
pub fn known(fabric: &Fabric, matrices: &[Matrix], feature: &Feature) -> Option<Said>
    requires { AreMatricesOf fabric.now.types matrices.now }
    ensures { MatchOption result (IsFeature fabric.now feature.now → ⊥) (λ found. (said_of fabric.now feature.now.name ≡ Some found) × (feature.now.high < said_width found)) }
{
    let found = said_of(fabric, matrices, feature.name.bytes())?;
    if feature.high < found.width() {
        Some(found)
    } else {
        None
    }
}

// Sets the bits of a BEL that a line sets, whose address is the right way up.
fn set_ordered(
    fabric: &Fabric,
    bits: &mut Bits,
    matrices: &[Matrix],
    feature: &Feature,
    field: BelField,
)
    requires are { AreBitsOf fabric.now bits.old }
    requires matrices { AreMatricesOf fabric.now.types matrices.now }
    requires said { said_of fabric.now feature.now.name ≡ Some (said.OfBel field) }
    requires ordered { feature.now.low ≤ feature.now.high }
    requires inside { feature.now.high < field.width }
    ensures are { AreBitsOf fabric.now bits.new }
    ensures adds { Adds (plain_bits bits.old) (plain_bits bits.new) (IsLineOne fabric.now feature.now) }
{
    let Some((tile, _)) = tile_with(fabric, matrices, field.x, field.y) else {
        unreachable!()
    };
    let first = first_bit(tile, field.bel as usize) + field.first;
    let ones = Ones {
        x: field.x,
        y: field.y,
        low: first + feature.low,
        width: feature.high - feature.low + 1,
        value: feature.value,
    };
    set_ones(fabric, bits, ones);
}

/// Sets the bits of a BEL that a line sets. An address that is upside down has none.
pub fn set_field(
    fabric: &Fabric,
    bits: &mut Bits,
    matrices: &[Matrix],
    feature: &Feature,
    field: BelField,
)
    requires are { AreBitsOf fabric.now bits.old }
    requires matrices { AreMatricesOf fabric.now.types matrices.now }
    requires said { said_of fabric.now feature.now.name ≡ Some (said.OfBel field) }
    requires inside { feature.now.high < field.width }
    ensures are { AreBitsOf fabric.now bits.new }
    ensures adds { Adds (plain_bits bits.old) (plain_bits bits.new) (IsLineOne fabric.now feature.now) }
{
    if feature.low <= feature.high {
        set_ordered(fabric, bits, matrices, feature, field);
    }
}

/// Sets the select bits of an output for which a line chooses an input.
pub fn set_pair(
    fabric: &Fabric,
    bits: &mut Bits,
    matrices: &[Matrix],
    feature: &Feature,
    choice: Choice,
)
    requires are { AreBitsOf fabric.now bits.old }
    requires matrices { AreMatricesOf fabric.now.types matrices.now }
    requires said { said_of fabric.now feature.now.name ≡ Some (said.OfPair choice) }
    ensures are { AreBitsOf fabric.now bits.new }
    ensures adds { Adds (plain_bits bits.old) (plain_bits bits.new) (IsLineOne fabric.now feature.now) }
{
    if feature.value == 0 {
        return;
    }
    let Some((tile, matrix)) = tile_with(fabric, matrices, choice.x, choice.y) else {
        unreachable!()
    };
    set_choice(fabric, bits, tile, matrix, choice);
}
