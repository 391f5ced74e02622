//! The configuration bits of a list of features.

ghost use Rattle.std.specs.Prelude.{◌≡◌, ◌<◌, ◌++◌, [], IfErr, IfOk, List, OnOk, codes, length, slice_index_or};
ghost use Rattle.fab_model.specs.Tiles.{matrix_names};
ghost use Rattle.fab_fabric.specs.Bits.{AreBitsOf, plain_bits};
ghost use Rattle.fab_fabric.specs.Fabric.{wire_count};
ghost use Rattle.fab_legal.specs.Turns.{AreRight};
ghost use Rattle.fab_legal.specs.declared.broken.CheckFault.TheVariants as faults;
ghost use Rattle.fab_fasm.specs.declared.feature.Feature.{Feature as PlainFeature};
ghost use Rattle.fab_features.specs.Said.{said_of};
ghost use Rattle.fab_features.specs.Features.{IsBitMapOf};
ghost use Rattle.fab_features.specs.Wrong.{IsFirstWrongFeature, IsRightFeature, output_name, said_width};
ghost use Rattle.fab_features.specs.inner.Matrices.{AreMatricesOf};
ghost use Rattle.fab_features.specs.inner.Adding.{Adds, SomeOf};
ghost use Rattle.fab_features.specs.inner.Lines.{Allows, HoldsChoices, IsLineOne, IsRefused, Notes};
ghost use Rattle.fab_features.specs.declared.said.Said.TheVariants as said;

use crate::choices::{is_contrary, note};
use crate::features::matrix_name;
use crate::lines::{known, set_field, set_pair};
use crate::matrices::{Matrix, matrices_of, tile_with};
use crate::said::{Choice, Said};
use fab_base::{Memory, Name};
use fab_fabric::{Bits, Fabric, place_name};
use fab_fasm::Feature;
use fab_legal::{Broken, CheckFault};
use fab_model::TileType;
use std::alloc::Global;

// The rule that the fabric has each feature, and that of one input for each output.
const KNOWN: u8 = 10;

const ONE_INPUT: u8 = 11;

// ---- faults

fn broken_by(rule: u8, item: Name) -> CheckFault
    ensures { result ≡ faults.Broken (record { rule = rule; item = item }) }
{
    CheckFault::Broken(Broken { rule, item })
}

fn push_name(text: &mut Vec<u8>, alloc: Global, tile: &TileType, number: u32) -> Result<(), Memory>
    ensures { OnOk result (text.new.items ≡ text.old.items ++ slice_index_or (matrix_names tile.now) number []) }
{
    text.extend_from_slice(matrix_name(alloc, tile, number)?.bytes())?;
    Ok(())
}

// The name of the output of a pair, as `X1Y2.LA_I0`.
fn output_name(
    alloc: Global,
    fabric: &Fabric,
    matrices: &[Matrix],
    choice: Choice,
) -> Result<Name, Memory>
    requires { AreMatricesOf fabric.now.types matrices.now }
    ensures { IfOk result (λ name. name ≡ output_name fabric.now choice.x choice.y choice.output) }
{
    let mut text = place_name(alloc, choice.x, choice.y)?;
    text.push(b'.')?;
    if let Some((tile, _)) = tile_with(fabric, matrices, choice.x, choice.y) {
        push_name(&mut text, alloc, tile, choice.output)?;
    }
    Ok(Name::from(text))
}

// ---- lines

// Refuses a line that chooses the input of a pair where lines before it choose another one for its output.
fn check_choice(
    alloc: Global,
    fabric: &Fabric,
    matrices: &[Matrix],
    table: &[Option<u32>],
    feature: &Feature,
    choice: Choice,
) -> Result<(), CheckFault>
    requires matrices { AreMatricesOf fabric.now.types matrices.now }
    requires as_many { length table.now ≡ wire_count fabric.now }
    requires said { said_of fabric.now feature.now.name ≡ Some (said.OfPair choice) }
    requires inside { feature.now.high < 1 }
    ensures allows { OnOk result (Allows fabric.now table.now feature.now) }
    ensures err { IfErr result (λ fault. (before : List PlainFeature) → HoldsChoices fabric.now before table.now → IsRefused fabric.now before feature.now fault) }
{
    if is_contrary(fabric, table, feature, choice) {
        let name = output_name(alloc, fabric, matrices, choice)?;
        return Err(broken_by(ONE_INPUT, name));
    }
    Ok(())
}

// What a line says, if it is right behind lines whose choices the table has.
fn judge(
    alloc: Global,
    fabric: &Fabric,
    matrices: &[Matrix],
    table: &[Option<u32>],
    feature: &Feature,
) -> Result<Said, CheckFault>
    requires matrices { AreMatricesOf fabric.now.types matrices.now }
    requires as_many { length table.now ≡ wire_count fabric.now }
    ensures said { IfOk result (λ found. said_of fabric.now feature.now.name ≡ Some found) }
    ensures inside { IfOk result (λ found. feature.now.high < said_width found) }
    ensures allows { OnOk result (Allows fabric.now table.now feature.now) }
    ensures err { IfErr result (λ fault. (before : List PlainFeature) → HoldsChoices fabric.now before table.now → IsRefused fabric.now before feature.now fault) }
{
    let Some(said) = known(fabric, matrices, feature) else {
        return Err(broken_by(KNOWN, feature.name.copy(alloc)?));
    };
    if let Said::OfPair(choice) = said {
        check_choice(alloc, fabric, matrices, table, feature, choice)?;
    }
    Ok(said)
}

// Sets the bits of a line, and puts the input that it chooses into the table.
fn set_line(
    fabric: &Fabric,
    bits: &mut Bits,
    table: &mut [Option<u32>],
    matrices: &[Matrix],
    feature: &Feature,
    said: Said,
)
    requires are { AreBitsOf fabric.now bits.old }
    requires as_many { length table.old ≡ wire_count fabric.now }
    requires matrices { AreMatricesOf fabric.now.types matrices.now }
    requires said { said_of fabric.now feature.now.name ≡ Some said }
    requires inside { feature.now.high < said_width said }
    requires allows { Allows fabric.now table.old feature.now }
    ensures are { AreBitsOf fabric.now bits.new }
    ensures adds { Adds (plain_bits bits.old) (plain_bits bits.new) (IsLineOne fabric.now feature.now) }
    ensures notes { Notes fabric.now feature.now table.old table.new }
{
    match said {
        Said::OfBel(field) => set_field(fabric, bits, matrices, feature, field),
        Said::OfPair(choice) => {
            set_pair(fabric, bits, matrices, feature, choice);
            note(fabric, table, feature, choice);
        }
    }
}

// Sets the bits of lines up to the first that is wrong. The table has the input that they choose for each output.
fn set_lines(
    alloc: Global,
    fabric: &Fabric,
    bits: &mut Bits,
    table: &mut [Option<u32>],
    matrices: &[Matrix],
    features: &[Feature],
) -> Result<(), CheckFault>
    requires are { AreBitsOf fabric.now bits.old }
    requires none { HoldsChoices fabric.now [] table.old }
    requires matrices { AreMatricesOf fabric.now.types matrices.now }
    ensures are { AreBitsOf fabric.now bits.new }
    ensures adds { OnOk result (Adds (plain_bits bits.old) (plain_bits bits.new) (SomeOf (IsLineOne fabric.now) features.now)) }
    ensures right { OnOk result (AreRight (IsRightFeature fabric.now) features.now) }
    ensures err { IfErr result (IsFirstWrongFeature fabric.now features.now) }
{
    for feature in features {
        let said = judge(alloc, fabric, matrices, table, feature)?;
        set_line(fabric, bits, table, matrices, feature, said);
    }
    Ok(())
}

// A table without inputs.
fn no_inputs(alloc: Global, fabric: &Fabric) -> Result<Vec<Option<u32>>, Memory>
    ensures { IfOk result (λ table. HoldsChoices fabric.now [] table.items) }
{
    let table: Vec<Option<u32>> = vec![in alloc; None; fabric.wires() as usize]?;
    Ok(table)
}

/// The configuration bits that features set, read line by line. A bit of a BEL is 1 where a feature has a 1 for it. The
/// select bits of an output are the place of the input that is chosen for it, from 0, or 0 where none is.
///
/// The first line that breaks a rule is refused. Rule 10: the fabric lacks the feature, or the address has a bit more
/// than the feature has; the item is its name. Rule 11: a line before it chooses another input for the same output; the
/// item is the output, as `X1Y2.LA_I0`. A pair whose value is 0 chooses nothing, but the fabric must have it.
pub fn bits_of_features(
    alloc: Global,
    fabric: &Fabric,
    features: &[Feature],
) -> Result<Bits, CheckFault>
    ensures are { IfOk result (AreBitsOf fabric.now) }
    ensures bits { IfOk result (λ bits. IsBitMapOf fabric.now features.now (plain_bits bits)) }
    ensures right { OnOk result (AreRight (IsRightFeature fabric.now) features.now) }
    ensures err { IfErr result (IsFirstWrongFeature fabric.now features.now) }
{
    let matrices = matrices_of(alloc, fabric)?;
    let mut table = no_inputs(alloc, fabric)?;
    let mut bits = Bits::new(alloc, fabric)?;
    set_lines(alloc, fabric, &mut bits, &mut table, &matrices, features)?;
    Ok(bits)
}
