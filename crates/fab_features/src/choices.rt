//! The inputs that lines choose for outputs.

ghost use Rattle.std.specs.Prelude.{◌≡◌, ◌<◌, ◌↔◌, IsTrue, length};
ghost use Rattle.fab_fabric.specs.Fabric.{wires_at, wire_count};
ghost use Rattle.fab_features.specs.Said.{said_of};
ghost use Rattle.fab_features.specs.inner.Lines.{Allows, IsContrary, Notes, input_in};
ghost use Rattle.fab_features.specs.declared.said.Said.TheVariants as said;

use crate::said::Choice;
use fab_fabric::Fabric;
use fab_fasm::Feature;

// The input that the table has for the output of a pair.
fn input_in(fabric: &Fabric, table: &[Option<u32>], choice: Choice) -> Option<u32>
    requires as_many { length table.now ≡ wire_count fabric.now }
    requires output { choice.output < wires_at fabric.now choice.x choice.y }
    ensures { result ≡ input_in fabric.now table.now choice }
{
    let wire = fabric.wire_at(choice.x, choice.y, choice.output);
    table[wire.0 as usize]
}

/// Whether a line chooses the input of a pair where the table has another one for its output.
pub fn is_contrary(
    fabric: &Fabric,
    table: &[Option<u32>],
    feature: &Feature,
    choice: Choice,
) -> bool
    requires as_many { length table.now ≡ wire_count fabric.now }
    requires output { choice.output < wires_at fabric.now choice.x choice.y }
    ensures { IsTrue result ↔ IsContrary fabric.now table.now feature.now choice }
{
    if feature.value == 0 {
        return false;
    }
    match input_in(fabric, table, choice) {
        Some(other) => other != choice.input,
        None => false,
    }
}

/// Puts the input into the table that a line chooses, if it chooses one.
pub fn note(fabric: &Fabric, table: &mut [Option<u32>], feature: &Feature, choice: Choice)
    requires as_many { length table.old ≡ wire_count fabric.now }
    requires said { said_of fabric.now feature.now.name ≡ Some (said.OfPair choice) }
    requires allows { Allows fabric.now table.old feature.now }
    ensures { Notes fabric.now feature.now table.old table.new }
{
    if feature.value == 0 {
        return;
    }
    let wire = fabric.wire_at(choice.x, choice.y, choice.output);
    table[wire.0 as usize] = Some(choice.input);
}
