//! What follows from the definitions alone.

ghost use Rattle.std.specs.Prelude.{◌≡◌, ◌<◌, ℕ};
ghost use Rattle.fab_model.specs.declared.mode.Mode.{Mode};
ghost use Rattle.fab_model.specs.Grid.{PlainFabric};
ghost use Rattle.fab_model.specs.Wires.{PlainWire, HasWire};
ghost use Rattle.fab_fabric.specs.Fabric.{in_mode, IsFabric, wires_at, wire_count};
ghost use Rattle.fab_fabric.specs.Wires.{wire_index, index_of, IsIndexOf};

/// The numbers below the number of wires and the matrix name numbers of all tiles are one to one, and so are these numbers
/// and the wires that are given by their rows and BELs.
pub fn wires_are_numbered()
    ensures within { (fabric : PlainFabric) (x y number : ℕ) → number < wires_at fabric x y → wire_index fabric x y number < wire_count fabric }
    ensures one_place { (fabric : PlainFabric) (x y number x2 y2 number2 : ℕ) →
        number < wires_at fabric x y → number2 < wires_at fabric x2 y2 →
        wire_index fabric x y number ≡ wire_index fabric x2 y2 number2 → (x ≡ x2) × (y ≡ y2) × (number ≡ number2) }
    ensures some_place { (fabric : PlainFabric) (index : ℕ) → index < wire_count fabric →
        (x : ℕ) × (y : ℕ) × (number : ℕ) × (number < wires_at fabric x y) × (index ≡ wire_index fabric x y number) }
    ensures wire_within { (fabric : PlainFabric) (index x y : ℕ) (plain : PlainWire) → IsIndexOf fabric index x y plain → index < wire_count fabric }
    ensures one_wire { (fabric : PlainFabric) (index x y x2 y2 : ℕ) (plain plain2 : PlainWire) →
        IsIndexOf fabric index x y plain → IsIndexOf fabric index x2 y2 plain2 → (x ≡ x2) × (y ≡ y2) × (plain ≡ plain2) }
    ensures some_wire { (fabric : PlainFabric) (index : ℕ) → index < wire_count fabric →
        (x : ℕ) × (y : ℕ) × (plain : PlainWire) × IsIndexOf fabric index x y plain }
{}

/// What is promised of a fabric holds of it in each mode.
pub fn fabrics_have_each_mode()
    ensures { (mode : Mode) (fabric : PlainFabric) → IsFabric fabric → IsFabric (in_mode mode fabric) }
{}
