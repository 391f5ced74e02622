//! What follows from the definitions alone.

ghost use Rattle.std.specs.Prelude.{◌≡◌, ◌<◌, ◌≤◌, ◌↔◌, ℕ, Bool, true, false, [], codes, length, map, slice_get, Some, None};
ghost use Rattle.fab_kinds.specs.fab_bits.specs.Bits.{digits};
ghost use Rattle.fab_kinds.specs.Pins.{input_count};
ghost use Rattle.fab_model.specs.declared.tiles.WireRow.{WireRow};
ghost use Rattle.fab_model.specs.declared.tiles.Bel.{Bel};
ghost use Rattle.fab_model.specs.Rows.{is_jump, is_named};
ghost use Rattle.fab_model.specs.Tiles.{PlainTile, tile_wires, output_field};
ghost use Rattle.fab_model.specs.Grid.{PlainFabric, tile_at, AreRows};
ghost use Rattle.fab_model.specs.Joins.{RowPlace, Stands, Joins};
ghost use Rattle.fab_model.specs.Cascade.{join_to, join_from, IsSourceBit, IsDestBit};
ghost use Rattle.fab_model.specs.Wires.{PlainWire, source_of, dest_of, pin_of, wire_of, IsWire, IsMatrixOutput, HasWire, plain_wires, wire_number};
ghost use Rattle.fab_model.specs.Drive.{PlainBits, zero_bit, one_bit, copy, bel_output, select_field, select_value, matrix_inputs, drive, CopiesPaired, ArePairsApart};

/// The walk from a source bit finds the destination bit to which it is joined, and nothing where it is joined to none.
pub fn joins_are_found()
    ensures found { (fabric : PlainFabric) (here there : RowPlace) (source dest : ℕ) →
        AreRows fabric → IsSourceBit fabric here source →
        (join_to fabric here source ≡ Some (there, dest)) ↔ Joins fabric here source there dest }
    ensures nothing { (fabric : PlainFabric) (here : RowPlace) (source : ℕ) →
        AreRows fabric → IsSourceBit fabric here source →
        (join_to fabric here source ≡ None) ↔ ((there : RowPlace) (dest : ℕ) → Joins fabric here source there dest → ⊥) }
{}

/// The walk from a destination bit finds the source bit that is joined to it, and nothing where none is.
pub fn joins_are_found_from_their_ends()
    ensures found { (fabric : PlainFabric) (here there : RowPlace) (source dest : ℕ) →
        AreRows fabric → IsDestBit fabric there dest →
        (join_from fabric there dest ≡ Some (here, source)) ↔ Joins fabric here source there dest }
    ensures nothing { (fabric : PlainFabric) (there : RowPlace) (dest : ℕ) →
        AreRows fabric → IsDestBit fabric there dest →
        (join_from fabric there dest ≡ None) ↔ ((here : RowPlace) (source : ℕ) → Joins fabric here source there dest → ⊥) }
{}

/// A join begins at a source bit of a row that stands and ends at a destination bit of one.
pub fn joins_have_both_ends()
    ensures source { (fabric : PlainFabric) (here there : RowPlace) (source dest : ℕ) →
        Joins fabric here source there dest → IsSourceBit fabric here source }
    ensures dest { (fabric : PlainFabric) (here there : RowPlace) (source dest : ℕ) →
        AreRows fabric → Joins fabric here source there dest → IsDestBit fabric there dest }
{}

/// Both walks go along the same joins.
pub fn walks_turn_round()
    ensures back { (fabric : PlainFabric) (here there : RowPlace) (source dest : ℕ) →
        AreRows fabric → IsSourceBit fabric here source →
        join_to fabric here source ≡ Some (there, dest) → join_from fabric there dest ≡ Some (here, source) }
    ensures forth { (fabric : PlainFabric) (here there : RowPlace) (source dest : ℕ) →
        AreRows fabric → IsDestBit fabric there dest →
        join_from fabric there dest ≡ Some (here, source) → join_to fabric here source ≡ Some (there, dest) }
{}

/// A source bit is joined to at most one destination bit, and to a destination bit at most one source bit.
pub fn joins_are_one_to_one()
    ensures one_dest { (fabric : PlainFabric) (here there other : RowPlace) (source dest bit : ℕ) →
        AreRows fabric → Joins fabric here source there dest → Joins fabric here source other bit →
        (there ≡ other) × (dest ≡ bit) }
    ensures one_source { (fabric : PlainFabric) (here other there : RowPlace) (source bit dest : ℕ) →
        AreRows fabric → Joins fabric here source there dest → Joins fabric other bit there dest →
        (here ≡ other) × (source ≡ bit) }
{}

/// The wires of a tile and the numbers of their matrix names are one to one.
pub fn wires_have_numbers()
    ensures number { (tile : PlainTile) (wire : PlainWire) →
        IsWire tile wire → slice_get (plain_wires tile) (wire_number tile wire) ≡ Some wire }
    ensures wire { (tile : PlainTile) (number : ℕ) (wire : PlainWire) →
        slice_get (plain_wires tile) number ≡ Some wire → IsWire tile wire × (wire_number tile wire ≡ number) }
    ensures in_order { (tile : PlainTile) → map (wire_of tile) (plain_wires tile) ≡ map Some (tile_wires tile) }
{}

/// A destination bit copies the source bit that is joined to it and no other, and is 0 where none is.
pub fn drives_follow_joins()
    ensures joined { (fabric : PlainFabric) (bits : PlainBits) (here there : RowPlace) (source dest : ℕ) →
        AreRows fabric → IsDestBit fabric there dest →
        (drive fabric bits there.x there.y (dest_of there.row dest) ≡ copy here.x here.y (source_of here.row source))
        ↔ Joins fabric here source there dest }
    ensures unjoined { (fabric : PlainFabric) (bits : PlainBits) (there : RowPlace) (dest : ℕ) →
        AreRows fabric → (is : IsDestBit fabric there dest) → is_jump is.row.dir ≡ false →
        ((here : RowPlace) (source : ℕ) → Joins fabric here source there dest → ⊥) →
        drive fabric bits there.x there.y (dest_of there.row dest) ≡ zero_bit }
{}

/// The wires of a jump without a source are constants: `VCC` is 1 and `GND` is 0.
pub fn constants_have_their_values()
    ensures high { (fabric : PlainFabric) (bits : PlainBits) (there : RowPlace) (dest : ℕ) (tile : PlainTile) (row : WireRow) →
        Stands fabric there tile row → is_jump row.dir ≡ true → is_named row.source ≡ false → row.dest ≡ Some (codes "VCC") →
        drive fabric bits there.x there.y (dest_of there.row dest) ≡ one_bit }
    ensures low { (fabric : PlainFabric) (bits : PlainBits) (there : RowPlace) (dest : ℕ) (tile : PlainTile) (row : WireRow) →
        Stands fabric there tile row → is_jump row.dir ≡ true → is_named row.source ≡ false → row.dest ≡ Some (codes "GND") →
        drive fabric bits there.x there.y (dest_of there.row dest) ≡ zero_bit }
{}

/// An output pin is driven by its BEL.
pub fn output_pins_are_of_their_bels()
    ensures { (fabric : PlainFabric) (bits : PlainBits) (x y bel pin : ℕ) (tile : PlainTile) (found : Bel) →
        tile_at fabric x y ≡ Some tile → slice_get tile.bels bel ≡ Some found → input_count found.kind ≤ pin →
        drive fabric bits x y (pin_of bel pin) ≡ bel_output x y bel pin }
{}

/// A matrix output copies the input whose number its select bits spell, the first one behind the last, and is 0 without any.
pub fn matrix_outputs_copy_what_is_selected()
    ensures spelled { (tile : PlainTile) (bits : ℕ → Bool) (output n : ℕ) →
        n < length (matrix_inputs tile output) → select_field tile bits output ≡ digits (output_field tile output).1 n →
        select_value tile bits output ≡ n }
    ensures selected { (fabric : PlainFabric) (bits : PlainBits) (x y : ℕ) (tile : PlainTile) (wire input : PlainWire) →
        tile_at fabric x y ≡ Some tile → IsMatrixOutput tile wire → IsWire tile input →
        slice_get (matrix_inputs tile (wire_number tile wire)) (select_value tile (bits x y) (wire_number tile wire))
        ≡ Some (wire_number tile input) →
        drive fabric bits x y wire ≡ copy x y input }
    ensures behind { (fabric : PlainFabric) (bits : PlainBits) (x y : ℕ) (tile : PlainTile) (wire input : PlainWire) →
        tile_at fabric x y ≡ Some tile → IsMatrixOutput tile wire → IsWire tile input →
        length (matrix_inputs tile (wire_number tile wire)) ≤ select_value tile (bits x y) (wire_number tile wire) →
        slice_get (matrix_inputs tile (wire_number tile wire)) 0 ≡ Some (wire_number tile input) →
        drive fabric bits x y wire ≡ copy x y input }
    ensures without { (fabric : PlainFabric) (bits : PlainBits) (x y : ℕ) (tile : PlainTile) (wire : PlainWire) →
        tile_at fabric x y ≡ Some tile → IsMatrixOutput tile wire →
        matrix_inputs tile (wire_number tile wire) ≡ [] → drive fabric bits x y wire ≡ zero_bit }
{}

/// A matrix output copies only a wire with which a pair of its tile joins it.
pub fn matrix_outputs_copy_their_inputs()
    ensures { (fabric : PlainFabric) (bits : PlainBits) (x y : ℕ) (tile : PlainTile) (wire : PlainWire) (to_x to_y : ℕ) (to : PlainWire) →
        tile_at fabric x y ≡ Some tile → IsMatrixOutput tile wire → drive fabric bits x y wire ≡ copy to_x to_y to →
        CopiesPaired x y tile wire to_x to_y to }
{}

/// A wire that is copied stands in its tile.
pub fn copied_wires_exist()
    ensures { (fabric : PlainFabric) (bits : PlainBits) (x y : ℕ) (wire : PlainWire) (to_x to_y : ℕ) (to : PlainWire) →
        AreRows fabric → HasWire fabric x y wire → drive fabric bits x y wire ≡ copy to_x to_y to →
        HasWire fabric to_x to_y to }
{}

/// No wire copies itself, where no pair of its tile joins a wire to itself.
pub fn no_wire_copies_itself()
    ensures { (fabric : PlainFabric) (bits : PlainBits) (x y : ℕ) (tile : PlainTile) (wire : PlainWire) →
        tile_at fabric x y ≡ Some tile → IsWire tile wire → ArePairsApart tile →
        drive fabric bits x y wire ≡ copy x y wire → ⊥ }
{}
