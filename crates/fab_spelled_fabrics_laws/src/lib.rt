//! The laws of fabrics that files spell: they are fabrics, their tiles are tiles, and their names are identifiers that the generator leaves free.
//! Each function does nothing: its contract is a law.
#![tactic(auto)]

ghost use Rattle.fab_desk.specs.Files.{Map};
ghost use Rattle.fab_gen_tile.specs.Words.{IsNamed};
ghost use Rattle.fab_kinds.specs.declared.kind.Kind.TheVariants as kinds;
ghost use Rattle.fab_lines.specs.Names.{is_identifier};
ghost use Rattle.fab_model.specs.Grid.{PlainFabric};
ghost use Rattle.fab_model.specs.Tiles.{numbered_pairs, tile_bits};
ghost use Rattle.fab_read.specs.Fabrics.{SpellsFabric};
ghost use Rattle.fab_select.specs.Selection.{inputs_of};
ghost use Rattle.fab_spelled_fabrics_laws.specs.Laws.{MatrixNamesAreIdentifiers, SpelledFabricsAreFabrics, SpelledFabricsHaveTiles};
ghost use Rattle.std.specs.Prelude.{All, List, [], length, nat_eq, true, ℕ, ◌≡◌, ◌≤◌};

/// In a fabric that files spell, no side of a row and no prefix of a BEL is a name that the generator takes for itself.
pub fn spelled_fabrics_are_named()
    ensures { (files : Map) (name : List ℕ) (fabric : PlainFabric) → SpellsFabric files name fabric → All IsNamed fabric.types }
{}

/// In a fabric that files spell, only a MUX8LUT lacks a prefix.
pub fn spelled_fabrics_have_prefixes()
    ensures { (files : Map) (name : List ℕ) (fabric : PlainFabric) → SpellsFabric files name fabric → All (λ tile. All (λ bel. bel.prefix ≡ [] → bel.kind ≡ kinds.Mux8) tile.bels) fabric.types }
{}

/// In a fabric that files spell, each tile has a name, at most 640 configuration bits, and at most 256 inputs of an output.
pub fn spelled_fabrics_are_sized()
    ensures names { (files : Map) (name : List ℕ) (fabric : PlainFabric) → SpellsFabric files name fabric → All (λ tile. is_identifier tile.name ≡ true) fabric.types }
    ensures bits { (files : Map) (name : List ℕ) (fabric : PlainFabric) → SpellsFabric files name fabric → All (λ tile. tile_bits tile ≤ 640) fabric.types }
    ensures inputs { (files : Map) (name : List ℕ) (fabric : PlainFabric) → SpellsFabric files name fabric → All (λ tile. (output : ℕ) → length (inputs_of nat_eq (numbered_pairs tile) output) ≤ 256) fabric.types }
{}

/// A fabric that files spell has a grid of 1 to 32 columns and 1 to 31 rows, at most 64 types of different names with at most 26 BELs each, a place of
/// its own for each configuration bit, and at most 1,048,576 wires.
pub fn spelled_fabrics_are_fabrics()
    ensures { SpelledFabricsAreFabrics }
{}

/// In a fabric that files spell, the rows of each tile are rows of wires, no two of its at most 4096 matrix names are one, and its pairs lead from
/// matrix inputs to matrix outputs.
pub fn spelled_fabrics_have_tiles()
    ensures { SpelledFabricsHaveTiles }
{}

/// In a fabric that files spell, each matrix name is a letter or `_`, and then letters, digits and `_`: no blank, no dot, no `/`. So wires and features
/// can be written. Names of tile types and prefixes of BELs are identifiers too (`fab_spelled_fabrics_laws`).
pub fn matrix_names_are_identifiers()
    ensures { MatrixNamesAreIdentifiers }
{}
