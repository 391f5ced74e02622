//! The laws of judgement: whatever stands in files, a format or a reader comes to a value of it, or has a first refusal. That it never does both is
//! said by `fab_refusals_laws` and by the laws of the readers. Each function does nothing: its contract is a law.
#![tactic(auto)]

ghost use Rattle.fab_base.specs.declared.problem.Problem.{Problem};
ghost use Rattle.fab_desk.specs.Files.{Map};
ghost use Rattle.fab_fabric.specs.Bits.{AreBitsOf, plain_bits};
ghost use Rattle.fab_fabric.specs.Fabric.{IsFabric};
ghost use Rattle.fab_fasm.specs.Fasm.{fasm_judge};
ghost use Rattle.fab_fasm.specs.Spelled.{SpellsFasm};
ghost use Rattle.fab_frames.specs.Refusals.{IsCut, IsStreamRefusal};
ghost use Rattle.fab_frames.specs.Stream.{stream};
ghost use Rattle.fab_grammar_defs.specs.Grammar.{SpellsText};
ghost use Rattle.fab_judged_laws.specs.Judged.{IsReadyOrRefused, IsSpelledOrRefused, JudgesLines, JudgesTexts};
ghost use Rattle.fab_lines.specs.Order.{Format, IsFirstFault};
ghost use Rattle.fab_list_files.specs.Sides.{MeetsPairs, SpellsPairs};
ghost use Rattle.fab_model.specs.Grid.{PlainFabric};
ghost use Rattle.fab_outputs.specs.Bitstreams.{AreBytesOf};
ghost use Rattle.fab_read.specs.Fabrics.{MeetsFabric, SpellsFabric};
ghost use Rattle.fab_rows.specs.Rows.{PlainRow as TableRow};
ghost use Rattle.fab_tables.specs.Lists.{Pair};
ghost use Rattle.fab_vread.specs.Refusals.{IsVerilogRefusal};
ghost use Rattle.std.specs.Prelude.{All, List, Option, ℕ, ◌<◌, ◌^◌, ◌≡◌};

/// Lines of bytes and tables of rows are whole or refused, by any judge of lines and in any format of tables.
pub fn texts_are_judged()
    ensures lines { (judge : List (List ℕ) → List ℕ → Option Problem) → JudgesLines judge }
    ensures tables { (format : Format TableRow) → JudgesTexts format }
{}

/// A switch list spells pairs with all files that it includes, or it is refused.
pub fn lists_are_judged()
    ensures { (files : Map) (list : List ℕ) → IsReadyOrRefused ((pairs : List Pair) × SpellsPairs files list pairs) (MeetsPairs files list) }
{}

/// A fabric file spells a fabric with all files that it names, or it is refused.
pub fn fabrics_are_judged()
    ensures { (files : Map) (name : List ℕ) → IsReadyOrRefused ((fabric : PlainFabric) × SpellsFabric files name fabric) (MeetsFabric files name) }
{}

/// The lines of a FASM file spell features, or one of them is refused.
pub fn features_are_judged()
    ensures { (file : List ℕ) (lines : List (List ℕ)) → IsSpelledOrRefused (SpellsFasm lines) (IsFirstFault fasm_judge file lines) }
{}

/// Bytes are those of words, or they end within one.
pub fn bytes_are_judged()
    ensures { (file bytes : List ℕ) → All (λ byte. byte < 256) bytes → IsSpelledOrRefused (λ words. AreBytesOf words bytes) (IsCut file bytes) }
{}

/// Words are the bitstream of some configuration bits of a fabric, or one of them is refused.
pub fn bitstreams_are_judged()
    ensures { (fabric : PlainFabric) (words file : List ℕ) → IsFabric fabric → All (λ word. word < 2 ^ 32) words →
        IsSpelledOrRefused (λ bits. AreBitsOf fabric bits × (words ≡ stream fabric (plain_bits bits))) (IsStreamRefusal fabric file words) }
{}

/// Bytes spell a Verilog text within the limits, or they are refused.
pub fn verilog_is_judged()
    ensures { (file bytes : List ℕ) → IsSpelledOrRefused (SpellsText 300 128 bytes) (IsVerilogRefusal file bytes) }
{}
