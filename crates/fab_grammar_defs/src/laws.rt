//! Laws of texts and their spelling.

ghost use Rattle.std.specs.Prelude.{◌≡◌, ℕ, List};
ghost use Rattle.fab_tokens.specs.fab_syntax.specs.Plain.{PlainModule};
ghost use Rattle.fab_tokens.specs.fab_syntax.specs.Spelling.{text_bytes};
ghost use Rattle.fab_grammar_defs.specs.Grammar.{SpellsText};
ghost use Rattle.fab_grammar_defs.specs.Printable.{IsPrintableText};

/// What is printed of a text spells its tree: where names are identifiers, no instance is of a module named by a word of
/// Verilog that the profile lacks, numbers and widths are in range, constants have 1 to 128 bits, concatenations have a
/// part, and in the spelling at most 300 brackets are open in one another within an expression.
pub fn printed_texts_are_spelled()
    ensures { (modules : List PlainModule) → IsPrintableText modules → SpellsText 300 128 (text_bytes modules) modules }
{}

/// Bytes spell at most one tree, however deep its brackets and wide its constants.
pub fn texts_are_one()
    ensures { (deepest widest deep wide : ℕ) (bytes : List ℕ) (these those : List PlainModule) → SpellsText deepest widest bytes these → SpellsText deep wide bytes those → these ≡ those }
{}
