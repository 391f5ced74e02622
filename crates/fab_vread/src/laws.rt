//! Laws of texts and their reader.

ghost use Rattle.std.specs.Prelude.{◌≡◌, ℕ, List};
ghost use Rattle.fab_syntax.specs.Plain.{PlainModule};
ghost use Rattle.fab_base.specs.declared.problem.Problem.{Problem};
ghost use Rattle.fab_tokens.specs.Scanning.{Lexeme};
ghost use Rattle.fab_tokens.specs.Told.{tokens_of};
ghost use Rattle.fab_grammar_defs.specs.Grammar.{SpellsText};
ghost use Rattle.fab_grammar_defs.specs.Printable.{IsPrintableText};
ghost use Rattle.fab_vread.specs.Refusals.{FirstRefusal, lexemes_of, tokens_in};

/// A tree that bytes spell within the reader's bounds is printable: so whatever is read can be printed, and read again.
pub fn spelled_texts_are_printable()
    ensures { (bytes : List ℕ) (modules : List PlainModule) → SpellsText 300 128 bytes modules → IsPrintableText modules }
{}

/// The lexemes by which a refusal is told have the tokens that the bytes give, which are those that they spell.
pub fn lexemes_are_tokens()
    ensures { (bytes : List ℕ) → tokens_in (lexemes_of bytes) ≡ tokens_of bytes }
{}

/// A text has at most one first refusal.
pub fn refusals_are_one()
    ensures { (lexemes : List Lexeme) (last line at : ℕ) (these those : Problem) → FirstRefusal lexemes last line these → FirstRefusal lexemes last at those → (line ≡ at) × (these ≡ those) }
{}
