//! Laws of texts and their tokens.

ghost use Rattle.std.specs.Prelude.{◌≡◌, ℕ, List};
ghost use Rattle.fab_tokens.specs.declared.token.Token.{Token};
ghost use Rattle.fab_tokens.specs.Spelled.{Spells};
ghost use Rattle.fab_tokens.specs.Told.{tokens_of};

/// Bytes that spell tokens, with blanks and comments between them, give these tokens one byte after the other.
pub fn spelled_tokens_are_told()
    ensures { (bytes : List ℕ) (tokens : List Token) → Spells bytes tokens → tokens_of bytes ≡ tokens }
{}

/// Bytes spell at most one list of tokens.
pub fn tokens_are_one()
    ensures { (bytes : List ℕ) (tokens others : List Token) → Spells bytes tokens → Spells bytes others → tokens ≡ others }
{}
