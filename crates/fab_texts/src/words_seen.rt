//! Sets of words.

ghost use Rattle.std.specs.Prelude.{◌≡◌, ◌<◌, ◌++◌, [], ◌∷◌, false, IfSome, OnOk, length, position};
ghost use Rattle.std.specs.Str.{bytes_eq};
ghost use Rattle.fab_lines.specs.Items.{is_among};

use fab_base::Memory;
use indexmap::IndexSet;
use std::alloc::Global;
use std::marker::Model;

/// Words that stood before, each once, in the order in which they came.
#[derive(Drop)]
pub struct WordSet {
    words: IndexSet<Vec<u8>>,
}

impl Model for WordSet {
    ghost use Rattle.std.specs.Prelude.{ℕ, List};
    ghost use Rattle.fab_bits.specs.Keys.{key_names};

    ghost Value = { List (List ℕ) };

    ghost view = { λ set. key_names set.words.keys };
}

impl WordSet {
    /// No words.
    pub fn new(alloc: Global) -> WordSet
        ensures { result ≡ [] }
    {
        WordSet {
            words: IndexSet::new(alloc),
        }
    }

    /// Whether a word is among them.
    pub fn contains(&self, word: &[u8]) -> bool
        ensures { result ≡ is_among self.now word.now }
    {
        self.words.contains(word)
    }

    /// The place of a word among them, if it is one.
    pub fn place_of(&self, word: &[u8]) -> Option<usize>
        ensures place { result ≡ position (bytes_eq word.now) self.now }
        ensures within { IfSome result (λ place. place < length self.now) }
    {
        self.words.get_index_of(word)
    }

    /// Adds a word that is not among them.
    pub fn add(&mut self, alloc: Global, word: &[u8]) -> Result<(), Memory>
        requires { is_among self.old word.now ≡ false }
        ensures { OnOk result (self.new ≡ self.old ++ word.now ∷ []) }
    {
        let key = Vec::from_slice(alloc, word)?;
        self.words.insert(key)?;
        Ok(())
    }
}
