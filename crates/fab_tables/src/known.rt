//! What is known of names beside a row that is judged.

ghost use Rattle.std.specs.Prelude.{◌≡◌, List, Option, IfOk};
ghost use Rattle.fab_base.specs.declared.words.Reason.{Reason as Why};
ghost use Rattle.fab_tables.specs.Lists.{Pair, nothing_known};

use fab_base::{Memory, Name, Reason};
use std::alloc::Global;

/// What is known of the names of a switch matrix: those that its tile has, or those of the pairs before a row.
pub trait KnownNames {
    /// Why a row with these pairs is refused, if it is.
    ghost judge_pairs: { Self → List Pair → Option Why };

    /// Why a row with these pairs is refused for its names, if it is.
    fn judge(&self, alloc: Global, pairs: &[(Name, Name)]) -> Result<Option<Reason>, Memory>
        ensures { IfOk result (λ reason. reason ≡ judge_pairs self.now pairs.now) };
}

/// Nothing is known.
#[derive(Clone, Copy, Debug)]
pub struct NothingKnown;

impl KnownNames for NothingKnown {
    ghost judge_pairs = { λ _. nothing_known };

    fn judge(&self, _: Global, _: &[(Name, Name)]) -> Result<Option<Reason>, Memory> {
        Ok(None)
    }
}
