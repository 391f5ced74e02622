//! Whether a text is sound: six rules, judged one after the other over the whole text. Everything is linear in the text: names are
//! found by maps, and expressions are gone through by lists, however deep they are.
#![tactic(auto)]

ghost use Rattle.std.specs.Prelude.{◌≡◌, Some, None, IfOk};
ghost use Rattle.fab_base.specs.declared.words.Reason.{Reason};
ghost use Rattle.fab_syntax.specs.Plain.{plain_text};
ghost use Rattle.fab_syntax.specs.Sound.{NamesFit, IsSound, IsFirstBroken};
ghost use Rattle.fab_sound.specs.inner.Checks.{library_text, IsLibrary};
ghost use Rattle.fab_sound.specs.Narrow.{AreNarrow};

mod clocks;
mod drivers;
mod expressions;
mod instances;
mod laws;
mod names;
mod sizes;
mod tables;

use crate::clocks::clocks_fit;
use crate::drivers::drivers_fit;
use crate::instances::instances_fit;
use crate::names::name_modules;
use crate::sizes::{selects_fit, widths_fit};
use crate::tables::Library;
use fab_base::{Memory, Reason};
use fab_syntax::Text;
pub use laws::verdicts_exclude_each_other;
use std::alloc::Global;

/// The reason of the first rule that a text breaks: of a name (`NameTwice`, `UnknownName`), a select (`Select`), a width (`Width`), an
/// instance (`Instance`), a driver (`Drivers`) or a clock (`Clock`). `None` where it is sound.
///
/// Want of memory is also the answer where a width does not fit 64 bits. So every expression of a sound text is narrower than that.
pub fn check_widths(alloc: Global, text: &Text) -> Result<Option<Reason>, Memory>
    ensures sound { IfOk result (λ found. found ≡ None → IsSound (plain_text text.now)) }
    ensures broken { IfOk result (λ found. (reason : Reason) → found ≡ Some reason → IsFirstBroken (plain_text text.now) reason) }
    ensures narrow { IfOk result (λ found. found ≡ None → AreNarrow (plain_text text.now)) }
{
    match name_modules(alloc, &text.modules)? {
        Ok(library) => first_broken(alloc, &library),
        Err(reason) => Ok(Some(reason)),
    }
}

// The reason of the first rule behind that on names that a text breaks.
fn first_broken(alloc: Global, library: &Library) -> Result<Option<Reason>, Memory>
    requires library_fits { IsLibrary library.now }
    requires names { NamesFit (library_text library.now) }
    ensures sound { IfOk result (λ found. found ≡ None → IsSound (library_text library.now)) }
    ensures broken { IfOk result (λ found. (reason : Reason) → found ≡ Some reason → IsFirstBroken (library_text library.now) reason) }
    ensures narrow { IfOk result (λ found. found ≡ None → AreNarrow (library_text library.now)) }
{
    if !selects_fit(alloc, library)? {
        return Ok(Some(Reason::Select));
    }
    if !widths_fit(alloc, library)? {
        return Ok(Some(Reason::Width));
    }
    if !instances_fit(alloc, library)? {
        return Ok(Some(Reason::Instance));
    }
    if !drivers_fit(alloc, library)? {
        return Ok(Some(Reason::Drivers));
    }
    if !clocks_fit(alloc, library)? {
        return Ok(Some(Reason::Clock));
    }
    Ok(None)
}
