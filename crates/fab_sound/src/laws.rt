//! What follows from the definitions alone.

ghost use Rattle.std.specs.Prelude.{◌≡◌, List};
ghost use Rattle.fab_base.specs.declared.words.Reason.{Reason};
ghost use Rattle.fab_syntax.specs.Plain.{PlainModule};
ghost use Rattle.fab_syntax.specs.Sound.{IsSound, IsFirstBroken};

/// A text that breaks a rule first is not sound, and there is one such rule: so `check_widths` answers `None` for the sound texts
/// alone, and for each other text at most one reason is right.
pub fn verdicts_exclude_each_other()
    ensures not_sound { (text : List PlainModule) (reason : Reason) → IsFirstBroken text reason → ¬ IsSound text }
    ensures one_reason { (text : List PlainModule) (reason other : Reason) → IsFirstBroken text reason → IsFirstBroken text other → reason ≡ other }
{}
