//! What follows from the definitions alone.

ghost use Rattle.std.specs.Prelude.{◌≡◌, ℕ, List};
ghost use Rattle.fab_base.specs.declared.fault.Fault.{Fault as Refusal};
ghost use Rattle.fab_desk.specs.Files.{Map};
ghost use Rattle.fab_model.specs.Grid.{PlainFabric};
ghost use Rattle.fab_read.specs.Fabrics.{SpellsFabric, RefusesFabric};

/// A fabric file spells at most one fabric, and has at most one first refusal.
pub fn fabrics_are_spelled_once()
    ensures one_value { (files : Map) (name : List ℕ) (first second : PlainFabric) → SpellsFabric files name first → SpellsFabric files name second → first ≡ second }
    ensures one_refusal { (files : Map) (name : List ℕ) (first second : Refusal) → RefusesFabric files name first → RefusesFabric files name second → first ≡ second }
{}

/// A fabric file that spells a fabric is not refused.
pub fn spelled_fabrics_are_not_refused()
    ensures { (files : Map) (name : List ℕ) (fabric : PlainFabric) (fault : Refusal) → SpellsFabric files name fabric → RefusesFabric files name fault → ⊥ }
{}
