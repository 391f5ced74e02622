//! What follows from the definitions alone.

ghost use Rattle.std.specs.Prelude.{◌≡◌, ℕ, List, All};
ghost use Rattle.fab_base.specs.declared.fault.Fault.{Fault as Refusal};
ghost use Rattle.fab_desk.specs.Files.{Map};
ghost use Rattle.fab_tables.specs.Lists.{Pair};
ghost use Rattle.fab_list_files.specs.Lists.{Knowledge, ReadsListFile};
ghost use Rattle.fab_list_files.specs.Sides.{HasWireNames, SpellsPairs, RefusesPairs};

/// A list spells at most one list of pairs, and has at most one first refusal.
pub fn lists_are_spelled_once()
    ensures one_value { (files : Map) (list : List ℕ) (first second : List Pair) → SpellsPairs files list first → SpellsPairs files list second → first ≡ second }
    ensures one_refusal { (files : Map) (list : List ℕ) (first second : Refusal) → RefusesPairs files list first → RefusesPairs files list second → first ≡ second }
{}

/// A list that spells pairs is not refused.
pub fn spelled_lists_are_not_refused()
    ensures { (files : Map) (list : List ℕ) (pairs : List Pair) (fault : Refusal) → SpellsPairs files list pairs → RefusesPairs files list fault → ⊥ }
{}

/// All names of a list that spells pairs are names of wires.
pub fn listed_names_are_wire_names()
    ensures { (files : Map) (list : List ℕ) (pairs : List Pair) → SpellsPairs files list pairs → All HasWireNames pairs }
{}
