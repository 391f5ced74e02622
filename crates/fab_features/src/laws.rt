//! What follows from the definitions alone.

ghost use Rattle.std.specs.Prelude.{ℕ, List};
ghost use Rattle.fab_model.specs.Grid.{PlainFabric};
ghost use Rattle.fab_legal.specs.Turns.{AreRight};
ghost use Rattle.fab_fasm.specs.declared.feature.Feature.{Feature};
ghost use Rattle.fab_features.specs.NameParts.{NamesAreRead};
ghost use Rattle.fab_features.specs.Wrong.{BreaksFirst, IsRightFeature};

/// Where a line is wrong, not all lines are right. So `bits_of_features` gives bits exactly where no line is wrong,
/// unless memory is refused.
pub fn wrong_features_are_not_right()
    ensures { (fabric : PlainFabric) (features : List Feature) (rule : ℕ) (item : List ℕ) → BreaksFirst fabric features rule item → AreRight (IsRightFeature fabric) features → ⊥ }
{}

/// In a fabric whose names the generator leaves free and whose pins have prefixes, a name is read as what its parts say, and as nothing
/// else. So names that are printed are read back.
pub fn names_are_read()
    ensures { NamesAreRead }
{}
