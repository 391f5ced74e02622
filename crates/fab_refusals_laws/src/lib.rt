//! The laws of the first refusal: each format of lines refuses a text once, and an implementation that breaks rules has one rule that it breaks first.
//! Each function does nothing: its contract is a law.
#![tactic(auto)]

ghost use Rattle.fab_base.specs.declared.problem.Problem.{Problem};
ghost use Rattle.fab_blif_models.specs.Judge.{judge as blif_judge};
ghost use Rattle.fab_fasm.specs.Fasm.{fasm_judge};
ghost use Rattle.fab_impl.specs.Spelled.{implementation_format};
ghost use Rattle.fab_lines.specs.Order.{Format};
ghost use Rattle.fab_refusals_laws.specs.Broken.{BrokenOnce};
ghost use Rattle.fab_refusals_laws.specs.Once.{RefusesLinesOnce, RefusesTextsOnce};
ghost use Rattle.fab_rows.specs.Rows.{PlainRow as TableRow};
ghost use Rattle.fab_state.specs.Constraints.{constraint_format};
ghost use Rattle.fab_state.specs.Spelled.{state_format};
ghost use Rattle.fab_state.specs.fab_implementation.specs.fab_model.specs.Grid.{PlainFabric};
ghost use Rattle.fab_state.specs.fab_implementation.specs.fab_model.specs.Tiles.{PlainTile};
ghost use Rattle.fab_stimulus.specs.Stimuli.{stimulus_format};
ghost use Rattle.fab_tables.specs.Config.{config_format};
ghost use Rattle.fab_tables.specs.Lists.{list_format};
ghost use Rattle.fab_tables.specs.Matrix.{matrix_format};
ghost use Rattle.fab_texts.specs.Rows.{PlainRow as WordRow};
ghost use Rattle.std.specs.Prelude.{List, Option, ℕ};

/// An implementation breaks one rule first, and one item breaks it first. So what `check` tells of an implementation that is not legal is
/// determined, want of memory aside.
pub fn one_rule_is_broken_first()
    ensures { BrokenOnce }
{}

/// Lines of bytes are refused once by any judge of them, as by those of FASM and of BLIF.
pub fn lines_are_refused_once()
    ensures any { (judge : List (List ℕ) → List ℕ → Option Problem) → RefusesLinesOnce judge }
    ensures fasm { RefusesLinesOnce fasm_judge }
    ensures blif { (most : ℕ) → RefusesLinesOnce (blif_judge most) }
{}

/// A text of rows of words is refused once in any format, as are states, pad constraints, stimuli and implementations.
pub fn words_are_refused_once()
    ensures any { (format : Format WordRow) → RefusesTextsOnce format }
    ensures states { RefusesTextsOnce state_format }
    ensures constraints { (fabric : PlainFabric) (allowed : List (List ℕ)) → RefusesTextsOnce (constraint_format fabric allowed) }
    ensures stimuli { (ports : List (List ℕ)) → RefusesTextsOnce (stimulus_format ports) }
    ensures implementations { (fabric : PlainFabric) → RefusesTextsOnce (implementation_format fabric) }
{}

/// A table of rows of cells is refused once in any format, as are switch lists, matrix tables and configuration tables.
pub fn tables_are_refused_once()
    ensures any { (format : Format TableRow) → RefusesTextsOnce format }
    ensures switch_lists { (file : List ℕ) → RefusesTextsOnce (list_format file) }
    ensures matrix_tables { (tile : PlainTile) → RefusesTextsOnce (matrix_format tile) }
    ensures configuration_tables { (tile : PlainTile) → RefusesTextsOnce (config_format tile) }
{}
