//! What a tile does with its wires, wherever it stands in a text.
#![tactic(auto)]

ghost use Rattle.std.specs.Prelude.{List};
ghost use Rattle.fab_gen_tile.specs.fab_syntax.specs.Plain.{PlainModule};
ghost use Rattle.fab_gen_tile.specs.fab_meaning.specs.Points.{Path};
ghost use Rattle.fab_gen_tile.specs.fab_model.specs.declared.mode.Mode.{Mode};
ghost use Rattle.fab_gen_tile.specs.fab_model.specs.Tiles.{PlainTile, IsTile};
ghost use Rattle.fab_tile_drives_laws.specs.Stands.{TileStands};
ghost use Rattle.fab_tile_drives_laws.specs.Tiles.{TileWorks};

/// Wherever a tile and the modules that it uses stand in a text, its matrix outputs, its jumps, its border bits and its output pins have their
/// values, for laws about texts in which tiles stand side by side.
pub fn tiles_work()
    ensures { (mode : Mode) (text : List PlainModule) (path : Path) (tile : PlainTile) → IsTile tile → TileStands mode text path tile → TileWorks text path tile }
{}
