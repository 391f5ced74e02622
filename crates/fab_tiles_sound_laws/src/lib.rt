//! The module of a tile is sound.
#![tactic(auto)]

ghost use Rattle.std.specs.Prelude.{◌≡◌, ◌⊎◌, ℕ, List};
ghost use Rattle.fab_syntax.specs.Plain.{PlainModule};
ghost use Rattle.fab_syntax.specs.Sound.{ServesAsClock};
ghost use Rattle.fab_meaning.specs.Runs.{user_clock_name, clock_name};
ghost use Rattle.fab_model.specs.declared.mode.Mode.{Mode};
ghost use Rattle.fab_model.specs.declared.mode.Mode.TheVariants as modes;
ghost use Rattle.fab_model.specs.Tiles.{PlainTile, IsTile};
ghost use Rattle.fab_parts_sound_laws.specs.fab_gen_tile_Words.{IsNamed};
ghost use Rattle.fab_parts_sound_laws.specs.fab_gen_tile_TileModule.{tile_module};
ghost use Rattle.fab_parts_sound_laws.specs.Fits.{FitsIn};
ghost use Rattle.fab_tiles_sound_laws.specs.Has.{HasModules};

/// The module of a tile fits into a text behind modules among which are those that it uses. No port but UserCLK serves it as a clock, and in
/// a chain CLK.
pub fn tiles_fit()
    ensures fits { (mode : Mode) (text before : List PlainModule) (tile : PlainTile) → IsTile tile → IsNamed tile →
        HasModules mode before tile → HasModules mode text tile → FitsIn text before (tile_module mode tile) }
    ensures clocks { (mode : Mode) (text : List PlainModule) (tile : PlainTile) (port : List ℕ) → HasModules mode text tile →
        ServesAsClock text (tile_module mode tile) port → (port ≡ user_clock_name) ⊎ ((mode ≡ modes.Chain) × (port ≡ clock_name)) }
{}
