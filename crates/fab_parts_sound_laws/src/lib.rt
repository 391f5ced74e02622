//! The modules of a fabric without instances are sound, and texts of modules that fit are.
#![tactic(auto)]

ghost use Rattle.std.specs.Prelude.{◌≡◌, ◌≤◌, ℕ, List};
ghost use Rattle.fab_kinds.specs.declared.kind.Kind.{Kind};
ghost use Rattle.fab_syntax.specs.Plain.{PlainModule};
ghost use Rattle.fab_syntax.specs.Sound.{ServesAsClock};
ghost use Rattle.fab_tile_drives_laws.specs.fab_meaning_Runs.{clock_name, user_clock_name};
ghost use Rattle.fab_tile_drives_laws.specs.fab_model_mode_Mode.{Mode};
ghost use Rattle.fab_tile_drives_laws.specs.fab_model_mode_Mode_TheVariants as modes;
ghost use Rattle.fab_tile_drives_laws.specs.fab_model_Tiles.{PlainTile, IsTile};
ghost use Rattle.fab_tile_drives_laws.specs.fab_model_Tables.{HasTable};
ghost use Rattle.fab_tile_drives_laws.specs.fab_prim_Modules.{module_of_kind};
ghost use Rattle.fab_tile_drives_laws.specs.fab_gen_tile_ConfigModule.{config_module};
ghost use Rattle.fab_tile_drives_laws.specs.fab_gen_tile_MatrixModule.{matrix_module};
ghost use Rattle.fab_tile_drives_laws.specs.fab_gen_tile_Words.{IsNamed};
ghost use Rattle.fab_gen_loader.specs.Expressions.{loader_module};
ghost use Rattle.fab_parts_sound_laws.specs.Fits.{FitsIn, FittingTextsAreSound};

/// A text is sound if each of its modules fits behind those before it, and no two have one name.
pub fn fitting_texts_are_sound()
    ensures { FittingTextsAreSound }
{}

/// The module of each kind of BEL fits, and no port but UserCLK serves it as a clock.
pub fn primitives_fit()
    ensures fits { (text before : List PlainModule) (kind : Kind) → FitsIn text before (module_of_kind kind) }
    ensures clocks { (text : List PlainModule) (kind : Kind) (port : List ℕ) →
        ServesAsClock text (module_of_kind kind) port → port ≡ user_clock_name }
{}

/// The module of a tile's configuration bits fits where the bits have places. No port serves it as a clock in frames, and CLK alone in a
/// chain.
pub fn configurations_fit()
    ensures fits { (mode : Mode) (text before : List PlainModule) (tile : PlainTile) → HasTable tile →
        FitsIn text before (config_module mode tile) }
    ensures clocks { (mode : Mode) (text : List PlainModule) (tile : PlainTile) (port : List ℕ) →
        ServesAsClock text (config_module mode tile) port → (mode ≡ modes.Chain) × (port ≡ clock_name) }
{}

/// The module of a tile's switch matrix fits, and no port serves it as a clock.
pub fn matrices_fit()
    ensures fits { (text before : List PlainModule) (tile : PlainTile) → IsTile tile → IsNamed tile → FitsIn text before (matrix_module tile) }
    ensures clocks { (text : List PlainModule) (tile : PlainTile) (port : List ℕ) →
        ServesAsClock text (matrix_module tile) port → ⊥ }
{}

/// The module of the loader fits for 1 to 31 rows of tiles, and no port but CLK serves it as a clock.
pub fn loaders_fit()
    ensures fits { (text before : List PlainModule) (rows : ℕ) → 1 ≤ rows → rows ≤ 31 → FitsIn text before (loader_module rows) }
    ensures clocks { (text : List PlainModule) (rows : ℕ) (port : List ℕ) →
        ServesAsClock text (loader_module rows) port → port ≡ clock_name }
{}
