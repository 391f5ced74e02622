//! The text of a fabric is sound.
#![tactic(auto)]

ghost use Rattle.std.specs.Prelude.{All, List};
ghost use Rattle.fab_syntax.specs.Plain.{PlainModule};
ghost use Rattle.fab_syntax.specs.Sound.{IsSound};
ghost use Rattle.fab_model.specs.Grid.{PlainFabric};
ghost use Rattle.fab_fabric.specs.Fabric.{AreTiles, IsFabric};
ghost use Rattle.fab_drives_laws.specs.fab_gen_tile_Words.{IsNamed};
ghost use Rattle.fab_drives_laws.specs.fab_fabric_text_defs_Texts.{generated_text};
ghost use Rattle.fab_drives_laws.specs.fab_fabric_text_defs_Top.{top_module};
ghost use Rattle.fab_drives_laws.specs.Examples.{small_chain, small_fabric};
ghost use Rattle.fab_tiles_sound_laws.specs.fab_parts_sound_laws_Fits.{FitsIn};
ghost use Rattle.fab_text_sound_laws.specs.HasTop.{HasTopClocks, HasTopModules};

/// The top of a fabric fits into a text behind modules among which are its loaders and the modules of its tiles, where no port of
/// a loader but CLK and none of a tile but UserCLK and CLK serves as a clock.
pub fn tops_fit()
    ensures { (fabric : PlainFabric) (text before : List PlainModule) → IsFabric fabric → AreTiles fabric → All IsNamed fabric.types →
        HasTopModules before fabric → HasTopModules text fabric → HasTopClocks text fabric → FitsIn text before (top_module fabric) }
{}

/// The text of a fabric with the generator's loaders is sound.
pub fn fabric_texts_are_sound()
    ensures { (fabric : PlainFabric) → IsFabric fabric → AreTiles fabric → All IsNamed fabric.types →
        IsSound (generated_text fabric) }
{}

/// A small fabric keeps all that the law asks for, and so its text is sound, in frames and with a chain.
pub fn small_fabric_text_is_sound()
    ensures named { All IsNamed small_fabric.types }
    ensures sound { IsSound (generated_text small_fabric) }
    ensures chain { IsSound (generated_text small_chain) }
{}
