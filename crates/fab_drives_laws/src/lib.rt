//! The law of drives: in a fabric's text each wire has the value of what drives it.
#![tactic(auto)]

ghost use Rattle.std.specs.Prelude.{◌≡◌, ◌≢◌, ◌∷◌, All, AllPairs, List, [], codes};
ghost use Rattle.fab_syntax.specs.Plain.{PlainModule};
ghost use Rattle.fab_fabric_text_defs.specs.fab_model_Grid.{PlainFabric};
ghost use Rattle.fab_fabric_text_defs.specs.fab_fabric_Fabric.{AreTiles, IsFabric};
ghost use Rattle.fab_fabric_text_defs.specs.fab_gen_loader_Loader.{loader_module_name};
ghost use Rattle.fab_fabric_text_defs.specs.Text.{fabric_text};
ghost use Rattle.fab_fabric_text_defs.specs.Top.{top_module};
ghost use Rattle.fab_drives_laws.specs.Drives.{ShowsDrives};
ghost use Rattle.fab_drives_laws.specs.Examples.{declared_names, small_chain, small_chain_names, small_fabric, small_sources, small_top_names, ShowsCrossing};

/// In the text of a fabric, with any loaders, each wire has the value of what drives it under the configuration bits.
pub fn fabric_texts_show_drives()
    ensures { (fabric : PlainFabric) (loaders : List PlainModule) → IsFabric fabric → AreTiles fabric → All (λ loader. loader.name ≡ loader_module_name) loaders →
        ShowsDrives fabric (fabric_text fabric loaders) }
{}

/// A small fabric keeps all that the law asks for, and so a wire of it has the value of one of the tile beside it. The ports and wires of its
/// top have the names that they should have, and no two of them one name.
pub fn small_fabric_shows_drives()
    ensures fabric { IsFabric small_fabric }
    ensures tiles { AreTiles small_fabric }
    ensures crosses { (loaders : List PlainModule) → All (λ loader. loader.name ≡ loader_module_name) loaders → ShowsCrossing (fabric_text small_fabric loaders) }
    ensures names { declared_names (top_module small_fabric) ≡ small_top_names }
    ensures apart { AllPairs (λ first second. first ≢ second) small_top_names }
{}

/// With a chain the top of the same fabric has a wire behind each tile in place of the loader's nets. Column by column each tile reads
/// the wire behind the tile before it, and the first reads what is written.
pub fn small_chain_goes_through_tiles()
    ensures names { declared_names (top_module small_chain) ≡ small_chain_names }
    ensures apart { AllPairs (λ first second. first ≢ second) small_chain_names }
    ensures sources { small_sources ≡ codes "WriteData" ∷ codes "X0Y0_fab_chain" ∷ codes "X0Y1_fab_chain" ∷ codes "X1Y0_fab_chain" ∷ [] }
{}
