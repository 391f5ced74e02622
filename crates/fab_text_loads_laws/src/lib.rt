//! The law of loading: the words of a bitstream configure the text of a fabric, whatever its flip-flops and latches held.
#![tactic(auto)]

ghost use Rattle.std.specs.Prelude.{List};
ghost use Rattle.fab_syntax.specs.Plain.{PlainModule};
ghost use Rattle.fab_drives_laws.specs.fab_model_Grid.{PlainFabric};
ghost use Rattle.fab_drives_laws.specs.fab_fabric_Fabric.{IsFabric};
ghost use Rattle.fab_text_loads_laws.specs.Loads.{LoadsConfigurations};
ghost use Rattle.fab_drives_laws.specs.fab_fabric_text_defs_Texts.{IsFabricText};

use fab_load_runs_laws::loading_runs_exist;
use fab_loading_laws::{chains_load, streams_load, ticks_keep_machines, tiles_are_one_chain};
use fab_meaning::laws::{loading_points_stay, loading_runs_agree};

/// In the text of a fabric, in frames with any loader that steps by the table, or in a chain, the words of the bitstream of any bits load these bits.
pub fn fabric_texts_load()
    ensures { (fabric : PlainFabric) (text : List PlainModule) → IsFabric fabric → IsFabricText fabric text → LoadsConfigurations fabric text }
{
    loading_runs_agree();
    loading_points_stay();
    loading_runs_exist();
    ticks_keep_machines();
    streams_load();
    tiles_are_one_chain();
    chains_load();
}
