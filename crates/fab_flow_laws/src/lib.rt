//! The laws of the files that `flow` and other commands stored: what stands under their names as long as they are kept, that `simulate` and `bits` read
//! them, that a simulation of them shows the run of the netlist, and that features and bitstreams come back. Each function does nothing: its contract is a law.
#![tactic(auto)]

ghost use Rattle.fab_flow_laws.specs.BitsLaws.{BitMapsAreOne, BitMapsSelectInputs, DesignFeaturesAreRight, SpelledBitsAreSaid};
ghost use Rattle.fab_flow_laws.specs.FeaturesLaws.{AssembledBitstreamsComeBack, AssembledFeaturesAreTheirBits, FeaturesGiveBitsBack, FlowBitstreamsComeBack, FlowFeaturesAreTheirBits, SpelledFeaturesAreWritten, SpelledPairsStandOnce};
ghost use Rattle.fab_flow_laws.specs.ReadyLaws.{FlowFilesAreReady};
ghost use Rattle.fab_flow_laws.specs.SimulatedLaws.{FlowFilesSimulate};
ghost use Rattle.fab_flow_laws.specs.StoredLaws.{FlowFilesStand};

pub use fab_flow::{
    do_assemble, do_bits, do_features, do_flow, do_generate, do_map, do_matrix, do_partial,
    do_serial, do_timing,
};
pub use fab_legal_states_laws::{legal_implementations_are_short, legal_states_are_short};
use fab_legal_states_laws::{
    bitstreams_are_short, fabric_texts_have_streams, legal_states_have_entries,
};
use fab_netlist_traces_laws::{legal_designs_simulate, legal_designs_simulate_in_order};
pub use fab_simulate_command::do_simulate;
pub use fab_spelled_designs_laws::{legal_designs_are_spelled, spelled_designs_are_sound};
use fab_text_reads_laws::generated_texts_are_read;

/// As long as BASE.v, BASE.bit and BASE.state of a flow stand, they hold the text of its fabric, the words of its bits and the text of its state.
pub fn flow_files_stand()
    ensures { FlowFilesStand }
{}

/// Of the files that a flow stored `simulate` refuses nothing: where the text has few enough points, the text of the state is no longer than a file may be,
/// and the stimulus is read for the state's ports.
pub fn flow_files_are_ready()
    ensures { FlowFilesAreReady }
{
    flow_files_stand();
    generated_texts_are_read();
    spelled_designs_are_sound();
    legal_designs_are_spelled();
    fabric_texts_have_streams();
    legal_states_have_entries();
    bitstreams_are_short();
}

/// The trace that `simulate` makes of the files that `flow` stored is that of a run of the netlist: without an order, and with one for every seed.
pub fn flow_files_simulate()
    ensures { FlowFilesSimulate }
{
    flow_files_stand();
    generated_texts_are_read();
    legal_designs_simulate();
    legal_designs_simulate_in_order();
    spelled_designs_are_sound();
    legal_designs_are_spelled();
}

/// A list of features has at most one bit map: two are equal at each configuration bit of each place.
pub fn bit_maps_are_one()
    ensures { BitMapsAreOne }
{}

/// The bits that features set select, for each output of a switch matrix, one of its inputs, or have the value 0.
pub fn bit_maps_select_inputs()
    ensures { BitMapsSelectInputs }
{}

/// In a fabric as tables promise it, whose names are free and whose BELs have prefixes, but for MUX8LUTs, the features that bits spell are features of
/// the fabric, and no output has two inputs. By their bit map each BEL is configured and each wire driven as by these bits. Where no pair stands twice
/// and no select value is outside the pairs of its output, these bits are their bit map.
pub fn spelled_bits_are_said()
    ensures { SpelledBitsAreSaid }
{}

/// In such a fabric, the features of a legal implementation are features of the fabric, and no output has two inputs.
pub fn design_features_are_right()
    ensures { DesignFeaturesAreRight }
{}

/// In a fabric that files spell no pair of a switch matrix stands twice.
pub fn spelled_pairs_stand_once()
    ensures { SpelledPairsStandOnce }
{}

/// The features that configuration bits of such a fabric spell can be written as lines, each with its name, address and value.
pub fn spelled_features_are_written()
    ensures { SpelledFeaturesAreWritten }
{}

/// With a file that spells the same fabric, `bits` refuses nothing of BASE.fasm of an assembly or of a flow, where it can be handed out, and makes the bytes
/// that were stored as BASE.bit.
pub fn written_features_are_their_bits()
    ensures assemblies { AssembledFeaturesAreTheirBits }
    ensures flows { FlowFeaturesAreTheirBits }
{
    bit_maps_are_one();
    design_features_are_right();
    legal_designs_are_spelled();
}

/// With a file that spells the same fabric, `bits` refuses nothing of what `features` wrote, where it can be handed out, and makes bits by which each BEL is
/// configured and each wire driven as by those of the bitstream. Where no select value of these is outside the pairs of its output, it makes the bytes of
/// the bitstream; so it does of BASE.bit of an assembly or of a flow.
pub fn features_give_bits_back()
    ensures any { FeaturesGiveBitsBack }
    ensures assemblies { AssembledBitstreamsComeBack }
    ensures flows { FlowBitstreamsComeBack }
{
    bit_maps_are_one();
    bit_maps_select_inputs();
    spelled_bits_are_said();
    spelled_pairs_stand_once();
    spelled_features_are_written();
}
