//! The laws of readiness: whatever stands in the files, a command is ready, or it comes upon a first refusal. That it never is both, and has one first
//! refusal, is proved beside each command. Each function does nothing: its contract is a law.
#![tactic(auto)]

ghost use Rattle.fab_commands.specs.Running.{IsReady, Meets};
ghost use Rattle.fab_desk.specs.Files.{Map};
ghost use Rattle.fab_flow.specs.Assembling.{AssemblyFiles, IsReadyToAssemble, MeetsAssembly};
ghost use Rattle.fab_flow.specs.BitFeatures.{FeaturesFiles, IsReadyForFeatures, MeetsBitFeatures};
ghost use Rattle.fab_flow.specs.Bits.{BitsFiles, IsReadyForBits, MeetsBits};
ghost use Rattle.fab_flow.specs.Flowing.{FlowFiles, IsReadyToFlow, MeetsFlow};
ghost use Rattle.fab_flow.specs.Generating.{IsReadyToGenerate, MeetsGenerate};
ghost use Rattle.fab_flow.specs.Mapping.{IsReadyToMap, MappingFiles, MeetsMapping};
ghost use Rattle.fab_flow.specs.Matrix.{IsReadyForMatrix};
ghost use Rattle.fab_flow.specs.Partial.{IsReadyToExchange, MeetsPartial, PartialFiles};
ghost use Rattle.fab_flow.specs.Serial.{IsReadyForSerial, MeetsSerial};
ghost use Rattle.fab_judged_laws.specs.Judged.{HoldBytes, IsReadyOrRefused};
ghost use Rattle.fab_list_files.specs.Sides.{MeetsPairs};
ghost use Rattle.fab_ready_laws.specs.Formats.{BlifsAreJudged, ConstraintsAreJudged, DevicesAreJudged, ImplementationTextsAreJudged, NetlistTextsAreJudged, StatesAreJudged, StimuliAreJudged};
ghost use Rattle.fab_ready_laws.specs.Implementations.{ImplementationsAreJudged};
ghost use Rattle.fab_simulate_command.specs.Simulating.{IsReadyToSimulate, MeetsSimulation, SimulationFiles};
ghost use Rattle.fab_words.specs.declared.job.Job.{Job};
ghost use Rattle.std.specs.Prelude.{List, ℕ};

use fab_legal::packed_is_well_made;
use fab_meaning::laws::points_of_sound_texts_have_one_driver;
use fab_spelled_designs_laws::spelled_designs_are_sound;
use fab_spelled_fabrics_laws::{spelled_fabrics_are_fabrics, spelled_fabrics_have_tiles};
use fab_ways_laws::ends_are_steps;

/// A BLIF file has a netlist, or a first refusal: a line, a model, a driver, a net, a clock or a cycle of covers. So has one whose wide covers are split.
pub fn blif_is_judged()
    ensures read { BlifsAreJudged }
    ensures split { NetlistTextsAreJudged }
{}

/// A pcf file spells constraints of the ports of a netlist, or a line is the first that is refused.
pub fn constraints_are_judged()
    ensures { ConstraintsAreJudged }
{}

/// The file of an implementation spells one, or a line is the first that is refused, or it is cut short.
pub fn implementation_texts_are_judged()
    ensures { ImplementationTextsAreJudged }
{}

/// An implementation on a fabric is legal, or one of the nine rules is the first that it breaks, with the first item that breaks it.
pub fn implementations_are_judged()
    ensures { ImplementationsAreJudged }
{
    ends_are_steps();
}

/// A Verilog file can be simulated, or it has a first refusal: of its text, of a rule that it breaks, or for its points.
pub fn devices_are_judged()
    ensures { DevicesAreJudged }
{}

/// The file of a state spells one for a sound text, or it has a first refusal: a line, or what the text has no point for.
pub fn states_are_judged()
    ensures { StatesAreJudged }
{
    points_of_sound_texts_have_one_driver();
}

/// The file of a stimulus spells one for the ports of a state, or a line is the first that is refused.
pub fn stimuli_are_judged()
    ensures { StimuliAreJudged }
{}

/// `matrix` is ready, or the list is refused.
pub fn matrix_is_ready_or_refused()
    ensures { (files : Map) (list : List ℕ) → IsReadyOrRefused (IsReadyForMatrix files list) (MeetsPairs files list) }
{}

/// `generate` is ready, or the fabric is refused, or its text is too long.
pub fn generate_is_ready_or_refused()
    ensures { (files : Map) (name : List ℕ) → IsReadyOrRefused (IsReadyToGenerate files name) (MeetsGenerate files name) }
{}

/// `serial` is ready, or the fabric file is refused, or the fabric's configuration is a chain, or its text is too long.
pub fn serial_is_ready_or_refused()
    ensures { (files : Map) (name : List ℕ) → IsReadyOrRefused (IsReadyForSerial files name) (MeetsSerial files name) }
{}

/// `bits` is ready, or one of its files is refused, or a feature.
pub fn bits_is_ready_or_refused()
    ensures { (files : Map) (names : BitsFiles) → IsReadyOrRefused (IsReadyForBits files names) (MeetsBits files names) }
{}

/// Of files that hold bytes, `features` is ready, or one of them is refused.
pub fn features_is_ready_or_refused()
    ensures { (files : Map) → HoldBytes files → (names : FeaturesFiles) → IsReadyOrRefused (IsReadyForFeatures files names) (MeetsBitFeatures files names) }
{
    spelled_fabrics_are_fabrics();
}

/// `partial` is ready, or one of its files is refused, or the columns are, or a feature.
pub fn partial_is_ready_or_refused()
    ensures { (files : Map) (names : PartialFiles) → IsReadyOrRefused (IsReadyToExchange files names) (MeetsPartial files names) }
{
    spelled_fabrics_have_tiles();
}

/// `map` is ready, or one of its files is refused, or the fabric is short of sites. With which fault it may end when it is ready stands with the command.
pub fn map_is_ready_or_refused()
    ensures { (files : Map) (names : MappingFiles) → IsReadyOrRefused (IsReadyToMap files names) (MeetsMapping files names) }
{}

/// `flow` is ready, or one of its files is refused, or the text of the fabric is too long, or there is no such reset port, or the fabric is short of sites.
pub fn flow_is_ready_or_refused()
    ensures { (files : Map) (names : FlowFiles) → IsReadyOrRefused (IsReadyToFlow files names) (MeetsFlow files names) }
{}

/// `assemble` is ready, or one of its files is refused, or there is no such reset port, or the fabric is short of sites, or a rule is broken. So is `timing`.
pub fn assemble_is_ready_or_refused()
    ensures { (files : Map) (names : AssemblyFiles) → IsReadyOrRefused (IsReadyToAssemble files names) (MeetsAssembly files names) }
{
    spelled_designs_are_sound();
    packed_is_well_made();
    implementations_are_judged();
}

/// Of files that hold bytes, `simulate` is ready, or one of them is refused.
pub fn simulate_is_ready_or_refused()
    ensures { (files : Map) → HoldBytes files → (names : SimulationFiles) → IsReadyOrRefused (IsReadyToSimulate files names) (MeetsSimulation files names) }
{
    points_of_sound_texts_have_one_driver();
}

/// Each job is ready on files that hold bytes, or it comes upon a first refusal there.
pub fn jobs_are_ready_or_refused()
    ensures { (job : Job) (files : Map) → HoldBytes files → IsReadyOrRefused (IsReady job files) (Meets job files) }
{
    spelled_fabrics_are_fabrics();
    spelled_fabrics_have_tiles();
    points_of_sound_texts_have_one_driver();
    spelled_designs_are_sound();
    packed_is_well_made();
    implementations_are_judged();
}
