//! The laws of samples: their fabrics, netlists and stimuli are read, the text of their fabrics is small, and a flow refuses nothing of their designs.
//! Each function does nothing: its contract is a law.
#![tactic(auto)]

ghost use Rattle.fab_sample_laws.specs.Designs.{SampleDesignsAreRead};
ghost use Rattle.fab_sample_laws.specs.Fabrics.{SampleFabricsAreRead};
ghost use Rattle.fab_sample_laws.specs.Laws.{SampleNetlistsAreRead, SampleStimuliAreRead};
ghost use Rattle.fab_sample_laws.specs.Ready.{SamplesAreReady};
ghost use Rattle.fab_sample_laws.specs.Sites.{SampleFabricsHaveSites};
ghost use Rattle.fab_sample_laws.specs.Sizes.{SampleTextsAreSmall};

/// The netlist that is drawn for a sample of any size from 2 to 16 is a BLIF file, of the model that was drawn, and fits on two look-up
/// tables for each tile of logic and two pads for each row.
pub fn sample_netlists_are_read()
    ensures { SampleNetlistsAreRead }
{}

/// The stimulus that is drawn for such a sample is one for the inputs of its netlist, and is read as it was drawn.
pub fn sample_stimuli_are_read()
    ensures { SampleStimuliAreRead }
{}

/// The files that a sample of any size from 2 to 16 has for its fabric are read, and spell that many rows of as many logic tiles, with
/// two look-up tables in each and two pads at both ends of each row.
pub fn sample_fabrics_are_read()
    ensures { SampleFabricsAreRead }
{}

/// Such a fabric has two sites of look-up tables for each tile of logic, and four of pads for each row.
pub fn sample_fabrics_have_sites()
    ensures { SampleFabricsHaveSites }
{}

/// The text that the generator makes of a sample's fabric, of any size from 2 to 16, takes at most a quarter of the bytes that a file may have,
/// and has no more points and instances than a text may have that is simulated.
pub fn sample_texts_are_small()
    ensures { SampleTextsAreSmall }
{}

/// The files of a sample of any size from 2 to 16 spell its fabric and its netlist, and the fabric has sites for the netlist.
pub fn sample_designs_are_read()
    ensures { SampleDesignsAreRead }
{}

/// A flow refuses nothing of such files.
pub fn samples_are_ready()
    ensures { SamplesAreReady }
{}
