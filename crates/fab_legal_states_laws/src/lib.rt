//! The laws of what is printed of a legal implementation: its state stands in the text of its fabric, and no text is longer than a file may be.
//! Each function does nothing: its contract is a law.
#![tactic(auto)]

ghost use Rattle.fab_legal_states_laws.specs.ShortLaws.{BitstreamsAreShort, LegalImplementationsAreShort, LegalStatesAreShort};
ghost use Rattle.fab_legal_states_laws.specs.StandingLaws.{FabricTextsHaveStreams, LegalStatesHaveEntries};

/// The top of a fabric's text has the two clocks and the inputs that carry words.
pub fn fabric_texts_have_streams()
    ensures { FabricTextsHaveStreams }
{}

/// The text of a fabric has the port or the flip-flop of each line of a legal implementation's state.
pub fn legal_states_have_entries()
    ensures { LegalStatesHaveEntries }
{}

/// The bitstream of a fabric is never too long.
pub fn bitstreams_are_short()
    ensures { BitstreamsAreShort }
{}

/// Where names are short, the text of a legal implementation is not too long.
pub fn legal_implementations_are_short()
    ensures { LegalImplementationsAreShort }
{}

/// Where names of ports are short, the text of its state is not too long either.
pub fn legal_states_are_short()
    ensures { LegalStatesAreShort }
{}
