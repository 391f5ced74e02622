//! The laws of designs that files spell: names of ports are words, netlists are well made, designs are sound, and what is printed of a legal
//! implementation is read back. Each function does nothing: its contract is a law.
#![tactic(auto)]

ghost use Rattle.fab_spelled_designs_laws.specs.DesignLaws.{LegalDesignsAreSpelled, SpelledDesignsAreSound};
ghost use Rattle.fab_spelled_designs_laws.specs.PortLaws.{NetlistsAreWellMade, PortNamesAreWords, WideNetlistsAreMade};

/// In the netlist of a BLIF text the name of each data port is a word: not empty, without a blank, a tab, `#`, LF or CR. So it can stand in any
/// line of the texts of words.
pub fn port_names_are_words()
    ensures { PortNamesAreWords }
{}

/// The netlist of a BLIF text is well made: among others each net that is read has one driver, and no two ports have one name. It is so
/// with covers of up to 16 inputs, and with the tables of covers of at most four.
pub fn netlists_are_well_made()
    ensures wide { WideNetlistsAreMade }
    ensures narrow { NetlistsAreWellMade }
{}

/// A design that files spell has a fabric as tables promise it, and a netlist that is well made.
pub fn spelled_designs_are_sound()
    ensures { SpelledDesignsAreSound }
{}

/// What is printed of a legal implementation of a design that files spell is read back: its own text, the text of its state, and its
/// features. Ports and wires have names that are words and names of wires have no dot, the numbers of sites and cells can be written, and tables have
/// 16 bits.
pub fn legal_designs_are_spelled()
    ensures { LegalDesignsAreSpelled }
{}
