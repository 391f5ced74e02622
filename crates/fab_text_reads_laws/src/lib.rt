//! The law that the text of a fabric can be printed and read again. Each function does nothing: its contract is a law.
#![tactic(auto)]

ghost use Rattle.fab_text_reads_laws.specs.Laws.{FabricTextsArePrintable, GeneratedTextsAreRead, LoadersArePrintable};

/// Every text of a fabric is printable whose types have names as tables have them, and whose loader is printable.
pub fn fabric_texts_are_printable()
    ensures { FabricTextsArePrintable }
{}

/// The loader that the generator writes is printable.
pub fn loaders_are_printable()
    ensures { LoadersArePrintable }
{}

/// The text that the generator makes of a fabric that files spell is printable, and what is printed of it spells it within the
/// reader's bounds: so it is read again.
pub fn generated_texts_are_read()
    ensures { GeneratedTextsAreRead }
{}
