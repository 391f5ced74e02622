//! The use of a loaded text as a design: definitions alone, in specs/. `Headline` says what is proved of a legal implementation, and a reader
//! of it reads `Sites`, `Configuration`, `Design`, `Cycles` and `Registers` before. `Configuring` says when configuration bits are those of a
//! design. `Sources` and `Ways` say what each point of a design shows; the proofs stand on them, and the headline does not speak of them.
#![tactic(auto)]

pub use fab_text_loads_laws::fabric_texts_load;
