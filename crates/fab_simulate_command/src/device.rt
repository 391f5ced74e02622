//! The text that is simulated, and the words that are loaded.

ghost use Rattle.std.specs.Prelude.{◌≡◌, ◌<◌, ◌≤◌, ◌+◌, ◌^◌, ◌++◌, ◌⊎◌, ℕ, List, All, IfOk, IfErr, OnOk, OnErr, length};
ghost use Rattle.std.specs.Option.{ForSome};
ghost use Rattle.fab_base.specs.declared.TheConstants.{MAX_FILE_BYTES};
ghost use Rattle.fab_base.specs.declared.fault.Fault.TheVariants as faults;
ghost use Rattle.fab_files.specs.Files.{HasReadCause};
ghost use Rattle.fab_files.specs.Stages.{ReadsFrom};
ghost use Rattle.fab_frames.specs.Refusals.{IsCut};
ghost use Rattle.fab_grammar_defs.specs.Grammar.{SpellsText};
ghost use Rattle.fab_syntax.specs.Plain.{plain_text};
ghost use Rattle.fab_vread.specs.Pieces.{HasRead, IsSpent, fed_len};
ghost use Rattle.fab_vread.specs.Refusals.{IsVerilogRefusal};
ghost use Rattle.fab_simulate_command.specs.Simulating.{MeetsDevice, MeetsWords, ReadsWords, SpellsWords};

use fab_base::{Fault, MAX_FILE_BYTES, Memory, Name};
use fab_desk::Desk;
use fab_files::fetch;
use fab_frames::to_words;
use fab_syntax::Text;
use fab_vread::Reader;
use std::alloc::Global;

/// How many bytes of a text its reader is fed at once.
const PIECE_BYTES: usize = 65_536;

/// Feeds bytes to a reader, piece by piece. The error comes where memory is refused.
fn feed_pieces(reader: &mut Reader, bytes: &[u8]) -> Result<(), Memory>
    requires { fed_len reader.old + length bytes.now ≤ MAX_FILE_BYTES }
    ensures read { (file before : List ℕ) → HasRead file before reader.old → OnOk result (HasRead file (before ++ bytes.now) reader.new) }
    ensures spent { OnErr result (IsSpent reader.new) }
{
    for piece in bytes.chunks(PIECE_BYTES) {
        reader.feed(piece)?;
    }
    Ok(())
}

/// The text that a file's bytes spell.
fn text_of_bytes(alloc: Global, file: &Name, bytes: &[u8]) -> Result<Text, Fault>
    requires { length bytes.now ≤ MAX_FILE_BYTES }
    ensures spelled { IfOk result (λ text. SpellsText 300 128 bytes.now (plain_text text)) }
    ensures refused { IfErr result (λ fault. (fault ≡ faults.Memory) ⊎ IsVerilogRefusal file.now bytes.now fault) }
{
    let mut reader = Reader::new(alloc, file)?;
    // where memory is refused, `finish` says so again
    let _ = feed_pieces(&mut reader, bytes);
    reader.finish()
}

/// The text of a Verilog file that has to be there.
pub fn read_text<D: Desk>(alloc: Global, desk: &mut D, file: &Name) -> Result<Text, Fault>
    ensures told { D.told desk.new ≡ D.told desk.old }
    ensures writes { D.writes desk.new ≡ D.writes desk.old }
    ensures reads { D.reads desk.old ≤ D.reads desk.new }
    ensures spelled { ForSome (D.told desk.old) (λ files. IfOk result (λ text. ReadsFrom files file.now (SpellsText 300 128) (plain_text text))) }
    ensures cause { IfErr result (HasReadCause (D.told desk.old) (D.reads desk.old < D.reads desk.new) (λ files. MeetsDevice files file.now)) }
{
    let bytes = fetch(alloc, desk, file)?;
    text_of_bytes(alloc, file, &bytes)
}

/// Words have 32 bits.
fn words_fit(words: &[u32])
    ensures { All (λ word. word < 2 ^ 32) words.now }
{}

/// The words that bytes spell.
fn words_of_bytes(alloc: Global, file: &Name, bytes: &[u8]) -> Result<Vec<u32>, Fault>
    requires { length bytes.now ≤ MAX_FILE_BYTES }
    ensures spelled { IfOk result (λ words. SpellsWords bytes.now words.items) }
    ensures refused { IfErr result (λ fault. (fault ≡ faults.Memory) ⊎ IsCut file.now bytes.now fault) }
{
    let words = to_words(alloc, file, bytes)?;
    words_fit(&words);
    Ok(words)
}

/// The words of a file that has to be there.
pub fn read_words<D: Desk>(alloc: Global, desk: &mut D, file: &Name) -> Result<Vec<u32>, Fault>
    ensures told { D.told desk.new ≡ D.told desk.old }
    ensures writes { D.writes desk.new ≡ D.writes desk.old }
    ensures reads { D.reads desk.old ≤ D.reads desk.new }
    ensures spelled { ForSome (D.told desk.old) (λ files. IfOk result (λ words. ReadsWords files file.now words.items)) }
    ensures cause { IfErr result (HasReadCause (D.told desk.old) (D.reads desk.old < D.reads desk.new) (λ files. MeetsWords files file.now)) }
{
    let bytes = fetch(alloc, desk, file)?;
    words_of_bytes(alloc, file, &bytes)
}
