//! Texts are read in pieces, or as a whole.

ghost use Rattle.std.specs.Prelude.{◌≡◌, ◌⊎◌, ◌≤◌, ◌+◌, ◌++◌, [], ℕ, length, List, IfOk, IsErr, OnOk, OnErr, Ok, Err, Result};
ghost use Rattle.std.specs.Result.{IfErr};
ghost use Rattle.fab_base.specs.declared.fault.Fault.{Fault};
ghost use Rattle.fab_base.specs.declared.fault.Fault.TheVariants as faults;
ghost use Rattle.fab_base.specs.Reading.{Fails, Gives};
ghost use Rattle.fab_syntax.specs.Plain.{PlainModule, plain_text};
ghost use Rattle.fab_syntax.specs.Spelling.{text_bytes};
ghost use Rattle.fab_grammar_defs.specs.Grammar.{SpellsText};
ghost use Rattle.fab_grammar_defs.specs.Printable.{IsPrintableText};
ghost use Rattle.fab_vread.specs.Refusals.{IsVerilogRefusal};

use crate::parser::put;
use crate::progress::Progress;
use fab_base::{Fault, MAX_FILE_BYTES, Memory, Name};
use fab_syntax::Text;
use std::alloc::Global;
use std::mem;

/// What has come of the pieces so far.
#[derive(Drop)]
enum Standing {
    /// All their bytes were taken.
    Going,
    /// The first fault in them.
    Refused(Fault),
    /// Memory was refused.
    Spent,
}

/// A reader of one Verilog text that comes in pieces, cut anywhere. It keeps what the pieces spell, and none of their bytes.
#[derive(Drop)]
pub struct Reader {
    alloc: Global,
    file: Name,
    progress: Progress,
    standing: Standing,
    fed: usize,
    ghost lines: { progress.line ≤ fed + 1 },
}

impl Reader {
    ghost use Rattle.fab_vread.specs.declared.reader.Standing.TheVariants as standings;
    ghost use Rattle.fab_vread.specs.inner.Progress.{plain_progress};
    ghost use Rattle.fab_vread.specs.inner.Machine.{Progress as PlainProgress, finished, read_from, read_of};
    ghost use Rattle.fab_vread.specs.Pieces.{HasRead, IsSpent, StandsAt, fed_len};

    /// A reader of a file's text, which was fed nothing yet. The error comes where memory is refused.
    pub fn new(alloc: Global, file: &Name) -> Result<Reader, Memory>
        ensures { IfOk result (HasRead file.now []) }
    {
        Ok(Reader {
            alloc,
            file: file.copy(alloc)?,
            progress: Progress::new(alloc),
            standing: Standing::Going,
            fed: 0,
        })
    }

    /// Keeps a fault of the pieces.
    fn refuse(&mut self, fault: Fault) -> Result<(), Memory>
        ensures stands { (come : Result PlainProgress Fault) → Fails fault come → OnOk result (StandsAt self.new.standing (plain_progress self.new.progress) come) }
        ensures spent { OnErr result (IsSpent self.new) }
        ensures file { self.new.file ≡ self.old.file }
        ensures fed { self.new.fed ≡ self.old.fed }
    {
        match fault {
            Fault::Memory => {
                put(&mut self.standing, Standing::Spent);
                Err(Memory)
            }
            first => {
                put(&mut self.standing, Standing::Refused(first));
                Ok(())
            }
        }
    }

    /// Takes a piece that is counted already, where nothing is refused.
    fn take(&mut self, piece: &[u8]) -> Result<(), Memory>
        requires going { self.old.standing ≡ standings.Going }
        requires room { self.old.progress.line + length piece.now ≤ self.old.fed + 1 }
        requires few { self.old.fed ≤ MAX_FILE_BYTES }
        ensures stands { OnOk result (StandsAt self.new.standing (plain_progress self.new.progress) (read_from self.old.file (plain_progress self.old.progress) piece.now)) }
        ensures spent { OnErr result (IsSpent self.new) }
        ensures file { self.new.file ≡ self.old.file }
        ensures fed { self.new.fed ≡ self.old.fed }
    {
        match self.progress.take_bytes(self.alloc, &self.file, piece) {
            Ok(()) => Ok(()),
            Err(fault) => self.refuse(fault),
        }
    }

    /// Takes the next piece of the text. Where the text is refused, `finish` says so: what stands behind the first fault is passed
    /// over. The error comes where memory is refused, and where it was for an earlier piece.
    pub fn feed(&mut self, piece: &[u8]) -> Result<(), Memory>
        requires { fed_len self.old + length piece.now ≤ MAX_FILE_BYTES }
        ensures read { (file bytes : List ℕ) → HasRead file bytes self.old → OnOk result (HasRead file (bytes ++ piece.now) self.new) }
        ensures counted { fed_len self.new ≡ fed_len self.old + length piece.now }
        ensures spent { OnErr result (IsSpent self.new) }
        ensures stays { IsSpent self.old → IsErr result }
    {
        self.fed += piece.len();
        match &self.standing {
            Standing::Going => self.take(piece),
            Standing::Refused(_) => Ok(()),
            Standing::Spent => Err(Memory),
        }
    }

    fn end(&mut self) -> Result<Text, Fault>
        ensures { Gives plain_text result (finished self.old.file (plain_progress self.old.progress)) }
    {
        let mut progress = mem::replace(&mut self.progress, Progress::new(self.alloc));
        let found = progress.finish(self.alloc, &self.file);
        // let go by a call: in this function, each form of each part would be a case of the proof
        mem::drop(progress);
        found
    }

    fn close(&mut self) -> Result<Text, Fault>
        ensures given { (file bytes : List ℕ) → HasRead file bytes self.old → Gives plain_text result (read_of file bytes) }
        ensures spent { IsSpent self.old → result ≡ Err faults.Memory }
    {
        match mem::replace(&mut self.standing, Standing::Spent) {
            Standing::Going => self.end(),
            Standing::Refused(fault) => Err(fault),
            Standing::Spent => Err(Fault::Memory),
        }
    }

    /// The text that the pieces spell, as `read` gives it for all of them as one piece, or its fault: wherever they were cut, the
    /// answer is the same. Where memory was refused for a piece, it is want of memory.
    pub fn finish(mut self) -> Result<Text, Fault>
        ensures found { (file bytes : List ℕ) → HasRead file bytes self → IfOk result (λ text. SpellsText 300 128 bytes (plain_text text)) }
        ensures only { (file bytes : List ℕ) → HasRead file bytes self → (modules : List PlainModule) → SpellsText 300 128 bytes modules → Gives plain_text result (Ok modules) }
        ensures printable { (file bytes : List ℕ) → HasRead file bytes self → IfOk result (λ text. IsPrintableText (plain_text text)) }
        ensures printed { (file bytes : List ℕ) → HasRead file bytes self → (modules : List PlainModule) → IsPrintableText modules → bytes ≡ text_bytes modules → Gives plain_text result (Ok modules) }
        ensures refused { (file bytes : List ℕ) → HasRead file bytes self → IfErr result (λ fault. (fault ≡ faults.Memory) ⊎ IsVerilogRefusal file bytes fault) }
        ensures spent { IsSpent self → result ≡ Err faults.Memory }
    {
        let found = self.close();
        mem::drop(self);
        found
    }
}

/// Reads a Verilog text. Where its bytes spell a tree, with at most 300 brackets open in one another within an expression
/// and at most 128 bits in a constant, that tree is read. Else the fault is that of the first token that cannot stand
/// where it stands, at its line (at the last line where the text ends too early): Unsupported for a word of Verilog that
/// the profile lacks, in the first place of an item or a port or in that of the edge, and Malformed `token` for any other.
/// Where a line above a bound holds no such token, Limit `expression depth` comes at that line, or else `literal bits` with
/// the bits of the first constant that has too many. What `print` gives of a printable text is read as that text, and
/// each text that is read is printable.
pub fn read(alloc: Global, file: &Name, bytes: &[u8]) -> Result<Text, Fault>
    requires { length bytes.now ≤ MAX_FILE_BYTES }
    ensures found { IfOk result (λ text. SpellsText 300 128 bytes.now (plain_text text)) }
    ensures only { (modules : List PlainModule) → SpellsText 300 128 bytes.now modules → Gives plain_text result (Ok modules) }
    ensures printable { IfOk result (λ text. IsPrintableText (plain_text text)) }
    ensures printed { (modules : List PlainModule) → IsPrintableText modules → bytes.now ≡ text_bytes modules → Gives plain_text result (Ok modules) }
    ensures refused { IfErr result (λ fault. (fault ≡ Fault.Memory) ⊎ IsVerilogRefusal file.now bytes.now fault) }
{
    let mut reader = Reader::new(alloc, file)?;
    // where memory is refused, `finish` says so again
    let _ = reader.feed(bytes);
    reader.finish()
}
