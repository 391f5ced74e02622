//! A text is read byte by byte, and its first token that cannot stand there is reported.

ghost use Rattle.std.specs.Prelude.{◌≡◌, ◌≤◌, ◌<◌, ◌+◌, ℕ, List, length, map, IfOk};
ghost use Rattle.fab_base.specs.Reading.{Gives};
ghost use Rattle.fab_syntax.specs.Plain.{plain_module, plain_text};
ghost use Rattle.fab_vread.specs.inner.Progress.{plain_progress};
ghost use Rattle.fab_vread.specs.Refusals.{next_line};
ghost use Rattle.fab_vread.specs.inner.Machine.{limit, first_progress, line_checked, past, after_lexeme, after_optional, after_char, read_from, is_done, closing, finished};

use crate::expressions::{MAX_BITS, Over};
use crate::levels::MAX_DEPTH;
use crate::parser::{Parser, State, put};
use crate::places::{Header, Place};
use crate::words::word_len;
use fab_base::{Fault, Memory, Name, Problem, Quantity, Reason};
use fab_syntax::Text;
use fab_tokens::{Scan, Token, finish, take_byte};
use std::alloc::Global;
use std::mem;

/// How far a text has been read.
#[derive(Drop)]
pub(crate) struct Progress {
    parser: Parser,
    /// The line of the last token.
    token_line: u32,
    /// What the bytes since the last token are.
    scan: Scan,
    /// The line of the last byte.
    last: u32,
    /// The line of the next byte.
    line: u32,
}

fn limit(over: Over) -> Problem
    ensures { result ≡ limit over }
{
    match over {
        Over::Depth => Problem::Limit(
            Quantity::ExpressionDepth,
            MAX_DEPTH as u64 + 1,
            MAX_DEPTH as u64,
        ),
        Over::Bits(bits) => Problem::Limit(Quantity::LiteralBits, bits, MAX_BITS as u64),
    }
}

fn past(over: Option<Over>, at: u32, line: u32) -> Option<Problem>
    ensures { result ≡ past over at line }
{
    match over {
        Some(over) if at < line => Some(limit(over)),
        _ => None,
    }
}

/// The line of the byte behind this one.
fn next_line(line: u32, byte: u8) -> u32
    requires { line < 4294967295 }
    ensures value { result ≡ next_line line byte }
    ensures near { result ≤ line + 1 }
{
    if byte == b'\n' { line + 1 } else { line }
}

impl Progress {
    /// No byte has been read.
    pub(crate) fn new(alloc: Global) -> Progress
        ensures first { plain_progress result ≡ first_progress }
        ensures line { result.line ≡ 1 }
    {
        Progress {
            parser: Parser::new(alloc),
            token_line: 1,
            scan: Scan::Between,
            last: 1,
            line: 1,
        }
    }

    /// What is above its bound is reported when its line is over.
    fn check_line(&self, alloc: Global, file: &Name) -> Result<(), Fault>
        ensures { Gives (λ _. plain_progress self.now) result (line_checked file.now (plain_progress self.now) (past self.now.parser.over self.now.token_line self.now.line)) }
    {
        match past(self.parser.over, self.token_line, self.line) {
            None => Ok(()),
            Some(problem) => Err(problem.at(alloc, file, self.token_line)),
        }
    }

    #[tactic(auto, unfolding(crate::specs::inner::Machine::after_lexeme))]
    fn take_token(&mut self, alloc: Global, file: &Name, token: Token) -> Result<(), Fault>
        ensures given { Gives (λ _. plain_progress self.new) result (after_lexeme file.now (plain_progress self.old) token) }
        ensures scan { self.new.scan ≡ self.old.scan }
        ensures last { self.new.last ≡ self.old.last }
        ensures line { self.new.line ≡ self.old.line }
    {
        self.check_line(alloc, file)?;
        if let Err(problem) = self.parser.take(alloc, token) {
            return Err(problem.at(alloc, file, self.line));
        }
        self.token_line = self.line;
        Ok(())
    }

    fn take_optional(
        &mut self,
        alloc: Global,
        file: &Name,
        token: Option<Token>,
    ) -> Result<(), Fault>
        ensures given { Gives (λ _. plain_progress self.new) result (after_optional file.now (plain_progress self.old) token) }
        ensures line { self.new.line ≡ self.old.line }
    {
        match token {
            None => Ok(()),
            Some(token) => self.take_token(alloc, file, token),
        }
    }

    fn take_byte(&mut self, alloc: Global, file: &Name, byte: u8) -> Result<(), Fault>
        requires { self.old.line < 4294967295 }
        ensures given { Gives (λ _. plain_progress self.new) result (after_char file.now (plain_progress self.old) byte) }
        ensures line { self.new.line ≤ self.old.line + 1 }
    {
        let scan = mem::replace(&mut self.scan, Scan::Between);
        let step = take_byte(alloc, scan, byte)?;
        self.take_optional(alloc, file, step.first)?;
        self.take_optional(alloc, file, step.second)?;
        put(&mut self.scan, step.scan);
        self.last = self.line;
        self.line = next_line(self.line, byte);
        Ok(())
    }

    /// Takes the word that begins at the front where no token is in progress, all its bytes at once; nothing elsewhere. Gives what is left.
    fn take_word<'b>(&mut self, alloc: Global, bytes: &'b [u8]) -> Result<&'b [u8], Memory>
        ensures read { IfOk result (λ rest. (file : List ℕ) → read_from file (plain_progress self.old) bytes.now ≡ read_from file (plain_progress self.new) rest.now) }
        ensures shorter { IfOk result (λ rest. length rest.now ≤ length bytes.now) }
        ensures line { self.new.line ≡ self.old.line }
    {
        if !matches!(self.scan, Scan::Between) {
            return Ok(bytes);
        }
        let (word, rest) = bytes.split_at(word_len(bytes));
        if word.is_empty() {
            return Ok(bytes);
        }
        let word = Name::of(alloc, word)?;
        put(&mut self.scan, Scan::Word(word));
        self.last = self.line;
        Ok(rest)
    }

    /// Takes bytes of a text. Most of them stand in words.
    pub(crate) fn take_bytes(
        &mut self,
        alloc: Global,
        file: &Name,
        bytes: &[u8],
    ) -> Result<(), Fault>
        requires { self.old.line + length bytes.now ≤ 4294967295 }
        ensures given { Gives (λ _. plain_progress self.new) result (read_from file.now (plain_progress self.old) bytes.now) }
        ensures lines { self.new.line ≤ self.old.line + length bytes.now }
    {
        let mut rest = bytes;
        while let Some((byte, after)) = rest.split_first() {
            self.take_byte(alloc, file, *byte)?;
            rest = self.take_word(alloc, after)?;
        }
        Ok(())
    }

    fn is_done(&self) -> bool
        ensures { result ≡ is_done (plain_progress self.now).machine }
    {
        match &self.parser.state {
            State::Outside(Place::Header(Header::Start)) => 0 < self.parser.modules.len(),
            _ => false,
        }
    }

    /// Whether the text may end here, and nothing is above its bound.
    fn check_end(&self, alloc: Global, file: &Name) -> Result<(), Fault>
        ensures { Gives (λ _. map plain_module self.now.parser.modules.items) result (closing file.now (plain_progress self.now)) }
    {
        if !self.is_done() {
            return Err(Problem::Malformed(Reason::Token).at(alloc, file, self.line));
        }
        match self.parser.over {
            Some(over) => Err(limit(over).at(alloc, file, self.token_line)),
            None => Ok(()),
        }
    }

    fn close(&mut self, alloc: Global, file: &Name) -> Result<Text, Fault>
        ensures { Gives plain_text result (closing file.now (plain_progress self.old)) }
    {
        self.check_end(alloc, file)?;
        Ok(Text {
            modules: mem::replace(&mut self.parser.modules, Vec::new(alloc)),
        })
    }

    /// The text ends. After this what was read is of no more use.
    pub(crate) fn finish(&mut self, alloc: Global, file: &Name) -> Result<Text, Fault>
        ensures { Gives plain_text result (finished file.now (plain_progress self.old)) }
    {
        self.line = self.last;
        let scan = mem::replace(&mut self.scan, Scan::Between);
        let token = finish(alloc, scan)?;
        self.take_optional(alloc, file, token)?;
        self.check_line(alloc, file)?;
        self.close(alloc, file)
    }
}
