//! Small cases, many in one file. A case begins with `%` and its title. Each line behind it begins with a sign:
//!
//! - `?` words, parted by single blanks. Each such line is run on a desk of its own;
//! - `<` files on the desk, and `>` files that are to stand there afterwards: names, each also with `=` and the file beside the program
//!   that has the bytes where its name is another;
//! - `~` is `>` where any byte may stand in the place of a `?`; with `[` the bytes are to be a front of the file, and with `]` a tail;
//! - `-` names of files that are not to stand there afterwards;
//! - `^` a file on the desk that is too long;
//! - `!` a call of the desk that fails, and `$` one of the sink;
//! - `*` names of files that are fetched, and `+` names of files that are stored, in the order of these calls of the desk. The words are
//!   run again for each of these calls, which fails: the status is 11 or 12, the report has the name, and of the outputs of the case exactly
//!   those stand that were stored before. And again where the sink fails too, and nothing is reported;
//! - `/` a bitstream and `|` an implementation on the desk. The words are run again on each front of it that is shorter. It is malformed, a
//!   bitstream at the word that is cut or missing, an implementation at its last line, and no output of the case stands. But an
//!   implementation that lacks its last line feed alone is as good as the whole;
//! - `=` the status, and behind it the line of the report.
//!
//! Behind the lines stand files of the case's own: each begins with `@`, one of the signs `<`, `>`, `~`, `[` and `]`, and its name. The report
//! is the output without a name; where nothing is said of it, it is to be empty. All goes on up to the next `%` or `@`.

use fab_base::MAX_FILE_BYTES;
use fab_desk::Desk;
use fab_examples::{Stop, fetch};
use fab_lines::{capped_number, first_line, place_or_end};
use std::alloc::Global;
use std::str;

/// How an output is to compare with what stands in the case.
#[derive(Clone, Copy, Debug)]
pub enum Form {
    /// It is the same, byte for byte.
    Same,
    /// It is the same, but for each `?` of the case, where any byte may stand.
    Like,
    /// It begins so.
    Front,
    /// It ends so.
    Tail,
}

/// What is expected of an output.
#[derive(Debug, Drop)]
pub struct Expected {
    /// The name of a file, or nothing for the report.
    pub name: String,
    pub form: Form,
    pub bytes: Vec<u8>,
}

/// What is asked of the desk.
#[derive(Clone, Copy, Debug)]
pub enum Request {
    Fetch,
    Store,
}

/// A call of the desk.
#[derive(Debug, Drop)]
pub struct Call {
    /// The name of the file.
    pub name: String,
    pub request: Request,
}

/// What a file is made of.
#[derive(Clone, Copy, Debug)]
pub enum Unit {
    /// Words of a bitstream.
    Words,
    /// Lines of an implementation.
    Lines,
}

/// A file on the desk that is cut at each of its bytes.
#[derive(Debug, Drop)]
pub struct Cut {
    pub name: String,
    pub unit: Unit,
}

/// A case.
#[derive(Debug, Drop)]
pub struct Case {
    /// Lines of words.
    pub lines: Vec<String>,
    /// The files on the desk, by name.
    pub files: Vec<(String, Vec<u8>)>,
    /// The calls of the desk that fail.
    pub failing_calls: Vec<u64>,
    /// The calls of the sink that fail.
    pub failing_puts: Vec<u64>,
    pub status: u64,
    pub expected: Vec<Expected>,
    /// The names of files that are not to stand on the desk afterwards.
    pub absent: Vec<String>,
    /// The calls of the desk, in their order, each of which fails in turn.
    pub calls: Vec<Call>,
    pub cuts: Vec<Cut>,
}

fn text_of(alloc: Global, bytes: &[u8]) -> Result<String, Stop> {
    Ok(String::from_str(alloc, str::from_utf8(bytes)?)?)
}

fn number_of(word: &[u8]) -> Result<u64, Stop> {
    capped_number(word).ok_or(Stop::Data)
}

/// How a sign has an output compared.
fn form_of(sign: u8) -> Result<Form, Stop> {
    match sign {
        b'>' => Ok(Form::Same),
        b'~' => Ok(Form::Like),
        b'[' => Ok(Form::Front),
        b']' => Ok(Form::Tail),
        _ => Err(Stop::Data),
    }
}

impl Case {
    /// A case without words and files, whose status is 0.
    pub fn new(alloc: Global) -> Case {
        Case {
            lines: Vec::new(alloc),
            files: Vec::new(alloc),
            failing_calls: Vec::new(alloc),
            failing_puts: Vec::new(alloc),
            status: 0,
            expected: Vec::new(alloc),
            absent: Vec::new(alloc),
            calls: Vec::new(alloc),
            cuts: Vec::new(alloc),
        }
    }

    /// Takes bytes under a name, as what the sign says.
    pub fn add(&mut self, sign: u8, name: String, bytes: Vec<u8>) -> Result<(), Stop> {
        if sign == b'<' {
            self.files.push((name, bytes))?;
            return Ok(());
        }
        let form = form_of(sign)?;
        self.expected.push(Expected { name, form, bytes })?;
        Ok(())
    }

    /// Takes a file beside the program by a word, which may give it another name.
    fn add_file<D: Desk>(
        &mut self,
        alloc: Global,
        desk: &mut D,
        sign: u8,
        word: &[u8],
    ) -> Result<(), Stop> {
        let (name, behind) = word.split_at(place_or_end(word, b'='));
        let file = behind.get(1..).unwrap_or(name);
        let bytes = fetch(alloc, desk, str::from_utf8(file)?)?;
        self.add(sign, text_of(alloc, name)?, bytes)
    }

    fn add_files<D: Desk>(
        &mut self,
        alloc: Global,
        desk: &mut D,
        sign: u8,
        words: &[u8],
    ) -> Result<(), Stop> {
        for word in words.split(|byte| *byte == b' ') {
            self.add_file(alloc, desk, sign, word)?;
        }
        Ok(())
    }

    fn add_absent(&mut self, alloc: Global, names: &[u8]) -> Result<(), Stop> {
        for name in names.split(|byte| *byte == b' ') {
            self.absent.push(text_of(alloc, name)?)?;
        }
        Ok(())
    }

    fn add_calls(&mut self, alloc: Global, request: Request, names: &[u8]) -> Result<(), Stop> {
        for name in names.split(|byte| *byte == b' ') {
            let name = text_of(alloc, name)?;
            self.calls.push(Call { name, request })?;
        }
        Ok(())
    }

    fn add_cut(&mut self, alloc: Global, unit: Unit, name: &[u8]) -> Result<(), Stop> {
        let name = text_of(alloc, name)?;
        self.cuts.push(Cut { name, unit })?;
        Ok(())
    }

    /// Takes a line as the whole report.
    pub fn add_report(&mut self, alloc: Global, line: &[u8]) -> Result<(), Stop> {
        let mut report = Vec::from_slice(alloc, line)?;
        report.push(b'\n')?;
        self.add(b'>', String::new(alloc), report)
    }

    /// Takes the status, and the line of the report behind it.
    fn take_ending(&mut self, alloc: Global, ending: &[u8]) -> Result<(), Stop> {
        let (number, behind) = ending.split_at(place_or_end(ending, b' '));
        self.status = number_of(number)?;
        match behind.get(1..) {
            None => Ok(()),
            Some(line) => self.add_report(alloc, line),
        }
    }

    fn take_line<D: Desk>(&mut self, alloc: Global, desk: &mut D, line: &[u8]) -> Result<(), Stop> {
        match line {
            [] => Ok(()),
            [b'?', words @ ..] => Ok(self.lines.push(text_of(alloc, words)?)?),
            [b'!', number @ ..] => Ok(self.failing_calls.push(number_of(number)?)?),
            [b'$', number @ ..] => Ok(self.failing_puts.push(number_of(number)?)?),
            [b'=', ending @ ..] => self.take_ending(alloc, ending),
            [b'-', names @ ..] => self.add_absent(alloc, names),
            [b'*', names @ ..] => self.add_calls(alloc, Request::Fetch, names),
            [b'+', names @ ..] => self.add_calls(alloc, Request::Store, names),
            [b'/', name @ ..] => self.add_cut(alloc, Unit::Words, name),
            [b'|', name @ ..] => self.add_cut(alloc, Unit::Lines, name),
            [b'^', name @ ..] => {
                let bytes = vec![in alloc; b'#'; MAX_FILE_BYTES + 1]?;
                self.add(b'<', text_of(alloc, name)?, bytes)
            }
            [sign, words @ ..] => self.add_files(alloc, desk, *sign, words),
        }
    }

    fn take_lines<D: Desk>(
        &mut self,
        alloc: Global,
        desk: &mut D,
        lines: &[u8],
    ) -> Result<(), Stop> {
        for line in lines.split(|byte| *byte == b'\n') {
            self.take_line(alloc, desk, line)?;
        }
        Ok(())
    }

    /// Takes a file of the case's own.
    fn take_piece(&mut self, alloc: Global, piece: &[u8]) -> Result<(), Stop> {
        if piece.is_empty() {
            return Ok(());
        }
        let (header, bytes) = first_line(piece);
        let (sign, name) = header.split_first().ok_or(Stop::Data)?;
        self.add(*sign, text_of(alloc, name)?, Vec::from_slice(alloc, bytes)?)
    }

    fn take_pieces(&mut self, alloc: Global, pieces: &[u8]) -> Result<(), Stop> {
        for piece in pieces.split(|byte| *byte == b'@') {
            self.take_piece(alloc, piece)?;
        }
        Ok(())
    }
}

impl Case {
    /// The bytes of the first file of a name on the desk.
    pub fn file(&self, name: &str) -> Option<&[u8]> {
        let file = self.files.iter().find(|file| file.0.as_str() == name)?;
        Some(file.1.as_slice())
    }
}

/// The case that stands behind its title.
pub fn case_of<D: Desk>(alloc: Global, desk: &mut D, behind: &[u8]) -> Result<Case, Stop> {
    let (lines, pieces) = behind.split_at(place_or_end(behind, b'@'));
    let mut case = Case::new(alloc);
    case.take_lines(alloc, desk, lines)?;
    case.take_pieces(alloc, pieces)?;
    Ok(case)
}
