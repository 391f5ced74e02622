//! Small cases, many in one file. A case begins with `%` and its title, of which what stands before a colon may name a file or a function.
//! Lines behind it that begin with `?` are asked; others name files beside the program that the case's desk has, with `^` files that are too
//! long, and with `!` a call of the desk that fails. Each of its own files begins with `@` and its name. All goes on up to the next of these
//! signs.

ghost use Rattle.std.specs.Prelude.{◌<◌, length};

use crate::asked::asked_text;
use crate::fabrics::fabric_text;
use crate::lists::list_text;
use crate::texts::texts_text;
use crate::words::words_text;
use fab_base::{Fault, MAX_FILE_BYTES, Memory, Name};
use fab_desk::{Desk, MemDesk, Sink};
use fab_examples::{Stop, fetch};
use fab_lines::{capped_number, first_line, place_or_end};
use std::alloc::{AllocError, Global};
use std::{mem, str};

/// What a case is read as.
#[derive(Clone, Copy, Debug)]
pub enum Subject {
    /// Words that a function in front of the title takes.
    Words,
    /// Texts that a function in front of the title takes.
    Texts,
    /// A switch list, the first of the case's own files.
    Lists,
    /// A fabric of the file in front of the title.
    Fabrics,
    /// Such a fabric, of which something is asked.
    Asked,
}

impl Subject {
    /// What stands between the title and the text.
    fn sign(self) -> &'static [u8] {
        match self {
            Subject::Lists => b": ",
            Subject::Fabrics => b": ",
            _ => b":\n",
        }
    }
}

/// A case: what stands in front of its title, what is asked, what its desk has, and the calls of it that fail.
#[derive(Drop)]
pub struct Case {
    pub front: Name,
    pub asked: Vec<Name>,
    pub files: Vec<(String, Vec<u8>)>,
    pub failing: Vec<u64>,
}

impl Case {
    fn of(alloc: Global, title: &[u8]) -> Result<Case, Stop> {
        Ok(Case {
            front: Name::of(alloc, &title[..place_or_end(title, b':')])?,
            asked: Vec::new(alloc),
            files: Vec::new(alloc),
            failing: Vec::new(alloc),
        })
    }

    fn add_file(&mut self, alloc: Global, name: &[u8], bytes: Vec<u8>) -> Result<(), AllocError> {
        if let Ok(name) = str::from_utf8(name) {
            self.files.push((String::from_str(alloc, name)?, bytes))?;
        }
        Ok(())
    }

    /// Takes a line behind the title.
    fn take_line<D: Desk>(&mut self, alloc: Global, desk: &mut D, line: &[u8]) -> Result<(), Stop> {
        match line {
            [] => Ok(()),
            [b'?', question @ ..] => Ok(self.asked.push(Name::of(alloc, question)?)?),
            [b'!', number @ ..] => Ok(self.failing.push(capped_number(number).unwrap_or(0))?),
            [b'^', name @ ..] => {
                let bytes = vec![in alloc; b'#'; MAX_FILE_BYTES + 1]?;
                Ok(self.add_file(alloc, name, bytes)?)
            }
            name => {
                let bytes = fetch(alloc, desk, str::from_utf8(name)?)?;
                Ok(self.add_file(alloc, name, bytes)?)
            }
        }
    }

    fn take_lines<D: Desk>(
        &mut self,
        alloc: Global,
        desk: &mut D,
        lines: &[u8],
    ) -> Result<(), Stop> {
        for line in lines.split(|byte| *byte == b'\n') {
            self.take_line(alloc, desk, line)?;
        }
        Ok(())
    }

    /// Takes its own files.
    fn take_files(&mut self, alloc: Global, files: &[u8]) -> Result<(), AllocError> {
        for piece in files.split(|byte| *byte == b'@') {
            if !piece.is_empty() {
                let (name, bytes) = first_line(piece);
                self.add_file(alloc, name, Vec::from_slice(alloc, bytes)?)?;
            }
        }
        Ok(())
    }

    /// What it comes to with what stands behind its title.
    fn text<D: Desk>(
        &mut self,
        alloc: Global,
        desk: &mut D,
        subject: Subject,
        behind: &[u8],
    ) -> Result<Vec<u8>, Stop> {
        let (lines, files) = behind.split_at(place_or_end(behind, b'@'));
        self.take_lines(alloc, desk, lines)?;
        self.take_files(alloc, files)?;
        match subject {
            Subject::Words => words_text(alloc, self),
            Subject::Texts => texts_text(alloc, self),
            Subject::Lists => list_text(alloc, self),
            Subject::Fabrics => fabric_text(alloc, self),
            Subject::Asked => asked_text(alloc, self),
        }
    }

    /// The name of its first file.
    pub fn first_name(&self, alloc: Global) -> Result<Name, Stop> {
        match self.files.first() {
            Some(file) => Ok(Name::of(alloc, file.0.as_bytes())?),
            None => Err(Stop::Fault(Fault::Usage)),
        }
    }

    /// A desk with its files, which it has no longer.
    pub fn take_desk(&mut self, alloc: Global) -> Result<MemDesk, Memory> {
        let files = mem::replace(&mut self.files, Vec::new(alloc));
        let failing = mem::replace(&mut self.failing, Vec::new(alloc));
        MemDesk::new(alloc, files, failing)
    }
}

/// What a case of this title comes to, by what stands behind the title.
fn case_text<D: Desk>(
    alloc: Global,
    desk: &mut D,
    subject: Subject,
    title: &[u8],
    behind: &[u8],
) -> Result<Vec<u8>, Stop> {
    let mut case = Case::of(alloc, title)?;
    case.text(alloc, desk, subject, behind)
}

/// Prints the title of a case and what it comes to.
fn print_case<D: Desk, S: Sink>(
    alloc: Global,
    desk: &mut D,
    out: &mut S,
    subject: Subject,
    case: &[u8],
) -> Result<(), Stop>
    requires { 0 < length case.now }
{
    let (title, behind) = first_line(case);
    let text = case_text(alloc, desk, subject, title, behind)?;
    out.put(title)?;
    out.put(subject.sign())?;
    out.put(&text)?;
    Ok(())
}

/// Prints the title and what each of the cases that stand in one file comes to.
pub fn print_cases<D: Desk, S: Sink>(
    alloc: Global,
    desk: &mut D,
    out: &mut S,
    file: &str,
    subject: Subject,
) -> Result<(), Stop> {
    let bytes = fetch(alloc, desk, file)?;
    for text in bytes.split(|byte| *byte == b'%') {
        if !text.is_empty() {
            print_case(alloc, desk, out, subject, text)?;
        }
    }
    Ok(())
}
