//! Tables of bits by cycle: a stimulus, or the outputs of a design.

ghost use Rattle.std.specs.Prelude.{◌≤◌, length};

use fab_base::{Fault, MAX_FILE_BYTES, Memory, Name, Place, Reason};
use fab_lines::first_line;
use std::alloc::Global;

/// The names of bits, and their values in each cycle.
#[derive(Debug, Drop)]
pub struct Table {
    pub names: Vec<Name>,
    pub rows: Vec<Vec<bool>>,
}

fn names_of(alloc: Global, line: &[u8]) -> Result<Vec<Name>, Memory> {
    let mut names = Vec::new(alloc);
    for word in line.split(|byte| *byte == b' ') {
        names.push(Name::of(alloc, word)?)?;
    }
    Ok(names)
}

/// The digits of a line; none where one is neither 0 nor 1.
fn bits_of(alloc: Global, line: &[u8]) -> Result<Option<Vec<bool>>, Memory> {
    let mut bits = Vec::new(alloc);
    for digit in line {
        match *digit {
            b'0' => bits.push(false)?,
            b'1' => bits.push(true)?,
            _ => return Ok(None),
        }
    }
    Ok(Some(bits))
}

fn malformed(alloc: Global, file: &str, line: u32, reason: Reason) -> Result<Fault, Memory> {
    let file = Name::of(alloc, file.as_bytes())?;
    Ok(Fault::Malformed(Place { file, line }, reason))
}

/// Reads a table: a line of names, parted by one blank, and a line of digits for each cycle, one for each name.
pub fn read_table(alloc: Global, file: &str, bytes: &[u8]) -> Result<Table, Fault>
    requires { length bytes.now ≤ MAX_FILE_BYTES }
{
    if bytes.is_empty() {
        return Err(malformed(alloc, file, 1, Reason::Header)?);
    }
    let (header, mut rest) = first_line(bytes);
    let names = names_of(alloc, header)?;
    let mut rows: Vec<Vec<bool>> = Vec::new(alloc);
    let mut line: u32 = 1;
    while 0 < rest.len() {
        let (digits, after) = first_line(rest);
        line += 1;
        let row = bits_of(alloc, digits)?.filter(|row| row.len() == names.len());
        match row {
            Some(row) => rows.push(row)?,
            None => return Err(malformed(alloc, file, line, Reason::Row)?),
        }
        rest = after;
    }
    Ok(Table { names, rows })
}

impl Table {
    /// The column of a name.
    pub fn column(&self, name: &Name) -> Option<usize> {
        self.names.iter().position(|own| own == name)
    }
}
