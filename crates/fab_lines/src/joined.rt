//! A text whose lines may go on in the next line.

ghost use Rattle.std.specs.Prelude.{◌≡◌, ◌+◌, ◌++◌, ◌≤◌, ◌<◌, ◌∷◌, [], false, true, length, map, replicate, IfOk, MatchOption};
ghost use Rattle.std.specs.Str.Lines.{lines};
ghost use Rattle.fab_base.specs.Reading.{Gives};
ghost use Rattle.fab_lines.specs.Joined.{goes_on, joined, joined_lines, lines_left, without_last};
ghost use Rattle.fab_lines.specs.Order.{placed, read_from};
ghost use Rattle.fab_lines.specs.Parts.{uncommented};

use crate::cut::first_line;
use crate::order::LineReader;
use crate::parts::uncommented;
use fab_base::{Fault, MAX_FILE_BYTES, Memory, Name};
use std::alloc::Global;

/// What stands before the `\` that ends a line, if one does.
fn front_of(line: &[u8]) -> Option<&[u8]>
    ensures { MatchOption result (goes_on line.now ≡ false) (λ front. (goes_on line.now ≡ true) × (front.now ≡ without_last line.now)) }
{
    match line {
        [front @ .., b'\\'] => Some(front),
        _ => None,
    }
}

/// Puts the first line of a text into `line`, with the lines that it goes on in. The text after them is answered, and how
/// many they are.
fn first_joined<'a>(bytes: &'a [u8], line: &mut Vec<u8>) -> Result<(&'a [u8], u32), Memory>
    requires some { 0 < length bytes.now }
    requires small { length bytes.now ≤ MAX_FILE_BYTES }
    ensures first { IfOk result (λ r. joined_lines bytes.now ≡ line.new.items ∷ lines_left r.1 r.0.now) }
    ensures shorter { IfOk result (λ r. length r.0.now + r.1 < length bytes.now) }
{
    line.clear();
    let mut rest = bytes;
    let mut count: u32 = 0;
    while 0 < rest.len() {
        let (text, after) = first_line(rest);
        let text = uncommented(text);
        rest = after;
        let Some(front) = front_of(text) else {
            line.extend_from_slice(text)?;
            return Ok((rest, count));
        };
        line.extend_from_slice(front)?;
        count += 1;
    }
    Ok((rest, count - 1))
}

/// Puts the next line into `line`, where `blanks` empty lines stand in front of a text, and answers what is left.
fn next_line<'a>(
    bytes: &'a [u8],
    blanks: u32,
    line: &mut Vec<u8>,
) -> Result<Option<(&'a [u8], u32)>, Memory>
    requires { length bytes.now ≤ MAX_FILE_BYTES }
    ensures next { IfOk result (λ r. MatchOption r (lines_left blanks bytes.now ≡ []) (λ left. lines_left blanks bytes.now ≡ line.new.items ∷ lines_left left.1 left.0.now)) }
    ensures fewer { IfOk result (λ r. MatchOption r (0 ≤ 0) (λ left. length left.0.now + left.1 < length bytes.now + blanks)) }
    ensures shorter { IfOk result (λ r. MatchOption r (0 ≤ 0) (λ left. length left.0.now ≤ length bytes.now)) }
{
    if 0 < blanks {
        line.clear();
        return Ok(Some((bytes, blanks - 1)));
    }
    if bytes.is_empty() {
        return Ok(None);
    }
    let (rest, more) = first_joined(bytes, line)?;
    Ok(Some((rest, more)))
}

/// Reads the text of a file, line by line, without comments. A line that ends with `\` is joined with the next: the joined
/// line is taken with the number of its first line, and an empty line with the number of each other.
///
/// The error is that of the first line that is refused, with its number, or want of memory.
pub fn read_joined_lines<R: LineReader>(
    alloc: Global,
    file: &Name,
    bytes: &[u8],
    start: R,
) -> Result<R, Fault>
    requires { length bytes.now ≤ MAX_FILE_BYTES }
    ensures { Gives (λ reader. reader) result (placed file.now (read_from R.after start 1 (joined_lines bytes.now))) }
{
    let mut reader = start;
    let mut rest = bytes;
    let mut blanks: u32 = 0;
    let mut number: u32 = 1;
    let mut line = Vec::new(alloc);
    while let Some((after, more)) = next_line(rest, blanks, &mut line)? {
        if let Err(problem) = reader.take_line(alloc, number, &line) {
            return Err(problem.at(alloc, file, number));
        }
        rest = after;
        blanks = more;
        number += 1;
    }
    Ok(reader)
}
