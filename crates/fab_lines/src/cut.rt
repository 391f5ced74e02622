//! A text is cut into lines, one after the other.

ghost use Rattle.std.specs.Prelude.{◌≡◌, ◌<◌, ◌≤◌, ◌∷◌, length};
ghost use Rattle.std.specs.Str.Lines.{lines, strip_carriage_return};
ghost use Rattle.fab_lines.specs.Counts.{last_line};

use crate::parts::place;
use fab_base::MAX_FILE_BYTES;

/// The line without the carriage return that stands before its line feed.
fn without_return(line: &[u8]) -> &[u8]
    ensures { result.now ≡ strip_carriage_return line.now }
{
    match line {
        [front @ .., b'\r'] => front,
        _ => line,
    }
}

/// The first line of a text that is not empty, and the text after it.
///
/// LF or CRLF ends a line and is no part of it. What follows the last of them is a line too; a CR at its end stays.
pub fn first_line(bytes: &[u8]) -> (&[u8], &[u8])
    requires { 0 < length bytes.now }
    ensures first { lines bytes.now ≡ result.0.now ∷ lines result.1.now }
    ensures shorter { length result.1.now < length bytes.now }
{
    let Some(end) = place(bytes, b'\n') else {
        return (bytes, &[]);
    };
    let (line, _) = bytes.split_at(end);
    let (_, rest) = bytes.split_at(end + 1);
    (without_return(line), rest)
}

/// The number of the last line of a text: 1 where it is empty, else how many lines it has. What is wrong with a text as a
/// whole is reported there.
pub fn last_line(bytes: &[u8]) -> u32
    requires { length bytes.now ≤ MAX_FILE_BYTES }
    ensures { result ≡ last_line bytes.now }
{
    let mut count: u32 = 0;
    let mut rest = bytes;
    while 0 < rest.len() {
        let (_, after) = first_line(rest);
        rest = after;
        count += 1;
    }
    count.max(1)
}
