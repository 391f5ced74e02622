//! Texts with sections: the first line names the format and its version, then come the lines of each section, and then `end`.

ghost use Rattle.std.specs.Prelude.{◌≡◌, Ok, map};
ghost use Rattle.fab_base.specs.Reading.{Answers};
ghost use Rattle.fab_lines.specs.Order.{judged};
ghost use Rattle.fab_texts.specs.Sections.{cut_short, has_ended, in_place, is_ending, is_header, is_open, may_follow, with_version};

use fab_base::{Problem, Reason};
use fab_lines::word_at;

/// Where a line may stand in a text with sections.
#[derive(Clone, Copy, Debug)]
pub enum Part {
    /// The first line, which names the format and its version.
    Header,
    /// In the section of this number; they count from 1.
    Section(u8),
    /// The last line.
    End,
    /// Nowhere: it is no line of the format.
    Other,
}

/// Whether a line is the last one, `end`.
pub fn is_ending(words: &[&[u8]]) -> bool
    ensures { result ≡ is_ending (map (λ w. w.now) words.now) }
{
    words.len() == 1 && word_at(words, 0) == b"end".as_slice()
}

/// Refuses the second word of a first line, with `number`, where it is not the version.
pub fn check_version(word: &[u8]) -> Result<(), Problem>
    ensures { Answers (λ unit. unit) result (with_version word.now tt) }
{
    if word != b"1".as_slice() {
        return Err(Problem::Malformed(Reason::Number));
    }
    Ok(())
}

fn is_header(part: Part) -> bool
    ensures { result ≡ is_header part }
{
    matches!(part, Part::Header)
}

/// Whether no later section has begun.
fn is_open(last: Part, section: u8) -> bool
    ensures { result ≡ is_open last section }
{
    match last {
        Part::Header | Part::Other => true,
        Part::Section(begun) => begun <= section,
        Part::End => false,
    }
}

fn may_follow(last: Option<Part>, part: Part) -> bool
    ensures { result ≡ may_follow last part }
{
    let Some(last) = last else {
        return is_header(part);
    };
    match part {
        Part::Section(section) => is_open(last, section),
        Part::End => true,
        Part::Header | Part::Other => false,
    }
}

fn has_ended(last: Option<Part>) -> bool
    ensures { result ≡ has_ended last }
{
    matches!(last, Some(Part::End))
}

/// Refuses a line that may not follow the last one: with `after end` behind the last line of a text, and else with `row` where the
/// text does not begin with its header, where a later section has begun, and where the line is none of the format.
pub fn check_place(last: Option<Part>, part: Part) -> Result<(), Problem>
    ensures { Answers (λ unit. unit) result (in_place last part (Ok tt)) }
{
    if has_ended(last) {
        return Err(Problem::Malformed(Reason::AfterEnd));
    }
    if !may_follow(last, part) {
        return Err(Problem::Malformed(Reason::Row));
    }
    Ok(())
}

/// Refuses a text, with `end of file`, whose last line has not come.
pub fn check_end(last: Option<Part>) -> Result<(), Problem>
    ensures { Answers (λ unit. unit) result (judged (cut_short last) tt) }
{
    if !has_ended(last) {
        return Err(Problem::Malformed(Reason::EndOfFile));
    }
    Ok(())
}
