//! A line is cut from left to right: blanks, single signs, and runs of bytes that belong together.

ghost use Rattle.std.specs.Prelude.{◌≡◌, ◌==◌, false, not, option_map, position};
ghost use Rattle.fab_lines.specs.Names.{begins_name, is_of_name};
ghost use Rattle.fab_fasm.specs.Parts.{after_byte, has_return, is_annotated, is_bare, is_feature, is_of_feature, is_over, parted, run, tail_fault, unblanked};
ghost use Rattle.fab_fasm.specs.Values.{is_of_value};

use fab_base::Reason;
use fab_lines::{is_blank, is_identifier};

/// A text without the blanks and tabs in front.
#[tactic(auto, unfolding(crate::specs::Parts::unblanked))]
pub fn unblanked(text: &[u8]) -> &[u8]
    ensures { result.now ≡ unblanked text.now }
{
    let mut rest = text;
    while let Some((first, after)) = rest.split_first() {
        if !is_blank(*first) {
            break;
        }
        rest = after;
    }
    rest
}

/// Whether an annotation goes on behind a byte.
fn is_annotated(annotated: bool, byte: u8) -> bool
    ensures { result ≡ is_annotated annotated byte }
{
    if annotated {
        byte != b'}'
    } else {
        byte == b'{'
    }
}

/// Whether a byte is this one, and stands outside an annotation.
fn is_bare(sign: u8, annotated: bool, byte: u8) -> bool
    ensures { result ≡ is_bare sign annotated byte }
{
    !annotated && byte == sign
}

/// Whether a carriage return stands in a line outside braces and its comment. Here each `{` before the comment begins braces,
/// also one where no annotation can stand.
pub fn has_return(text: &[u8]) -> bool
    ensures { result ≡ has_return false text.now }
{
    let mut annotated = false;
    for byte in text {
        if is_bare(b'\r', annotated, *byte) {
            return true;
        }
        if is_bare(b'#', annotated, *byte) {
            return false;
        }
        annotated = is_annotated(annotated, *byte);
    }
    false
}

/// What follows this byte, where the text begins with it.
#[tactic(auto, unfolding(crate::specs::Parts::after_byte))]
pub fn after_byte(text: &[u8], byte: u8) -> Option<&[u8]>
    ensures { option_map (λ s. s.now) result ≡ after_byte byte text.now }
{
    match text {
        [first, rest @ ..] => { if *first == byte { Some(rest) } else { None } }
        [] => None,
    }
}

fn place(text: &[u8], byte: u8) -> Option<usize>
    ensures { result ≡ position (λ other. other == byte) text.now }
{
    text.iter().position(|other| *other == byte)
}

/// What stands before the first such byte, and what stands behind it.
#[tactic(auto, unfolding(crate::specs::Parts::parted))]
pub fn parted(text: &[u8], byte: u8) -> Option<(&[u8], &[u8])>
    ensures { option_map (λ p. (p.0.now, p.1.now)) result ≡ parted byte text.now }
{
    let place = place(text, byte)?;
    let (before, _) = text.split_at(place);
    let (_, behind) = text.split_at(place + 1);
    Some((before, behind))
}

fn begins_name(byte: u8) -> bool
    ensures { result ≡ begins_name byte }
{
    b'a' <= byte && byte <= b'z' || b'A' <= byte && byte <= b'Z' || byte == b'_'
}

fn is_of_name(byte: u8) -> bool
    ensures { result ≡ is_of_name byte }
{
    begins_name(byte) || b'0' <= byte && byte <= b'9'
}

fn is_of_feature(byte: u8) -> bool
    ensures { result ≡ is_of_feature byte }
{
    is_of_name(byte) || byte == b'.'
}

fn is_of_value(byte: u8) -> bool
    ensures { result ≡ is_of_value byte }
{
    is_of_name(byte) || byte == b'\''
}

fn feature_end(text: &[u8]) -> Option<usize>
    ensures { result ≡ position (λ byte. not (is_of_feature byte)) text.now }
{
    text.iter().position(|byte| !is_of_feature(*byte))
}

fn value_end(text: &[u8]) -> Option<usize>
    ensures { result ≡ position (λ byte. not (is_of_value byte)) text.now }
{
    text.iter().position(|byte| !is_of_value(*byte))
}

/// The bytes of a feature at the front of a text, and what follows them.
pub fn feature_run(text: &[u8]) -> (&[u8], &[u8])
    ensures word { result.0.now ≡ (run is_of_feature text.now).0 }
    ensures rest { result.1.now ≡ (run is_of_feature text.now).1 }
{
    text.split_at(feature_end(text).unwrap_or(text.len()))
}

/// The bytes of a value at the front of a text, and what follows them.
pub fn value_run(text: &[u8]) -> (&[u8], &[u8])
    ensures word { result.0.now ≡ (run is_of_value text.now).0 }
    ensures rest { result.1.now ≡ (run is_of_value text.now).1 }
{
    text.split_at(value_end(text).unwrap_or(text.len()))
}

/// Whether a word is names that are joined by dots.
pub fn is_feature(word: &[u8]) -> bool
    ensures { result ≡ is_feature word.now }
{
    word.split(|byte| *byte == b'.')
        .all(|part| is_identifier(part))
}

#[tactic(auto, unfolding(crate::specs::Parts::is_over))]
fn is_over(text: &[u8]) -> bool
    ensures { result ≡ is_over text.now }
{
    match text {
        [first, ..] => *first == b'#',
        [] => true,
    }
}

/// Why what follows a part of a line is refused, if it is: what can stand there is an annotation and a comment.
#[tactic(auto, unfolding(crate::specs::Parts::tail_fault))]
pub fn tail_fault(reason: Reason, text: &[u8]) -> Option<Reason>
    ensures { result ≡ tail_fault reason text.now }
{
    let text = unblanked(text);
    if is_over(text) {
        return None;
    }
    let Some(inner) = after_byte(text, b'{') else {
        return Some(reason);
    };
    match parted(inner, b'}') {
        Some((_, rest)) if is_over(unblanked(rest)) => None,
        _ => Some(Reason::Annotation),
    }
}
