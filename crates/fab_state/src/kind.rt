//! What a line of a state text is.

ghost use Rattle.std.specs.Prelude.{◌≡◌, map};
ghost use Rattle.fab_state.specs.Kinds.{kind_of, kind_of_three, kind_of_two, part_of};

use fab_lines::word_at;
use fab_texts::{Part, is_ending};

/// What a line is, by its first word and the number of its words.
#[derive(Clone, Copy, Debug, PartialEq, Eq)]
pub enum Kind {
    /// The first line.
    Header,
    /// An input port and its site.
    In,
    /// An output port and its site.
    Out,
    /// A flip-flop and what it holds.
    Ff,
    /// The last line.
    End,
    /// No line of a state text.
    Other,
}

fn kind_of_three(first: &[u8]) -> Kind
    ensures { result ≡ kind_of_three first.now }
{
    if first == b"in".as_slice() {
        return Kind::In;
    }
    if first == b"out".as_slice() {
        return Kind::Out;
    }
    if first == b"ff".as_slice() {
        return Kind::Ff;
    }
    Kind::Other
}

fn kind_of_two(first: &[u8]) -> Kind
    ensures { result ≡ kind_of_two first.now }
{
    if first == b"fabulous-state".as_slice() {
        return Kind::Header;
    }
    Kind::Other
}

/// What a line of these words is.
pub fn kind_of(words: &[&[u8]]) -> Kind
    ensures { result ≡ kind_of (map (λ w. w.now) words.now) }
{
    let first = word_at(words, 0);
    match words.len() {
        3 => kind_of_three(first),
        2 => kind_of_two(first),
        _ => {
            if is_ending(words) {
                Kind::End
            } else {
                Kind::Other
            }
        }
    }
}

impl Kind {
    /// Where a line of this kind stands in a text.
    pub fn part(self) -> Part
        ensures { result ≡ part_of self }
    {
        match self {
            Kind::Header => Part::Header,
            Kind::In => Part::Section(1),
            Kind::Out => Part::Section(2),
            Kind::Ff => Part::Section(3),
            Kind::End => Part::End,
            Kind::Other => Part::Other,
        }
    }
}
