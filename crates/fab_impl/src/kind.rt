//! What a line of an implementation text is.

ghost use Rattle.std.specs.Prelude.{◌≡◌, map};
ghost use Rattle.fab_impl.specs.Kinds.{constant_kind, kind_of, kind_of_four, kind_of_three, kind_of_two, net_kind, pad_kind, part_of};

use fab_lines::word_at;
use fab_texts::{Part, is_ending};

/// What a line is, by the number of its words and its first two words.
#[derive(Clone, Copy, Debug, PartialEq, Eq)]
pub enum Kind {
    /// The first line.
    Header,
    /// The reset port.
    Reset,
    /// A cell and its site.
    Cell,
    /// An input port and its site.
    In,
    /// An output port and its site.
    Out,
    /// The net that is always 0.
    NetZero,
    /// The net that is always 1.
    NetOne,
    /// The net of an input port.
    NetIn,
    /// The net of a cell.
    NetCell,
    /// A wire of the last net, and one that it drives.
    Edge,
    /// The last line.
    End,
    /// No line of an implementation text.
    Other,
}

fn pad_kind(side: &[u8]) -> Kind
    ensures { result ≡ pad_kind side.now }
{
    if side == b"in".as_slice() {
        return Kind::In;
    }
    if side == b"out".as_slice() {
        return Kind::Out;
    }
    Kind::Other
}

fn kind_of_four(first: &[u8], second: &[u8]) -> Kind
    ensures { result ≡ kind_of_four first.now second.now }
{
    if first == b"pad".as_slice() {
        return pad_kind(second);
    }
    Kind::Other
}

fn net_kind(second: &[u8]) -> Kind
    ensures { result ≡ net_kind second.now }
{
    if second == b"in".as_slice() {
        return Kind::NetIn;
    }
    if second == b"cell".as_slice() {
        return Kind::NetCell;
    }
    Kind::Other
}

fn kind_of_three(first: &[u8], second: &[u8]) -> Kind
    ensures { result ≡ kind_of_three first.now second.now }
{
    if first == b"edge".as_slice() {
        return Kind::Edge;
    }
    if first == b"cell".as_slice() {
        return Kind::Cell;
    }
    if first == b"net".as_slice() {
        return net_kind(second);
    }
    Kind::Other
}

fn constant_kind(second: &[u8]) -> Kind
    ensures { result ≡ constant_kind second.now }
{
    if second == b"zero".as_slice() {
        return Kind::NetZero;
    }
    if second == b"one".as_slice() {
        return Kind::NetOne;
    }
    Kind::Other
}

fn kind_of_two(first: &[u8], second: &[u8]) -> Kind
    ensures { result ≡ kind_of_two first.now second.now }
{
    if first == b"fabulous-impl".as_slice() {
        return Kind::Header;
    }
    if first == b"reset".as_slice() {
        return Kind::Reset;
    }
    if first == b"net".as_slice() {
        return constant_kind(second);
    }
    Kind::Other
}

/// What a line of these words is.
pub fn kind_of(words: &[&[u8]]) -> Kind
    ensures { result ≡ kind_of (map (λ w. w.now) words.now) }
{
    let first = word_at(words, 0);
    let second = word_at(words, 1);
    match words.len() {
        4 => kind_of_four(first, second),
        3 => kind_of_three(first, second),
        2 => kind_of_two(first, second),
        _ => {
            if is_ending(words) {
                Kind::End
            } else {
                Kind::Other
            }
        }
    }
}

impl Kind {
    /// Where a line of this kind stands in a text.
    pub fn part(self) -> Part
        ensures { result ≡ part_of self }
    {
        match self {
            Kind::Header => Part::Header,
            Kind::Reset => Part::Section(0),
            Kind::Cell => Part::Section(1),
            Kind::In => Part::Section(2),
            Kind::Out => Part::Section(3),
            Kind::NetZero | Kind::NetOne | Kind::NetIn | Kind::NetCell | Kind::Edge => {
                Part::Section(4)
            }
            Kind::End => Part::End,
            Kind::Other => Part::Other,
        }
    }
}
