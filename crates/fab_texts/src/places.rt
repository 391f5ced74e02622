//! Places and sites as words.

ghost use Rattle.std.specs.Prelude.{◌≡◌, option_map};
ghost use Rattle.fab_texts.specs.Places.{after_byte, letter_of, number_at, place_at, site_of};

use fab_fabric::Site;
use fab_lines::is_digit;
use std::marker::Model;

/// A number of one or two digits without a leading zero, and the bytes after it.
fn number_at(bytes: &[u8]) -> Option<(u32, &[u8])>
    ensures { option_map (λ p. (p.0, p.1.now)) result ≡ number_at bytes.now }
{
    match bytes {
        [] => None,
        [a] => {
            if is_digit(*a) {
                Some((u32::from(*a - b'0'), &[]))
            } else {
                None
            }
        }
        [a, b, rest @ ..] => {
            if !is_digit(*a) {
                return None;
            }
            if !is_digit(*b) {
                let (_, after) = bytes.split_at(1);
                return Some((u32::from(*a - b'0'), after));
            }
            if *a == b'0' {
                return None;
            }
            Some((10 * u32::from(*a - b'0') + u32::from(*b - b'0'), rest))
        }
    }
}

/// The bytes after this one, if a text begins with it.
pub fn after_byte(byte: u8, bytes: &[u8]) -> Option<&[u8]>
    ensures { option_map (λ s. s.now) result ≡ after_byte byte bytes.now }
{
    match bytes {
        [] => None,
        [first, rest @ ..] => { if *first == byte { Some(rest) } else { None } }
    }
}

/// The number of the BEL of a letter: `A` is 0, and `Z` is 25.
pub fn letter_of(bytes: &[u8]) -> Option<u32>
    ensures { result ≡ letter_of bytes.now }
{
    match bytes {
        [] => None,
        [b] => {
            if b'A' <= *b && *b <= b'Z' {
                Some(u32::from(*b - b'A'))
            } else {
                None
            }
        }
        [_first, _second, ..] => None,
    }
}

/// A place, and the bytes after it.
#[derive(Debug, Drop)]
pub struct PlaceAt<'a> {
    pub x: u32,
    pub y: u32,
    pub rest: &'a [u8],
}

impl<'a> Model for PlaceAt<'a> {
    ghost use Rattle.fab_texts.specs.Places.{PlaceAt as PlainPlaceAt};

    ghost Value = { PlainPlaceAt };

    ghost view = { λ place. record { x = place.x; y = place.y; rest = place.rest.now } };
}

/// The place in front of a word, as `X1Y2`: decimal numbers without a leading zero, x below 32 and y below 31.
#[tactic(auto, unfolding(crate::specs::Places::place_at))]
pub fn place_at(word: &[u8]) -> Option<PlaceAt<'_>>
    ensures { result ≡ place_at word.now }
{
    let rest = after_byte(b'X', word)?;
    let (x, rest) = number_at(rest)?;
    let rest = after_byte(b'Y', rest)?;
    let (y, rest) = number_at(rest)?;
    if x < 32 && y < 31 {
        Some(PlaceAt { x, y, rest })
    } else {
        None
    }
}

/// The site that a word writes, as `X1Y2.A`: a place, a dot and a letter from `A` to `Z`.
#[tactic(auto, unfolding(crate::specs::Places::site_of))]
pub fn site_of(word: &[u8]) -> Option<Site>
    ensures { result ≡ site_of word.now }
{
    let place = place_at(word)?;
    let letter = after_byte(b'.', place.rest)?;
    let bel = letter_of(letter)?;
    Some(Site {
        x: place.x,
        y: place.y,
        bel,
    })
}
