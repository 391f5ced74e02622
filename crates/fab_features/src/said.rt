//! What the name of a feature says.

ghost use Rattle.std.specs.Prelude.{◌≡◌, nat_eq, option_map, slice_get};
ghost use Rattle.std.specs.List.{list_any};
ghost use Rattle.fab_features.specs.Said.{field_in, field_of, lut_field, mux_field, pair_in, said_in, said_of};
ghost use Rattle.fab_features.specs.Wrong.{said_width};
ghost use Rattle.fab_features.specs.inner.Matrices.{AreMatricesOf, IsMatrixOf};

use crate::matrices::{Matrix, tile_with};
use fab_fabric::Fabric;
use fab_fasm::parted;
use fab_kinds::Kind;
use fab_model::{Bel, TileType};
use fab_texts::{letter_of, place_at};

/// A field of the configuration bits of a BEL.
#[derive(Clone, Copy, Debug)]
pub struct BelField {
    pub x: u32,
    pub y: u32,
    pub bel: u32,
    /// The first of its bits among those of the BEL.
    pub first: u32,
    /// How many bits it has.
    pub width: u32,
}

/// A pair of the switch matrix at a place, by matrix name numbers.
#[derive(Clone, Copy, Debug)]
pub struct Choice {
    pub x: u32,
    pub y: u32,
    pub output: u32,
    pub input: u32,
}

/// What the name of a feature says.
#[derive(Clone, Copy, Debug)]
pub enum Said {
    OfBel(BelField),
    OfPair(Choice),
}

impl Said {
    /// How many bits there are: a pair is one.
    pub fn width(self) -> u32
        ensures { result ≡ said_width self }
    {
        match self {
            Said::OfBel(field) => field.width,
            Said::OfPair(_) => 1,
        }
    }
}

// The first bit of a field of a LUT4c, and how many it has.
fn lut_field(word: &[u8]) -> Option<(u32, u32)>
    ensures { result ≡ lut_field word.now }
{
    if word == b"INIT".as_slice() {
        Some((0, 16))
    } else if word == b"FF".as_slice() {
        Some((16, 1))
    } else if word == b"IOmux".as_slice() {
        Some((17, 1))
    } else if word == b"SET_NORESET".as_slice() {
        Some((18, 1))
    } else {
        None
    }
}

// The same of a MUX8LUT.
fn mux_field(word: &[u8]) -> Option<(u32, u32)>
    ensures { result ≡ mux_field word.now }
{
    if word == b"c0".as_slice() {
        Some((0, 1))
    } else if word == b"c1".as_slice() {
        Some((1, 1))
    } else {
        None
    }
}

fn field_of(kind: Kind, word: &[u8]) -> Option<(u32, u32)>
    ensures { result ≡ field_of kind word.now }
{
    match kind {
        Kind::Lut4c => lut_field(word),
        Kind::Io => None,
        Kind::Mux8 => mux_field(word),
    }
}

// The kind of the BEL of a number, if there is one.
fn kind_of(bels: &[Bel], number: u32) -> Option<Kind>
    ensures { result ≡ option_map (λ bel. bel.kind) (slice_get bels.now number) }
{
    match bels.get(number as usize) {
        Some(bel) => Some(bel.kind),
        None => None,
    }
}

// What a letter and a field say of a tile.
fn field_in(tile: &TileType, x: u32, y: u32, letter: &[u8], word: &[u8]) -> Option<Said>
    ensures { result ≡ field_in tile.now x y letter.now word.now }
{
    let bel = letter_of(letter)?;
    let kind = kind_of(tile.bels(), bel)?;
    let (first, width) = field_of(kind, word)?;
    Some(Said::OfBel(BelField {
        x,
        y,
        bel,
        first,
        width,
    }))
}

fn has_input(inputs: &[u32], input: u32) -> bool
    ensures { result ≡ list_any (λ other. nat_eq other input) inputs.now }
{
    inputs.iter().any(|other| *other == input)
}

// What the names of an input and of an output say of a tile.
fn pair_in(
    tile: &TileType,
    matrix: &Matrix,
    x: u32,
    y: u32,
    input: &[u8],
    output: &[u8],
) -> Option<Said>
    requires { IsMatrixOf tile.now matrix.now }
    ensures { result ≡ pair_in tile.now x y input.now output.now }
{
    let input = tile.number_of(input)?;
    let output = tile.number_of(output)?;
    if has_input(matrix.inputs_of(output), input) {
        Some(Said::OfPair(Choice {
            x,
            y,
            output,
            input,
        }))
    } else {
        None
    }
}

// What two words say of a tile.
fn said_in(
    tile: &TileType,
    matrix: &Matrix,
    x: u32,
    y: u32,
    first: &[u8],
    second: &[u8],
) -> Option<Said>
    requires { IsMatrixOf tile.now matrix.now }
    ensures { result ≡ said_in tile.now x y first.now second.now }
{
    match field_in(tile, x, y, first, second) {
        Some(found) => Some(found),
        None => pair_in(tile, matrix, x, y, first, second),
    }
}

/// What the name of a feature says on a fabric with these switch matrices; none where the fabric has no such feature.
#[tactic(auto, unfolding(crate::specs::Said::said_of))]
pub fn said_of(fabric: &Fabric, matrices: &[Matrix], name: &[u8]) -> Option<Said>
    requires { AreMatricesOf fabric.now.types matrices.now }
    ensures { result ≡ said_of fabric.now name.now }
{
    let (front, words) = parted(name, b'.')?;
    let (first, second) = parted(words, b'.')?;
    let place = place_at(front)?;
    let (tile, matrix) = tile_with(fabric, matrices, place.x, place.y)?;
    if place.rest.is_empty() {
        said_in(tile, matrix, place.x, place.y, first, second)
    } else {
        None
    }
}
