//! What the first cell of a row says that the row is.

ghost use Rattle.std.specs.Prelude.{◌≡◌};
ghost use Rattle.fab_blocks.specs.Words.{dir_of, inner_word, is_foreign, word_of};

use fab_model::Dir;

/// What a row is, by its first cell.
#[derive(Clone, Copy, Debug, PartialEq, Eq)]
pub enum Word {
    /// `FabricBegin`
    FabricBegin,
    /// `FabricEnd`
    FabricEnd,
    /// `ParametersBegin`
    ParametersBegin,
    /// `ParametersEnd`
    ParametersEnd,
    /// `TILE`
    TileBegin,
    /// `EndTILE`
    TileEnd,
    /// `SuperTILE`, `Supertile` or `GEN_IO`
    Foreign,
    /// `Tile`
    Tile,
    /// `INCLUDE`
    Include,
    /// `BEL`
    Bel,
    /// `MATRIX`
    Matrix,
    /// A direction, which begins a row of wires.
    Wire(Dir),
    /// Anything else.
    Other,
}

#[tactic(auto, unfolding(crate::specs::Words::is_foreign))]
fn is_foreign(cell: &[u8]) -> bool
    ensures { result ≡ is_foreign cell.now }
{
    cell == b"SuperTILE".as_slice()
        || cell == b"Supertile".as_slice()
        || cell == b"GEN_IO".as_slice()
}

#[tactic(auto, unfolding(crate::specs::Words::dir_of))]
fn dir_of(cell: &[u8]) -> Option<Dir>
    ensures { result ≡ dir_of cell.now }
{
    if cell == b"NORTH".as_slice() {
        return Some(Dir::North);
    }
    if cell == b"EAST".as_slice() {
        return Some(Dir::East);
    }
    if cell == b"SOUTH".as_slice() {
        return Some(Dir::South);
    }
    if cell == b"WEST".as_slice() {
        return Some(Dir::West);
    }
    if cell == b"JUMP".as_slice() {
        return Some(Dir::Jump);
    }
    None
}

#[tactic(auto, unfolding(crate::specs::Words::inner_word))]
fn inner_word(cell: &[u8]) -> Word
    ensures { result ≡ inner_word cell.now }
{
    if is_foreign(cell) {
        return Word::Foreign;
    }
    if cell == b"Tile".as_slice() {
        return Word::Tile;
    }
    if cell == b"INCLUDE".as_slice() {
        return Word::Include;
    }
    if cell == b"BEL".as_slice() {
        return Word::Bel;
    }
    if cell == b"MATRIX".as_slice() {
        return Word::Matrix;
    }
    match dir_of(cell) {
        Some(dir) => Word::Wire(dir),
        None => Word::Other,
    }
}

/// What the row is that begins with this cell.
#[tactic(auto, unfolding(crate::specs::Words::word_of))]
pub fn word_of(cell: &[u8]) -> Word
    ensures { result ≡ word_of cell.now }
{
    if cell == b"FabricBegin".as_slice() {
        return Word::FabricBegin;
    }
    if cell == b"FabricEnd".as_slice() {
        return Word::FabricEnd;
    }
    if cell == b"ParametersBegin".as_slice() {
        return Word::ParametersBegin;
    }
    if cell == b"ParametersEnd".as_slice() {
        return Word::ParametersEnd;
    }
    if cell == b"TILE".as_slice() {
        return Word::TileBegin;
    }
    if cell == b"EndTILE".as_slice() {
        return Word::TileEnd;
    }
    inner_word(cell)
}
