//! Tables of covers are filled row by row, and a row puts its bits into a block of words at a time.

ghost use Rattle.std.specs.Prelude.{◌≡◌, ◌+◌, ◌-◌, ◌*◌, ◌/◌, ◌%◌, ◌<◌, ◌≤◌, bit_and, bit_or, if◌then◌else◌, length, map, nat_eq};
ghost use Rattle.fab_bits.specs.Bits.{first_bits, number};
ghost use Rattle.fab_wide.specs.inner.Words.{IsPower, IsRowOf, joined, marked, marked_by};

use fab_netlist::Cube;

/// How many words a block has.
const BLOCK: usize = 64;

/// Bit i tells whether the first four inputs, where they spell i, are as the row asks.
fn lower_word(row: Cube) -> u16
    ensures { result ≡ number (first_bits 16 (λ low. nat_eq (bit_and low (row.care % 16)) (row.value % 16))) }
{
    let mut word: u16 = 0;
    let mut low: u16 = 16;
    while 0 < low {
        low -= 1;
        word = 2 * word + u16::from(low & (row.care % 16) == row.value % 16);
    }
    word
}

/// The bits of a row in the word of a place: these where the place has the value `value` at the bits of `care`, and else none.
fn bits_at(place: u16, care: u16, value: u16, bits: u16) -> u16
    ensures { result ≡ (if nat_eq (bit_and place care) value then bits else 0) }
{
    if place & care == value { bits } else { 0 }
}

/// Puts the bits of a row into those of a few words of which the places have the value `value` at the bits of `care`. The other words are
/// written too, as they stand: so no step depends on a test, and a processor takes several words at once.
fn mark_few(words: &mut [u16], care: u16, value: u16, bits: u16)
    requires { length words.old ≤ 64 }
    ensures { words.new ≡ marked care value bits 0 words.old }
{
    let mut place: u16 = 0;
    for word in words.iter_mut() {
        *word |= bits_at(place, care, value, bits);
        place += 1;
    }
}

/// Puts the bits of each word of a block into the word of that place.
fn join(words: &mut [u16], block: &[u16])
    requires { length words.old ≡ length block.now }
    ensures { words.new ≡ joined words.old block.now }
{
    for place in 0..words.len() {
        words[place] |= block[place];
    }
}

/// Puts the bits of a row into those words of a table of which the places have the value `value` at the bits of `care`. A large table is
/// marked by blocks. The row has the same bits in each block that it has bits in, so they are made once. The numbers of these blocks have
/// the value at the bits of `care`, and any bits at the others, which are free. They are gone through from the last one down.
fn mark(words: &mut [u16], care: usize, value: usize, bits: u16)
    requires power { IsPower (length words.old) }
    requires row { IsRowOf (length words.old) care value }
    ensures { words.new ≡ marked care value bits 0 words.old }
{
    if words.len() <= BLOCK {
        return mark_few(words, care as u16, value as u16, bits);
    }
    let mut block = [0; BLOCK];
    mark_few(
        &mut block,
        (care % BLOCK) as u16,
        (value % BLOCK) as u16,
        bits,
    );
    let free = words.len() / BLOCK - 1 - care / BLOCK;
    let mut above = free + 1;
    while 0 < above {
        // The greatest number below that has only free bits.
        above = (above - 1) & free;
        let first = BLOCK * (value / BLOCK + above);
        join(&mut words[first..first + BLOCK], &block);
    }
}

/// Puts the bits that a row matches into a table, where its word w has the places from 16 w on.
pub(crate) fn mark_row(words: &mut [u16], row: Cube)
    requires power { IsPower (length words.old) }
    requires row { IsRowOf (length words.old) (row.care / 16) (row.value / 16) }
    ensures { words.new ≡ marked_by row 0 words.old }
{
    let bits = lower_word(row);
    mark(
        words,
        usize::from(row.care / 16),
        usize::from(row.value / 16),
        bits,
    );
}

/// Turns over all bits of a table.
pub(crate) fn turn_over(words: &mut [u16])
    ensures { words.new ≡ map (λ word. 65535 - word) words.old }
{
    for word in words.iter_mut() {
        *word = u16::MAX - *word;
    }
}
