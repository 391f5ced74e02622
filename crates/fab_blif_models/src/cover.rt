//! The rows of a cover.

ghost use Rattle.std.specs.Prelude.{◌≡◌, ◌≤◌, length, map};
ghost use Rattle.std.specs.List.{list_all};
ghost use Rattle.fab_bits.specs.Bits.{bit_number};
ghost use Rattle.fab_blif_models.specs.Covers.{cube_of, is_asked, is_on, is_on_set, is_one, output_of, pattern_of};
ghost use Rattle.fab_blif_models.specs.inner.Following.{row_of};
ghost use Rattle.fab_blif_models.specs.Judge.{has_output, is_fine_row, is_sign, same_output};

use fab_lines::word_at;
use fab_netlist::Cube;

/// The pattern of a row: its first word, where the row has two.
pub fn pattern_of<'a>(row: &[&'a [u8]]) -> &'a [u8]
    ensures { result.now ≡ pattern_of (map (λ w. w.now) row.now) }
{
    if row.len() == 2 { word_at(row, 0) } else { b"" }
}

/// The last word of a row.
fn output_of<'a>(row: &[&'a [u8]]) -> &'a [u8]
    ensures { result.now ≡ output_of (map (λ w. w.now) row.now) }
{
    word_at(row, row.len().saturating_sub(1))
}

/// Whether a row is of an on-set.
pub fn is_on(row: &[&[u8]]) -> bool
    ensures { result ≡ is_on (map (λ w. w.now) row.now) }
{
    output_of(row) == b"1".as_slice()
}

fn is_asked(sign: u8) -> bool
    ensures { result ≡ is_asked sign }
{
    sign != b'-'
}

fn is_one(sign: u8) -> bool
    ensures { result ≡ is_one sign }
{
    sign == b'1'
}

fn bit_number(bit: bool) -> u16
    ensures value { result ≡ bit_number bit }
    ensures small { result ≤ 1 }
{
    if bit { 1 } else { 0 }
}

/// The inputs that a pattern looks at, and those that it wants to be 1.
fn cube_of(pattern: &[u8]) -> Cube
    requires { length pattern.now ≤ 16 }
    ensures { result ≡ cube_of pattern.now }
{
    let mut care: u16 = 0;
    let mut value: u16 = 0;
    let mut place = pattern.len();
    while 0 < place {
        place -= 1;
        let sign = pattern[place];
        care = 2 * care + bit_number(is_asked(sign));
        value = 2 * value + bit_number(is_one(sign));
    }
    Cube { care, value }
}

/// The row of a pattern. A pattern that fits its cover has no more signs than a cover may have inputs.
pub fn row_of(most: usize, pattern: &[u8]) -> Cube
    requires { most ≤ 16 }
    ensures { result ≡ row_of most pattern.now }
{
    let (signs, _) = pattern.split_at(most.min(pattern.len()));
    cube_of(signs)
}

/// Whether a cover of such rows is an on-set. One without a row is.
pub fn is_on_set(on: Option<bool>) -> bool
    ensures { result ≡ is_on_set on }
{
    on.unwrap_or(true)
}

fn is_sign(sign: u8) -> bool
    ensures { result ≡ is_sign sign }
{
    sign == b'0' || sign == b'1' || sign == b'-'
}

fn has_signs(pattern: &[u8]) -> bool
    ensures { result ≡ list_all is_sign pattern.now }
{
    pattern.iter().all(|sign| is_sign(*sign))
}

fn has_output(row: &[&[u8]]) -> bool
    ensures { result ≡ has_output (map (λ w. w.now) row.now) }
{
    output_of(row) == b"0".as_slice() || is_on(row)
}

fn same_output(so_far: Option<bool>, on: bool) -> bool
    ensures { result ≡ same_output so_far on }
{
    match so_far {
        None => true,
        Some(before) => before == on,
    }
}

/// Whether a row is one for so many inputs, with an output that agrees with the rows before it.
pub fn is_fine_row(width: usize, so_far: Option<bool>, row: &[&[u8]]) -> bool
    ensures { result ≡ is_fine_row width so_far (map (λ w. w.now) row.now) }
{
    let pattern = pattern_of(row);
    pattern.len() == width
        && has_signs(pattern)
        && has_output(row)
        && same_output(so_far, is_on(row))
}
