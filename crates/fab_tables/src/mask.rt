//! The masks of a configuration table: which bits of a frame are used.

ghost use Rattle.std.specs.Prelude.{◌≡◌, IfOk, length, true};
ghost use Rattle.std.specs.List.{list_all};
ghost use Rattle.fab_tables.specs.Config.{is_binary_digit, is_mask, mask_digits, used_bits};

use std::alloc::{AllocError, Global};

/// How many bits a frame has.
const FRAME_BITS: u8 = 32;

fn digit_count(mask: &[u8]) -> usize
    ensures { result ≡ length (mask_digits mask.now) }
{
    mask.iter().filter(|byte| **byte != b'_').count()
}

fn has_only_digits(mask: &[u8]) -> bool
    ensures { result ≡ list_all is_binary_digit (mask_digits mask.now) }
{
    mask.iter()
        .filter(|byte| **byte != b'_')
        .all(|byte| *byte == b'0' || *byte == b'1')
}

/// Whether the cell is 32 binary digits, among which `_` may stand.
pub fn is_mask(mask: &[u8]) -> bool
    ensures { result ≡ is_mask mask.now }
{
    digit_count(mask) == usize::from(FRAME_BITS) && has_only_digits(mask)
}

/// The bits whose digits are `1`, from the left. The leftmost digit is that of bit 31.
pub fn used_bits(alloc: Global, mask: &[u8]) -> Result<Vec<u8>, AllocError>
    requires { is_mask mask.now ≡ true }
    ensures { IfOk result (λ bits. bits.items ≡ used_bits mask.now) }
{
    let mut bits = Vec::new(alloc);
    let mut behind = FRAME_BITS;
    for digit in mask {
        if *digit != b'_' {
            behind -= 1;
            if *digit == b'1' {
                bits.push(behind)?;
            }
        }
    }
    Ok(bits)
}
