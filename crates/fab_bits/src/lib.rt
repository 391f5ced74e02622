//! Bits as lists, the numbers that they stand for, and how many bits tell things apart.
#![tactic(auto)]

ghost use Rattle.std.specs.Prelude.{◌≡◌, ◌≤◌, IfOk};
ghost use Rattle.fab_bits.specs.Bits.{digits};
ghost use Rattle.fab_bits.specs.Widths.{select_width, IsLeastWidth};

use std::alloc::{AllocError, Global};

/// How many bits select one of n things: none for one and for none, else the least number of bits that has as many values.
pub fn select_width(n: u32) -> u32
    ensures value { result ≡ select_width n }
    ensures least { IsLeastWidth n result }
    ensures small { result ≤ 32 }
{
    let mut width = 0;
    let mut values: u64 = 1;
    while values < u64::from(n) {
        width += 1;
        values *= 2;
    }
    width
}

/// The bits of a number at a width, the least significant first. Higher bits of the number are left out.
pub fn digits(alloc: Global, width: u32, number: u32) -> Result<Vec<bool>, AllocError>
    ensures { IfOk result (λ bits. bits.items ≡ digits width number) }
{
    let mut bits = Vec::new(alloc);
    let mut rest = number;
    for _place in 0..width {
        bits.push(rest % 2 == 1)?;
        rest /= 2;
    }
    Ok(bits)
}
