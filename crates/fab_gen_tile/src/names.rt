//! The names that the generator makes.

ghost use Rattle.std.specs.Prelude.{◌≡◌, ◌+◌, ◌++◌, ◌∷◌, IfOk, codes};
ghost use Rattle.fab_syntax.specs.Plain.{plain_expr, variable, part};
ghost use Rattle.fab_gen_tile.specs.Names.{latch_name, letter, bel_instance_name, pad_name};

use fab_base::{Memory, Name};
use fab_syntax::Expr;
use itoa::Buffer;
use std::alloc::Global;

/// A sum of numbers of bits; want of memory where it does not fit.
pub fn sum(a: u32, b: u32) -> Result<u32, Memory>
    ensures { IfOk result (λ both. both ≡ a + b) }
{
    a.checked_add(b).ok_or(Memory)
}

/// A name behind a prefix.
pub fn prefixed(alloc: Global, prefix: &[u8], name: &Name) -> Result<Name, Memory>
    ensures { IfOk result (λ whole. whole ≡ prefix.now ++ name.now) }
{
    let mut bytes = Vec::from_slice(alloc, prefix)?;
    bytes.extend_from_slice(name.bytes())?;
    Ok(Name::from(bytes))
}

/// The name of the latch of a configuration bit, or of its flip-flop in a chain.
pub fn latch_name(alloc: Global, bit: u32) -> Result<Name, Memory>
    ensures { IfOk result (λ name. name ≡ latch_name bit) }
{
    let mut bytes = Vec::from_slice(alloc, b"q")?;
    bytes.extend_from_slice(Buffer::new().format(bit).as_bytes())?;
    Ok(Name::from(bytes))
}

/// All bits of a name.
pub fn variable(alloc: Global, name: &[u8]) -> Result<Expr, Memory>
    ensures { IfOk result (λ e. plain_expr e ≡ variable name.now) }
{
    Ok(Expr::Var(Name::of(alloc, name)?))
}

/// The bits of a name from the second number up to the first.
pub fn part(alloc: Global, name: &[u8], high: u32, low: u32) -> Result<Expr, Memory>
    ensures { IfOk result (λ e. plain_expr e ≡ part name.now high low) }
{
    Ok(Expr::Part(Name::of(alloc, name)?, high, low))
}

/// The letter of a BEL; want of memory where there are too many.
pub fn letter(place: usize) -> Result<u8, Memory>
    ensures { IfOk result (λ byte. byte ≡ letter place) }
{
    if place < 190 {
        Ok(b'A' + place as u8)
    } else {
        Err(Memory)
    }
}

/// The name of the instance of a BEL.
pub fn bel_instance_name(alloc: Global, place: usize) -> Result<Name, Memory>
    ensures { IfOk result (λ name. name ≡ bel_instance_name place) }
{
    let mut bytes = Vec::from_slice(alloc, b"fab_bel_")?;
    bytes.push(letter(place)?)?;
    Ok(Name::from(bytes))
}

/// The port of a tile for a port of a pad to the outside.
pub fn pad_name(alloc: Global, place: usize, port: &[u8]) -> Result<Name, Memory>
    ensures { IfOk result (λ name. name ≡ pad_name place port.now) }
{
    let mut bytes = Vec::from_slice(alloc, b"fab_p_")?;
    bytes.push(letter(place)?)?;
    bytes.extend_from_slice(b"_")?;
    bytes.extend_from_slice(port)?;
    Ok(Name::from(bytes))
}
