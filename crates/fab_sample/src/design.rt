//! The design of a sample, as it is drawn.

ghost use Rattle.std.specs.Prelude.{◌≡◌, ◌<◌, ◌≤◌, ◌*◌, ◌%◌, IfOk, OnOk};
ghost use Rattle.fab_draws.specs.Draws.{after, behind, word_at};
ghost use Rattle.fab_sample.specs.Drawn.{cover_of, covers, latch_of, latches, net_at};

use crate::net::{Net, net_at};
use fab_base::Memory;
use fab_draws::{draw_below, draw_bit};
use rand_pcg::Lcg64Xsh32;
use std::alloc::Global;

/// A cover of three inputs. Bit b of its table is its value where they spell b, the first as the least significant.
#[derive(Clone, Copy)]
pub struct Cover {
    pub first: Net,
    pub second: Net,
    pub third: Net,
    pub table: u8,
}

/// A latch: the number of the cover that it reads, and whether it begins with 1.
#[derive(Clone, Copy)]
pub struct Latch {
    pub cover: usize,
    pub initial: bool,
}

/// Draws a net of those that stand before a cover.
fn draw_net(random: &mut Lcg64Xsh32, size: usize, known: usize) -> Net
    requires size { size ≤ 16 }
    requires some { 0 < known }
    ensures net { result ≡ net_at size (word_at random.old 0 % known) }
    ensures rest { random.new ≡ after 1 random.old }
{
    net_at(size, draw_below(random, known))
}

/// How many covers a design has.
pub fn cover_count(size: usize) -> usize
    requires { size ≤ 16 }
    ensures value { result ≡ size * size }
    ensures most { result ≤ 256 }
    ensures least { size ≤ result }
{
    size * size
}

/// Draws a cover, before which so many nets stand.
fn draw_cover(random: &mut Lcg64Xsh32, size: usize, known: usize) -> Cover
    requires size { size ≤ 16 }
    requires some { 0 < known }
    ensures cover { result ≡ cover_of size known (word_at random.old 0) (word_at random.old 1) (word_at random.old 2) (word_at random.old 3) }
    ensures rest { random.new ≡ after 4 random.old }
{
    let first = draw_net(random, size, known);
    let second = draw_net(random, size, known);
    let third = draw_net(random, size, known);
    let table = draw_below(random, 256) as u8;
    Cover {
        first,
        second,
        third,
        table,
    }
}

/// Draws all covers.
pub fn draw_covers(
    random: &mut Lcg64Xsh32,
    alloc: Global,
    size: usize,
) -> Result<Vec<Cover>, Memory>
    requires some { 0 < size }
    requires few { size ≤ 16 }
    ensures covers { IfOk result (λ all. all.items ≡ covers size (word_at random.old)) }
    ensures rest { OnOk result (random.new ≡ after (4 * (size * size)) random.old) }
{
    let mut covers = Vec::new(alloc);
    for number in 0..cover_count(size) {
        covers.push(draw_cover(random, size, 2 * size + number))?;
    }
    Ok(covers)
}

/// Draws a latch.
fn draw_latch(random: &mut Lcg64Xsh32, size: usize) -> Latch
    requires some { 0 < size }
    requires few { size ≤ 16 }
    ensures latch { result ≡ latch_of size (word_at random.old 0) (word_at random.old 1) }
    ensures rest { random.new ≡ after 2 random.old }
{
    let cover = draw_below(random, cover_count(size));
    let initial = draw_bit(random);
    Latch { cover, initial }
}

/// Draws all latches.
pub fn draw_latches(
    random: &mut Lcg64Xsh32,
    alloc: Global,
    size: usize,
) -> Result<Vec<Latch>, Memory>
    requires some { 0 < size }
    requires few { size ≤ 16 }
    ensures latches { IfOk result (λ all. all.items ≡ latches size (word_at random.old)) }
    ensures rest { OnOk result (random.new ≡ after (2 * size) random.old) }
{
    let mut latches = Vec::new(alloc);
    for _number in 0..size {
        latches.push(draw_latch(random, size))?;
    }
    Ok(latches)
}
