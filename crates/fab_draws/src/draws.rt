//! Numbers that are drawn from a generator.

ghost use Rattle.std.specs.Prelude.{◌≡◌, ◌<◌, ◌%◌};
ghost use Rattle.fab_draws.specs.Draws.{after, is_one, word_at};

use rand_core::utils::NextWord;
use rand_pcg::Lcg64Xsh32;

/// Draws a word, and gives it modulo a bound.
#[tactic(auto, using(crate::proofs::Drawing::drawn))]
pub fn draw_below(random: &mut Lcg64Xsh32, bound: usize) -> usize
    requires { 0 < bound }
    ensures word { result ≡ word_at random.old 0 % bound }
    ensures rest { random.new ≡ after 1 random.old }
{
    random.next_word() as usize % bound
}

/// Draws a word, and tells whether it means 1.
pub fn draw_bit(random: &mut Lcg64Xsh32) -> bool
    ensures word { result ≡ is_one (word_at random.old 0) }
    ensures rest { random.new ≡ after 1 random.old }
{
    draw_below(random, 2) == 1
}
