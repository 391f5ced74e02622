//! Orders that words shuffle.

ghost use Rattle.std.specs.Prelude.{◌≡◌, ◌-◌, length};
ghost use Rattle.std.specs.List.Sorted.{IsPermutation};
ghost use Rattle.fab_draws.specs.Draws.{after, word_at};
ghost use Rattle.fab_draws.specs.Shuffled.{shuffled};

use crate::draws::draw_below;
use rand_pcg::Lcg64Xsh32;

/// Shuffles an order: from the last place down to 1, each changes with itself or one before it, which a word tells.
pub fn shuffle_order(random: &mut Lcg64Xsh32, order: &mut [u32])
    ensures order { order.new ≡ shuffled (length order.old) (word_at random.old) order.old }
    ensures same { IsPermutation order.old order.new }
    ensures rest { random.new ≡ after (length order.old - 1) random.old }
{
    for last in (1..order.len()).rev() {
        let other = draw_below(random, last + 1);
        order.swap(last, other);
    }
}
