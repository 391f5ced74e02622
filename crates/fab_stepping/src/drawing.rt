//! Values that are drawn.

ghost use Rattle.std.specs.Prelude.{◌≡◌, length};
ghost use Rattle.fab_draws.specs.Draws.{after, word_at};
ghost use Rattle.fab_stepping.specs.Drawing.{AreDrawn, marked_before};

use fab_draws::draw_bit;
use fab_ternary::Tern;
use rand_pcg::Lcg64Xsh32;

/// Gives each point that is marked so a value that is drawn, in the order of the points.
pub fn draw_values(random: &mut Lcg64Xsh32, marks: &[bool], mark: bool, terns: &mut [Tern])
    requires { length marks.now ≡ length terns.old }
    ensures values { AreDrawn (word_at random.old) marks.now mark terns.old terns.new }
    ensures rest { random.new ≡ after (marked_before mark marks.now (length marks.now)) random.old }
{
    for (point, other) in marks.iter().enumerate() {
        if *other != mark {
            continue;
        }
        terns[point] = Tern::known(draw_bit(random));
    }
}
