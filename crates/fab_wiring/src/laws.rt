//! Laws of solutions by number. Each function does nothing: its contract is the law, for the proofs of crates above.

ghost use Rattle.fab_wiring.specs.Laws.{GivenByNumber, LeastByNumber, LeftByNumber, NextByNumber, NumbersHaveTerns, PointsHaveTerns, SolutionsByNumber};

use fab_meaning::laws::points_of_sound_texts_have_one_driver;

/// Each assignment to the points of a sound text is one to their numbers, and the other way round.
pub fn numbered_exists()
    ensures numbers { NumbersHaveTerns }
    ensures points { PointsHaveTerns }
{}

/// What solves a text solves its drives by number and the other way round, and the least solution is the least one by number.
pub fn numbered_solutions()
    ensures solve { SolutionsByNumber }
    ensures least { LeastByNumber }
{
    points_of_sound_texts_have_one_driver();
}

/// What a tick of one of the two clocks leaves with a flip-flop and a latch is told by its drive.
pub fn numbered_kept()
    ensures { LeftByNumber }
{}

/// What is given to inputs, flip-flops and latches by number, at first and behind each tick.
pub fn numbered_given()
    ensures first { GivenByNumber }
    ensures next { NextByNumber }
{}
