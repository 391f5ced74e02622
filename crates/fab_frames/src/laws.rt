//! What follows from the definitions alone.

ghost use Rattle.std.specs.Prelude.{◌≡◌, ℕ, Bool, List, None};
ghost use Rattle.fab_model.specs.Grid.{PlainFabric};
ghost use Rattle.fab_model.specs.Drive.{PlainBits};
ghost use Rattle.fab_fabric.specs.Fabric.{IsFabric};
ghost use Rattle.fab_fabric.specs.Bits.{AreBitsOf, plain_bits};
ghost use Rattle.fab_frames.specs.Stream.{stream, problem_at};

/// Bits of a fabric that have the same stream are the same: each configuration bit has a place of its own in it.
pub fn streams_tell_bits()
    ensures { (fabric : PlainFabric) (first second : List (List (List Bool))) → IsFabric fabric → AreBitsOf fabric first → AreBitsOf fabric second →
        stream fabric (plain_bits first) ≡ stream fabric (plain_bits second) → first ≡ second }
{}

/// No word of a stream is refused, and none is missing or stands behind the last.
pub fn streams_are_not_refused()
    ensures { (fabric : PlainFabric) (bits : PlainBits) (place : ℕ) → problem_at fabric (stream fabric bits) place ≡ None }
{}
