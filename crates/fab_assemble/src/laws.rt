//! What follows for pads that no port uses.

ghost use Rattle.fab_assemble.specs.Releasing.{BitMapsReleasePads};

use fab_settling_laws::first_zero_releases;

/// The configuration bits of a legal implementation, as its features set them, release each pad that it leaves alone, where the tables list a constant 0
/// first for `T`.
pub fn bit_maps_release_pads()
    ensures { BitMapsReleasePads }
{
    first_zero_releases();
}
