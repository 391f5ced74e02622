//! The mode of the text of a fabric.

ghost use Rattle.std.specs.Prelude.{◌≡◌};
ghost use Rattle.fab_text_loads_laws.specs.fab_fabric_text_defs_Mode.{text_mode};

use fab_fabric::Fabric;
use fab_model::Mode;

/// The mode in which the text of a fabric keeps the configuration bits.
pub fn text_mode(fabric: &Fabric) -> Mode
    ensures { result ≡ text_mode fabric.now }
{
    fabric.mode()
}
