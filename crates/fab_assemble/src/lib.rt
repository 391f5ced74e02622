//! From an implementation of a design to all that a device is given: features, configuration bits, the words of the bitstream and the state
//! file's content.
#![tactic(auto)]

mod assembly;
mod laws;
mod state;

pub use assembly::{Assembled, assemble};
pub use fab_features::{bits_of_features, features_of_bits};
pub use laws::bit_maps_release_pads;
