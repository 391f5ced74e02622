//! The features and the configuration bits of a legal implementation, the bits that features set, and the features
//! that bits spell.
#![tactic(auto)]

mod choices;
mod design;
mod features;
mod laws;
mod lines;
mod matrices;
mod ones;
mod reading;
mod said;
mod spelled;

pub use design::design_bits;
pub use features::features_of;
pub use laws::{names_are_read, wrong_features_are_not_right};
pub use reading::bits_of_features;
pub use spelled::features_of_bits;
