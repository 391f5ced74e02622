//! The work of commands: what they read, make and store, and why they end otherwise.
#![tactic(auto)]

mod assembling;
mod bit_features;
mod bits;
mod flowing;
mod generating;
mod mapping;
mod matrix;
mod modes;
mod partial;
mod printing;
mod resetting;
mod serial;
mod timing;

pub use assembling::do_assemble;
pub use bit_features::do_features;
pub use bits::do_bits;
pub use flowing::do_flow;
pub use generating::do_generate;
pub use mapping::do_map;
pub use matrix::do_matrix;
pub use partial::do_partial;
pub use serial::do_serial;
pub use timing::do_timing;
