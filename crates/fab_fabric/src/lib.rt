//! Fabrics: grids of tiles whose wires have numbers, the joins of these wires, and what drives each under configuration
//! bits.
#![tactic(auto)]

mod bits;
mod ends;
mod fabric;
mod index;
mod laws;
mod wire;

pub use bits::Bits;
pub use fab_model;
pub use fabric::{Fabric, RowAt, place_name};
pub use index::inputs_by_output;
pub use laws::{fabrics_have_each_mode, wires_are_numbered};
pub use wire::{Drive, Site, Wire};
