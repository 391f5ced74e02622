//! Two tile types and a small fabric of them, for the programs that show what fab does with small designs.
#![tactic(auto)]

mod fabric;
mod tiles;

pub use fabric::small_fabric;
pub use tiles::{lut_table, lut_with, pad_table, pads_with};
