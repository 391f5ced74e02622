//! The modules of a tile: its configuration bits, its switch matrix and the tile itself.
#![tactic(auto)]

mod borders;
mod config;
mod joins;
mod matrix;
mod names;
mod tile;

pub use borders::{begin_name, end_name, push_border_name, scalar, side_border};
pub use config::{chain_config_module, config_module, config_of, push_vector};
pub use joins::{port_join, same_join};
pub use matrix::tile_matrix_module;
pub use names::{letter, pad_name, part, prefixed};
pub use tile::{chain_tile_module, tile_module, tile_of};
