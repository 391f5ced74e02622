//! The files of a tile: switch lists, matrix tables and configuration tables.
#![tactic(auto)]

mod cell;
mod config;
mod default_places;
mod entry;
mod expansion;
mod known;
mod list_cells;
mod list_row;
mod lists;
mod mask;
mod matrix;
mod matrix_names;
mod ranges;

pub use config::read_config_table;
pub use default_places::{MAX_BITS, default_table};
pub use known::{KnownNames, NothingKnown};
pub use list_row::{ListBody, ListRow};
pub use lists::{read_list, read_list_row};
pub use matrix::read_matrix_csv;
pub use matrix_names::MatrixNames;
