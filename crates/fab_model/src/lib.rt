//! The fabric as tables give it: tile types with their wires, BELs and switch matrices, the grid of tiles, and what drives
//! each wire under a configuration.
#![tactic(auto)]

mod fields;
mod laws;
mod mode;
mod numbering;
mod tiles;

pub use fab_kinds;
pub use fab_select::Pair;
pub use fields::outputs_in_order;
pub use laws::{
    constants_have_their_values, copied_wires_exist, drives_follow_joins, joins_are_found,
    joins_are_found_from_their_ends, joins_are_one_to_one, joins_have_both_ends,
    matrix_outputs_copy_their_inputs, matrix_outputs_copy_what_is_selected, no_wire_copies_itself,
    output_pins_are_of_their_bels, walks_turn_round, wires_have_numbers,
};
pub use mode::Mode;
pub use tiles::{Bel, Dir, FrameTable, TileType, WireRow};
