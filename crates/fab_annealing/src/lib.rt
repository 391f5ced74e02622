//! Boards: items on sites, the widths of the nets between them, and placements that no exchange betters.
#![tactic(auto)]

mod annealing;
mod axis;
mod board;
mod descent;
mod lots;
mod nets;
mod placement;
mod placing;
mod telling;
mod ties;

pub use board::Board;
pub use nets::Nets;
pub use placing::settled;
