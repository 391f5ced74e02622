//! What a row of a fabric file or of a tile file says: the grid, parameters, and the blocks of tiles with their wires, BELs and
//! matrix files. Each row is judged by those before it. Which files are opened, and what matrix files and tables say, is left to
//! the crate that reads whole fabrics.
#![tactic(auto)]

mod bel;
mod block;
mod block_rows;
mod cells;
mod grid;
mod holder;
mod inner;
mod reading;
mod standing;
mod wire;
mod words;

pub use block::Block;
pub use grid::GridLine;
pub use holder::Holder;
pub use reading::Reading;
pub use standing::Said;
