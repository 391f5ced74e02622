//! Tables: the rows of cells of a text, each with the number of its line, and readers that take them in turn.
#![tactic(auto)]

mod cells;
mod order;
mod row;

pub use order::{RowReader, read_rows};
pub use row::{Row, next_row, rows};
