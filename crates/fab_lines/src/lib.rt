//! Texts of lines: how a text is cut into lines and a line into cells, what a name is, and how a reader takes a text line
//! by line so that its first refusal is that of the least line.
#![tactic(auto)]

mod cut;
mod items;
mod joined;
mod names;
mod numbers;
mod order;
mod parts;

pub use cut::{first_line, last_line};
pub use items::word_at;
pub use joined::read_joined_lines;
pub use names::{is_identifier, is_name, is_reserved, is_wire_name};
pub use numbers::{capped_number, has_only_digits, is_digit, is_number};
pub use order::{LineReader, read_lines};
pub use parts::{all_cells, is_blank, place_or_end, trimmed, uncommented, without_empty};
