//! Texts of lines of words: which words a line holds, readers that take the lines in turn, which lines may follow which in a text
//! with sections, how sites are written, and how lines are printed.
#![tactic(auto)]

mod order;
mod places;
mod printing;
mod rows;
mod sections;
mod words_seen;

pub use order::{WordReader, read_words};
pub use places::{PlaceAt, after_byte, letter_of, place_at, site_of};
pub use printing::put_row;
pub use rows::{entry_line, words_of};
pub use sections::{Part, check_end, check_place, check_version, is_ending};
pub use words_seen::WordSet;
