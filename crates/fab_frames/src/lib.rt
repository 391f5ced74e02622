//! The bitstream of a fabric: its configuration bits as words, and back; the words as bytes, and back.
#![tactic(auto)]

mod bytes;
mod laws;
mod placing;
mod plan;
mod positions;
mod read;
mod write;

pub use bytes::{to_bytes, to_words};
pub use laws::{streams_are_not_refused, streams_tell_bits};
pub use plan::stream_mode;
pub use positions::BitPlace;
pub use read::bits_of;
pub use write::frames;
