//! Where files come from and go to, and where reports go.
#![tactic(auto)]

mod fault;
mod file_desk;
mod memory_desk;
mod memory_sink;
mod out_sink;
mod outside;
mod replacing;
mod write;

pub use file_desk::FileDesk;
pub use memory_desk::MemDesk;
pub use memory_sink::MemSink;
pub use out_sink::OutSink;
pub use outside::{Desk, DeskFault, Sink, SinkFault};
