//! A serial port in front of the top of a fabric: the words of a bitstream come in bit by bit.
#![tactic(auto)]

mod module;
mod text;
mod top;

pub use module::serial_module;
pub use text::serial_text;
