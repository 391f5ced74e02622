//! The whole text of a fabric: its top module, and all modules in their order.
#![tactic(auto)]

mod joins;
mod mode;
mod names;
mod places;
mod ports;
mod text;
mod top;
mod wires;

pub use mode::text_mode;
pub use text::generate;
pub use top::top_module;
