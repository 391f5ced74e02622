//! What the programs of the gate have in common: why they end early, the files beside them, and the reports of what is refused.
#![tactic(auto)]

mod files;
mod reports;
mod stop;

pub use files::fetch;
pub use reports::{report_of, shown_or_report};
pub use stop::Stop;
