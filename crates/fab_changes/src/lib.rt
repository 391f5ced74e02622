//! Changes of points that stand for themselves: after some of them have changed, only what reads them is looked at again.
#![tactic(auto)]

mod changes;
mod fanout;
mod flags;
mod groups;
mod looking;
mod places;

pub use changes::Changes;
pub use fanout::Fanout;
pub use flags::Flags;
pub use groups::Group;
pub use places::Places;
