//! The equations of a Verilog text by numbers: its points, and what drives each of them.
#![tactic(auto)]

mod before;
mod counts;
mod declaring;
mod driver;
mod driving;
mod equations;
mod instances;
mod joining;
pub mod laws;
mod lookups;
mod placed;
mod tables;

pub use driver::{Cursor, Declared, Driver, Source};
pub use equations::{Equations, MOST_POINTS, elaborate};
pub use instances::module_children;
pub use tables::{ChildTable, LocalDriver, Table, Tables, tables_of};
